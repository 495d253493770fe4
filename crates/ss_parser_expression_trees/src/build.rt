// Trees from their parts.

ghost use Rattle.std.specs.Prelude.{◌≡◌, IfOk, map, string_bytes, Option, Some, None, option_map};
ghost use Rattle.ss_ast.specs.Expressions.{ExprTree, expr_tree, type_tree, name_tree, type_name_tree, arguments, grouped, BinaryOf, IsOf, AsOf, MemberOf, ElementOf, CallOf, NegateOf, NotOf, CastOf, ParenOf, OldOf, NewOf, NewArrayOf, QuantifiedOf, ImpliesOf, IffOf, NumberOf, TextOf, NameOf, TruthOf, NullOf, ThisOf, BaseOf, ResultOf};
ghost use Rattle.ss_grammar_expressions.specs.Grammar.{AType, type_of, head_of};
ghost use Rattle.ss_ast.specs.Parts.{link_after as link_tree, postfix_after as postfix_tree};
ghost use Rattle.ss_parser_expression_trees.specs.View.{inside_of};

use ss_ast::{Expr, Link, Name, Operator, Postfix, Quantifier, TypeName, TypeRef};
use ss_core::Place;
use std::alloc::{AllocError, Global};

/// What stands between two parentheses.
#[derive(Drop)]
pub enum Inside {
    Type(TypeRef),
    Expr(Box<Expr>),
}

/// The expression in a box.
pub fn boxed(alloc: Global, expr: Expr) -> Result<Box<Expr>, AllocError>
    ensures { IfOk result (λ e. e.value ≡ expr) }
{
    Ok(Box::new(alloc, expr)?)
}

/// `op operand`
pub fn operation(operator: Operator, operand: Box<Expr>) -> Link
    ensures { link_tree result ≡ (λ p a. BinaryOf p operator a (expr_tree operand.value)) }
{
    operation_of(operator, Box::into_inner(operand))
}

// `op operand`, from an expression out of its box.
fn operation_of(operator: Operator, operand: Expr) -> Link
    ensures { link_tree result ≡ (λ p a. BinaryOf p operator a (expr_tree operand)) }
{
    Link::Operation(operator, operand)
}

/// `is T`
pub fn is_link(ty: TypeRef) -> Link
    ensures { link_tree result ≡ (λ p a. IsOf p a (type_tree ty)) }
{
    Link::Is(ty)
}

/// `as T`
pub fn as_link(ty: TypeRef) -> Link
    ensures { link_tree result ≡ (λ p a. AsOf p a (type_tree ty)) }
{
    Link::As(ty)
}

/// `.f`
pub fn member(name: Name) -> Postfix
    ensures { postfix_tree result ≡ (λ p a. MemberOf p a (name_tree name)) }
{
    Postfix::Member(name)
}

/// `[e]`
pub fn element(index: Box<Expr>) -> Postfix
    ensures { postfix_tree result ≡ (λ p a. ElementOf p a (expr_tree index.value)) }
{
    index_postfix(Box::into_inner(index))
}

// `[e]`, from an expression out of its box.
fn index_postfix(index: Expr) -> Postfix
    ensures { postfix_tree result ≡ (λ p a. ElementOf p a (expr_tree index)) }
{
    Postfix::Element(index)
}

/// `(a, b)`
pub fn call(given: Vec<Expr>) -> Postfix
    ensures { postfix_tree result ≡ (λ p a. CallOf p a (arguments (map expr_tree given.items))) }
{
    Postfix::Call(given)
}

/// `-e`
pub fn negated(alloc: Global, place: Place, operand: Box<Expr>) -> Result<Box<Expr>, AllocError>
    ensures { IfOk result (λ e. expr_tree e.value ≡ NegateOf place (expr_tree operand.value)) }
{
    boxed(alloc, Expr::Negate(place, operand))
}

/// `!e`
pub fn denied(alloc: Global, place: Place, operand: Box<Expr>) -> Result<Box<Expr>, AllocError>
    ensures { IfOk result (λ e. expr_tree e.value ≡ NotOf place (expr_tree operand.value)) }
{
    boxed(alloc, Expr::Not(place, operand))
}

/// `(T)e`
pub fn cast(
    alloc: Global,
    place: Place,
    ty: TypeRef,
    operand: Box<Expr>,
) -> Result<Box<Expr>, AllocError>
    ensures { IfOk result (λ e. expr_tree e.value ≡ CastOf place (type_tree ty) (expr_tree operand.value)) }
{
    boxed(alloc, Expr::Cast(place, ty, operand))
}

/// `(e)`
pub fn in_parentheses(
    alloc: Global,
    place: Place,
    inner: Box<Expr>,
) -> Result<Box<Expr>, AllocError>
    ensures { IfOk result (λ e. expr_tree e.value ≡ ParenOf place (expr_tree inner.value)) }
{
    boxed(alloc, Expr::Paren(place, inner))
}

/// `old(e)`
pub fn old(alloc: Global, place: Place, inner: Box<Expr>) -> Result<Box<Expr>, AllocError>
    ensures { IfOk result (λ e. expr_tree e.value ≡ OldOf place (expr_tree inner.value)) }
{
    boxed(alloc, Expr::Old(place, inner))
}

/// `new C(a, b)`
pub fn new_object(
    alloc: Global,
    place: Place,
    name: Name,
    given: Vec<Expr>,
) -> Result<Box<Expr>, AllocError>
    ensures { IfOk result (λ e. expr_tree e.value ≡ NewOf place (name_tree name) (arguments (map expr_tree given.items))) }
{
    boxed(alloc, Expr::New(place, name, given))
}

/// `new E[n]`
pub fn new_array(
    alloc: Global,
    place: Place,
    at: Place,
    name: TypeName,
    length: Box<Expr>,
) -> Result<Box<Expr>, AllocError>
    ensures { IfOk result (λ e. expr_tree e.value ≡ NewArrayOf place at (type_name_tree name) (expr_tree length.value)) }
{
    boxed(alloc, Expr::NewArray(place, at, name, length))
}

/// `forall{int i in (low: high); body}`
pub fn quantified(
    alloc: Global,
    place: Place,
    quantifier: Quantifier,
    name: Name,
    bounds: (Box<Expr>, Box<Expr>),
    body: Box<Expr>,
) -> Result<Box<Expr>, AllocError>
    ensures { IfOk result (λ e. expr_tree e.value ≡ QuantifiedOf place quantifier (name_tree name) (expr_tree bounds.0.value) (expr_tree bounds.1.value) (expr_tree body.value)) }
{
    let (low, high) = bounds;
    boxed(
        alloc,
        Expr::Quantified(place, quantifier, name, low, high, body),
    )
}

/// `a ==> b`
pub fn implies(
    alloc: Global,
    place: Place,
    left: Box<Expr>,
    right: Box<Expr>,
) -> Result<Box<Expr>, AllocError>
    ensures { IfOk result (λ e. expr_tree e.value ≡ ImpliesOf place (expr_tree left.value) (expr_tree right.value)) }
{
    boxed(alloc, Expr::Implies(place, left, right))
}

/// `a <==> b`
pub fn iff(
    alloc: Global,
    place: Place,
    left: Box<Expr>,
    right: Box<Expr>,
) -> Result<Box<Expr>, AllocError>
    ensures { IfOk result (λ e. expr_tree e.value ≡ IffOf place (expr_tree left.value) (expr_tree right.value)) }
{
    boxed(alloc, Expr::Iff(place, left, right))
}

/// A chain of operations, which is its first operand where there are no others.
pub fn chain(
    alloc: Global,
    place: Place,
    first: Box<Expr>,
    links: Vec<Link>,
) -> Result<Box<Expr>, AllocError>
    ensures { IfOk result (λ e. expr_tree e.value ≡ grouped place (expr_tree first.value) (map link_tree links.items)) }
{
    if links.is_empty() {
        return Ok(first);
    }
    boxed(alloc, Expr::Chain(place, first, links))
}

/// A path, which is its beginning where nothing stands after it.
pub fn path(
    alloc: Global,
    place: Place,
    first: Box<Expr>,
    postfixes: Vec<Postfix>,
) -> Result<Box<Expr>, AllocError>
    ensures { IfOk result (λ e. expr_tree e.value ≡ grouped place (expr_tree first.value) (map postfix_tree postfixes.items)) }
{
    if postfixes.is_empty() {
        return Ok(first);
    }
    boxed(alloc, Expr::Path(place, first, postfixes))
}

/// A number.
pub fn number(place: Place, value: i64) -> Expr
    ensures { expr_tree result ≡ NumberOf place value }
{
    Expr::Number(place, value)
}

/// A string.
pub fn text(alloc: Global, place: Place, value: &Vec<u8>) -> Result<Expr, AllocError>
    ensures { IfOk result (λ e. expr_tree e ≡ TextOf place value.now.items) }
{
    Ok(Expr::Text(place, copied(alloc, value.as_slice())?))
}

// The same bytes.
fn copied(alloc: Global, bytes: &[u8]) -> Result<Vec<u8>, AllocError>
    ensures { IfOk result (λ v. v.items ≡ bytes.now) }
{
    let mut copy = Vec::new(alloc);
    for byte in bytes {
        copy.push(*byte)?;
    }
    Ok(copy)
}

/// A name, copied.
pub fn named(place: Place, name: &String) -> Result<Expr, AllocError>
    ensures { IfOk result (λ e. expr_tree e ≡ NameOf place (string_bytes name.now)) }
{
    Ok(Expr::Name(place, name.clone()?))
}

/// A name.
pub fn name_expr(alloc: Global, name: Name) -> Result<Box<Expr>, AllocError>
    ensures { IfOk result (λ e. expr_tree e.value ≡ NameOf name.place (string_bytes name.text)) }
{
    boxed(alloc, Expr::Name(name.place, name.text))
}

/// `true` or `false`.
pub fn truth(place: Place, value: bool) -> Expr
    ensures { expr_tree result ≡ TruthOf place value }
{
    Expr::Truth(place, value)
}

/// `null`
pub fn null(place: Place) -> Expr
    ensures { expr_tree result ≡ NullOf place }
{
    Expr::Null(place)
}

/// `this`
pub fn this(place: Place) -> Expr
    ensures { expr_tree result ≡ ThisOf place }
{
    Expr::This(place)
}

/// `base`
pub fn base(place: Place) -> Expr
    ensures { expr_tree result ≡ BaseOf place }
{
    Expr::Base(place)
}

/// `result`
pub fn result(place: Place) -> Expr
    ensures { expr_tree result ≡ ResultOf place }
{
    Expr::Result(place)
}

/// The type of this name.
pub fn class_type(name: Name, is_array: bool, non_null: bool) -> Inside
    ensures { inside_of result ≡ AType (type_of (head_of (name_tree name)) is_array non_null) }
{
    Inside::Type(TypeRef {
        place: name.place,
        name: TypeName::Class(name.text),
        is_array,
        non_null,
    })
}

/// `a[i]`
pub fn element_of(alloc: Global, name: Name, index: Box<Expr>) -> Result<Box<Expr>, AllocError>
    ensures { IfOk result (λ e. expr_tree e.value ≡ ElementOf name.place (NameOf name.place (string_bytes name.text)) (expr_tree index.value)) }
{
    let place = name.place;
    let mut postfixes = Vec::new(alloc);
    postfixes.push(element(index))?;
    let first = name_expr(alloc, name)?;
    path(alloc, place, first, postfixes)
}
