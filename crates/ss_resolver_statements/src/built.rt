// Statements by their parts. Trees are made in boxes: only a box is held where memory may run out.

ghost use Rattle.std.specs.Prelude.{◌≡◌, ◌++◌, ◌∷◌, [], IfOk, OnOk, map, option_map};
ghost use Rattle.ss_typed.specs.Tree.{InBlock, DeclareOf, SimpleOf, IfOf, IfElseOf, WhileOf, ForOf, ReturnOf, AssertOf, AssumeOf, ExposeOf, EmptyOf, BlockOf, stmt_trees};
ghost use Rattle.ss_typed.specs.View as view;
ghost use Rattle.ss_resolver_statements.specs.Boxes.{value_of, init_of, step_of};

use ss_core::{ClassId, Place};
use ss_typed::{TypedBlock, TypedDeclarator, TypedExpr, TypedInit, TypedSimple, TypedStmt};
use std::alloc::{AllocError, Global};

/// What stands in the heading of a `for`.
#[derive(Drop)]
pub struct Heading {
    pub first: Option<Box<TypedInit>>,
    pub test: Option<Box<TypedExpr>>,
    pub step: Option<Box<TypedSimple>>,
}

/// The invariants and the body of a loop.
#[derive(Drop)]
pub struct Guarded {
    pub invariants: Vec<TypedExpr>,
    pub body: Box<TypedStmt>,
}

// The statement in a box.
fn boxed(alloc: Global, stmt: TypedStmt) -> Result<Box<TypedStmt>, AllocError>
    ensures { IfOk result (λ s. view.stmt_of s.value ≡ view.stmt_of stmt) }
{
    Ok(Box::new(alloc, stmt)?)
}

/// One more statement of a list.
pub(crate) fn add_stmt(list: &mut Vec<TypedStmt>, stmt: Box<TypedStmt>) -> Result<(), AllocError>
    ensures { OnOk result (map view.stmt_of list.new.items ≡ map view.stmt_of list.old.items ++ view.stmt_of stmt.value ∷ []) }
{
    list.push(Box::into_inner(stmt))?;
    Ok(())
}

/// An expression out of its box, where there is one.
pub fn value_in(value: Option<Box<TypedExpr>>) -> Option<TypedExpr>
    ensures { option_map view.expr result ≡ value_of value }
{
    match value {
        Some(value) => Some(Box::into_inner(value)),
        None => None,
    }
}

// The beginning of a `for` out of its box, where there is one.
fn init_in(init: Option<Box<TypedInit>>) -> Option<TypedInit>
    ensures { option_map view.init_of result ≡ init_of init }
{
    match init {
        Some(init) => Some(Box::into_inner(init)),
        None => None,
    }
}

// The step of a `for` out of its box, where there is one.
fn step_in(step: Option<Box<TypedSimple>>) -> Option<TypedSimple>
    ensures { option_map view.simple_of result ≡ step_of step }
{
    match step {
        Some(step) => Some(Box::into_inner(step)),
        None => None,
    }
}

/// `{ .. }`
pub(crate) fn block_of(place: Place, statements: Vec<TypedStmt>, end: Place) -> TypedBlock
    ensures { view.block result ≡ BlockOf place (stmt_trees (map view.stmt_of statements.items)) end }
{
    TypedBlock {
        place,
        statements,
        end,
    }
}

/// A block as a statement.
pub(crate) fn in_block(alloc: Global, block: TypedBlock) -> Result<Box<TypedStmt>, AllocError>
    ensures { IfOk result (λ s. view.stmt_of s.value ≡ InBlock (view.block block)) }
{
    Ok(boxed(alloc, TypedStmt::Block(block))?)
}

/// A declaration.
pub(crate) fn declare_of(
    alloc: Global,
    list: Vec<TypedDeclarator>,
) -> Result<Box<TypedStmt>, AllocError>
    ensures { IfOk result (λ s. view.stmt_of s.value ≡ DeclareOf (map view.declarator list.items)) }
{
    Ok(boxed(alloc, TypedStmt::Declare(list))?)
}

/// A simple statement.
pub(crate) fn simple_of(
    alloc: Global,
    simple: Box<TypedSimple>,
) -> Result<Box<TypedStmt>, AllocError>
    ensures { IfOk result (λ s. view.stmt_of s.value ≡ SimpleOf (view.simple_of simple.value)) }
{
    let simple = Box::into_inner(simple);
    Ok(boxed(alloc, TypedStmt::Simple(simple))?)
}

/// `if (e) a`
pub(crate) fn if_of(
    alloc: Global,
    place: Place,
    test: Box<TypedExpr>,
    body: Box<TypedStmt>,
) -> Result<Box<TypedStmt>, AllocError>
    ensures { IfOk result (λ s. view.stmt_of s.value ≡ IfOf place (view.expr test.value) (view.stmt_of body.value)) }
{
    let test = Box::into_inner(test);
    Ok(boxed(alloc, TypedStmt::If(place, test, body, None))?)
}

/// `if (e) a else b`
pub(crate) fn if_else_of(
    alloc: Global,
    place: Place,
    test: Box<TypedExpr>,
    body: Box<TypedStmt>,
    otherwise: Box<TypedStmt>,
) -> Result<Box<TypedStmt>, AllocError>
    ensures { IfOk result (λ s. view.stmt_of s.value ≡ IfElseOf place (view.expr test.value) (view.stmt_of body.value) (view.stmt_of otherwise.value)) }
{
    let test = Box::into_inner(test);
    let otherwise = Some(otherwise);
    Ok(boxed(alloc, TypedStmt::If(place, test, body, otherwise))?)
}

/// `while (e) invariant ..; a`
pub(crate) fn while_of(
    alloc: Global,
    place: Place,
    test: Box<TypedExpr>,
    guarded: Guarded,
) -> Result<Box<TypedStmt>, AllocError>
    ensures { IfOk result (λ s. view.stmt_of s.value ≡ WhileOf place (view.expr test.value) (view.exprs guarded.invariants.items) (view.stmt_of guarded.body.value)) }
{
    let test = Box::into_inner(test);
    let Guarded { invariants, body } = guarded;
    Ok(boxed(alloc, TypedStmt::While(place, test, invariants, body))?)
}

// `for (..; e; ..) invariant ..; a`, from parts out of their boxes.
fn for_parts(
    place: Place,
    first: Option<TypedInit>,
    test: Option<TypedExpr>,
    step: Option<TypedSimple>,
    guarded: Guarded,
) -> TypedStmt
    ensures { view.stmt_of result ≡ ForOf place (option_map view.init_of first) (option_map view.expr test) (option_map view.simple_of step) (view.exprs guarded.invariants.items) (view.stmt_of guarded.body.value) }
{
    let Guarded { invariants, body } = guarded;
    TypedStmt::For {
        place,
        first,
        test,
        step,
        invariants,
        body,
    }
}

/// `for (..; e; ..) invariant ..; a`
pub(crate) fn for_of(
    alloc: Global,
    place: Place,
    heading: Heading,
    guarded: Guarded,
) -> Result<Box<TypedStmt>, AllocError>
    ensures { IfOk result (λ s. view.stmt_of s.value ≡ ForOf place (init_of heading.first) (value_of heading.test) (step_of heading.step) (view.exprs guarded.invariants.items) (view.stmt_of guarded.body.value)) }
{
    let Heading { first, test, step } = heading;
    let whole = for_parts(
        place,
        init_in(first),
        value_in(test),
        step_in(step),
        guarded,
    );
    Ok(boxed(alloc, whole)?)
}

/// `return e;`
pub(crate) fn return_of(
    alloc: Global,
    place: Place,
    value: Option<Box<TypedExpr>>,
) -> Result<Box<TypedStmt>, AllocError>
    ensures { IfOk result (λ s. view.stmt_of s.value ≡ ReturnOf place (value_of value)) }
{
    let value = value_in(value);
    Ok(boxed(alloc, TypedStmt::Return(place, value))?)
}

/// `assert e;`
pub(crate) fn assert_of(
    alloc: Global,
    place: Place,
    condition: Box<TypedExpr>,
) -> Result<Box<TypedStmt>, AllocError>
    ensures { IfOk result (λ s. view.stmt_of s.value ≡ AssertOf place (view.expr condition.value)) }
{
    let condition = Box::into_inner(condition);
    Ok(boxed(alloc, TypedStmt::Assert(place, condition))?)
}

/// `assume e;`
pub(crate) fn assume_of(
    alloc: Global,
    place: Place,
    condition: Box<TypedExpr>,
) -> Result<Box<TypedStmt>, AllocError>
    ensures { IfOk result (λ s. view.stmt_of s.value ≡ AssumeOf place (view.expr condition.value)) }
{
    let condition = Box::into_inner(condition);
    Ok(boxed(alloc, TypedStmt::Assume(place, condition))?)
}

/// `expose (e at T) { .. }`
pub(crate) fn expose_of(
    alloc: Global,
    place: Place,
    object: Box<TypedExpr>,
    class: Option<ClassId>,
    block: TypedBlock,
) -> Result<Box<TypedStmt>, AllocError>
    ensures { IfOk result (λ s. view.stmt_of s.value ≡ ExposeOf place (view.expr object.value) (option_map (λ t. t.0) class) (view.block block)) }
{
    let object = Box::into_inner(object);
    Ok(boxed(alloc, TypedStmt::Expose(place, object, class, block))?)
}

/// `;`
pub(crate) fn empty_of(alloc: Global, place: Place) -> Result<Box<TypedStmt>, AllocError>
    ensures { IfOk result (λ s. view.stmt_of s.value ≡ EmptyOf place) }
{
    Ok(boxed(alloc, TypedStmt::Empty(place))?)
}
