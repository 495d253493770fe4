// Types of expressions.

ghost use Rattle.std.specs.Prelude.{◌≡◌, ◌≤◌, [], ◌∷◌, ◌++◌, length, option_map, slice_get};
ghost use Rattle.ss_core.specs.declared.names.Place.{Place as PlaceValue};
ghost use Rattle.ss_core.specs.declared.names.Ty.TheVariants as ty;
ghost use Rattle.ss_core.specs.Chain.{most_classes};
ghost use Rattle.ss_core.specs.Tree.{ExprTree};
ghost use Rattle.ss_core.specs.View.{classes, expr};
ghost use Rattle.ss_core.specs.Types.{nullable};
ghost use Rattle.ss_core.specs.Parts.{link_after, step_after, chain_front, path_front};
ghost use Rattle.ss_store_rules.specs.Numbers.{fits};
ghost use Rattle.ss_store_rules.specs.Types.{where_typed, is_bool, type_of};
ghost use Rattle.ss_vcgen_types.specs.Names.{types_of_names};

use crate::names::Names;
use crate::types::{
    class_type, element_read_type, field_read_type, has_length, is_bool, is_class, is_int,
    is_owners_word, is_reference, is_word, operation_type, where_typed,
};
use ss_core::{Classes, Expr, Link, Step, Ty, nullable};

// The type of a number of 32 bits.
fn number_type(number: i32) -> Option<Ty>
    ensures { result ≡ where_typed (fits number) ty.Int }
{
    let _ = number;
    Some(Ty::Int)
}

// The type of a local or of a bound name.
fn local_type(names: &Names<'_>, x: usize) -> Option<Ty>
    ensures { result ≡ option_map nullable (slice_get (types_of_names names.now) x) }
{
    match names.type_at(x) {
        Some(ty) => Some(nullable(ty)),
        None => None,
    }
}

#[cycle(types)]
fn type_in(list: &Classes, names: &Names<'_>, e: &Expr) -> Option<Ty>
    requires { length (classes list.now) ≤ most_classes }
    ensures { result ≡ type_of (classes list.now) (types_of_names names.now) (expr e.now) }
{
    match e {
        Expr::Int(_, n) => number_type(*n),
        Expr::Bool(..) => Some(Ty::Bool),
        Expr::Null(_) => Some(Ty::Null),
        Expr::Local(_, x) => local_type(names, *x),
        Expr::Iff(_, a, b) | Expr::Implies(_, a, b) => {
            let left = is_bool(type_in(list, names, a));
            where_typed(left && is_bool(type_in(list, names, b)), Ty::Bool)
        }
        Expr::Chain(_, first, links) => {
            links_type(list, names, type_in(list, names, first), links)
        }
        Expr::Negate(_, a) => where_typed(is_int(type_in(list, names, a)), Ty::Int),
        Expr::Not(_, a) => where_typed(is_bool(type_in(list, names, a)), Ty::Bool),
        Expr::Cast(_, class, _, a) => where_typed(
            is_reference(type_in(list, names, a)) && is_class(list, *class),
            class_type(*class),
        ),
        Expr::Path(_, first, steps) => {
            steps_type(list, names, type_in(list, names, first), steps)
        }
        Expr::Old(_, a) => type_in(list, names, a),
        Expr::Quantified(_, _, _, low, high, member) => {
            let bounds = is_int(type_in(list, names, low)) && is_int(type_in(list, names, high));
            where_typed(bounds && is_condition_within(list, names, member), Ty::Bool)
        }
        Expr::State(_, word, a) => where_typed(
            is_reference(type_in(list, names, a)) && is_word(list, *word),
            Ty::Bool,
        ),
        Expr::Owners(_, test, a, b) => {
            let left = is_reference(type_in(list, names, a));
            let both = left && is_reference(type_in(list, names, b));
            where_typed(both && is_owners_word(list, *test), Ty::Bool)
        }
        Expr::Default(..) => Some(Ty::Bool),
    }
}

// The member of a quantifier is a truth value.
#[cycle(types)]
fn is_condition_within(list: &Classes, names: &Names<'_>, member: &Expr) -> bool
    requires { length (classes list.now) ≤ most_classes }
    ensures { result ≡ is_bool (type_of (classes list.now) (types_of_names names.now ++ ty.Int ∷ []) (expr member.now)) }
{
    let inner = Names::Bound(&*names);
    is_bool(type_in(list, &inner, member))
}

// The type of a chain that begins with an operand of this type.
#[cycle(types)]
fn links_type(list: &Classes, names: &Names<'_>, first: Option<Ty>, links: &[Link]) -> Option<Ty>
    requires { length (classes list.now) ≤ most_classes }
    ensures { (p : PlaceValue) (e : ExprTree) → first ≡ type_of (classes list.now) (types_of_names names.now) e → result ≡ type_of (classes list.now) (types_of_names names.now) (chain_front p e links.now) }
{
    let mut left = first;
    for link in links {
        left = link_type_in(list, names, left, link);
    }
    left
}

#[cycle(types)]
fn link_type_in(list: &Classes, names: &Names<'_>, left: Option<Ty>, link: &Link) -> Option<Ty>
    requires { length (classes list.now) ≤ most_classes }
    ensures { (p : PlaceValue) (e : ExprTree) → left ≡ type_of (classes list.now) (types_of_names names.now) e → result ≡ type_of (classes list.now) (types_of_names names.now) (link_after link.now p e) }
{
    match link {
        Link::Operation(operator, right) => {
            operation_type(*operator, left, type_in(list, names, right))
        }
        Link::Is(class) => where_typed(is_reference(left) && is_class(list, *class), Ty::Bool),
        Link::As(class) => where_typed(
            is_reference(left) && is_class(list, *class),
            class_type(*class),
        ),
    }
}

// The type of a path that begins with an expression of this type.
#[cycle(types)]
fn steps_type(list: &Classes, names: &Names<'_>, first: Option<Ty>, steps: &[Step]) -> Option<Ty>
    requires { length (classes list.now) ≤ most_classes }
    ensures { (p : PlaceValue) (e : ExprTree) → first ≡ type_of (classes list.now) (types_of_names names.now) e → result ≡ type_of (classes list.now) (types_of_names names.now) (path_front p e steps.now) }
{
    let mut from = first;
    for step in steps {
        from = step_type_in(list, names, from, step);
    }
    from
}

#[cycle(types)]
fn step_type_in(list: &Classes, names: &Names<'_>, from: Option<Ty>, step: &Step) -> Option<Ty>
    requires { length (classes list.now) ≤ most_classes }
    ensures { (p : PlaceValue) (e : ExprTree) → from ≡ type_of (classes list.now) (types_of_names names.now) e → result ≡ type_of (classes list.now) (types_of_names names.now) (step_after step.now p e) }
{
    match step {
        Step::Field(field) => field_read_type(list, from, *field),
        Step::Element(index) => element_read_type(list, from, type_in(list, names, index)),
        Step::Length => where_typed(has_length(list, from), Ty::Int),
    }
}

/// The type of an expression, where the locals have these types; none where its parts don't fit.
pub fn type_of(list: &Classes, types: &[Ty], e: &Expr) -> Option<Ty>
    requires { length (classes list.now) ≤ most_classes }
    ensures { result ≡ type_of (classes list.now) types.now (expr e.now) }
{
    let names = Names::Locals(types);
    type_in(list, &names, e)
}

/// The type of an operand of this type with one link after it.
pub fn link_type(list: &Classes, types: &[Ty], left: Option<Ty>, link: &Link) -> Option<Ty>
    requires { length (classes list.now) ≤ most_classes }
    ensures { (p : PlaceValue) (e : ExprTree) → left ≡ type_of (classes list.now) types.now e → result ≡ type_of (classes list.now) types.now (link_after link.now p e) }
{
    let names = Names::Locals(types);
    link_type_in(list, &names, left, link)
}

/// The type of one step from an expression of this type.
pub fn step_type(list: &Classes, types: &[Ty], from: Option<Ty>, step: &Step) -> Option<Ty>
    requires { length (classes list.now) ≤ most_classes }
    ensures { (p : PlaceValue) (e : ExprTree) → from ≡ type_of (classes list.now) types.now e → result ≡ type_of (classes list.now) types.now (step_after step.now p e) }
{
    let names = Names::Locals(types);
    step_type_in(list, &names, from, step)
}
