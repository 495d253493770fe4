// Which expressions are never null.

ghost use Rattle.std.specs.Prelude.{◌≡◌, ◌≤◌, ◌&&◌, ◌+◌, length, take, slice_get};
ghost use Rattle.ss_core.specs.declared.names.Place.{Place as PlaceValue};
ghost use Rattle.ss_core.specs.Chain.{most_classes};
ghost use Rattle.ss_core.specs.Tree.{ExprTree, FieldExpr};
ghost use Rattle.ss_core.specs.View.{classes, expr};
ghost use Rattle.ss_core.specs.Parts.{link_after, step_after, chain_front, path_front};
ghost use Rattle.ss_store_rules.specs.NonNull.{is_non_null_type, is_this_object, is_never_null};
ghost use Rattle.ss_vcgen_known.specs.Views.{type_context_of, known_of, tested};

use crate::known::Known;
use crate::tests::{Tests, has_field, knows};
use ss_core::{Expr, FieldId, Link, Step, Ty, is_non_null, is_non_null_type};
use ss_vcgen_types::{TypeContext, field_type};

// Whether the expression is `this`, or `this` as another class.
pub fn is_this_object(e: &Expr) -> bool
    ensures { result ≡ is_this_object (expr e.now) }
{
    match e {
        Expr::Local(_, x) => *x == 0,
        Expr::Chain(_, first, links) => are_casts(links) && is_this_object(first),
        Expr::Path(_, first, steps) => {
            if steps.is_empty() {
                is_this_object(first)
            } else {
                false
            }
        }
        Expr::Cast(_, _, _, a) => is_this_object(a),
        Expr::Old(_, a) => is_this_object(a),
        Expr::Int(..)
        | Expr::Bool(..)
        | Expr::Null(..)
        | Expr::Iff(..)
        | Expr::Implies(..)
        | Expr::Negate(..)
        | Expr::Not(..)
        | Expr::Quantified(..)
        | Expr::State(..)
        | Expr::Owners(..)
        | Expr::Default(..) => false,
    }
}

// Whether each link only takes the operand as another class.
fn are_casts(links: &[Link]) -> bool
    ensures { (p : PlaceValue) (e : ExprTree) → is_this_object (chain_front p e links.now) ≡ (result && is_this_object e) }
{
    for link in links {
        if !is_cast(link) {
            return false;
        }
    }
    true
}

fn is_cast(link: &Link) -> bool
    ensures { (p : PlaceValue) (e : ExprTree) → is_this_object (link_after link.now p e) ≡ (result && is_this_object e) }
{
    match link {
        Link::As(_) => true,
        Link::Operation(..) | Link::Is(_) => false,
    }
}

/// Whether the type of a local says that it isn't null.
pub fn is_non_null_local(types: &[Ty], x: usize) -> bool
    ensures { result ≡ is_non_null_type (slice_get types.now x) }
{
    if x < types.len() {
        is_non_null(types[x])
    } else {
        false
    }
}

// A field of an object that is `this`, or not.
fn field_never_null(
    typing: TypeContext<'_>,
    known: &Known,
    tests: &Tests<'_>,
    old: bool,
    of_this: bool,
    field: FieldId,
) -> bool
    requires { length (classes typing.classes.now) ≤ most_classes }
    ensures { (p : PlaceValue) (e : ExprTree) → of_this ≡ is_this_object e → result ≡ is_never_null (type_context_of typing.entry) (tested tests.now (known_of known.now)) old (FieldExpr p e field.0) }
{
    let is_typed = is_non_null(field_type(typing.classes, field));
    let has_value = !of_this || has_field(known, tests, field.0 as usize);
    is_typed && (!typing.constructs || !old && has_value)
}

fn step_never_null(
    typing: TypeContext<'_>,
    known: &Known,
    tests: &Tests<'_>,
    old: bool,
    of_this: bool,
    step: &Step,
) -> bool
    requires { length (classes typing.classes.now) ≤ most_classes }
    ensures { (p : PlaceValue) (e : ExprTree) → of_this ≡ is_this_object e → result ≡ is_never_null (type_context_of typing.entry) (tested tests.now (known_of known.now)) old (step_after step.now p e) }
{
    match step {
        Step::Field(field) => field_never_null(typing, known, tests, old, of_this, *field),
        Step::Element(_) | Step::Length => false,
    }
}

// A path: what it begins with, and its steps.
#[derive(Clone, Copy)]
struct PathParts<'p> {
    first: &'p Expr,
    steps: &'p [Step],
}

// Whether a path with its first steps is `this`.
fn front_is_this(path: PathParts<'_>, count: usize) -> bool
    requires { count ≤ length path.steps.now }
    ensures { (p : PlaceValue) → result ≡ is_this_object (path_front p (expr path.entry.first.now) (take count path.entry.steps.now)) }
{
    if count == 0 {
        is_this_object(path.first)
    } else {
        false
    }
}

// A path with this last step.
fn steps_never_null(
    typing: TypeContext<'_>,
    known: &Known,
    tests: &Tests<'_>,
    old: bool,
    path: PathParts<'_>,
    last: usize,
) -> bool
    requires limit { length (classes typing.classes.now) ≤ most_classes }
    requires last { last + 1 ≡ length path.steps.now }
    ensures { (p : PlaceValue) → result ≡ is_never_null (type_context_of typing.entry) (tested tests.now (known_of known.now)) old (path_front p (expr path.entry.first.now) path.entry.steps.now) }
{
    let steps = path.steps;
    let of_this = front_is_this(path, last);
    step_never_null(typing, known, tests, old, of_this, &steps[last])
}

/// Whether the value of an expression isn't null, where all this is known and the tests have come out so; `old` where it stands inside
/// `old`.
#[cycle(never)]
pub fn is_never_null(
    typing: TypeContext<'_>,
    known: &Known,
    tests: &Tests<'_>,
    old: bool,
    e: &Expr,
) -> bool
    requires { length (classes typing.classes.now) ≤ most_classes }
    ensures { result ≡ is_never_null (type_context_of typing.entry) (tested tests.now (known_of known.now)) old (expr e.now) }
{
    match e {
        Expr::Local(_, x) => is_non_null_local(typing.types, *x) || knows(known, tests, *x),
        Expr::Cast(_, _, non_null, _) => *non_null,
        Expr::Old(_, a) => is_never_null(typing, known, tests, true, a),
        Expr::Path(_, first, steps) => path_never_null(typing, known, tests, old, first, steps),
        Expr::Chain(_, first, links) => chain_never_null(typing, known, tests, old, first, links),
        Expr::Int(..)
        | Expr::Bool(..)
        | Expr::Null(..)
        | Expr::Iff(..)
        | Expr::Implies(..)
        | Expr::Negate(..)
        | Expr::Not(..)
        | Expr::Quantified(..)
        | Expr::State(..)
        | Expr::Owners(..)
        | Expr::Default(..) => false,
    }
}

/// The same of the front of a path: what it begins with, and its first steps.
#[cycle(never)]
pub fn path_never_null(
    typing: TypeContext<'_>,
    known: &Known,
    tests: &Tests<'_>,
    old: bool,
    first: &Expr,
    steps: &[Step],
) -> bool
    requires { length (classes typing.classes.now) ≤ most_classes }
    ensures { (p : PlaceValue) → result ≡ is_never_null (type_context_of typing.entry) (tested tests.now (known_of known.now)) old (path_front p (expr first.now) steps.now) }
{
    if steps.is_empty() {
        is_never_null(typing, known, tests, old, first)
    } else {
        let path = PathParts { first, steps };
        steps_never_null(typing, known, tests, old, path, steps.len() - 1)
    }
}

/// The same of the front of a chain: its first operand, and its first links.
#[cycle(never)]
pub fn chain_never_null(
    typing: TypeContext<'_>,
    known: &Known,
    tests: &Tests<'_>,
    old: bool,
    first: &Expr,
    links: &[Link],
) -> bool
    requires { length (classes typing.classes.now) ≤ most_classes }
    ensures { (p : PlaceValue) → result ≡ is_never_null (type_context_of typing.entry) (tested tests.now (known_of known.now)) old (chain_front p (expr first.now) links.now) }
{
    if links.is_empty() {
        is_never_null(typing, known, tests, old, first)
    } else {
        false
    }
}
