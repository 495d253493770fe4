// Expressions without calls in the numbers of the core program.

ghost use Rattle.std.specs.Prelude.{◌≡◌, IfOk, option_map, string_bytes};
ghost use Rattle.ss_core.specs.Tree as tree;
ghost use Rattle.ss_core.specs.View as core;
ghost use Rattle.ss_core.specs.Parts as core_parts;
ghost use Rattle.ss_typed.specs.Tree.{ExprTree};
ghost use Rattle.ss_typed.specs.View as typed;
ghost use Rattle.ss_expand_rules.specs.Numbers as elab;
ghost use Rattle.ss_expand_expressions.specs.Views.{numbers_of, plain_step_after, path_of};
ghost use Rattle.ss_typed.specs.Parts.{link_after, linked, step_after, stepped};

use crate::locals::Numbers;
use ss_core::{ClassId, Expr, Link, Place, Quantifier, StateWord, Step};
use ss_typed::{TypedExpr, TypedLink, TypedStep, place_of};
use std::alloc::{AllocError, Global};

/// The expression of the core program. A call, which stands in none that is read so, is null.
#[cycle(plain)]
pub fn plain(alloc: Global, numbers: &Numbers, e: &TypedExpr) -> Result<Expr, AllocError>
    ensures { IfOk result (λ r. core.expr r ≡ elab.plain (numbers_of numbers.now) (typed.expr e.now)) }
{
    match e {
        TypedExpr::Int(place, n) => Ok(Expr::Int(*place, *n)),
        TypedExpr::Bool(place, b) => Ok(Expr::Bool(*place, *b)),
        TypedExpr::This(place, _) => Ok(Expr::Local(*place, 0)),
        TypedExpr::Local(place, x, _) => Ok(Expr::Local(*place, numbers.number(*x))),
        TypedExpr::Result(place, _) => Ok(Expr::Local(*place, numbers.outcome)),
        TypedExpr::Bound(place, around) => Ok(Expr::Local(*place, numbers.bound(*around)?)),
        TypedExpr::Iff(place, a, b) => {
            let left = plain_boxed(alloc, numbers, a)?;
            Ok(Expr::Iff(*place, left, plain_boxed(alloc, numbers, b)?))
        }
        TypedExpr::Implies(place, a, b) => {
            let left = plain_boxed(alloc, numbers, a)?;
            Ok(Expr::Implies(*place, left, plain_boxed(alloc, numbers, b)?))
        }
        TypedExpr::Chain(place, first, links) => {
            let first = plain_boxed(alloc, numbers, first)?;
            Ok(whole_chain(*place, first, plain_links(alloc, numbers, links)?))
        }
        TypedExpr::Negate(place, e) => Ok(Expr::Negate(*place, plain_boxed(alloc, numbers, e)?)),
        TypedExpr::Not(place, e) => Ok(Expr::Not(*place, plain_boxed(alloc, numbers, e)?)),
        TypedExpr::Cast(at, class, non_null, e) => cast(alloc, numbers, *at, *class, *non_null, e),
        TypedExpr::Path(place, first, steps) => {
            let first = plain_boxed(alloc, numbers, first)?;
            whole_path(alloc, *place, first, plain_steps(alloc, numbers, steps)?)
        }
        TypedExpr::Old(place, e) => Ok(Expr::Old(*place, plain_boxed(alloc, numbers, e)?)),
        TypedExpr::Quantified(at, kind, name, low, high, e) => {
            let low = plain_boxed(alloc, numbers, low)?;
            let high = plain_boxed(alloc, numbers, high)?;
            quantified(alloc, numbers, Binder { at, kind, name }, e, low, high)
        }
        TypedExpr::State(place, word, e) => state(alloc, numbers, *place, *word, e),
        TypedExpr::Owners(place, test, a, b) => {
            let left = plain_boxed(alloc, numbers, a)?;
            Ok(Expr::Owners(*place, *test, left, plain_boxed(alloc, numbers, b)?))
        }
        _ => Ok(Expr::Null(place_of(e))),
    }
}

// A cast.
#[cycle(plain)]
fn cast(
    alloc: Global,
    numbers: &Numbers,
    place: Place,
    class: ClassId,
    non_null: bool,
    e: &TypedExpr,
) -> Result<Expr, AllocError>
    ensures { IfOk result (λ r. core.expr r ≡ tree.CastExpr place class.0 non_null (elab.plain (numbers_of numbers.now) (typed.expr e.now))) }
{
    Ok(Expr::Cast(place, class, non_null, plain_boxed(alloc, numbers, e)?))
}

// A question about the state of an object.
#[cycle(plain)]
fn state(
    alloc: Global,
    numbers: &Numbers,
    place: Place,
    word: StateWord,
    e: &TypedExpr,
) -> Result<Expr, AllocError>
    ensures { IfOk result (λ r. core.expr r ≡ tree.StateExpr place (core.word_tree word) (elab.plain (numbers_of numbers.now) (typed.expr e.now))) }
{
    Ok(Expr::State(place, word, plain_boxed(alloc, numbers, e)?))
}

// A quantifier with the name that it binds: its place, its kind, and the name.
#[derive(Clone, Copy)]
struct Binder<'e> {
    at: &'e Place,
    kind: &'e Quantifier,
    name: &'e String,
}

// A quantifier between these bounds.
#[cycle(plain)]
fn quantified(
    alloc: Global,
    numbers: &Numbers,
    binder: Binder<'_>,
    e: &TypedExpr,
    low: Box<Expr>,
    high: Box<Expr>,
) -> Result<Expr, AllocError>
    ensures { IfOk result (λ r. core.expr r ≡ tree.QuantifiedExpr binder.entry.at.now binder.entry.kind.now (string_bytes binder.entry.name.now) (core.expr low.value) (core.expr high.value) (elab.plain (numbers_of numbers.now) (typed.expr e.now))) }
{
    let Binder { at, kind, name } = binder;
    let member = plain_boxed(alloc, numbers, e)?;
    Ok(Expr::Quantified(*at, *kind, name.clone()?, low, high, member))
}

// The same in a box.
#[cycle(plain)]
fn plain_boxed(alloc: Global, numbers: &Numbers, e: &TypedExpr) -> Result<Box<Expr>, AllocError>
    ensures { IfOk result (λ r. core.expr r.value ≡ elab.plain (numbers_of numbers.now) (typed.expr e.now)) }
{
    Ok(Box::new(alloc, plain(alloc, numbers, e)?)?)
}

/// A chain with these links.
pub fn whole_chain(place: Place, first: Box<Expr>, links: Vec<Link>) -> Expr
    ensures { core.expr result ≡ core_parts.chain_front place (core.expr first.value) links.items }
{
    Expr::Chain(place, first, links)
}

/// The links of a chain.
#[cycle(plain)]
pub fn plain_links(
    alloc: Global,
    numbers: &Numbers,
    links: &[TypedLink],
) -> Result<Vec<Link>, AllocError>
    ensures { IfOk result (λ r. (p : Place) → (before : ExprTree)
        → core_parts.chain_front p (elab.plain (numbers_of numbers.now) before) r.items ≡ elab.plain (numbers_of numbers.now) (linked p before links.now)) }
{
    let mut list = Vec::new(alloc);
    for link in links {
        list.push(plain_link(alloc, numbers, link)?)?;
    }
    Ok(list)
}

#[cycle(plain)]
fn plain_link(alloc: Global, numbers: &Numbers, link: &TypedLink) -> Result<Link, AllocError>
    ensures { IfOk result (λ r. (p : Place) → (before : ExprTree)
        → core_parts.link_after r p (elab.plain (numbers_of numbers.now) before) ≡ elab.plain (numbers_of numbers.now) (link_after link.now p before)) }
{
    match link {
        TypedLink::Operation(operator, e) => Ok(Link::Operation(
            *operator,
            plain(alloc, numbers, e)?,
        )),
        TypedLink::Is(class) => Ok(Link::Is(*class)),
        TypedLink::As(class) => Ok(Link::As(*class)),
    }
}

/// The steps of a path. Where a call stands among them, the path begins with null after it.
#[derive(Drop)]
pub struct PlainSteps {
    pub after_call: bool,
    pub steps: Vec<Step>,
}

/// A path with these steps.
pub fn whole_path(
    alloc: Global,
    place: Place,
    first: Box<Expr>,
    path: PlainSteps,
) -> Result<Expr, AllocError>
    ensures { IfOk result (λ r. core.expr r ≡ path_of place (core.expr first.value) path) }
{
    if path.after_call {
        return Ok(Expr::Path(place, Box::new(alloc, Expr::Null(place))?, path.steps));
    }
    Ok(Expr::Path(place, first, path.steps))
}

/// The steps of a path.
#[cycle(plain)]
pub fn plain_steps(
    alloc: Global,
    numbers: &Numbers,
    steps: &[TypedStep],
) -> Result<PlainSteps, AllocError>
    ensures { IfOk result (λ r. (p : Place) → (before : ExprTree)
        → path_of p (elab.plain (numbers_of numbers.now) before) r ≡ elab.plain (numbers_of numbers.now) (stepped p before steps.now)) }
{
    let mut path = PlainSteps {
        after_call: false,
        steps: Vec::new(alloc),
    };
    for step in steps {
        path = longer_path(alloc, path, plain_step(alloc, numbers, step)?)?;
    }
    Ok(path)
}

// One step: none for a call.
#[cycle(plain)]
fn plain_step(
    alloc: Global,
    numbers: &Numbers,
    step: &TypedStep,
) -> Result<Option<Step>, AllocError>
    ensures { IfOk result (λ r. (p : Place) → (before : ExprTree)
        → plain_step_after r p (elab.plain (numbers_of numbers.now) before) ≡ elab.plain (numbers_of numbers.now) (step_after step.now p before)) }
{
    match step {
        TypedStep::Field(field, _) => Ok(Some(Step::Field(*field))),
        TypedStep::Element(e) => Ok(Some(Step::Element(plain(alloc, numbers, e)?))),
        TypedStep::Length => Ok(Some(Step::Length)),
        TypedStep::Call(..) => Ok(None),
    }
}

// The path with one more step.
fn longer_path(
    alloc: Global,
    path: PlainSteps,
    step: Option<Step>,
) -> Result<PlainSteps, AllocError>
    ensures { IfOk result (λ r. (p : Place) → (first : tree.ExprTree) → path_of p first r ≡ plain_step_after step p (path_of p first path)) }
{
    match step {
        Some(step) => {
            let mut steps = path.steps;
            steps.push(step)?;
            Ok(PlainSteps {
                after_call: path.after_call,
                steps,
            })
        }
        None => Ok(PlainSteps {
            after_call: true,
            steps: Vec::new(alloc),
        }),
    }
}
