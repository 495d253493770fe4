// Types of expressions in code.

ghost use Rattle.std.specs.Prelude.{◌≡◌, ◌≤◌, ◌&&◌, length};
ghost use Rattle.ss_core.specs.declared.names.Place.{Place as PlaceValue};
ghost use Rattle.ss_core.specs.Chain.{most_classes};
ghost use Rattle.ss_core.specs.Tree.{ExprTree};
ghost use Rattle.ss_core.specs.View as view;
ghost use Rattle.ss_core.specs.Parts.{link_after, step_after, chain_front, path_front};
ghost use Rattle.ss_store_rules.specs.Locals.{is_result, local_types, everywhere};
ghost use Rattle.ss_store_rules.specs.Types.{in_code, is_allowed, code_type};

use crate::expressions::type_of;
use ss_core::{Body, Classes, Expr, Link, Step, Ty};

// Whether the local is the result.
fn is_result(body: &Body, types: &[Ty], x: usize) -> bool
    requires { types.now ≡ local_types (view.body body.now) }
    ensures { result ≡ is_result (view.body body.now) x }
{
    body.result.is_some() && x == types.len() - 1
}

// Whether each part of the expression may stand in code.
#[cycle(code)]
fn is_code(body: &Body, types: &[Ty], e: &Expr) -> bool
    requires { types.now ≡ local_types (view.body body.now) }
    ensures { result ≡ everywhere (is_allowed (view.body body.now) in_code) (view.expr e.now) }
{
    match e {
        Expr::Int(..) | Expr::Bool(..) | Expr::Null(..) => true,
        Expr::Local(_, x) => !is_result(body, types, *x),
        Expr::Iff(_, a, b) | Expr::Implies(_, a, b) => {
            is_code(body, types, a) && is_code(body, types, b)
        }
        Expr::Chain(_, first, links) => {
            let rest = are_code(body, types, links);
            is_code(body, types, first) && rest
        }
        Expr::Negate(_, a) | Expr::Not(_, a) | Expr::Cast(_, _, _, a) => is_code(body, types, a),
        Expr::Path(_, first, steps) => {
            let rest = steps_are_code(body, types, steps);
            is_code(body, types, first) && rest
        }
        Expr::Quantified(_, _, _, low, high, member) => {
            is_code(body, types, low) && is_code(body, types, high) && is_code(body, types, member)
        }
        Expr::Old(..) | Expr::State(..) | Expr::Owners(..) | Expr::Default(..) => false,
    }
}

#[cycle(code)]
fn are_code(body: &Body, types: &[Ty], links: &[Link]) -> bool
    requires { types.now ≡ local_types (view.body body.now) }
    ensures { (p : PlaceValue) (e : ExprTree) → everywhere (is_allowed (view.body body.now) in_code) (chain_front p e links.now) ≡ (everywhere (is_allowed (view.body body.now) in_code) e && result) }
{
    for link in links {
        if !link_is_code(body, types, link) {
            return false;
        }
    }
    true
}

#[cycle(code)]
fn link_is_code(body: &Body, types: &[Ty], link: &Link) -> bool
    requires { types.now ≡ local_types (view.body body.now) }
    ensures { (p : PlaceValue) (e : ExprTree) → everywhere (is_allowed (view.body body.now) in_code) (link_after link.now p e) ≡ (everywhere (is_allowed (view.body body.now) in_code) e && result) }
{
    match link {
        Link::Operation(_, right) => is_code(body, types, right),
        Link::Is(_) | Link::As(_) => true,
    }
}

#[cycle(code)]
fn steps_are_code(body: &Body, types: &[Ty], steps: &[Step]) -> bool
    requires { types.now ≡ local_types (view.body body.now) }
    ensures { (p : PlaceValue) (e : ExprTree) → everywhere (is_allowed (view.body body.now) in_code) (path_front p e steps.now) ≡ (everywhere (is_allowed (view.body body.now) in_code) e && result) }
{
    for step in steps {
        if !step_is_code(body, types, step) {
            return false;
        }
    }
    true
}

#[cycle(code)]
fn step_is_code(body: &Body, types: &[Ty], step: &Step) -> bool
    requires { types.now ≡ local_types (view.body body.now) }
    ensures { (p : PlaceValue) (e : ExprTree) → everywhere (is_allowed (view.body body.now) in_code) (step_after step.now p e) ≡ (everywhere (is_allowed (view.body body.now) in_code) e && result) }
{
    match step {
        Step::Element(index) => is_code(body, types, index),
        Step::Field(_) | Step::Length => true,
    }
}

/// The type of an expression of the code of a body whose locals have these types.
pub fn code_type(list: &Classes, body: &Body, types: &[Ty], e: &Expr) -> Option<Ty>
    requires limit { length (view.classes list.now) ≤ most_classes }
    requires types { types.now ≡ local_types (view.body body.now) }
    ensures { result ≡ code_type (view.classes list.now) (view.body body.now) (view.expr e.now) }
{
    if is_code(body, types, e) {
        type_of(list, types, e)
    } else {
        None
    }
}
