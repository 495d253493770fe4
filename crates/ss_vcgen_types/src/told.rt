// What a test tells of locals.

ghost use Rattle.std.specs.Prelude.{◌≡◌, List, [], ◌∷◌, ◌++◌, length, take, IfOk, OnOk};
ghost use Rattle.ss_vcgen_types.specs.declared.told.Told.{Told};
ghost use Rattle.ss_vcgen_types.specs.declared.told.Told.TheVariants as told;
ghost use Rattle.ss_core.specs.declared.names.Place.{Place as PlaceValue};
ghost use Rattle.ss_core.specs.Tree.{ExprTree};
ghost use Rattle.ss_core.specs.View.{expr};
ghost use Rattle.ss_core.specs.Parts.{link_after, chain_front};
ghost use Rattle.ss_vcgen_types.specs.Told.{local_of, not_null, told_where, told_by, told_by_operation};

use crate::atoms::{is_null_literal, local_of};
use ss_core::{Expr, Link, Operator};
use std::alloc::{AllocError, Global};

/// What a test tells of a local.
#[derive(Clone, Copy)]
pub enum Told {
    /// It isn't null.
    NotNull(usize),
    /// It has this truth value.
    Truth(usize, bool),
}

fn tell_truth(found: &mut Vec<Told>, local: usize, outcome: bool) -> Result<(), AllocError>
    ensures { OnOk result (found.new.items ≡ found.old.items ++ told.Truth local outcome ∷ []) }
{
    found.push(Told::Truth(local, outcome))?;
    Ok(())
}

fn tell_not_null(
    found: &mut Vec<Told>,
    condition: bool,
    local: Option<usize>,
) -> Result<(), AllocError>
    ensures { OnOk result (found.new.items ≡ found.old.items ++ told_where condition (not_null local)) }
{
    if condition {
        if let Some(local) = local {
            found.push(Told::NotNull(local))?;
        }
    }
    Ok(())
}

// What the expression tells where it has this truth value, after what was found before.
#[cycle(told)]
fn tell(e: &Expr, outcome: bool, found: &mut Vec<Told>) -> Result<(), AllocError>
    ensures { OnOk result (found.new.items ≡ found.old.items ++ told_by (expr e.now) outcome) }
{
    match e {
        Expr::Local(_, x) => tell_truth(found, *x, outcome),
        Expr::Not(_, a) => tell(a, !outcome, found),
        Expr::Chain(_, first, links) => {
            let mark = found.len();
            tell(first, outcome, found)?;
            tell_links(links, local_of(first), outcome, mark, found)?;
            Ok(())
        }
        Expr::Path(_, first, steps) => {
            if steps.is_empty() {
                tell(first, outcome, found)
            } else {
                Ok(())
            }
        }
        Expr::Int(..)
        | Expr::Bool(..)
        | Expr::Null(..)
        | Expr::Iff(..)
        | Expr::Implies(..)
        | Expr::Negate(..)
        | Expr::Cast(..)
        | Expr::Old(..)
        | Expr::Quantified(..)
        | Expr::State(..)
        | Expr::Owners(..)
        | Expr::Default(..) => Ok(()),
    }
}

// The same of an operand with these links after it. What the operand tells stands after the mark. Where it is a local, it is this one.
#[cycle(told)]
fn tell_links(
    links: &[Link],
    first: Option<usize>,
    outcome: bool,
    mark: usize,
    found: &mut Vec<Told>,
) -> Result<(), AllocError>
    ensures { OnOk result ((p : PlaceValue) (e : ExprTree) (before : List Told) → mark ≡ length before → first ≡ local_of e → found.old.items ≡ before ++ told_by e outcome → found.new.items ≡ before ++ told_by (chain_front p e links.now) outcome) }
{
    let mut local = first;
    for link in links {
        tell_link(link, outcome, mark, local, found)?;
        local = None;
    }
    Ok(())
}

/// The same of an operand with one link after it.
#[cycle(told)]
pub fn tell_link(
    link: &Link,
    outcome: bool,
    mark: usize,
    local: Option<usize>,
    found: &mut Vec<Told>,
) -> Result<(), AllocError>
    ensures { OnOk result ((p : PlaceValue) (e : ExprTree) → local ≡ local_of e → found.old.items ≡ take mark found.old.items ++ told_by e outcome → found.new.items ≡ take mark found.old.items ++ told_by (link_after link.now p e) outcome) }
{
    match link {
        Link::Operation(operator, right) => {
            tell_operation(right, *operator, outcome, mark, local, found)
        }
        Link::Is(_) => {
            found.truncate(mark);
            tell_not_null(found, outcome, local)
        }
        Link::As(_) => {
            found.truncate(mark);
            Ok(())
        }
    }
}

#[cycle(told)]
fn tell_operation(
    right: &Expr,
    operator: Operator,
    outcome: bool,
    mark: usize,
    local: Option<usize>,
    found: &mut Vec<Told>,
) -> Result<(), AllocError>
    ensures { OnOk result ((e : ExprTree) → local ≡ local_of e → found.old.items ≡ take mark found.old.items ++ told_by e outcome → found.new.items ≡ take mark found.old.items ++ told_by_operation operator outcome e (expr right.now) (told_by e) (told_by (expr right.now))) }
{
    match operator {
        Operator::And => {
            if outcome {
                tell(right, true, found)
            } else {
                found.truncate(mark);
                Ok(())
            }
        }
        Operator::Or => {
            if outcome {
                found.truncate(mark);
                Ok(())
            } else {
                tell(right, false, found)
            }
        }
        Operator::NotEqual => {
            found.truncate(mark);
            tell_not_null(found, outcome && is_null_literal(right), local)
        }
        Operator::Equal => {
            found.truncate(mark);
            tell_not_null(found, !outcome && is_null_literal(right), local)
        }
        Operator::Less
        | Operator::LessEqual
        | Operator::Greater
        | Operator::GreaterEqual
        | Operator::Add
        | Operator::Subtract
        | Operator::Multiply
        | Operator::Divide
        | Operator::Remainder => {
            found.truncate(mark);
            Ok(())
        }
    }
}

/// What the expression tells where it has this truth value.
pub fn told_by(alloc: Global, e: &Expr, outcome: bool) -> Result<Vec<Told>, AllocError>
    ensures { IfOk result (λ v. v.items ≡ told_by (expr e.now) outcome) }
{
    let mut found = Vec::new(alloc);
    tell(e, outcome, &mut found)?;
    Ok(found)
}
