// The reasons of equal terms: the joins that made their classes one, each with why its two terms are equal.

ghost use Rattle.std.specs.Prelude.{◌≡◌, ◌≢◌, ℕ, ◌<◌, ◌≤◌, ◌∷◌, ◌++◌, ◌⊎◌, List, [], true, Some, None, length, map, slice_get, IfOk, IfSome, OnOk};
ghost use Rattle.ss_terms.specs.declared.forms.TermId.{TermId};
ghost use Rattle.ss_equality_rules.specs.declared.Join.{Join};
ghost use Rattle.ss_equality_rules.specs.declared.Pair.{Pair};
ghost use Rattle.ss_equality_rules.specs.Equal.{IsEqual, with_reasons};
ghost use Rattle.ss_equality_rules.specs.Names as names;
ghost use Rattle.ss_equality_rules.specs.Names.{Has, name, HasNoEnd};
ghost use Rattle.ss_equality_rules.specs.Whole.{AreCaused, merges_of};
ghost use Rattle.ss_equality_rules.specs.Reasons.{IsFirstEnd, IsJoinedAt, AreOpen, IsWhyTold, Tells, TellsBeside};

use crate::classes::Classes;
use ss_equality_rules::{Join, Pair, Stand};
use ss_terms::{Term, TermId};
use std::alloc::{AllocError, Global};

// The first join that ended one of two classes.
fn first_end(classes: &Classes, a: usize, b: usize) -> Option<usize>
    ensures first { IfSome result (λ j. IsFirstEnd classes.now.log a b j) }
    ensures none { result ≡ None → HasNoEnd classes.now.log a × HasNoEnd classes.now.log b }
{
    match classes.end_of(a) {
        None => classes.end_of(b),
        Some(i) => match classes.end_of(b) {
            None => Some(i),
            Some(j) => { if i < j { Some(i) } else { Some(j) } }
        },
    }
}

fn renamed(join: Join, class: usize) -> usize
    ensures { result ≡ names.renamed join class }
{
    if class == join.from { join.to } else { class }
}

// The join at which the classes of two different terms became one, and whether the first was in the class that was renamed.
fn joining(classes: &Classes, x: usize, y: usize) -> Option<(usize, bool)>
    requires { x ≢ y }
    ensures { IfSome result (λ r. IsJoinedAt classes.now.log x y r.0 r.1) }
{
    let _count = classes.join_count();
    let mut left = x;
    let mut right = y;
    let mut seen = 0;
    while let Some(end) = first_end(classes, left, right) {
        let join = classes.join_at(end);
        let is_left = left == join.from;
        left = renamed(join, left);
        right = renamed(join, right);
        if left == right {
            return Some((end, is_left));
        }
        seen = end + 1;
    }
    None
}

// The arguments of two terms are equal one by one.
fn tell_arguments(pending: &mut Vec<Pair>, xs: &[TermId], ys: &[TermId]) -> Result<(), AllocError>
    ensures among { (p : Pair) → Has pending.old.items p → Has pending.new.items p }
    ensures pairs { OnOk result (AreOpen pending.new.items xs.now ys.now) }
{
    for i in 0..xs.len() {
        if let Some(y) = ys.get(i) {
            pending.push(Pair {
                left: xs[i].0,
                right: y.0,
            })?;
        }
    }
    Ok(())
}

// Why the two terms of a join are equal.
fn tell_why(
    classes: &Classes,
    merges: &[Stand],
    pending: &mut Vec<Pair>,
    reasons: &mut Vec<usize>,
    join: Join,
) -> Result<(), AllocError>
    ensures { OnOk result (IsWhyTold classes.now.forms (merges_of merges.now) join pending.old.items pending.new.items reasons.old.items reasons.new.items) }
{
    match join.why {
        Some(number) => match merges.get(number) {
            Some(stand) => {
                reasons.push(stand.merge.because)?;
                Ok(())
            }
            None => Ok(()),
        },
        None => match classes.form(join.left) {
            Some(Term::App(_, xs)) => match classes.form(join.right) {
                Some(Term::App(_, ys)) => tell_arguments(pending, xs, ys),
                _ => Ok(()),
            },
            _ => Ok(()),
        },
    }
}

// A join is told of, once.
fn tell_join(
    classes: &Classes,
    merges: &[Stand],
    pending: &mut Vec<Pair>,
    told: &mut Vec<bool>,
    reasons: &mut Vec<usize>,
    number: usize,
) -> Result<(), AllocError>
    requires number { number < length classes.now.log }
    requires told { length told.old.items ≡ length classes.now.log }
    ensures long { length told.new.items ≡ length told.old.items }
    ensures is_told { OnOk result (slice_get told.new.items number ≡ Some true) }
    ensures tells { OnOk result (AreCaused classes.now.forms (merges_of merges.now) classes.now.log → TellsBeside classes.now.forms (merges_of merges.now) classes.now.log pending.old.items pending.new.items told.old.items told.new.items reasons.old.items reasons.new.items) }
{
    if told[number] {
        return Ok(());
    }
    told[number] = true;
    let join = classes.join_at(number);
    tell_why(classes, merges, pending, reasons, join)
}

// Why two terms are equal.
fn tell(
    classes: &Classes,
    merges: &[Stand],
    pending: &mut Vec<Pair>,
    told: &mut Vec<bool>,
    reasons: &mut Vec<usize>,
    pair: Pair,
) -> Result<(), AllocError>
    requires { length told.old.items ≡ length classes.now.log }
    ensures long { length told.new.items ≡ length told.old.items }
    ensures tells { OnOk result (AreCaused classes.now.forms (merges_of merges.now) classes.now.log → Tells classes.now.forms (merges_of merges.now) classes.now.log (pair ∷ pending.old.items) pending.new.items told.old.items told.new.items reasons.old.items reasons.new.items) }
{
    if pair.left == pair.right {
        return Ok(());
    }
    let Some((number, is_left)) = joining(classes, pair.left, pair.right) else {
        return Err(AllocError);
    };
    if number >= classes.join_count() {
        return Err(AllocError);
    }
    tell_join(classes, merges, pending, told, reasons, number)?;
    let join = classes.join_at(number);
    if is_left {
        open_parts(pending, pair, join.left, join.right)
    } else {
        open_parts(pending, pair, join.right, join.left)
    }
}

// The pairs of two terms and the terms of a join.
fn open_parts(
    pending: &mut Vec<Pair>,
    pair: Pair,
    near: usize,
    far: usize,
) -> Result<(), AllocError>
    ensures { OnOk result (pending.new.items ≡ (pending.old.items ++ record { left = pair.left; right = near } ∷ []) ++ record { left = far; right = pair.right } ∷ []) }
{
    pending.push(Pair {
        left: pair.left,
        right: near,
    })?;
    pending.push(Pair {
        left: far,
        right: pair.right,
    })?;
    Ok(())
}

fn no_joins(alloc: Global, count: usize) -> Result<Vec<bool>, AllocError>
    ensures long { IfOk result (λ v. length v.items ≡ count) }
    ensures none { IfOk result (λ v. (j : ℕ) → slice_get v.items j ≢ Some true) }
{
    let mut told = Vec::new(alloc);
    for _i in 0..count {
        told.push(false)?;
    }
    Ok(told)
}

/// The reasons of merges from which two terms are equal, where they are in one class.
pub(crate) fn reasons(
    alloc: Global,
    classes: &Classes,
    merges: &[Stand],
    x: usize,
    y: usize,
) -> Result<Vec<usize>, AllocError>
    requires same { name classes.now.log x ≡ name classes.now.log y }
    requires caused { AreCaused classes.now.forms (merges_of merges.now) classes.now.log }
    ensures { IfOk result (λ v. IsEqual classes.now.forms (with_reasons v.items (merges_of merges.now)) x y) }
{
    let mut told = no_joins(alloc, classes.join_count())?;
    let mut reasons = Vec::new(alloc);
    let mut pending = Vec::new(alloc);
    pending.push(Pair { left: x, right: y })?;
    for _ in 0..usize::MAX {
        let Some(pair) = pending.pop() else {
            return Ok(reasons);
        };
        tell(classes, merges, &mut pending, &mut told, &mut reasons, pair)?;
    }
    Err(AllocError)
}
