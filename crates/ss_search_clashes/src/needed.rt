// The joins that are needed for the ways between some terms, and for those between the arguments of joins by congruence.

ghost use Rattle.std.specs.Prelude.{◌≡◌, ℕ, ◌<◌, List, Some, true, length, slice_get, IfOk, OnOk};
ghost use Rattle.ss_terms.specs.declared.forms.TermId.{TermId};
ghost use Rattle.ss_terms.specs.declared.forms.Symbol.{Symbol};
ghost use Rattle.ss_terms.specs.Forms.{TermShape, AppShape, HasTerms};
ghost use Rattle.ss_equality_rules.specs.declared.Join.{Join};
ghost use Rattle.ss_equality_rules.specs.Equal.{AreFormsOf};
ghost use Rattle.ss_equality_rules.specs.Names.{Has, name};
ghost use Rattle.ss_equality_rules.specs.Whole.{AreCaused};
ghost use Rattle.ss_search_clashes.specs.Ways.{way, ways, ArePaired, AreEnds};
ghost use Rattle.ss_search_clashes.specs.Needed.{Marks, MarksJoin, AreNeeded};

use crate::context::JoinContext;
use crate::ends::join_at;
use crate::ways::way;
use ss_equality_rules::Join;
use ss_terms::{Bank, Term, TermId};
use std::alloc::{AllocError, Global};

fn no_marks(alloc: Global, count: usize) -> Result<Vec<bool>, AllocError>
    ensures long { IfOk result (λ v. length v.items ≡ count) }
    ensures none { IfOk result (λ v. (j : ℕ) → slice_get v.items j ≡ Some true → ⊥) }
{
    let mut marks = Vec::new(alloc);
    for _i in 0..count {
        marks.push(false)?;
    }
    Ok(marks)
}

/// Whether the join with this number is marked.
pub(crate) fn is_marked(marks: &[bool], number: usize) -> bool
    requires { number < length marks.now }
    ensures { slice_get marks.now number ≡ Some result }
{
    marks[number]
}

fn mark(marks: &mut [bool], numbers: &[usize])
    requires { (j : ℕ) → Has numbers.now j → j < length marks.old }
    ensures { Marks numbers.now marks.old marks.new }
{
    for number in numbers {
        marks[*number] = true;
    }
}

// Marks the way between two terms.
fn mark_way(
    alloc: Global,
    joins: &[Join],
    ends: &[Option<usize>],
    marks: &mut [bool],
    x: usize,
    y: usize,
) -> Result<(), AllocError>
    requires ends { AreEnds joins.now ends.now }
    requires long { length marks.old ≡ length joins.now }
    requires same { name joins.now x ≡ name joins.now y }
    ensures { OnOk result (Marks (way joins.now x y) marks.old marks.new) }
{
    let numbers = way(alloc, joins, ends, x, y)?;
    mark(marks, &numbers);
    Ok(())
}

// Marks the ways between the terms of two lists.
fn mark_ways(
    alloc: Global,
    joins: &[Join],
    ends: &[Option<usize>],
    marks: &mut [bool],
    xs: &[TermId],
    ys: &[TermId],
) -> Result<(), AllocError>
    requires ends { AreEnds joins.now ends.now }
    requires long { length marks.old ≡ length joins.now }
    requires paired { ArePaired joins.now xs.now ys.now }
    ensures { OnOk result (Marks (ways joins.now xs.now ys.now) marks.old marks.new) }
{
    for i in 0..xs.len() {
        mark_way(alloc, joins, ends, marks, xs[i].0, ys[i].0)?;
    }
    Ok(())
}

/// The arguments of a term.
pub(crate) fn arguments(bank: &Bank, t: usize) -> &[TermId]
    requires { t < length bank.now.terms }
    ensures there { HasTerms bank.now result.now }
    ensures arguments { (ts : List TermShape) → AreFormsOf bank.now ts → (f : Symbol) (xs : List TermId) → slice_get ts t ≡ Some (AppShape f xs) → result.now ≡ xs }
{
    bank.numbers_are_apart();
    match bank.term_node(TermId(t)) {
        Term::App(_, arguments) => arguments,
        Term::Bound(_) => &[],
    }
}

// Marks what a marked join by congruence needs: the ways between its arguments.
fn mark_join(context: &JoinContext<'_>, marks: &mut [bool], number: usize) -> Result<(), AllocError>
    requires forms { AreFormsOf context.now.bank.now context.now.congruence.now.terms }
    requires caused { AreCaused context.now.congruence.now.terms context.now.congruence.now.merges context.now.joins.now }
    requires ends { AreEnds context.now.joins.now context.now.ends.now }
    requires long { length marks.old ≡ length context.now.joins.now }
    requires number { number < length context.now.joins.now }
    ensures { OnOk result ((e : Join) → slice_get context.now.joins.now number ≡ Some e → MarksJoin context.now.congruence.now.terms context.now.joins.now number e marks.old marks.new) }
{
    let _merges = context.congruence.mark();
    if !is_marked(marks, number) {
        return Ok(());
    }
    let join = join_at(context.joins, number);
    match join.why {
        Some(_) => Ok(()),
        None => {
            let xs = arguments(context.bank, join.left);
            let ys = arguments(context.bank, join.right);
            mark_ways(context.alloc, context.joins, context.ends, marks, xs, ys)
        }
    }
}

// Marks the joins that are needed, where none is marked.
fn mark_all(
    context: &JoinContext<'_>,
    marks: &mut [bool],
    xs: &[TermId],
    ys: &[TermId],
) -> Result<(), AllocError>
    requires forms { AreFormsOf context.now.bank.now context.now.congruence.now.terms }
    requires caused { AreCaused context.now.congruence.now.terms context.now.congruence.now.merges context.now.joins.now }
    requires ends { AreEnds context.now.joins.now context.now.ends.now }
    requires long { length marks.old ≡ length context.now.joins.now }
    requires none { (j : ℕ) → slice_get marks.old j ≡ Some true → ⊥ }
    requires paired { ArePaired context.now.joins.now xs.now ys.now }
    ensures { OnOk result (AreNeeded context.now.congruence.now.terms context.now.joins.now xs.now ys.now 0 marks.new) }
{
    mark_ways(context.alloc, context.joins, context.ends, marks, xs, ys)?;
    let mut number = context.joins.len();
    while number > 0 {
        number -= 1;
        mark_join(context, marks, number)?;
    }
    Ok(())
}

/// Which joins are needed for the ways between the terms of two lists.
pub(crate) fn needed(
    context: &JoinContext<'_>,
    xs: &[TermId],
    ys: &[TermId],
) -> Result<Vec<bool>, AllocError>
    requires forms { AreFormsOf context.now.bank.now context.now.congruence.now.terms }
    requires caused { AreCaused context.now.congruence.now.terms context.now.congruence.now.merges context.now.joins.now }
    requires ends { AreEnds context.now.joins.now context.now.ends.now }
    requires paired { ArePaired context.now.joins.now xs.now ys.now }
    ensures long { IfOk result (λ v. length v.items ≡ length context.now.joins.now) }
    ensures needed { IfOk result (λ v. AreNeeded context.now.congruence.now.terms context.now.joins.now xs.now ys.now 0 v.items) }
{
    let mut marks = no_marks(context.alloc, context.joins.len())?;
    mark_all(context, &mut marks, xs, ys)?;
    Ok(marks)
}
