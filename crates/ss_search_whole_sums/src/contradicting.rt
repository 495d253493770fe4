// The lines of the equalities that sums use, and those of the sums.

ghost use Rattle.std.specs.Prelude.{◌≡◌, ◌++◌, List, [], IfOk, IfSome, IfNone, OnOk};
ghost use Rattle.ss_core.specs.Tree.{ClassTree};
ghost use Rattle.ss_terms.specs.Forms.{HasTerm, HasFormulas, formulas_at, IsBankOf};
ghost use Rattle.ss_equality_rules.specs.Equal.{IsEqual, AreFormsOf};
ghost use Rattle.ss_linear_rules.specs.Two.{Two};
ghost use Rattle.ss_linear.specs.Contradictions.{sums_of, equalities_at, HasPairs};
ghost use Rattle.ss_search_whole_sums.specs.Contradicting.{ArePairsEqual, Adds, AddsUsed, AreWritten, CloseWith, CloseFacts};

use crate::summing::{close_by_sums, uses};
use ss_deriv::{Line, Sum};
use ss_linear::refute_with;
use ss_search_clashes::{CongruenceContext, equate};
use ss_terms::{FormulaId, TermId};
use std::alloc::{AllocError, Global};

// The places of facts and of equalities after them, and the lines that make the equalities known.
#[derive(Drop)]
struct Written {
    places: Vec<usize>,
    lines: Vec<Line>,
}

// The places of the facts alone.
fn begin(alloc: Global, places: &[usize]) -> Result<Written, AllocError>
    ensures places { IfOk result (λ w. w.places.items ≡ places.now) }
    ensures lines { IfOk result (λ w. w.lines.items ≡ []) }
{
    Ok(Written {
        places: Vec::from_slice(alloc, places)?,
        lines: Vec::new(alloc),
    })
}

// Makes it known that two terms are equal.
fn write(
    context: &CongruenceContext<'_>,
    written: &mut Written,
    x: TermId,
    y: TermId,
) -> Result<(), AllocError>
    requires left { HasTerm context.now.bank.now x }
    requires right { HasTerm context.now.bank.now y }
    requires forms { AreFormsOf context.now.bank.now context.now.congruence.now.terms }
    requires equal { IsEqual context.now.congruence.now.terms context.now.congruence.now.merges x.0 y.0 }
    ensures { OnOk result (Adds context.now.bank.now context.now.congruence.now.merges context.now.count (x, y) written.old.lines.items written.new.lines.items written.old.places.items written.new.places.items) }
{
    let count = context
        .count
        .checked_add(written.lines.len())
        .ok_or(AllocError)?;
    let longer = CongruenceContext {
        alloc: context.alloc,
        bank: context.bank,
        congruence: context.congruence,
        count,
    };
    let mut shown = equate(&longer, x, y)?;
    written.lines.append(&mut shown.lines)?;
    written.places.push(shown.place)?;
    Ok(())
}

// The same where the sums use the equality, which stands after all that has a place. Else any place serves.
fn write_used(
    context: &CongruenceContext<'_>,
    sums: &[Sum],
    written: &mut Written,
    x: TermId,
    y: TermId,
) -> Result<(), AllocError>
    requires left { HasTerm context.now.bank.now x }
    requires right { HasTerm context.now.bank.now y }
    requires forms { AreFormsOf context.now.bank.now context.now.congruence.now.terms }
    requires equal { IsEqual context.now.congruence.now.terms context.now.congruence.now.merges x.0 y.0 }
    ensures { OnOk result (AddsUsed context.now.bank.now context.now.congruence.now.merges context.now.count (sums_of sums.now) (x, y) written.old.lines.items written.new.lines.items written.old.places.items written.new.places.items) }
{
    let place = written.places.len();
    if uses(sums, place) {
        return write(context, written, x, y);
    }
    written.places.push(0)?;
    Ok(())
}

// The places of the facts and of the equalities, of which those that the sums use are made known.
fn write_all(
    context: &CongruenceContext<'_>,
    places: &[usize],
    equalities: &[(TermId, TermId)],
    sums: &[Sum],
) -> Result<Written, AllocError>
    requires pairs { HasPairs context.now.bank.now equalities.now }
    requires forms { AreFormsOf context.now.bank.now context.now.congruence.now.terms }
    requires equal { ArePairsEqual context.now.congruence.now equalities.now }
    ensures { IfOk result (λ w. AreWritten context.now.bank.now context.now.congruence.now.merges context.now.count (sums_of sums.now) places.now equalities.now w.places.items w.lines.items) }
{
    let mut written = begin(context.alloc, places)?;
    for equality in equalities {
        write_used(context, sums, &mut written, equality.0, equality.1)?;
    }
    Ok(written)
}

// Lines that close a case, where sums of facts and of equalities after them end in what is false. `places` has the place of each fact
// among so many known formulas. The equalities follow by congruence from those of the merges, which are known at their reasons. An
// error is want of memory.
fn contradict(
    context: &CongruenceContext<'_>,
    places: &[usize],
    equalities: &[(TermId, TermId)],
    sums: &[Sum],
) -> Result<Vec<Line>, AllocError>
    requires pairs { HasPairs context.now.bank.now equalities.now }
    requires forms { AreFormsOf context.now.bank.now context.now.congruence.now.terms }
    requires equal { ArePairsEqual context.now.congruence.now equalities.now }
    ensures { IfOk result (λ v. CloseWith context.now.bank.now context.now.congruence.now.merges context.now.count places.now equalities.now (sums_of sums.now) v.items) }
{
    let mut written = write_all(context, places, equalities, sums)?;
    let count = context
        .count
        .checked_add(written.lines.len())
        .ok_or(AllocError)?;
    let mut closing = close_by_sums(context.alloc, &written.places, count, sums)?;
    written.lines.append(&mut closing)?;
    Ok(written.lines)
}

/// Lines that close a case in which facts and equalities contradict each other by sums. None only where no sum of one or two of them, or of
/// differences, does. `places` has the place of each fact among so many known formulas. The equalities follow by congruence from those of the merges,
/// which are known at their reasons. An error is want of memory.
pub(crate) fn close_contradiction(
    context: &CongruenceContext<'_>,
    facts: &[FormulaId],
    places: &[usize],
    equalities: &[(TermId, TermId)],
) -> Result<Option<Vec<Line>>, AllocError>
    requires facts { HasFormulas context.now.bank.now facts.now }
    requires pairs { HasPairs context.now.bank.now equalities.now }
    requires forms { AreFormsOf context.now.bank.now context.now.congruence.now.terms }
    requires equal { ArePairsEqual context.now.congruence.now equalities.now }
    ensures none { (cs : List ClassTree) → IsBankOf cs context.now.bank.now → IfOk result (λ o. IfNone o (Two cs (formulas_at context.now.bank.now facts.now ++ equalities_at context.now.bank.now equalities.now) → ⊥)) }
    ensures some { (cs : List ClassTree) → IsBankOf cs context.now.bank.now → IfOk result (λ o. IfSome o (λ v. CloseFacts cs context.now.bank.now context.now.congruence.now.merges context.now.count facts.now places.now equalities.now v.items)) }
{
    let Some(sums) = refute_with(context.alloc, context.bank, facts, equalities)? else {
        return Ok(None);
    };
    let lines = contradict(context, places, equalities, &sums)?;
    Ok(Some(lines))
}
