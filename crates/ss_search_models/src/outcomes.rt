// What formulas come out as.

ghost use Rattle.std.specs.Prelude.{◌≡◌, ◌≤◌, ◌*◌, length, IfOk};
ghost use Rattle.std.specs.List.{list_all, list_any};
ghost use Rattle.ss_logic_countermodels.specs.Refuting.{comes_out};
ghost use Rattle.ss_terms.specs.Forms.{formula_at, formulas_at, HasFormula, HasFormulas, AreBelow};
ghost use Rattle.ss_search_models.specs.Candidates.{model_at, HasCandidate};
ghost use Rattle.ss_search_models.specs.Found.{AreOutcomes, Finds};

use crate::candidate::Candidate;
use crate::telling::told_of;
use ss_bit_set::BitSet;
use ss_terms::{Bank, Formula, FormulaId};
use std::alloc::{AllocError, Global};

/// The numbers of the formulas whose outcome is known, and of those of them that come out true.
#[derive(Drop)]
pub(crate) struct Outcomes {
    pub(crate) known: BitSet,
    pub(crate) trues: BitSet,
}

impl Outcomes {
    fn new(alloc: Global, bank: &Bank, candidate: &Candidate<'_>) -> Outcomes
        ensures { AreOutcomes bank.now (model_at bank.now candidate.now) result }
    {
        let _ = bank;
        let _ = candidate;
        Outcomes {
            known: BitSet::new(alloc),
            trues: BitSet::new(alloc),
        }
    }
}

// What a formula comes out as.
#[cycle(finding)]
fn outcome(
    bank: &Bank,
    candidate: &Candidate<'_>,
    outcomes: &mut Outcomes,
    f: FormulaId,
) -> Result<bool, AllocError>
    requires candidate { HasCandidate bank.now candidate.now }
    requires outcomes { AreOutcomes bank.now (model_at bank.now candidate.now) outcomes.old }
    requires formula { HasFormula bank.now f }
    ensures { IfOk result (λ r. Finds bank.now (model_at bank.now candidate.now) outcomes.new r (comes_out (model_at bank.now candidate.now) (formula_at bank.now f))) }
{
    if outcomes.known.has(f.0) {
        return Ok(outcomes.trues.has(f.0));
    }
    let found = new_outcome(bank, candidate, outcomes, f)?;
    outcomes.known.put(f.0, true)?;
    outcomes.trues.put(f.0, found)?;
    Ok(found)
}

#[cycle(finding)]
fn new_outcome(
    bank: &Bank,
    candidate: &Candidate<'_>,
    outcomes: &mut Outcomes,
    f: FormulaId,
) -> Result<bool, AllocError>
    requires candidate { HasCandidate bank.now candidate.now }
    requires outcomes { AreOutcomes bank.now (model_at bank.now candidate.now) outcomes.old }
    requires formula { HasFormula bank.now f }
    ensures { IfOk result (λ r. Finds bank.now (model_at bank.now candidate.now) outcomes.new r (comes_out (model_at bank.now candidate.now) (formula_at bank.now f))) }
{
    match bank.formula_node(f) {
        Formula::Literal { holds, .. } => Ok(candidate.truth(bank, told_of(bank, f)) == *holds),
        Formula::And(parts) => all_come_true(bank, candidate, outcomes, parts, f.0),
        Formula::Or(parts) => some_come_true(bank, candidate, outcomes, parts, f.0),
        Formula::Forall(_, _) => Ok(candidate.truth(bank, f)),
        Formula::Exists(_, _) => Ok(!candidate.truth(bank, told_of(bank, f))),
    }
}

// Whether all of these formulas below a number come out true.
#[cycle(finding)]
fn all_come_true(
    bank: &Bank,
    candidate: &Candidate<'_>,
    outcomes: &mut Outcomes,
    fs: &[FormulaId],
    bound: usize,
) -> Result<bool, AllocError>
    requires candidate { HasCandidate bank.now candidate.now }
    requires outcomes { AreOutcomes bank.now (model_at bank.now candidate.now) outcomes.old }
    requires below { AreBelow bound fs.now }
    requires in_bank { bound ≤ length bank.now.formulas * 2 }
    ensures { IfOk result (λ r. Finds bank.now (model_at bank.now candidate.now) outcomes.new r (list_all (comes_out (model_at bank.now candidate.now)) (formulas_at bank.now fs.now))) }
{
    for f in fs {
        if !outcome(bank, candidate, outcomes, *f)? {
            return Ok(false);
        }
    }
    Ok(true)
}

// Whether one of these formulas below a number comes out true.
#[cycle(finding)]
fn some_come_true(
    bank: &Bank,
    candidate: &Candidate<'_>,
    outcomes: &mut Outcomes,
    fs: &[FormulaId],
    bound: usize,
) -> Result<bool, AllocError>
    requires candidate { HasCandidate bank.now candidate.now }
    requires outcomes { AreOutcomes bank.now (model_at bank.now candidate.now) outcomes.old }
    requires below { AreBelow bound fs.now }
    requires in_bank { bound ≤ length bank.now.formulas * 2 }
    ensures { IfOk result (λ r. Finds bank.now (model_at bank.now candidate.now) outcomes.new r (list_any (comes_out (model_at bank.now candidate.now)) (formulas_at bank.now fs.now))) }
{
    for f in fs {
        if outcome(bank, candidate, outcomes, *f)? {
            return Ok(true);
        }
    }
    Ok(false)
}

/// Whether the formulas come out true. An error is want of memory.
pub(crate) fn come_true(
    alloc: Global,
    bank: &Bank,
    candidate: &Candidate<'_>,
    fs: &[FormulaId],
) -> Result<bool, AllocError>
    requires candidate { HasCandidate bank.now candidate.now }
    requires formulas { HasFormulas bank.now fs.now }
    ensures { IfOk result (λ r. r ≡ list_all (comes_out (model_at bank.now candidate.now)) (formulas_at bank.now fs.now)) }
{
    let mut outcomes = Outcomes::new(alloc, bank, candidate);
    all_come_true(bank, candidate, &mut outcomes, fs, bank.formula_count())
}
