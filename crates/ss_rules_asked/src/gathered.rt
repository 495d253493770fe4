// Reads, counts and pairs, gathered.

ghost use Rattle.std.specs.Prelude.{◌≡◌, ◌∷◌, [], ◌++◌, filter, filter_map, option_map, option_to_list, IfOk, IfSome, OnOk};
ghost use Rattle.ss_logic.specs.Asked as spec;
ghost use Rattle.ss_terms.specs.Forms.{term_at, terms_at, formula_at, formulas_at, HasTerm, HasTerms, HasFormula, HasFormulas};
ghost use Rattle.ss_rules_asked.specs.Readings.{is_store_equation, reading_at, readings_at, counts_at, all_counts_at, HasReading, HasReadings, HasCount, HasCounts, AreReadings, AreCounts, AreTerms};

use crate::forms::{
    Counts, Reading, counted, is_pair, is_store_equation, reading_of_atom, reading_of_term,
};
use ss_terms::{Bank, FormulaId, TermId};
use std::alloc::{AllocError, Global};

// Adds a read, if it is one.
#[tactic(auto, using(crate::proofs::Gathering::reading_pushed, crate::proofs::Gathering::reading_kept))]
fn add_reading(
    bank: &Bank,
    readings: &mut Vec<Reading>,
    read: Option<Reading>,
) -> Result<(), AllocError>
    requires readings { HasReadings bank.now readings.old.items }
    requires read { IfSome read (HasReading bank.now) }
    ensures { OnOk result (AreReadings bank.now readings.new.items (readings_at bank.now readings.old.items ++ option_to_list (option_map (reading_at bank.now) read))) }
{
    let _ = bank;
    match read {
        Some(r) => {
            readings.push(r)?;
            Ok(())
        }
        None => Ok(()),
    }
}

// Adds the reads that terms are.
fn add_readings_of_terms(
    bank: &Bank,
    readings: &mut Vec<Reading>,
    terms: &[TermId],
) -> Result<(), AllocError>
    requires readings { HasReadings bank.now readings.old.items }
    requires terms { HasTerms bank.now terms.now }
    ensures { OnOk result (AreReadings bank.now readings.new.items (readings_at bank.now readings.old.items ++ filter_map spec.reading_of_term (terms_at bank.now terms.now))) }
{
    for t in terms {
        let read = reading_of_term(bank, *t);
        add_reading(bank, readings, read)?;
    }
    Ok(())
}

// And those that atoms are.
fn add_readings_of_atoms(
    bank: &Bank,
    readings: &mut Vec<Reading>,
    atoms: &[FormulaId],
) -> Result<(), AllocError>
    requires readings { HasReadings bank.now readings.old.items }
    requires atoms { HasFormulas bank.now atoms.now }
    ensures { OnOk result (AreReadings bank.now readings.new.items (readings_at bank.now readings.old.items ++ filter_map spec.reading_of_atom (formulas_at bank.now atoms.now))) }
{
    for f in atoms {
        let read = reading_of_atom(bank, *f);
        add_reading(bank, readings, read)?;
    }
    Ok(())
}

/// The reads of terms and atoms. An error is want of memory.
pub fn readings(
    alloc: Global,
    bank: &Bank,
    atoms: &[FormulaId],
    terms: &[TermId],
) -> Result<Vec<Reading>, AllocError>
    requires atoms { HasFormulas bank.now atoms.now }
    requires terms { HasTerms bank.now terms.now }
    ensures { IfOk result (λ v. AreReadings bank.now v.items (spec.readings (formulas_at bank.now atoms.now) (terms_at bank.now terms.now))) }
{
    let mut readings = Vec::new(alloc);
    add_readings_of_terms(bank, &mut readings, terms)?;
    add_readings_of_atoms(bank, &mut readings, atoms)?;
    Ok(readings)
}

// Adds an atom, if it says what a constant for stores equals.
fn add_equation(bank: &Bank, equations: &mut Vec<FormulaId>, f: FormulaId) -> Result<(), AllocError>
    requires equations { HasFormulas bank.now equations.old.items }
    requires formula { HasFormula bank.now f }
    ensures has { OnOk result (HasFormulas bank.now equations.new.items) }
    ensures are { OnOk result (formulas_at bank.now equations.new.items ≡ formulas_at bank.now equations.old.items ++ filter is_store_equation (formula_at bank.now f ∷ [])) }
{
    if !is_store_equation(bank, f) {
        return Ok(());
    }
    equations.push(f)?;
    Ok(())
}

/// The atoms that say what a constant for stores equals. An error is want of memory.
pub(crate) fn store_equations(
    alloc: Global,
    bank: &Bank,
    atoms: &[FormulaId],
) -> Result<Vec<FormulaId>, AllocError>
    requires { HasFormulas bank.now atoms.now }
    ensures has { IfOk result (λ v. HasFormulas bank.now v.items) }
    ensures are { IfOk result (λ v. formulas_at bank.now v.items ≡ filter is_store_equation (formulas_at bank.now atoms.now)) }
{
    let mut equations = Vec::new(alloc);
    for f in atoms {
        add_equation(bank, &mut equations, *f)?;
    }
    Ok(equations)
}

// Adds what is counted, if anything is.
#[tactic(auto, using(crate::proofs::Gathering::count_pushed, crate::proofs::Gathering::count_kept))]
fn add_count(bank: &Bank, counts: &mut Vec<Counts>, count: Option<Counts>) -> Result<(), AllocError>
    requires counts { HasCounts bank.now counts.old.items }
    requires count { IfSome count (HasCount bank.now) }
    ensures { OnOk result (AreCounts bank.now counts.new.items (all_counts_at bank.now counts.old.items ++ option_to_list (option_map (counts_at bank.now) count))) }
{
    let _ = bank;
    match count {
        Some(c) => {
            counts.push(c)?;
            Ok(())
        }
        None => Ok(()),
    }
}

/// What atoms count as classes. An error is want of memory.
pub(crate) fn all_counts(
    alloc: Global,
    bank: &Bank,
    atoms: &[FormulaId],
) -> Result<Vec<Counts>, AllocError>
    requires { HasFormulas bank.now atoms.now }
    ensures { IfOk result (λ v. AreCounts bank.now v.items (filter_map spec.counts (formulas_at bank.now atoms.now))) }
{
    let mut counts = Vec::new(alloc);
    for f in atoms {
        let count = counted(bank, *f);
        add_count(bank, &mut counts, count)?;
    }
    Ok(counts)
}

// Adds a term, if it is a pair.
#[tactic(auto, using(crate::proofs::Gathering::pair_pushed, crate::proofs::Gathering::pair_kept))]
fn add_pair(bank: &Bank, pairs: &mut Vec<TermId>, t: TermId) -> Result<(), AllocError>
    requires pairs { HasTerms bank.now pairs.old.items }
    requires term { HasTerm bank.now t }
    ensures { OnOk result (AreTerms bank.now pairs.new.items (terms_at bank.now pairs.old.items ++ filter spec.is_pair (term_at bank.now t ∷ []))) }
{
    if !is_pair(bank, t) {
        return Ok(());
    }
    pairs.push(t)?;
    Ok(())
}

/// The pairs among terms. An error is want of memory.
pub(crate) fn pairs(alloc: Global, bank: &Bank, terms: &[TermId]) -> Result<Vec<TermId>, AllocError>
    requires { HasTerms bank.now terms.now }
    ensures { IfOk result (λ v. AreTerms bank.now v.items (filter spec.is_pair (terms_at bank.now terms.now))) }
{
    let mut pairs = Vec::new(alloc);
    for t in terms {
        add_pair(bank, &mut pairs, *t)?;
    }
    Ok(pairs)
}
