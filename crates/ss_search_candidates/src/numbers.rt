// Numbers of terms that agree with what a case says.

ghost use Rattle.std.specs.Prelude.{◌≡◌, true, IfOk, IfSome, OnOk};
ghost use Rattle.ss_terms.specs.Forms.{HasFormula, HasFormulas, HasTerm};
ghost use Rattle.ss_linear.specs.Contradictions.{HasPairs};
ghost use Rattle.ss_linear_network.specs.Made.{AreNodesOf};

use crate::ranges::{Ranges, is_difference, keyed_fact};
use indexmap::IndexMap;
use ss_linear::{is_so, numbers_of};
use ss_linear_network::Numbers;
use ss_linear_sums::{SumFact, SumTable, equality_fact, sum_fact};
use ss_logic::Sort;
use ss_search_question::{
    ADD, AT_MOST, LITERAL, MULTIPLY, SUBTRACT, first_of, kind_of, of_term, opposite, pair_head,
    term_head,
};
use ss_search_state::State;
use ss_terms::{Bank, FormulaId, TermId};
use std::alloc::{AllocError, Global};

/// Whether the formula of a pair compares numbers.
pub(crate) fn compares(bank: &Bank, pair: usize) -> bool {
    kind_of(bank, first_of(pair)) == LITERAL && pair_head(bank, pair).kind == AT_MOST
}

// Adds a formula that the bank has.
fn add_formula(bank: &Bank, list: &mut Vec<FormulaId>, number: usize) -> Result<(), AllocError>
    requires { HasFormulas bank.now list.old.items }
    ensures { OnOk result (HasFormulas bank.now list.new.items) }
{
    let formula = FormulaId(number);
    if !bank.has_formula(formula) {
        return Ok(());
    }
    list.push(formula)?;
    Ok(())
}

// Adds the comparison of a pair, or its negation, where it is known.
fn add_comparison(
    state: &State,
    bank: &Bank,
    list: &mut Vec<FormulaId>,
    pair: usize,
) -> Result<(), AllocError>
    requires { HasFormulas bank.now list.old.items }
    ensures { OnOk result (HasFormulas bank.now list.new.items) }
{
    if !compares(bank, pair) {
        return Ok(());
    }
    let literal = first_of(pair);
    match state.nodes.value(literal) {
        Some(true) => add_formula(bank, list, literal),
        Some(false) => add_formula(bank, list, opposite(literal)),
        None => Ok(()),
    }
}

// The comparisons that are known, and the negations of those that are refuted.
fn comparisons(alloc: Global, state: &State, bank: &Bank) -> Result<Vec<FormulaId>, AllocError>
    ensures { IfOk result (λ v. HasFormulas bank.now v.items) }
{
    let mut list = Vec::new(alloc);
    for pair in 0..bank.formula_count() / 2 {
        add_comparison(state, bank, &mut list, pair)?;
    }
    Ok(list)
}

// Whether a number stands for a whole number of which something is known.
fn is_whole(state: &State, bank: &Bank, term: TermId) -> bool
    ensures { result ≡ true → HasTerm bank.now term }
{
    if !bank.has_term(term) {
        return false;
    }
    match bank.sort(term) {
        Sort::Whole => state.equal.is_there(of_term(term.0)),
        _ => false,
    }
}

// Whether sums take a term apart.
fn is_linear(bank: &Bank, term: TermId) -> bool {
    let kind = term_head(bank, term.0).kind;
    kind == ADD || kind == SUBTRACT || kind == MULTIPLY
}

// Notes a term as the first one of its class, where there is none yet.
fn note_first(
    state: &State,
    bank: &Bank,
    firsts: &mut IndexMap<usize, usize>,
    term: TermId,
) -> Result<(), AllocError> {
    if !is_whole(state, bank, term) {
        return Ok(());
    }
    let class = state.equal.class(of_term(term.0));
    if firsts.get(&class).is_some() {
        return Ok(());
    }
    firsts.insert(class, term.0)?;
    Ok(())
}

// For each class of whole numbers a term, one that sums don't take apart where there is one.
fn firsts_of(
    alloc: Global,
    state: &State,
    bank: &Bank,
) -> Result<IndexMap<usize, usize>, AllocError> {
    let mut firsts = IndexMap::new(alloc);
    for term in 0..bank.term_count() {
        if !is_linear(bank, TermId(term)) {
            note_first(state, bank, &mut firsts, TermId(term))?;
        }
    }
    for term in 0..bank.term_count() {
        note_first(state, bank, &mut firsts, TermId(term))?;
    }
    Ok(firsts)
}

// Adds two terms, where they are two and the bank has the first one.
fn add_pair(
    bank: &Bank,
    list: &mut Vec<(TermId, TermId)>,
    first: TermId,
    term: TermId,
) -> Result<(), AllocError>
    requires pairs { HasPairs bank.now list.old.items }
    requires term { HasTerm bank.now term }
    ensures { OnOk result (HasPairs bank.now list.new.items) }
{
    if first.0 == term.0 {
        return Ok(());
    }
    if !bank.has_term(first) {
        return Ok(());
    }
    list.push((first, term))?;
    Ok(())
}

// Adds that a term is equal to the first one of its class.
fn add_equality(
    state: &State,
    bank: &Bank,
    firsts: &IndexMap<usize, usize>,
    list: &mut Vec<(TermId, TermId)>,
    term: TermId,
) -> Result<(), AllocError>
    requires { HasPairs bank.now list.old.items }
    ensures { OnOk result (HasPairs bank.now list.new.items) }
{
    if !is_whole(state, bank, term) {
        return Ok(());
    }
    let class = state.equal.class(of_term(term.0));
    match firsts.get(&class) {
        Some(first) => add_pair(bank, list, TermId(*first), term),
        None => Ok(()),
    }
}

// Each whole number with the first one of its class.
fn equalities(
    alloc: Global,
    state: &State,
    bank: &Bank,
) -> Result<Vec<(TermId, TermId)>, AllocError>
    ensures { IfOk result (λ v. HasPairs bank.now v.items) }
{
    let firsts = firsts_of(alloc, state, bank)?;
    let mut list = Vec::new(alloc);
    for term in 0..bank.term_count() {
        add_equality(state, bank, &firsts, &mut list, TermId(term))?;
    }
    Ok(list)
}

/// What the comparisons of a case say.
#[derive(Drop)]
pub(crate) struct Known {
    // Numbers at which those that are differences are so.
    numbers: Option<Numbers>,
    // What all say of sums.
    ranges: Ranges,
}

// Adds what a fact says of sums.
fn add_fact(
    alloc: Global,
    state: &State,
    bank: &Bank,
    ranges: &mut Ranges,
    fact: &Option<SumFact>,
) -> Result<(), AllocError> {
    match fact {
        Some(fact) => {
            let found = keyed_fact(alloc, state, bank, fact)?;
            match found {
                Some(keyed) => ranges.add(keyed),
                None => Ok(()),
            }
        }
        None => Ok(()),
    }
}

// Adds what formulas say of sums.
fn add_formulas(
    alloc: Global,
    state: &State,
    bank: &Bank,
    ranges: &mut Ranges,
    facts: &[FormulaId],
) -> Result<(), AllocError>
    requires { HasFormulas bank.now facts.now }
{
    let mut table = SumTable::new(alloc);
    for f in facts {
        let fact = sum_fact(alloc, bank, &mut table, *f)?;
        add_fact(alloc, state, bank, ranges, &fact)?;
    }
    Ok(())
}

// Adds what equalities say of sums.
fn add_equal(
    alloc: Global,
    state: &State,
    bank: &Bank,
    ranges: &mut Ranges,
    pairs: &[(TermId, TermId)],
) -> Result<(), AllocError>
    requires { HasPairs bank.now pairs.now }
{
    let mut table = SumTable::new(alloc);
    for pair in pairs {
        let fact = equality_fact(alloc, bank, &mut table, pair.0, pair.1)?;
        add_fact(alloc, state, bank, ranges, &fact)?;
    }
    Ok(())
}

// What comparisons and equalities say of sums.
fn ranges_of(
    alloc: Global,
    state: &State,
    bank: &Bank,
    facts: &[FormulaId],
    pairs: &[(TermId, TermId)],
) -> Result<Ranges, AllocError>
    requires facts { HasFormulas bank.now facts.now }
    requires pairs { HasPairs bank.now pairs.now }
{
    let mut ranges = Ranges::new(alloc);
    add_formulas(alloc, state, bank, &mut ranges, facts)?;
    add_equal(alloc, state, bank, &mut ranges, pairs)?;
    Ok(ranges)
}

impl Known {
    /// What a case says. No numbers stand where its differences contradict each other.
    pub(crate) fn of(alloc: Global, state: &State, bank: &Bank) -> Result<Known, AllocError>
        ensures { IfOk result (λ k. IfSome k.numbers (λ n. AreNodesOf bank.now n.nodes)) }
    {
        let known = comparisons(alloc, state, bank)?;
        let equal = equalities(alloc, state, bank)?;
        let facts = known.as_slice();
        let pairs = equal.as_slice();
        let ranges = ranges_of(alloc, state, bank, facts, pairs)?;
        let numbers = numbers_of(alloc, bank, facts, pairs)?;
        Ok(Known { numbers, ranges })
    }

    // Whether a fact is so by what is known of its sum, where that is no difference.
    fn decided(
        &self,
        alloc: Global,
        state: &State,
        bank: &Bank,
        fact: &SumFact,
    ) -> Result<Option<bool>, AllocError> {
        if is_difference(&fact.sum) {
            return Ok(None);
        }
        let found = keyed_fact(alloc, state, bank, fact)?;
        match found {
            Some(keyed) => Ok(self.ranges.decides(&keyed)),
            None => Ok(None),
        }
    }

    // The same of a comparison.
    fn by_ranges(
        &self,
        alloc: Global,
        state: &State,
        bank: &Bank,
        f: FormulaId,
    ) -> Result<Option<bool>, AllocError>
        requires { HasFormula bank.now f }
    {
        let mut table = SumTable::new(alloc);
        let fact = sum_fact(alloc, bank, &mut table, f)?;
        match fact {
            Some(fact) => self.decided(alloc, state, bank, &fact),
            None => Ok(None),
        }
    }

    // Whether a comparison is so at the numbers.
    fn by_numbers(&self, alloc: Global, bank: &Bank, f: FormulaId) -> Result<bool, AllocError>
        requires formula { HasFormula bank.now f }
        requires numbers { IfSome self.now.numbers (λ n. AreNodesOf bank.now n.nodes) }
    {
        match &self.numbers {
            Some(numbers) => is_so(alloc, bank, numbers, f),
            None => Ok(false),
        }
    }

    /// Whether a comparison of which nothing is known is made true.
    pub(crate) fn is_so(
        &self,
        alloc: Global,
        state: &State,
        bank: &Bank,
        f: FormulaId,
    ) -> Result<bool, AllocError>
        requires { IfSome self.now.numbers (λ n. AreNodesOf bank.now n.nodes) }
    {
        if !bank.has_formula(f) {
            return Ok(false);
        }
        let decided = self.by_ranges(alloc, state, bank, f)?;
        match decided {
            Some(truth) => Ok(truth),
            None => self.by_numbers(alloc, bank, f),
        }
    }
}
