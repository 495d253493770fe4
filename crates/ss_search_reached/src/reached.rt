// Known formulas, and what is kept of them.

ghost use Rattle.std.specs.Prelude.{◌≡◌, ◌≤◌, ◌<◌, ◌∷◌, ◌++◌, ◌↔◌, [], length, take, true, false, None, IsTrue, IfOk, IfSome, OnOk};
ghost use Rattle.std.specs.List.{Contains};
ghost use Rattle.ss_paths.specs.Sets.{put};
ghost use Rattle.ss_bit_set.specs.Marked.{marked};
ghost use Rattle.ss_terms.specs.declared.forms.TermId.{TermId};
ghost use Rattle.ss_terms.specs.declared.forms.FormulaId.{FormulaId};
ghost use Rattle.ss_terms.specs.Forms.{term_at, formula_at, HasTerm, HasFormula};
ghost use Rattle.ss_equality_rules.specs.Equal.{AreFormsOf, IsEqual};
ghost use Rattle.ss_search_clashes.specs.Numbered.{AreMerged};
ghost use Rattle.ss_search_reached.specs.Known as words;
ghost use Rattle.ss_search_reached.specs.Known.{known_in, merges_at, AreOneName, AreOfNames, IsReached, AreMergesWith, Remembers};

use ss_bit_set::BitSet;
use ss_equality::Congruence;
use ss_search_clashes::sides;
use ss_terms::{Bank, FormulaId, Term, TermId};
use std::alloc::{AllocError, Global};

/// Known formulas, in the order in which they became known.
#[derive(Drop)]
pub struct Reached {
    /// Their numbers.
    pub known: Vec<FormulaId>,
    /// The set of these numbers.
    pub numbers: BitSet,
    /// The known equalities, merged.
    pub congruence: Congruence,
    /// How many merges there were before each known formula.
    pub merges: Vec<usize>,
    /// The class of each term, by a number, where it was last asked what follows.
    pub classes: Vec<usize>,
}

// Takes a number out of a set.
fn take_out(numbers: &mut BitSet, number: usize)
    requires { marked numbers.old number ≡ true }
    ensures { marked numbers.new ≡ put number false (marked numbers.old) }
{
    if number < numbers.list.len() {
        numbers.list[number] = false;
    }
}

fn is_name(bank: &Bank, t: TermId) -> bool
    requires { HasTerm bank.now t }
    ensures { result ≡ words.is_name (term_at bank.now t) }
{
    match bank.term_node(t) {
        Term::Bound(_) => true,
        Term::App(_, _) => false,
    }
}

/// The first of the bank's terms that is a name that nothing binds.
pub(crate) fn first_name(bank: &Bank) -> Option<TermId>
    ensures some { IfSome result (λ t. HasTerm bank.now t × (words.is_name (term_at bank.now t) ≡ true)) }
    ensures none { result ≡ None → (t : TermId) → HasTerm bank.now t → words.is_name (term_at bank.now t) ≡ false }
{
    for number in 0..bank.term_count() {
        if is_name(bank, TermId(number)) {
            return Some(TermId(number));
        }
    }
    None
}

// Merges a term with the first such name, where it is one too.
fn merge_name(
    congruence: &mut Congruence,
    bank: &Bank,
    first: TermId,
    t: TermId,
) -> Result<(), AllocError>
    requires forms { AreFormsOf bank.now congruence.old.terms }
    requires first { HasTerm bank.now first }
    requires term { HasTerm bank.now t }
    ensures terms { OnOk result (congruence.new.terms ≡ congruence.old.terms) }
    ensures begins { OnOk result (take (length congruence.old.merges) congruence.new.merges ≡ congruence.old.merges) }
    ensures named { OnOk result (words.is_name (term_at bank.now t) ≡ true → IsEqual congruence.new.terms congruence.new.merges first.0 t.0) }
    ensures of_names { OnOk result (words.is_name (term_at bank.now first) ≡ true → AreOfNames bank.now congruence.old.merges → AreOfNames bank.now congruence.new.merges) }
{
    bank.numbers_are_apart();
    if !is_name(bank, t) {
        return Ok(());
    }
    congruence.merge(bank, first, t, 0)?;
    Ok(())
}

// Merges all such names: a model has one class for them.
fn merge_names(congruence: &mut Congruence, bank: &Bank) -> Result<(), AllocError>
    requires { AreFormsOf bank.now congruence.old.terms }
    ensures terms { OnOk result (congruence.new.terms ≡ congruence.old.terms) }
    ensures names { OnOk result (AreOneName bank.now congruence.new.terms congruence.new.merges) }
    ensures of_names { OnOk result (AreOfNames bank.now congruence.old.merges → AreOfNames bank.now congruence.new.merges) }
{
    let Some(first) = first_name(bank) else {
        return Ok(());
    };
    for number in 0..bank.term_count() {
        merge_name(congruence, bank, first, TermId(number))?;
    }
    Ok(())
}

// Merges the sides of a formula where it is an equality that holds.
fn merge_sides(
    congruence: &mut Congruence,
    bank: &Bank,
    f: FormulaId,
    because: usize,
) -> Result<(), AllocError>
    requires forms { AreFormsOf bank.now congruence.old.terms }
    requires formula { HasFormula bank.now f }
    ensures terms { OnOk result (congruence.new.terms ≡ congruence.old.terms) }
    ensures begins { OnOk result (take (length congruence.old.merges) congruence.new.merges ≡ congruence.old.merges) }
    ensures merged { OnOk result (AreMerged bank.now congruence.new.terms congruence.new.merges (f ∷ [])) }
    ensures reasons { OnOk result (AreMergesWith bank.now (formula_at bank.now f) because congruence.old.merges congruence.new.merges) }
{
    bank.numbers_are_apart();
    let Some(equality) = sides(bank, f) else {
        return Ok(());
    };
    if !equality.holds {
        return Ok(());
    }
    congruence.merge(bank, equality.left, equality.right, because)?;
    Ok(())
}

impl Reached {
    /// Nothing is known. An error is want of memory.
    pub fn new(alloc: Global, bank: &Bank) -> Result<Self, AllocError>
        ensures reached { IfOk result (IsReached bank.now) }
        ensures known { IfOk result (λ r. known_in bank.now r ≡ []) }
        ensures names { IfOk result (λ r. AreOfNames bank.now r.congruence.merges) }
    {
        let mut congruence = Congruence::new(alloc);
        congruence.ready(bank)?;
        merge_names(&mut congruence, bank)?;
        Ok(Reached {
            known: Vec::new(alloc),
            numbers: BitSet::new(alloc),
            congruence,
            merges: Vec::new(alloc),
            classes: Vec::new(alloc),
        })
    }

    /// How many formulas are known.
    pub fn mark(&self) -> usize
        ensures { result ≡ length self.now.known.items }
    {
        self.known.len()
    }

    /// Whether a formula is known.
    pub fn knows(&self, bank: &Bank, f: FormulaId) -> bool
        requires reached { IsReached bank.now self.now }
        requires formula { HasFormula bank.now f }
        ensures { IsTrue result ↔ Contains (known_in bank.now self.now) (formula_at bank.now f) }
    {
        bank.numbers_are_apart();
        self.numbers.has(f.0)
    }

    /// One more formula is known. Where it is an equality that holds, it is merged for this reason.
    pub fn add_because(
        &mut self,
        bank: &Bank,
        f: FormulaId,
        because: usize,
    ) -> Result<(), AllocError>
        requires reached { IsReached bank.now self.old }
        requires formula { HasFormula bank.now f }
        requires new { Contains (known_in bank.now self.old) (formula_at bank.now f) → ⊥ }
        ensures reached { OnOk result (IsReached bank.now self.new) }
        ensures numbers { OnOk result (self.new.known.items ≡ self.old.known.items ++ f ∷ []) }
        ensures known { OnOk result (known_in bank.now self.new ≡ known_in bank.now self.old ++ formula_at bank.now f ∷ []) }
        ensures classes { OnOk result (self.new.classes.items ≡ self.old.classes.items) }
        ensures reasons { OnOk result (AreMergesWith bank.now (formula_at bank.now f) because self.old.congruence.merges self.new.congruence.merges) }
        ensures remembers { OnOk result (Remembers self.old self.new) }
    {
        bank.numbers_are_apart();
        let mark = self.congruence.mark();
        merge_sides(&mut self.congruence, bank, f, because)?;
        self.merges.push(mark)?;
        self.enter(f)?;
        Ok(())
    }

    // The number is known.
    fn enter(&mut self, f: FormulaId) -> Result<(), AllocError>
        ensures known { OnOk result (self.new.known.items ≡ self.old.known.items ++ f ∷ []) }
        ensures numbers { OnOk result (marked self.new.numbers ≡ put f.0 true (marked self.old.numbers)) }
        ensures merges { OnOk result (self.new.merges.items ≡ self.old.merges.items) }
        ensures congruence { OnOk result (self.new.congruence ≡ self.old.congruence) }
        ensures classes { OnOk result (self.new.classes.items ≡ self.old.classes.items) }
    {
        self.numbers.put(f.0, true)?;
        self.known.push(f)?;
        Ok(())
    }

    // The formula that became known last is no longer known.
    fn forget(&mut self, bank: &Bank)
        requires reached { IsReached bank.now self.old }
        requires some { 0 < length self.old.known.items }
        ensures reached { IsReached bank.now self.new }
        ensures known { (f : FormulaId) × (self.old.known.items ≡ self.new.known.items ++ f ∷ []) }
        ensures merges { self.new.congruence.merges ≡ take (merges_at self.old.merges.items self.old.congruence.merges (length self.new.known.items)) self.old.congruence.merges }
        ensures counts { self.new.merges.items ≡ take (length self.new.known.items) self.old.merges.items }
    {
        let _ = bank;
        let Some(f) = self.known.pop() else {
            return;
        };
        let Some(mark) = self.merges.pop() else {
            return;
        };
        take_out(&mut self.numbers, f.0);
        self.congruence.undo(mark);
    }

    /// Takes back all but the first known formulas. It takes no memory.
    pub fn undo(&mut self, bank: &Bank, to: usize)
        requires reached { IsReached bank.now self.old }
        requires few { to ≤ length self.old.known.items }
        ensures reached { IsReached bank.now self.new }
        ensures known { known_in bank.now self.new ≡ take to (known_in bank.now self.old) }
        ensures merges { self.new.congruence.merges ≡ take (merges_at self.old.merges.items self.old.congruence.merges to) self.old.congruence.merges }
        ensures counts { self.new.merges.items ≡ take to self.old.merges.items }
    {
        while self.known.len() > to {
            self.forget(bank);
        }
    }
}
