// Terms and formulas of a bank, read from texts.

ghost use Rattle.std.specs.Prelude.{◌≡◌, [], List, true, IsTrue};
ghost use Rattle.ss_core.specs.Tree.{ClassTree};
ghost use Rattle.ss_logic.specs.Formulas.{is_well_formed};
ghost use Rattle.ss_logic_means.specs.Sorts.{AreWellFormed};
ghost use Rattle.ss_terms.specs.Forms.{formula_at, formulas_at, HasTerms, HasFormula, HasFormulas, IsBankOf};

use crate::words::{Head, bound_name, bound_sort, head_of, leaf, with_word};
use ss_logic::Sort;
use ss_terms::{Bank, FormulaId, Predicate, Symbol, Term, TermId};
use std::alloc::{AllocError, Global};

/// Whether each number stands for a term of the bank.
pub fn has_terms(bank: &Bank, ts: &[TermId]) -> bool
    ensures { IsTrue result → HasTerms bank.now ts.now }
{
    match ts {
        [] => true,
        [t, ts @ ..] => bank.has_term(*t) && has_terms(bank, ts),
    }
}

/// Whether each number stands for a formula of the bank.
pub fn has_formulas(bank: &Bank, fs: &[FormulaId]) -> bool
    ensures { IsTrue result → HasFormulas bank.now fs.now }
{
    match fs {
        [] => true,
        [f, fs @ ..] => bank.has_formula(*f) && has_formulas(bank, fs),
    }
}

/// Whether a number stands for a well formed formula of the bank.
pub fn is_formed(bank: &Bank, f: FormulaId) -> bool
    ensures has { IsTrue result → HasFormula bank.now f }
    ensures formed { IsTrue result → (cs : List ClassTree) → IsBankOf cs bank.now → is_well_formed cs [] (formula_at bank.now f) ≡ true }
{
    bank.has_formula(f) && bank.is_well_formed(f)
}

/// Whether each number stands for a well formed formula of the bank.
pub fn are_formed(bank: &Bank, fs: &[FormulaId]) -> bool
    ensures has { IsTrue result → HasFormulas bank.now fs.now }
    ensures formed { IsTrue result → (cs : List ClassTree) → IsBankOf cs bank.now → AreWellFormed cs [] (formulas_at bank.now fs.now) }
{
    match fs {
        [] => true,
        [f, fs @ ..] => is_formed(bank, *f) && are_formed(bank, fs),
    }
}

// All of the formulas, or one of them.
fn joined(bank: &mut Bank, is_and: bool, fs: &[FormulaId]) -> Result<FormulaId, AllocError>
    requires { HasFormulas bank.old fs.now }
    ensures { bank.new.fields ≡ bank.old.fields }
{
    if is_and { bank.and(fs) } else { bank.or(fs) }
}

// The formula for all values of bound names of these sorts, or for some.
fn quantified(
    bank: &mut Bank,
    is_all: bool,
    sorts: &[Sort],
    f: FormulaId,
) -> Result<FormulaId, AllocError>
    requires { HasFormula bank.old f }
    ensures { bank.new.fields ≡ bank.old.fields }
{
    if is_all {
        return bank.forall(sorts, f);
    }
    let none = bank.forall(sorts, bank.negation(f))?;
    Ok(other(bank, none))
}

// The negation, where the formula is there.
fn other(bank: &Bank, f: FormulaId) -> FormulaId {
    if bank.has_formula(f) {
        bank.negation(f)
    } else {
        f
    }
}

// What stands after a parenthesis that is open, and how many terms, formulas and sorts stand before it.
#[derive(Clone, Copy)]
struct Open {
    head: Head,
    terms: usize,
    formulas: usize,
    sorts: usize,
}

/// The terms and formulas of a text, one after the other.
#[derive(Drop)]
pub struct Reader {
    pub terms: Vec<TermId>,
    pub formulas: Vec<FormulaId>,
    /// What `S` stands for.
    pub store: Option<TermId>,
    /// Whether each word was one, and each parenthesis fitted.
    pub is_read: bool,
    opens: Vec<Open>,
    sorts: Vec<Sort>,
    is_head: bool,
}

impl Reader {
    /// Nothing is read yet.
    pub fn new(alloc: Global, store: Option<TermId>) -> Self {
        Reader {
            terms: Vec::new(alloc),
            formulas: Vec::new(alloc),
            store,
            is_read: true,
            opens: Vec::new(alloc),
            sorts: Vec::new(alloc),
            is_head: false,
        }
    }

    /// Reads the text.
    pub fn read(&mut self, alloc: Global, bank: &mut Bank, text: &str) -> Result<(), AllocError>
        ensures { bank.new.fields ≡ bank.old.fields }
    {
        let mut word = String::new(alloc);
        for c in text.chars() {
            match c {
                '(' => self.is_head = true,
                ')' => {
                    self.end_word(bank, word.as_str())?;
                    word.clear();
                    self.close(bank)?;
                }
                ' ' => {
                    self.end_word(bank, word.as_str())?;
                    word.clear();
                }
                c => word.push(c)?,
            }
        }
        self.end_word(bank, word.as_str())?;
        self.is_read = self.is_read && self.opens.is_empty();
        Ok(())
    }

    fn fail(&mut self) -> Result<(), AllocError> {
        self.is_read = false;
        Ok(())
    }

    fn add_term(&mut self, t: TermId) -> Result<(), AllocError> {
        self.terms.push(t)?;
        Ok(())
    }

    fn add_sort(&mut self, sort: Sort) -> Result<(), AllocError> {
        self.sorts.push(sort)?;
        Ok(())
    }

    fn add_formula(&mut self, f: FormulaId) -> Result<(), AllocError> {
        self.formulas.push(f)?;
        Ok(())
    }

    // A word ends.
    fn end_word(&mut self, bank: &mut Bank, word: &str) -> Result<(), AllocError>
        ensures { bank.new.fields ≡ bank.old.fields }
    {
        if word.is_empty() || self.completes(word) {
            return Ok(());
        }
        if self.is_head {
            self.is_head = false;
            return self.begin(word);
        }
        match self.store {
            Some(store) if word == "S" => self.add_term(store),
            _ => self.add_word(bank, word),
        }
    }

    fn add_word(&mut self, bank: &mut Bank, word: &str) -> Result<(), AllocError>
        ensures { bank.new.fields ≡ bank.old.fields }
    {
        if let Some(sort) = bound_sort(word) {
            return self.add_sort(sort);
        }
        match bound_name(word) {
            Some(k) => {
                let t = bank.term(Term::Bound(k))?;
                self.add_term(t)
            }
            None => self.add_leaf(bank, word),
        }
    }

    // Whether the word is the class or the field of the last open function, which takes it.
    fn completes(&mut self, word: &str) -> bool {
        if self.is_head || self.opens.is_empty() {
            return false;
        }
        let last = self.opens.len() - 1;
        let Head::Function(symbol) = self.opens[last].head else {
            return false;
        };
        match with_word(symbol, word) {
            Some(symbol) => {
                self.opens[last].head = Head::Function(symbol);
                true
            }
            None => false,
        }
    }

    fn begin(&mut self, word: &str) -> Result<(), AllocError> {
        match head_of(word) {
            Some(head) => {
                self.opens.push(Open {
                    head,
                    terms: self.terms.len(),
                    formulas: self.formulas.len(),
                    sorts: self.sorts.len(),
                })?;
                Ok(())
            }
            None => self.fail(),
        }
    }

    fn add_leaf(&mut self, bank: &mut Bank, word: &str) -> Result<(), AllocError>
        ensures { bank.new.fields ≡ bank.old.fields }
    {
        match leaf(word) {
            Some(symbol) => {
                let t = bank.apply(symbol, &[])?;
                self.add_term(t)
            }
            None => self.fail(),
        }
    }

    // A parenthesis closes.
    fn close(&mut self, bank: &mut Bank) -> Result<(), AllocError>
        ensures { bank.new.fields ≡ bank.old.fields }
    {
        let Some(open) = self.opens.pop() else {
            return self.fail();
        };
        match open.head {
            Head::Function(symbol) => self.apply(bank, symbol, open.terms),
            Head::Atom(predicate) => self.atom(bank, predicate, open.terms),
            Head::Not => self.negate(bank),
            Head::And => self.join(bank, true, open.formulas),
            Head::Or => self.join(bank, false, open.formulas),
            Head::Forall => self.quantify(bank, true, open.sorts),
            Head::Exists => self.quantify(bank, false, open.sorts),
        }
    }

    fn apply(&mut self, bank: &mut Bank, symbol: Symbol, from: usize) -> Result<(), AllocError>
        ensures { bank.new.fields ≡ bank.old.fields }
    {
        if from > self.terms.len() {
            return self.fail();
        }
        let ts = &self.terms[from..];
        if !has_terms(bank, ts) {
            return self.fail();
        }
        let t = bank.apply(symbol, ts)?;
        self.terms.truncate(from);
        self.add_term(t)
    }

    fn atom(&mut self, bank: &mut Bank, predicate: Predicate, from: usize) -> Result<(), AllocError>
        ensures { bank.new.fields ≡ bank.old.fields }
    {
        if from > self.terms.len() {
            return self.fail();
        }
        let ts = &self.terms[from..];
        if !has_terms(bank, ts) {
            return self.fail();
        }
        let f = bank.atom(true, predicate, ts)?;
        self.terms.truncate(from);
        self.add_formula(f)
    }

    fn negate(&mut self, bank: &Bank) -> Result<(), AllocError> {
        match self.formulas.pop() {
            Some(f) if bank.has_formula(f) => self.add_formula(bank.negation(f)),
            _ => self.fail(),
        }
    }

    // All of the formulas from this place on, or one of them.
    fn join(&mut self, bank: &mut Bank, is_and: bool, from: usize) -> Result<(), AllocError>
        ensures { bank.new.fields ≡ bank.old.fields }
    {
        if from > self.formulas.len() {
            return self.fail();
        }
        let fs = &self.formulas[from..];
        if !has_formulas(bank, fs) {
            return self.fail();
        }
        let f = joined(bank, is_and, fs)?;
        self.formulas.truncate(from);
        self.add_formula(f)
    }

    // The last formula, for bound names of the sorts from this place on.
    fn quantify(&mut self, bank: &mut Bank, is_all: bool, from: usize) -> Result<(), AllocError>
        ensures { bank.new.fields ≡ bank.old.fields }
    {
        let Some(f) = self.formulas.pop() else {
            return self.fail();
        };
        if from > self.sorts.len() || !bank.has_formula(f) {
            return self.fail();
        }
        let f = quantified(bank, is_all, &self.sorts[from..], f)?;
        self.sorts.truncate(from);
        self.add_formula(f)
    }
}
