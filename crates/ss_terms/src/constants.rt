// The greatest numbers of constants in forms.

ghost use Rattle.std.specs.Prelude.{◌≡◌, IfOk};
ghost use Rattle.ss_logic.specs.Terms.{terms_from};
ghost use Rattle.ss_logic.specs.Formulas.{formulas_from};
ghost use Rattle.ss_terms.specs.Forms.{shape_of, symbol_of, term_at, terms_at, formula_of, formula_at, formulas_at, HasTerms, HasFormulas, HasParts};
ghost use Rattle.ss_terms.specs.Highest.{number_of_symbol, highest_of_terms, highest, highest_of_all};

use crate::bank::Bank;
use crate::forms::{Formula, FormulaId, Symbol, TermId};
use std::alloc::AllocError;

// The number in 32 bits; one that is too large counts as want of memory.
fn narrow(number: usize) -> Result<u32, AllocError>
    ensures { IfOk result (λ n. n ≡ number) }
{
    u32::try_from(number).map_err(|_| AllocError)
}

// The number of a constant; 0 for any other function. One that is too large counts as want of memory.
pub(crate) fn number_of(symbol: Symbol) -> Result<u32, AllocError>
    ensures { IfOk result (λ n. n ≡ number_of_symbol (symbol_of symbol)) }
{
    match symbol {
        Symbol::Constant(_, number) => narrow(number),
        _ => Ok(0),
    }
}

impl Bank {
    // The greatest number of a constant in terms.
    pub(crate) fn highest_of_terms(&self, ts: &[TermId]) -> u32
        requires { HasTerms self.now ts.now }
        ensures { result ≡ highest_of_terms (terms_from (terms_at self.now ts.now)) }
    {
        let mut highest = 0u32;
        for t in ts {
            highest = highest.max(self.highest_of_term(*t));
        }
        highest
    }

    /// The greatest number of a constant in formulas; 0 where they have none.
    pub fn highest_of_all(&self, fs: &[FormulaId]) -> usize
        requires { HasFormulas self.now fs.now }
        ensures { result ≡ highest_of_all (formulas_from (formulas_at self.now fs.now)) }
    {
        self.kept_highest_of_all(fs) as usize
    }

    // The same, as it is kept.
    fn kept_highest_of_all(&self, fs: &[FormulaId]) -> u32
        requires { HasFormulas self.now fs.now }
        ensures { result ≡ highest_of_all (formulas_from (formulas_at self.now fs.now)) }
    {
        let mut highest = 0u32;
        for f in fs {
            highest = highest.max(self.kept_highest(*f));
        }
        highest
    }

    // The greatest number of a constant in the formula of a form.
    pub(crate) fn highest_of_form(&self, form: &Formula) -> u32
        requires { HasParts self.now (shape_of form.now) }
        ensures { result ≡ highest (formula_of (term_at self.now) (formula_at self.now) (shape_of form.now)) }
    {
        match form {
            Formula::Literal { arguments, .. } => self.highest_of_terms(arguments),
            Formula::And(parts) => self.kept_highest_of_all(parts),
            Formula::Or(parts) => self.kept_highest_of_all(parts),
            Formula::Forall(_, body) => self.kept_highest(*body),
            Formula::Exists(_, body) => self.kept_highest(*body),
        }
    }
}
