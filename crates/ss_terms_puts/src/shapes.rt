// Terms and formulas, outermost.

ghost use Rattle.std.specs.Prelude.{◌≡◌};
ghost use Rattle.ss_logic.specs.Terms.{App, no_terms, terms_from};
ghost use Rattle.ss_logic.specs.Opened.{is_exists};
ghost use Rattle.ss_logic_means.specs.Steps.{is_value};
ghost use Rattle.ss_terms.specs.Forms.{symbol_of, formula_at, term_at, terms_at, HasFormula, HasTerm};

use ss_terms::{Bank, Formula, FormulaId, Symbol, Term, TermId};

fn is_value_symbol(symbol: Symbol) -> bool
    ensures { result ≡ is_value (App (symbol_of symbol) no_terms) }
{
    match symbol {
        Symbol::Number(_) => true,
        Symbol::Fixed(_) => true,
        Symbol::Null => true,
        Symbol::ClassName(_) => true,
        _ => false,
    }
}

fn is_value_form(bank: &Bank, symbol: Symbol, ts: &[TermId]) -> bool
    ensures { result ≡ is_value (App (symbol_of symbol) (terms_from (terms_at bank.now ts.now))) }
{
    let _ = bank;
    match ts {
        [] => is_value_symbol(symbol),
        _ => false,
    }
}

/// Whether a term is a number, a truth value, null or a class name.
pub fn is_value(bank: &Bank, t: TermId) -> bool
    requires { HasTerm bank.now t }
    ensures { result ≡ is_value (term_at bank.now t) }
{
    match bank.term_node(t) {
        Term::App(symbol, arguments) => is_value_form(bank, *symbol, arguments),
        Term::Bound(_) => false,
    }
}

/// Whether a formula is an `exists`.
pub fn is_exists(bank: &Bank, f: FormulaId) -> bool
    requires { HasFormula bank.now f }
    ensures { result ≡ is_exists (formula_at bank.now f) }
{
    match bank.formula_node(f) {
        Formula::Exists(_, _) => true,
        _ => false,
    }
}
