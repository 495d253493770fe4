// Constants that occur nowhere else.

ghost use Rattle.std.specs.Prelude.{◌≡◌, ◌&&◌, option_map, IfOk};
ghost use Rattle.std.specs.List.{list_all};
ghost use Rattle.ss_logic.specs.Terms as tree;
ghost use Rattle.ss_logic.specs.Terms.{App, terms_from};
ghost use Rattle.ss_logic.specs.Formulas as logic;
ghost use Rattle.ss_logic_means.specs.Steps as steps;
ghost use Rattle.ss_terms.specs.Forms.{term_at, terms_at, formulas_at, HasTerm, HasTerms, HasFormulas};
ghost use Rattle.ss_terms_puts.specs.Entries.{constant_of};
ghost use Rattle.ss_terms_puts.specs.Rising.{are_rising};

use crate::avoids_formulas::{all_formulas, formula_entries};
use crate::avoids_terms::{Constant, all_terms, term_entries};
use ss_logic::Sort;
use ss_terms::{Bank, FormulaId, Symbol, Term, TermId, is_bound_sort, same_sort};
use std::alloc::{AllocError, Global};

// The constant that a term is.
fn constant_at(bank: &Bank, t: TermId) -> Option<Constant>
    requires { HasTerm bank.now t }
    ensures { option_map (λ c. (c.sort, c.number)) result ≡ constant_of (term_at bank.now t) }
{
    match bank.term_node(t) {
        Term::App(Symbol::Constant(sort, number), arguments) => {
            let (sort, number) = (*sort, *number);
            constant_alone(bank, Constant { sort, number }, arguments)
        }
        _ => None,
    }
}

// The constant, where it has no arguments.
fn constant_alone(bank: &Bank, constant: Constant, ts: &[TermId]) -> Option<Constant>
    ensures { option_map (λ c. (c.sort, c.number)) result ≡ constant_of (App (tree.Constant constant.sort constant.number) (terms_from (terms_at bank.now ts.now))) }
{
    let _ = bank;
    match ts {
        [] => Some(constant),
        _ => None,
    }
}

/// Whether the terms are constants of these sorts, one by one, which a quantifier binds.
pub fn are_constants(bank: &Bank, sorts: &[Sort], ts: &[TermId]) -> bool
    requires { HasTerms bank.now ts.now }
    ensures { result ≡ steps.are_constants sorts.now (terms_at bank.now ts.now) }
{
    match sorts {
        [] => match ts {
            [] => true,
            [_, ..] => false,
        },
        [sort, sorts @ ..] => match ts {
            [] => false,
            [t, ts @ ..] => match constant_at(bank, *t) {
                Some(constant) => {
                    same_sort(constant.sort, *sort)
                        && is_bound_sort(constant.sort)
                        && are_constants(bank, sorts, ts)
                }
                None => false,
            },
        },
    }
}

// Whether the constant occurs in none of the formulas and in none of the terms. An error is want of memory.
fn all_avoid(
    alloc: Global,
    bank: &Bank,
    constant: Constant,
    fs: &[FormulaId],
    ts: &[TermId],
) -> Result<bool, AllocError>
    requires formulas { HasFormulas bank.now fs.now }
    requires terms { HasTerms bank.now ts.now }
    ensures { IfOk result (λ yes. yes ≡ (list_all (logic.avoids constant.sort constant.number) (formulas_at bank.now fs.now) && list_all (logic.term_avoids constant.sort constant.number) (terms_at bank.now ts.now))) }
{
    let terms = term_entries(alloc, bank, constant)?;
    let formulas = formula_entries(alloc, bank, constant, &terms)?;
    if !all_formulas(&formulas, fs) {
        return Ok(false);
    }
    Ok(all_terms(&terms, ts))
}

// Whether the terms are constants whose numbers rise, the first above this one.
fn are_rising(bank: &Bank, above: usize, ts: &[TermId]) -> bool
    requires { HasTerms bank.now ts.now }
    ensures { result ≡ are_rising above (terms_at bank.now ts.now) }
{
    match ts {
        [] => true,
        [t, ts @ ..] => match constant_at(bank, *t) {
            Some(constant) => { above < constant.number && are_rising(bank, constant.number, ts) }
            None => false,
        },
    }
}

// The same by tables of the whole bank.
fn are_new_by_tables(
    alloc: Global,
    bank: &Bank,
    fs: &[FormulaId],
    ts: &[TermId],
) -> Result<bool, AllocError>
    requires formulas { HasFormulas bank.now fs.now }
    requires terms { HasTerms bank.now ts.now }
    ensures { IfOk result (λ yes. yes ≡ steps.are_new (formulas_at bank.now fs.now) (terms_at bank.now ts.now)) }
{
    match ts {
        [] => Ok(true),
        [t, later @ ..] => match constant_at(bank, *t) {
            Some(constant) => {
                if !all_avoid(alloc, bank, constant, fs, later)? {
                    return Ok(false);
                }
                are_new_by_tables(alloc, bank, fs, later)
            }
            None => Ok(false),
        },
    }
}

/// Whether the terms are constants, each of which occurs in none of the formulas and in no later term. Where their numbers
/// rise above those of all constants in the formulas, no formula is looked into. An error is want of memory.
pub fn are_new(
    alloc: Global,
    bank: &Bank,
    fs: &[FormulaId],
    ts: &[TermId],
) -> Result<bool, AllocError>
    requires formulas { HasFormulas bank.now fs.now }
    requires terms { HasTerms bank.now ts.now }
    ensures { IfOk result (λ yes. yes ≡ steps.are_new (formulas_at bank.now fs.now) (terms_at bank.now ts.now)) }
{
    if are_rising(bank, bank.highest_of_all(fs), ts) {
        return Ok(true);
    }
    are_new_by_tables(alloc, bank, fs, ts)
}
