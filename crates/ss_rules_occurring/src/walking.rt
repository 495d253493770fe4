// The terms of atoms.

ghost use Rattle.std.specs.Prelude.{◌≡◌, [], ◌++◌, reverse, IfOk, OnOk};
ghost use Rattle.ss_logic.specs.Terms.{terms_from};
ghost use Rattle.ss_logic.specs.Occurring as spec;
ghost use Rattle.ss_logic.specs.Occurring.{with_arguments, with_terms_of};
ghost use Rattle.ss_terms.specs.Forms.{formula_at, formulas_at, terms_at, HasFormula, HasFormulas, HasTerm, HasTerms};
ghost use Rattle.ss_rules_occurring.specs.Stack.{IsStep};
ghost use Rattle.ss_rules_occurring.specs.Found.{terms_of, HasFoundTerms, HoldsTerms};

use crate::found::TermList;
use ss_terms::{Bank, Formula, FormulaId, Term, TermId};
use std::alloc::{AllocError, Global};

// Puts the terms on the stack, so that the first comes off first.
fn put_on(stack: &mut Vec<TermId>, ts: &[TermId]) -> Result<(), AllocError>
    ensures { OnOk result (stack.new.items ≡ stack.old.items ++ reverse ts.now) }
{
    let mut i = ts.len();
    while i > 0 {
        i -= 1;
        stack.push(ts[i])?;
    }
    Ok(())
}

// Takes a term off: it is added, and where it is new its arguments are put on.
fn take_one(
    bank: &Bank,
    found: &mut TermList,
    stack: &mut Vec<TermId>,
    t: TermId,
) -> Result<(), AllocError>
    requires found { HasFoundTerms bank.now found.old }
    requires stack { HasTerms bank.now stack.old.items }
    requires term { HasTerm bank.now t }
    ensures { OnOk result (IsStep bank.now found.old stack.old.items t found.new stack.new.items) }
{
    match bank.term_node(t) {
        Term::Bound(_) => Ok(()),
        Term::App(_, arguments) => {
            if found.add(bank, t)? {
                put_on(stack, arguments)?;
            }
            Ok(())
        }
    }
}

// Adds the terms and those in them.
fn add_arguments(
    alloc: Global,
    bank: &Bank,
    found: &mut TermList,
    ts: &[TermId],
) -> Result<(), AllocError>
    requires found { HasFoundTerms bank.now found.old }
    requires terms { HasTerms bank.now ts.now }
    ensures { OnOk result (HoldsTerms bank.now found.new (with_arguments (terms_of bank.now found.old) (terms_from (terms_at bank.now ts.now)))) }
{
    let mut stack = Vec::new(alloc);
    put_on(&mut stack, ts)?;
    while let Some(t) = stack.pop() {
        take_one(bank, found, &mut stack, t)?;
    }
    Ok(())
}

// Adds the terms of an atom.
fn add_terms_of(
    alloc: Global,
    bank: &Bank,
    found: &mut TermList,
    f: FormulaId,
) -> Result<(), AllocError>
    requires found { HasFoundTerms bank.now found.old }
    requires formula { HasFormula bank.now f }
    ensures { OnOk result (HoldsTerms bank.now found.new (with_terms_of (terms_of bank.now found.old) (formula_at bank.now f))) }
{
    match bank.formula_node(f) {
        Formula::Literal { arguments, .. } => add_arguments(alloc, bank, found, arguments),
        _ => Ok(()),
    }
}

/// The terms of atoms, each before its arguments. An error is want of memory.
pub fn terms(alloc: Global, bank: &Bank, atoms: &[FormulaId]) -> Result<TermList, AllocError>
    requires { HasFormulas bank.now atoms.now }
    ensures { IfOk result (λ found. HoldsTerms bank.now found (spec.with_terms_of_all [] (formulas_at bank.now atoms.now))) }
{
    let mut found = TermList::new(alloc, bank);
    for f in atoms {
        add_terms_of(alloc, bank, &mut found, *f)?;
    }
    Ok(found)
}
