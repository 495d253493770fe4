// The formulas that lines make known.

ghost use Rattle.std.specs.Prelude.{IfOk};
ghost use Rattle.ss_core.specs.Chain.{IsWithinLimits};
ghost use Rattle.ss_core.specs.View as view;
ghost use Rattle.ss_logic_means.specs.Steps.{fact_of};
ghost use Rattle.ss_terms.specs.Forms.{formula_at, formulas_at, HasFormula, HasFormulas, IsGrown, IsBankOf};
ghost use Rattle.ss_deriv.specs.Lines.{line_in};
ghost use Rattle.ss_terms.specs.Numbered.{IsNumberOf};
ghost use Rattle.ss_check.specs.Within.{LineWithin};

use crate::choices::choose;
use crate::context::CheckContext;
use crate::instances::{good, invariants, rule};
use crate::sums::sum;
use ss_check_steps::{chain, cong, inst, known_at, part, swap};
use ss_deriv::Line;
use ss_terms::{Bank, FormulaId};
use std::alloc::AllocError;

/// The formula that a line makes known.
pub(crate) fn fact(
    bank: &mut Bank,
    context: &CheckContext<'_>,
    known: &[FormulaId],
    line: &Line,
) -> Result<Option<FormulaId>, AllocError>
    requires bank { IsBankOf (view.classes context.now.classes.now) bank.old }
    requires limits { IsWithinLimits (view.classes context.now.classes.now) }
    requires premises { HasFormulas bank.old context.now.premises.now }
    requires goal { HasFormula bank.old context.now.goal }
    requires known { HasFormulas bank.old known.now }
    requires line { LineWithin bank.old line.now }
    ensures fact { IfOk result (λ o. IsNumberOf bank.new o (fact_of (view.classes context.now.classes.now) (formulas_at bank.old context.now.premises.now) (formula_at bank.old context.now.goal) (formulas_at bank.old known.now) (line_in bank.old line.now))) }
    ensures grown { IsGrown bank.old bank.new }
{
    let alloc = context.alloc;
    match line {
        Line::Premise { number } => Ok(known_at(bank, context.premises, *number)),
        Line::Denied => Ok(Some(bank.negation(context.goal))),
        Line::Part { of, part: j } => Ok(part(bank, known, *of, *j)),
        Line::Inst { of, terms } => inst(alloc, bank, context.classes, known, *of, terms),
        Line::Choose { formula, constants } => { choose(bank, context, known, *formula, constants) }
        Line::Rule { name, arguments } => rule(alloc, bank, context.classes, *name, arguments),
        Line::Good {
            name,
            store,
            arguments,
        } => good(bank, context, known, *name, *store, arguments),
        Line::Invariants { store, arguments } => {
            invariants(alloc, bank, context.classes, known, *store, arguments)
        }
        Line::Chain { left, right, path } => chain(alloc, bank, known, *left, *right, path),
        Line::Cong {
            left,
            right,
            equalities,
        } => cong(alloc, bank, known, *left, *right, equalities),
        Line::Swap {
            of,
            formula,
            equalities,
        } => Ok(swap(bank, known, *of, *formula, equalities)),
        Line::Sum(line) => sum(alloc, bank, context.classes, known, line),
        _ => Ok(None),
    }
}
