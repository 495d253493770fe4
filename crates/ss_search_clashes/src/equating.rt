// Equalities, and literals at equal arguments.

ghost use Rattle.std.specs.Prelude.{◌≡◌, [], true, length, IfOk};
ghost use Rattle.ss_logic.specs.Terms.{is_well_sorted};
ghost use Rattle.ss_logic.specs.Shapes.{equal};
ghost use Rattle.ss_terms.specs.Forms.{HasTerm, HasTerms, HasFormula, term_at, terms_at, formula_at};
ghost use Rattle.ss_equality_rules.specs.Equal.{IsEqual, AreFormsOf};
ghost use Rattle.ss_equality_rules.specs.Whole.{AreCaused};
ghost use Rattle.ss_equality_rules.specs.Names.{IsLog};
ghost use Rattle.ss_search_clashes.specs.Ways.{ArePaired};
ghost use Rattle.ss_search_clashes.specs.Said.{MakeKnown, AreEqual, IsLiteralAt};
ghost use Rattle.ss_search_clashes.specs.Placed.{IsReady};

use crate::context::{CongruenceContext, JoinContext};
use crate::ends::ends;
use crate::needed::needed;
use crate::placing::{add, chain, chain_arguments, place_all};
use ss_deriv::Line;
use ss_equality_rules::Join;
use ss_terms::{FormulaId, TermId};
use std::alloc::AllocError;

/// Lines, and the place of the fact that they are for.
#[derive(Drop)]
pub struct Shown {
    /// The lines.
    pub lines: Vec<Line>,
    /// The place of the fact among those that are known after them.
    pub place: usize,
}

// The joins that ended classes, the places of the joins that are needed, and the lines that make their equalities known.
#[derive(Drop)]
struct Prepared {
    ends: Vec<Option<usize>>,
    places: Vec<usize>,
    lines: Vec<Line>,
}

fn prepare(
    context: &CongruenceContext<'_>,
    joins: &[Join],
    xs: &[TermId],
    ys: &[TermId],
) -> Result<Prepared, AllocError>
    requires forms { AreFormsOf context.now.bank.now context.now.congruence.now.terms }
    requires caused { AreCaused context.now.congruence.now.terms context.now.congruence.now.merges joins.now }
    requires log { IsLog (length context.now.congruence.now.terms) joins.now }
    requires paired { ArePaired joins.now xs.now ys.now }
    ensures { IfOk result (λ r. IsReady context.now.bank.now context.now.congruence.now.terms context.now.congruence.now.merges joins.now xs.now ys.now context.now.count r.ends.items r.places.items r.lines.items) }
{
    let ends = ends(context.alloc, joins, context.bank.term_count())?;
    let joined = JoinContext {
        alloc: context.alloc,
        bank: context.bank,
        congruence: context.congruence,
        joins,
        ends: &ends,
        known: context.count,
    };
    let marks = needed(&joined, xs, ys)?;
    let mut lines = Vec::new(context.alloc);
    let places = place_all(&joined, &marks, &mut lines)?;
    Ok(Prepared {
        ends,
        places,
        lines,
    })
}

/// Lines that make known that two terms are equal, where so many formulas are known, those of the merges at their reasons among
/// them. An error is want of memory.
pub fn equate(context: &CongruenceContext<'_>, x: TermId, y: TermId) -> Result<Shown, AllocError>
    requires left { HasTerm context.now.bank.now x }
    requires right { HasTerm context.now.bank.now y }
    requires forms { AreFormsOf context.now.bank.now context.now.congruence.now.terms }
    requires equal { IsEqual context.now.congruence.now.terms context.now.congruence.now.merges x.0 y.0 }
    ensures { IfOk result (λ s. MakeKnown context.now.bank.now context.now.congruence.now.merges context.now.count (λ cs fs. is_well_sorted cs [] (term_at context.now.bank.now x) ≡ true) (equal (term_at context.now.bank.now x) (term_at context.now.bank.now y)) s.lines.items s.place) }
{
    context.bank.numbers_are_apart();
    let joins = context.congruence.joins();
    let mut prepared = prepare(context, joins, &[x], &[y])?;
    let joined = JoinContext {
        alloc: context.alloc,
        bank: context.bank,
        congruence: context.congruence,
        joins,
        ends: &prepared.ends,
        known: context.count,
    };
    let place = chain(&joined, &prepared.places, &mut prepared.lines, x, y)?;
    Ok(Shown {
        lines: prepared.lines,
        place,
    })
}

/// Lines that make a literal known, where the same is known of terms that are equal to its terms one by one. An error is want of
/// memory.
pub fn swap(
    context: &CongruenceContext<'_>,
    of: usize,
    xs: &[TermId],
    literal: FormulaId,
    ys: &[TermId],
) -> Result<Shown, AllocError>
    requires left { HasTerms context.now.bank.now xs.now }
    requires right { HasTerms context.now.bank.now ys.now }
    requires literal { HasFormula context.now.bank.now literal }
    requires forms { AreFormsOf context.now.bank.now context.now.congruence.now.terms }
    requires equal { AreEqual context.now.congruence.now xs.now ys.now }
    ensures { IfOk result (λ s. MakeKnown context.now.bank.now context.now.congruence.now.merges context.now.count (λ cs fs. IsLiteralAt cs context.now.bank.now fs of xs.now literal ys.now) (formula_at context.now.bank.now literal) s.lines.items s.place) }
{
    context.bank.numbers_are_apart();
    let joins = context.congruence.joins();
    let mut prepared = prepare(context, joins, xs, ys)?;
    let joined = JoinContext {
        alloc: context.alloc,
        bank: context.bank,
        congruence: context.congruence,
        joins,
        ends: &prepared.ends,
        known: context.count,
    };
    let equalities = chain_arguments(&joined, &prepared.places, &mut prepared.lines, xs, ys)?;
    let place = add(
        context.count,
        &mut prepared.lines,
        Line::Swap {
            of,
            formula: literal,
            equalities,
        },
    )?;
    Ok(Shown {
        lines: prepared.lines,
        place,
    })
}
