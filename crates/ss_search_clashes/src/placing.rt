// The lines for the joins that are needed, and the places of the equalities that they make known.

ghost use Rattle.std.specs.Prelude.{◌≡◌, ℕ, ◌+◌, ◌<◌, ◌∷◌, ◌++◌, List, [], Some, None, length, map, slice_get, slice_index, IfOk, OnOk};
ghost use Rattle.ss_logic_means.specs.Steps as tree;
ghost use Rattle.ss_terms.specs.declared.forms.TermId.{TermId};
ghost use Rattle.ss_terms.specs.Forms.{HasTerm, HasTerms, term_at};
ghost use Rattle.ss_equality_rules.specs.declared.Join.{Join};
ghost use Rattle.ss_equality_rules.specs.Equal.{AreFormsOf};
ghost use Rattle.ss_equality_rules.specs.Names.{name};
ghost use Rattle.ss_equality_rules.specs.Whole.{AreCaused};
ghost use Rattle.ss_deriv.specs.Lines.{lines_of};
ghost use Rattle.ss_search_clashes.specs.Ways.{way, ArePaired, AreEnds};
ghost use Rattle.ss_search_clashes.specs.Needed.{AreClosed};
ghost use Rattle.ss_search_clashes.specs.Placed.{places_of, chain_between, chains, AddsChains, IsPlaced, ArePlaced};

use crate::context::JoinContext;
use crate::ends::join_at;
use crate::needed::{arguments, is_marked};
use crate::ways::way;
use ss_deriv::Line;
use ss_equality_rules::Join;
use ss_terms::TermId;
use std::alloc::{AllocError, Global};

fn place_at(places: &[usize], number: usize) -> usize
    ensures { result ≡ slice_index places.now number }
{
    match places.get(number) {
        Some(place) => *place,
        None => 0,
    }
}

// The places of the equalities along the way between two terms.
fn path(
    alloc: Global,
    joins: &[Join],
    ends: &[Option<usize>],
    places: &[usize],
    x: usize,
    y: usize,
) -> Result<Vec<usize>, AllocError>
    requires ends { AreEnds joins.now ends.now }
    requires same { name joins.now x ≡ name joins.now y }
    ensures { IfOk result (λ v. v.items ≡ places_of places.now (way joins.now x y)) }
{
    let numbers = way(alloc, joins, ends, x, y)?;
    let mut path = Vec::new(alloc);
    for number in &numbers {
        path.push(place_at(places, *number))?;
    }
    Ok(path)
}

/// One more line, and the place of what it makes known after so many formulas.
pub(crate) fn add(known: usize, lines: &mut Vec<Line>, line: Line) -> Result<usize, AllocError>
    ensures added { OnOk result (lines.new.items ≡ lines.old.items ++ line ∷ []) }
    ensures place { IfOk result (λ p. p ≡ known + length lines.old.items) }
{
    let place = known.checked_add(lines.len()).ok_or(AllocError)?;
    lines.push(line)?;
    Ok(place)
}

/// The line that two terms of one class are equal.
pub(crate) fn chain(
    context: &JoinContext<'_>,
    places: &[usize],
    lines: &mut Vec<Line>,
    x: TermId,
    y: TermId,
) -> Result<usize, AllocError>
    requires left { HasTerm context.now.bank.now x }
    requires right { HasTerm context.now.bank.now y }
    requires ends { AreEnds context.now.joins.now context.now.ends.now }
    requires same { name context.now.joins.now x.0 ≡ name context.now.joins.now y.0 }
    ensures added { OnOk result (lines_of context.now.bank.now lines.new.items ≡ lines_of context.now.bank.now lines.old.items ++ tree.Chain (term_at context.now.bank.now x) (term_at context.now.bank.now y) (places_of places.now (way context.now.joins.now x.0 y.0)) ∷ []) }
    ensures place { IfOk result (λ p. p ≡ context.now.known + length lines.old.items) }
{
    let _count = context.bank.term_count();
    let path = path(context.alloc, context.joins, context.ends, places, x.0, y.0)?;
    add(
        context.known,
        lines,
        Line::Chain {
            left: x,
            right: y,
            path,
        },
    )
}

// The line on two arguments, where they differ.
fn chain_pair(
    context: &JoinContext<'_>,
    places: &[usize],
    lines: &mut Vec<Line>,
    equalities: &mut Vec<usize>,
    x: TermId,
    y: TermId,
) -> Result<(), AllocError>
    requires left { HasTerm context.now.bank.now x }
    requires right { HasTerm context.now.bank.now y }
    requires ends { AreEnds context.now.joins.now context.now.ends.now }
    requires same { name context.now.joins.now x.0 ≡ name context.now.joins.now y.0 }
    ensures { OnOk result (AddsChains context.now.bank.now (chain_between context.now.bank.now context.now.joins.now places.now x y) context.now.known lines.old.items lines.new.items equalities.old.items equalities.new.items) }
{
    if context.bank.is_same_term(x, y) {
        return Ok(());
    }
    let place = chain(context, places, lines, x, y)?;
    equalities.push(place)?;
    Ok(())
}

/// The lines on the arguments that differ, and the places of what they make known.
pub(crate) fn chain_arguments(
    context: &JoinContext<'_>,
    places: &[usize],
    lines: &mut Vec<Line>,
    xs: &[TermId],
    ys: &[TermId],
) -> Result<Vec<usize>, AllocError>
    requires left { HasTerms context.now.bank.now xs.now }
    requires right { HasTerms context.now.bank.now ys.now }
    requires ends { AreEnds context.now.joins.now context.now.ends.now }
    requires paired { ArePaired context.now.joins.now xs.now ys.now }
    ensures { IfOk result (λ v. AddsChains context.now.bank.now (chains context.now.bank.now context.now.joins.now places.now xs.now ys.now) context.now.known lines.old.items lines.new.items [] v.items) }
{
    let mut equalities = Vec::new(context.alloc);
    for i in 0..xs.len() {
        chain_pair(context, places, lines, &mut equalities, xs[i], ys[i])?;
    }
    Ok(equalities)
}

// The lines of a join by congruence, and the place of its equality.
fn place_congruence(
    context: &JoinContext<'_>,
    places: &[usize],
    lines: &mut Vec<Line>,
    number: usize,
) -> Result<usize, AllocError>
    requires forms { AreFormsOf context.now.bank.now context.now.congruence.now.terms }
    requires caused { AreCaused context.now.congruence.now.terms context.now.congruence.now.merges context.now.joins.now }
    requires ends { AreEnds context.now.joins.now context.now.ends.now }
    requires number { number < length context.now.joins.now }
    requires congruent { (e : Join) → slice_get context.now.joins.now number ≡ Some e → e.why ≡ None }
    ensures { IfOk result (λ p. (e : Join) → slice_get context.now.joins.now number ≡ Some e → IsPlaced context.now.bank.now context.now.congruence.now.terms context.now.congruence.now.merges context.now.joins.now places.now context.now.known e lines.old.items lines.new.items p) }
{
    let _merges = context.congruence.mark();
    let join = join_at(context.joins, number);
    let xs = arguments(context.bank, join.left);
    let ys = arguments(context.bank, join.right);
    let equalities = chain_arguments(context, places, lines, xs, ys)?;
    add(
        context.known,
        lines,
        Line::Cong {
            left: TermId(join.left),
            right: TermId(join.right),
            equalities,
        },
    )
}

// The place of the equality of a join, with the lines that make it known.
fn place_join(
    context: &JoinContext<'_>,
    places: &[usize],
    lines: &mut Vec<Line>,
    number: usize,
) -> Result<usize, AllocError>
    requires forms { AreFormsOf context.now.bank.now context.now.congruence.now.terms }
    requires caused { AreCaused context.now.congruence.now.terms context.now.congruence.now.merges context.now.joins.now }
    requires ends { AreEnds context.now.joins.now context.now.ends.now }
    requires number { number < length context.now.joins.now }
    ensures { IfOk result (λ p. (e : Join) → slice_get context.now.joins.now number ≡ Some e → IsPlaced context.now.bank.now context.now.congruence.now.terms context.now.congruence.now.merges context.now.joins.now places.now context.now.known e lines.old.items lines.new.items p) }
{
    match join_at(context.joins, number).why {
        Some(merge) => Ok(context.congruence.because(merge)),
        None => place_congruence(context, places, lines, number),
    }
}

// The place of the equality of a join that is needed; any place for another.
fn place_needed(
    context: &JoinContext<'_>,
    marks: &[bool],
    places: &[usize],
    lines: &mut Vec<Line>,
) -> Result<usize, AllocError>
    requires forms { AreFormsOf context.now.bank.now context.now.congruence.now.terms }
    requires caused { AreCaused context.now.congruence.now.terms context.now.congruence.now.merges context.now.joins.now }
    requires ends { AreEnds context.now.joins.now context.now.ends.now }
    requires long { length marks.now ≡ length context.now.joins.now }
    requires closed { AreClosed context.now.congruence.now.terms context.now.joins.now 0 marks.now }
    requires more { length places.now < length context.now.joins.now }
    requires placed { ArePlaced context.now.bank.now context.now.congruence.now.merges context.now.joins.now context.now.known marks.now places.now lines.old.items }
    ensures { IfOk result (λ p. ArePlaced context.now.bank.now context.now.congruence.now.merges context.now.joins.now context.now.known marks.now (places.now ++ p ∷ []) lines.new.items) }
{
    context.bank.numbers_are_apart();
    let number = places.len();
    if !is_marked(marks, number) {
        return Ok(0);
    }
    place_join(context, places, lines, number)
}

/// The place of the equality of each join that is needed, with the lines that make it known.
pub(crate) fn place_all(
    context: &JoinContext<'_>,
    marks: &[bool],
    lines: &mut Vec<Line>,
) -> Result<Vec<usize>, AllocError>
    requires forms { AreFormsOf context.now.bank.now context.now.congruence.now.terms }
    requires caused { AreCaused context.now.congruence.now.terms context.now.congruence.now.merges context.now.joins.now }
    requires ends { AreEnds context.now.joins.now context.now.ends.now }
    requires long { length marks.now ≡ length context.now.joins.now }
    requires closed { AreClosed context.now.congruence.now.terms context.now.joins.now 0 marks.now }
    requires empty { lines.old.items ≡ [] }
    ensures long { IfOk result (λ v. length v.items ≡ length context.now.joins.now) }
    ensures placed { IfOk result (λ v. ArePlaced context.now.bank.now context.now.congruence.now.merges context.now.joins.now context.now.known marks.now v.items lines.new.items) }
{
    let mut places = Vec::new(context.alloc);
    for _number in 0..context.joins.len() {
        let place = place_needed(context, marks, &places, lines)?;
        places.push(place)?;
    }
    Ok(places)
}
