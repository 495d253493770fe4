// What is so at one place, and as before elsewhere.

ghost use Rattle.std.specs.Prelude.{◌≡◌, ◌<◌, [], ◌∷◌, ◌++◌, length, IfOk};
ghost use Rattle.ss_logic.specs.Equal.{same_term};
ghost use Rattle.ss_logic.specs.Shapes.{all_of};
ghost use Rattle.ss_rules_reads.specs.Placed.{placed_by, atom_placed_by, added_by};
ghost use Rattle.ss_terms.specs.Forms.{term_at, formula_at, predicate_of, HasTerm, HasFormula, IsGrown};
ghost use Rattle.ss_rules_basic.specs.Plans.{slot_value, planned, HasSlot, HasPlans, HasClaim};

use ss_rules_basic::{Claim, Clause, Plan, Slot, fill};
use ss_terms::{Bank, FormulaId, Predicate};
use std::alloc::{AllocError, Global};

/// The object that is read and the one that changed, and whether they are the same term.
#[derive(Clone, Copy)]
pub(crate) struct Places {
    pub(crate) read: Slot,
    pub(crate) changed: Slot,
    pub(crate) is_same: bool,
}

// A read of a term, plan 0, is the new value where the two terms are equal, and else as before, plan 1.
pub(crate) fn placed_term(
    alloc: Global,
    b: &mut Bank,
    plans: &[Plan],
    places: Places,
    value: Slot,
) -> Result<FormulaId, AllocError>
    requires plans { HasPlans b.old 0 plans.now }
    requires reads { 1 < length plans.now }
    requires left { HasSlot b.old (length plans.now) places.read }
    requires right { HasSlot b.old (length plans.now) places.changed }
    requires value { HasSlot b.old (length plans.now) value }
    requires same { places.is_same ≡ same_term (slot_value (term_at b.old) (planned (term_at b.old) [] plans.now) places.read) (slot_value (term_at b.old) (planned (term_at b.old) [] plans.now) places.changed) }
    ensures at { IfOk result (λ f. HasFormula b.new f × (formula_at b.new f ≡ all_of (placed_by (slot_value (term_at b.old) (planned (term_at b.old) [] plans.now)) places.read places.changed value))) }
    ensures grown { IsGrown b.old b.new }
{
    let (x, y) = (places.read, places.changed);
    let (over, before) = (Slot::Made(0), Slot::Made(1));
    let changed = Claim::Is(Predicate::Equal, over, value);
    if places.is_same {
        return fill(alloc, b, plans, &[Clause::Fact(changed)]);
    }
    let clauses = [
        Clause::If(Claim::Is(Predicate::Equal, x, y), changed),
        Clause::If(
            Claim::Not(Predicate::Equal, x, y),
            Claim::Is(Predicate::Equal, over, before),
        ),
    ];
    fill(alloc, b, plans, &clauses)
}

// An atom of an object is so where the two terms are equal, and else as before.
pub(crate) fn placed_atom(
    alloc: Global,
    b: &mut Bank,
    plans: &[Plan],
    places: Places,
    claim: Claim,
    atoms: (Predicate, Slot, Slot),
) -> Result<FormulaId, AllocError>
    requires plans { HasPlans b.old 0 plans.now }
    requires left { HasSlot b.old (length plans.now) places.read }
    requires right { HasSlot b.old (length plans.now) places.changed }
    requires claim { HasClaim b.old (length plans.now) claim }
    requires after { HasSlot b.old (length plans.now) atoms.1 }
    requires before { HasSlot b.old (length plans.now) atoms.2 }
    requires same { places.is_same ≡ same_term (slot_value (term_at b.old) (planned (term_at b.old) [] plans.now) places.read) (slot_value (term_at b.old) (planned (term_at b.old) [] plans.now) places.changed) }
    ensures at { IfOk result (λ f. HasFormula b.new f × (formula_at b.new f ≡ all_of (atom_placed_by (slot_value (term_at b.old) (planned (term_at b.old) [] plans.now)) places.read places.changed claim atoms.0 atoms.1 atoms.2))) }
    ensures grown { IsGrown b.old b.new }
{
    let (x, y) = (places.read, places.changed);
    let (predicate, after, before) = atoms;
    if places.is_same {
        return fill(alloc, b, plans, &[Clause::Fact(claim)]);
    }
    let clauses = [
        Clause::If(Claim::Is(Predicate::Equal, x, y), claim),
        Clause::IfTwo(
            Claim::Not(Predicate::Equal, x, y),
            Claim::Is(predicate, after, x),
            Claim::Is(predicate, before, x),
        ),
        Clause::IfTwo(
            Claim::Not(Predicate::Equal, x, y),
            Claim::Not(predicate, after, x),
            Claim::Not(predicate, before, x),
        ),
    ];
    fill(alloc, b, plans, &clauses)
}

// An atom of an object holds where the two terms are equal, and where it held before, and nowhere else.
pub(crate) fn added_atom(
    alloc: Global,
    b: &mut Bank,
    plans: &[Plan],
    places: Places,
    atoms: (Predicate, Slot, Slot),
) -> Result<FormulaId, AllocError>
    requires plans { HasPlans b.old 0 plans.now }
    requires left { HasSlot b.old (length plans.now) places.read }
    requires right { HasSlot b.old (length plans.now) places.changed }
    requires after { HasSlot b.old (length plans.now) atoms.1 }
    requires before { HasSlot b.old (length plans.now) atoms.2 }
    requires same { places.is_same ≡ same_term (slot_value (term_at b.old) (planned (term_at b.old) [] plans.now) places.read) (slot_value (term_at b.old) (planned (term_at b.old) [] plans.now) places.changed) }
    ensures at { IfOk result (λ f. HasFormula b.new f × (formula_at b.new f ≡ all_of (added_by (slot_value (term_at b.old) (planned (term_at b.old) [] plans.now)) places.read places.changed atoms.0 atoms.1 atoms.2))) }
    ensures grown { IsGrown b.old b.new }
{
    let (x, y) = (places.read, places.changed);
    let (predicate, after, before) = atoms;
    let holds = Claim::Is(predicate, after, x);
    let held = Claim::Is(predicate, before, x);
    if places.is_same {
        let clauses = [Clause::Fact(holds), Clause::If(held, holds)];
        return fill(alloc, b, plans, &clauses);
    }
    let clauses = [
        Clause::If(Claim::Is(Predicate::Equal, x, y), holds),
        Clause::If(held, holds),
        Clause::IfTwo(
            Claim::Not(Predicate::Equal, x, y),
            Claim::Not(predicate, before, x),
            Claim::Not(predicate, after, x),
        ),
    ];
    fill(alloc, b, plans, &clauses)
}
