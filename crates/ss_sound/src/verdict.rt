// A whole program.

ghost use Rattle.std.specs.Prelude.{◌≡◌, ◌≢◌, ◌++◌, [], length, IfOk, OnOk};
ghost use Rattle.ss_core.specs.View as view;
ghost use Rattle.ss_core.specs.Chain.{IsWithinLimits};
ghost use Rattle.ss_store_rules.specs.Formed.{IsFormed};
ghost use Rattle.ss_vcgen_heaps.specs.Obligations as oblig;
ghost use Rattle.ss_vcgen_safe.specs.Derived.{AreDerived};
ghost use Rattle.ss_vcgen_safe.specs.Formed.{AreFormed};
ghost use Rattle.ss_logic_means.specs.Scenes.{AreInvariants};
ghost use Rattle.ss_vcgen_builder.specs.Builder.{obligations_at, AreWithin};
ghost use Rattle.ss_vcgen_builder.specs.Built.{trees, IsWithin};
ghost use Rattle.ss_terms.specs.Forms.{IsBankOf, IsGrown, HasFormulas};
ghost use Rattle.ss_sound.specs.Safe.{IsSafe};
ghost use Rattle.ss_sound.specs.Verdicts.{AreDecided, IsUnproved, IsUndecided, AllHaveNoModelWithin, IsVerifiedOrMemory, IfVerified, IfUnproved, IfUndecided, derivations_of, derivations_in, countered_in, undecided_in};

use crate::decision::{Decision, decide};
use ss_core::Core;
use ss_deriv::Derivation;
use ss_search::{Countered, Options, Search, Undecided, Verdict};
use ss_terms::{Bank, FormulaId};
use ss_vcgen_builder::{Listed, Obligations};
use std::alloc::{AllocError, Global};

/// What was found of the obligations so far.
#[derive(Drop)]
struct Decided {
    derivations: Vec<Derivation>,
    countered: Vec<Countered>,
    undecided: Vec<Undecided>,
}

impl Decided {
    // Adds what was found of the obligation of this number.
    fn add(&mut self, number: usize, decision: Decision) -> Result<(), AllocError>
        ensures derivations { OnOk result (self.new.derivations.items ≡ self.old.derivations.items ++ derivations_in decision) }
        ensures countered { OnOk result (self.new.countered.items ≡ self.old.countered.items ++ countered_in number decision) }
        ensures undecided { OnOk result (self.new.undecided.items ≡ self.old.undecided.items ++ undecided_in number decision) }
    {
        match decision {
            Decision::Derived(derivation) => self.derivations.push(derivation)?,
            Decision::Refuted(model) => self.countered.push(Countered {
                obligation: number,
                model,
            })?,
            Decision::Over(cause) => self.undecided.push(Undecided {
                obligation: number,
                cause,
            })?,
        }
        Ok(())
    }

    // The verdict, where this was found of all obligations.
    fn verdict(self) -> Verdict
        ensures verified { IfVerified result (λ ds. (ds ≡ self.derivations.items) × (self.countered.items ≡ []) × (self.undecided.items ≡ [])) }
        ensures unproved { IfUnproved result (λ cs us. (cs ≡ self.countered.items) × (us ≡ self.undecided.items) × (cs ≢ [])) }
        ensures undecided { IfUndecided result (λ us. (us ≡ self.undecided.items) × (self.countered.items ≡ []) × (us ≢ [])) }
    {
        let Decided {
            derivations,
            countered,
            undecided,
        } = self;
        if !countered.is_empty() {
            return Verdict::Unproved {
                countered,
                undecided,
            };
        }
        if !undecided.is_empty() {
            return Verdict::Undecided(undecided);
        }
        Verdict::Verified(derivations)
    }
}

/// Decides each obligation of a program, in order. Of a verified program no check fails in any run of an admitted input. Where the ground form
/// of each obligation has no model, and the options are enough, the program is verified, unless memory runs out.
pub fn verify(
    alloc: Global,
    program: &Core,
    obligations: &mut Obligations,
    options: &Options,
) -> Verdict
    requires formed { IsFormed (view.core program.now) }
    requires limits { IsWithinLimits (view.classes program.now.classes) }
    requires obligations { trees obligations.old ≡ oblig.obligations (view.core program.now) }
    requires within { IsWithin obligations.old }
    requires bank { IsBankOf (view.classes program.now.classes) obligations.old.bank }
    ensures derived { IfVerified result (λ ds. AreDerived (view.classes program.now.classes) (oblig.obligations (view.core program.now)) (derivations_of obligations.new.bank ds)) }
    ensures safe { IfVerified result (λ _. IsSafe (view.core program.now)) }
    ensures unproved { IfUnproved result (IsUnproved (view.classes program.now.classes) options.now (oblig.obligations (view.core program.now))) }
    ensures undecided { IfUndecided result (IsUndecided (view.classes program.now.classes) options.now (oblig.obligations (view.core program.now))) }
    ensures complete { AllHaveNoModelWithin (view.classes program.now.classes) options.now (oblig.obligations (view.core program.now)) → IsVerifiedOrMemory result }
    ensures obligations { trees obligations.new ≡ trees obligations.old }
    ensures list { obligations.new.list ≡ obligations.old.list }
    ensures grown { IsGrown obligations.old.bank obligations.new.bank }
{
    let Obligations { bank, trail, list } = obligations;
    match decide_all(alloc, bank, program, trail, list, options) {
        Ok(decided) => decided.verdict(),
        Err(_) => Verdict::Memory,
    }
}

// Where each obligation is decided: the program, the trail and the limits of the search.
#[derive(Clone, Copy)]
struct DecisionContext<'a> {
    alloc: Global,
    program: &'a Core,
    trail: &'a [FormulaId],
    options: &'a Options,
}

// What is found of each obligation. An error is want of memory.
fn decide_all(
    alloc: Global,
    bank: &mut Bank,
    program: &Core,
    trail: &[FormulaId],
    list: &[Listed],
    options: &Options,
) -> Result<Decided, AllocError>
    requires bank { IsBankOf (view.classes program.now.classes) bank.old }
    requires limits { IsWithinLimits (view.classes program.now.classes) }
    requires invariants { AreInvariants (view.classes program.now.classes) }
    requires trail { HasFormulas bank.old trail.now }
    requires list { AreWithin bank.old (length trail.now) list.now }
    requires formed { AreFormed (view.classes program.now.classes) (obligations_at bank.old trail.now list.now) }
    ensures decided { IfOk result (λ d. AreDecided (view.classes program.now.classes) options.now (obligations_at bank.old trail.now list.now) (length list.now) d.countered.items d.undecided.items) }
    ensures derived { IfOk result (λ d. d.countered.items ≡ [] → d.undecided.items ≡ [] → AreDerived (view.classes program.now.classes) (obligations_at bank.old trail.now list.now) (derivations_of bank.new d.derivations.items)) }
    ensures grown { IsGrown bank.old bank.new }
{
    let mut search = Search::new(alloc, bank)?;
    let context = DecisionContext {
        alloc,
        program,
        trail,
        options,
    };
    decide_each(&context, &mut search, bank, list)
}

// The same, by a search over a bank that has all of them.
fn decide_each(
    context: &DecisionContext<'_>,
    search: &mut Search,
    bank: &mut Bank,
    list: &[Listed],
) -> Result<Decided, AllocError>
    requires bank { IsBankOf (view.classes context.now.program.now.classes) bank.old }
    requires limits { IsWithinLimits (view.classes context.now.program.now.classes) }
    requires invariants { AreInvariants (view.classes context.now.program.now.classes) }
    requires trail { HasFormulas bank.old context.now.trail.now }
    requires list { AreWithin bank.old (length context.now.trail.now) list.now }
    requires formed { AreFormed (view.classes context.now.program.now.classes) (obligations_at bank.old context.now.trail.now list.now) }
    ensures decided { IfOk result (λ d. AreDecided (view.classes context.now.program.now.classes) context.now.options.now (obligations_at bank.old context.now.trail.now list.now) (length list.now) d.countered.items d.undecided.items) }
    ensures derived { IfOk result (λ d. d.countered.items ≡ [] → d.undecided.items ≡ [] → AreDerived (view.classes context.now.program.now.classes) (obligations_at bank.old context.now.trail.now list.now) (derivations_of bank.new d.derivations.items)) }
    ensures grown { IsGrown bank.old bank.new }
{
    let mut decided = Decided {
        derivations: Vec::new(context.alloc),
        countered: Vec::new(context.alloc),
        undecided: Vec::new(context.alloc),
    };
    for (number, listed) in list.iter().enumerate() {
        let decision = decide(
            search,
            bank,
            context.program,
            context.trail,
            listed,
            context.options,
        )?;
        decided.add(number, decision)?;
    }
    Ok(decided)
}
