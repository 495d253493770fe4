// Default conditions.

ghost use Rattle.std.specs.Prelude.{◌≡◌, [], ◌∷◌, IfOk};
ghost use Rattle.ss_core.specs.Chain.{all_fields};
ghost use Rattle.ss_core.specs.View as view;
ghost use Rattle.ss_core.specs.View.{default_tree};
ghost use Rattle.ss_store_rules.specs.Values.{subject};
ghost use Rattle.ss_logic.specs.Express as spec;
ghost use Rattle.ss_logic.specs.declared.Sort.TheVariants as sort;
ghost use Rattle.ss_logic.specs.Terms.{Bound};
ghost use Rattle.ss_logic.specs.Formulas as logic;
ghost use Rattle.ss_terms.specs.Forms.{term_at, formula_at, HasTerm, HasFormula, IsGrown};
ghost use Rattle.ss_vcgen_defaults.specs.Defaults.{full_if_peer, no_peer, owned_is_full};
ghost use Rattle.ss_vcgen_express.specs.Numbers.{IsFormula};
ghost use Rattle.ss_vcgen_express.specs.Contexts.{context_at, HasContext};

use crate::fields::fields_upto;
use crate::levels::all_levels;
use crate::objects::{
    are_default, are_full_if_owned, is_at_level, is_full, is_full_if_peer, is_no_peer, of_each,
    unless_null,
};
use ss_core::{ClassId, DefaultCondition};
use ss_logic::Sort;
use ss_terms::{Bank, FormulaId, TermId};
use ss_vcgen_express::{Context, Saying, all, both, bound_name, for_all, local_term, say};
use std::alloc::{AllocError, Global};

// That the fields which the class and those above it declare are at their defaults.
fn has_defaults(
    alloc: Global,
    bank: &mut Bank,
    context: &Context<'_>,
    class: ClassId,
    x: TermId,
) -> Result<FormulaId, AllocError>
    requires context { HasContext bank.old context.now }
    requires object { HasTerm bank.old x }
    ensures at { IfOk result (λ f. IsFormula bank.new f (λ b. spec.and_of (spec.defaults_from (context_at b context.entry.now) class.0 (term_at b x) 0 (all_fields (view.classes context.entry.now.classes.now))))) }
    ensures grown { IsGrown bank.old bank.new }
{
    let list = fields_upto(alloc, context.classes, class)?;
    let made = are_default(alloc, bank, context.now, x, &list)?;
    all(bank, &made)
}

// That the bound name is full, where the object owns it at the class or one above it.
fn owned_is_full(
    alloc: Global,
    bank: &mut Bank,
    context: &Context<'_>,
    class: ClassId,
    v: TermId,
    x: TermId,
) -> Result<FormulaId, AllocError>
    requires context { HasContext bank.old context.now }
    requires object { HasTerm bank.old v }
    requires owner { HasTerm bank.old x }
    ensures at { IfOk result (λ f. IsFormula bank.new f (λ b. owned_is_full (view.classes context.entry.now.classes.now) class.0 (term_at b context.entry.now.now) (term_at b v) (term_at b x))) }
    ensures grown { IsGrown bank.old bank.new }
{
    let list = all_levels(alloc, context.classes, class)?;
    let made = are_full_if_owned(alloc, bank, context.now, v, x, &list)?;
    all(bank, &made)
}

// That each object which this one owns at the class or one above it is full.
fn owned_full(
    alloc: Global,
    bank: &mut Bank,
    context: &Context<'_>,
    class: ClassId,
    x: TermId,
) -> Result<FormulaId, AllocError>
    requires context { HasContext bank.old context.now }
    requires object { HasTerm bank.old x }
    ensures at { IfOk result (λ f. IsFormula bank.new f (λ b. spec.owned_full (context_at b context.entry.now) class.0 (term_at b x))) }
    ensures grown { IsGrown bank.old bank.new }
{
    let v = bound_name(bank, context.bound)?;
    let f = owned_is_full(alloc, bank, context, class, v, x)?;
    of_each(bank, context.now, v, f)
}

// That each object of the group of this one is full.
fn peers_full(
    alloc: Global,
    bank: &mut Bank,
    context: &Context<'_>,
    x: TermId,
) -> Result<FormulaId, AllocError>
    requires context { HasContext bank.old context.now }
    requires object { HasTerm bank.old x }
    ensures at { IfOk result (λ f. IsFormula bank.new f (λ b. logic.Forall (sort.Rest ∷ []) (full_if_peer (term_at b context.entry.now.now) (Bound context.entry.now.bound) (term_at b x)))) }
    ensures grown { IsGrown bank.old bank.new }
{
    let v = bound_name(bank, context.bound)?;
    let f = is_full_if_peer(alloc, bank, context.now, v, x)?;
    for_all(bank, Sort::Rest, f)
}

// That `this` is null, or not of the group of this object.
fn this_apart(
    alloc: Global,
    bank: &mut Bank,
    context: &Context<'_>,
    x: TermId,
) -> Result<FormulaId, AllocError>
    requires context { HasContext bank.old context.now }
    requires object { HasTerm bank.old x }
    ensures at { IfOk result (λ f. IsFormula bank.new f (λ b. spec.over (spec.local_meant (context_at b context.entry.now) 0) (λ y. no_peer (term_at b context.entry.now.now) y (term_at b x)))) }
    ensures grown { IsGrown bank.old bank.new }
{
    let this = local_term(bank, context, 0)?;
    is_no_peer(alloc, bank, context.now, this, x)
}

// Two formulas, and that `this` is apart.
fn and_apart(
    alloc: Global,
    bank: &mut Bank,
    context: &Context<'_>,
    f: FormulaId,
    g: FormulaId,
    x: TermId,
) -> Result<FormulaId, AllocError>
    requires context { HasContext bank.old context.now }
    requires first { HasFormula bank.old f }
    requires second { HasFormula bank.old g }
    requires object { HasTerm bank.old x }
    ensures at { IfOk result (λ h. IsFormula bank.new h (λ b. spec.and_of (formula_at b f ∷ formula_at b g ∷ spec.over (spec.local_meant (context_at b context.entry.now) 0) (λ y. no_peer (term_at b context.entry.now.now) y (term_at b x)) ∷ []))) }
    ensures grown { IsGrown bank.old bank.new }
{
    let h = this_apart(alloc, bank, context, x)?;
    all(bank, &[f, g, h])
}

// That the object may be captured.
fn may_be_captured(
    alloc: Global,
    bank: &mut Bank,
    context: &Context<'_>,
    apart: bool,
    x: TermId,
) -> Result<FormulaId, AllocError>
    requires context { HasContext bank.old context.now }
    requires object { HasTerm bank.old x }
    ensures at { IfOk result (λ f. IsFormula bank.new f (λ b. spec.and_of (spec.may_be_captured (context_at b context.entry.now) apart (term_at b x)))) }
    ensures grown { IsGrown bank.old bank.new }
{
    let group = say(alloc, bank, Saying::Unowned(context.now), x)?;
    let full = peers_full(alloc, bank, context, x)?;
    if apart {
        and_apart(alloc, bank, context, group, full, x)
    } else {
        both(bank, group, full)
    }
}

// That the object meets the condition.
fn met_by(
    alloc: Global,
    bank: &mut Bank,
    context: &Context<'_>,
    condition: DefaultCondition,
    x: TermId,
) -> Result<FormulaId, AllocError>
    requires context { HasContext bank.old context.now }
    requires object { HasTerm bank.old x }
    ensures at { IfOk result (λ f. IsFormula bank.new f (λ b. spec.met_by (context_at b context.entry.now) (default_tree condition) (term_at b x))) }
    ensures grown { IsGrown bank.old bank.new }
{
    let now = context.now;
    match condition {
        DefaultCondition::AtLevel(class) => is_at_level(alloc, bank, now, x, class.0),
        DefaultCondition::Unpacked => say(alloc, bank, Saying::AtLevel(now, 0), x),
        DefaultCondition::Unowned => say(alloc, bank, Saying::Unowned(now), x),
        DefaultCondition::Defaults(class) => has_defaults(alloc, bank, context, class, x),
        DefaultCondition::OwnedFull(class) => owned_full(alloc, bank, context, class, x),
        DefaultCondition::Full => is_full(alloc, bank, now, x),
        DefaultCondition::ConsistentArgument(_) => say(alloc, bank, Saying::Consistent(now), x),
        DefaultCondition::FullArgument(_) => is_full(alloc, bank, now, x),
        DefaultCondition::Captured {
            argument: _,
            apart_from_this,
        } => may_be_captured(alloc, bank, context, apart_from_this, x),
    }
}

// The local of which a condition speaks: `this`, or an argument.
fn subject(condition: DefaultCondition) -> usize
    ensures { result ≡ subject (default_tree condition) }
{
    match condition {
        DefaultCondition::ConsistentArgument(x) => x,
        DefaultCondition::FullArgument(x) => x,
        DefaultCondition::Captured {
            argument,
            apart_from_this: _,
        } => argument,
        _ => 0,
    }
}

/// That a default condition is met.
pub fn default_said(
    alloc: Global,
    bank: &mut Bank,
    context: &Context<'_>,
    condition: DefaultCondition,
) -> Result<FormulaId, AllocError>
    requires { HasContext bank.old context.now }
    ensures at { IfOk result (λ f. IsFormula bank.new f (λ b. spec.default_said (context_at b context.entry.now) (default_tree condition))) }
    ensures grown { IsGrown bank.old bank.new }
{
    let x = local_term(bank, context, subject(condition))?;
    let f = met_by(alloc, bank, context, condition, x)?;
    unless_null(bank, x, f)
}
