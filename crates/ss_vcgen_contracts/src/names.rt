// What a `modifies` clause names.

ghost use Rattle.std.specs.Prelude.{◌≡◌, [], ◌∷◌, ◌++◌, map, IfOk};
ghost use Rattle.ss_core.specs.View as view;
ghost use Rattle.ss_logic.specs.Express.{and_of};
ghost use Rattle.ss_terms.specs.Forms.{term_at, formula_at, formulas_at, HasTerm, HasFormulas, IsGrown};
ghost use Rattle.ss_frames.specs.Calls.{named_at, HasAllNamed};
ghost use Rattle.ss_vcgen_express.specs.Numbers.{choices_at, meant_at, HasChoice, HasChoices, HasMeant};
ghost use Rattle.ss_vcgen_express.specs.Contexts.{context_at, HasContext};
ghost use Rattle.ss_vcgen_heaps.specs.Contracts as heaps;
ghost use Rattle.ss_machine_rules.specs.Frame.{subject_of};
ghost use Rattle.ss_vcgen_contracts.specs.Names.{kind_of, name_seen, named_by, named_for, named_as, names_of};
ghost use Rattle.ss_vcgen_contracts.specs.Views.{IsName, AreNames};

use ss_core::{ClassId, Expr, FieldId, Modifies};
use ss_frames::NamedTerm;
use ss_terms::{Bank, FormulaId, TermId};
use ss_vcgen_express::{Choice, Context, Meant, all, all_with};
use ss_vcgen_walk::naming;
use std::alloc::{AllocError, Global};

/// What is named of an object.
#[derive(Clone, Copy)]
pub(crate) enum Named {
    Field(FieldId),
    All,
    Elements,
    Upto(ClassId),
}

// What the clause names of its object, as it is written or as a caller sees it.
fn kind_of(name: &Modifies, seen: bool) -> Named
    ensures { result ≡ kind_of (name_seen seen (view.named_of name.now)) }
{
    match name {
        Modifies::Field(_, field) => Named::Field(*field),
        Modifies::All(_) => Named::All,
        Modifies::Elements(_) => Named::Elements,
        Modifies::Upto(_, class) => {
            if seen {
                Named::All
            } else {
                Named::Upto(*class)
            }
        }
    }
}

fn subject_of(name: &Modifies) -> &Expr
    ensures { view.expr result.now ≡ subject_of (view.named_of name.now) }
{
    match name {
        Modifies::Field(e, _) => e,
        Modifies::All(e) => e,
        Modifies::Elements(e) => e,
        Modifies::Upto(e, _) => e,
    }
}

// The part of this object, where the formula is true.
fn name_of(kind: Named, guard: FormulaId, object: TermId) -> NamedTerm
    ensures { result ≡ named_for kind guard object }
{
    match kind {
        Named::Field(field) => NamedTerm::At(guard, object, field),
        Named::All => NamedTerm::All(guard, object),
        Named::Elements => NamedTerm::Elements(guard, object),
        Named::Upto(class) => NamedTerm::Upto(guard, object, class),
    }
}

// What is named of this object, where all the formulas are true.
fn named_alone(
    bank: &mut Bank,
    kind: Named,
    guards: &[FormulaId],
    object: TermId,
) -> Result<NamedTerm, AllocError>
    requires guards { HasFormulas bank.old guards.now }
    requires object { HasTerm bank.old object }
    ensures at { IfOk result (λ n. IsName bank.new n (λ b. named_by kind (and_of (formulas_at b guards.now)) (term_at b object))) }
    ensures grown { IsGrown bank.old bank.new }
{
    let guard = all(bank, guards)?;
    Ok(name_of(kind, guard, object))
}

// A choice names its value where it is taken.
fn named_choice(
    alloc: Global,
    bank: &mut Bank,
    kind: Named,
    guards: &[FormulaId],
    choice: Choice,
) -> Result<NamedTerm, AllocError>
    requires guards { HasFormulas bank.old guards.now }
    requires choice { HasChoice bank.old choice }
    ensures at { IfOk result (λ n. IsName bank.new n (λ b. named_by kind (and_of (formulas_at b guards.now ++ formula_at b choice.condition ∷ [])) (term_at b choice.value))) }
    ensures grown { IsGrown bank.old bank.new }
{
    let guard = all_with(alloc, bank, guards, choice.condition)?;
    Ok(name_of(kind, guard, choice.value))
}

fn add_choices(
    alloc: Global,
    bank: &mut Bank,
    names: &mut Vec<NamedTerm>,
    kind: Named,
    guards: &[FormulaId],
    choices: &[Choice],
) -> Result<(), AllocError>
    requires names { HasAllNamed bank.old names.old.items }
    requires guards { HasFormulas bank.old guards.now }
    requires choices { HasChoices bank.old choices.now }
    ensures at { IfOk result (λ u. AreNames bank.new names.new.items (λ b. map (named_at b) names.old.items ++ map (λ x. named_by kind (and_of (formulas_at b guards.now ++ x.condition ∷ [])) x.value) (choices_at b choices.now))) }
    ensures grown { IsGrown bank.old bank.new }
{
    for choice in choices {
        let name = named_choice(alloc, bank, kind, guards, *choice)?;
        names.push(name)?;
    }
    Ok(())
}

fn add_alone(
    bank: &mut Bank,
    names: &mut Vec<NamedTerm>,
    kind: Named,
    guards: &[FormulaId],
    object: TermId,
) -> Result<(), AllocError>
    requires names { HasAllNamed bank.old names.old.items }
    requires guards { HasFormulas bank.old guards.now }
    requires object { HasTerm bank.old object }
    ensures at { IfOk result (λ u. AreNames bank.new names.new.items (λ b. map (named_at b) names.old.items ++ named_by kind (and_of (formulas_at b guards.now)) (term_at b object) ∷ [])) }
    ensures grown { IsGrown bank.old bank.new }
{
    let name = named_alone(bank, kind, guards, object)?;
    names.push(name)?;
    Ok(())
}

// What is named of what an expression means.
fn add_meant(
    alloc: Global,
    bank: &mut Bank,
    names: &mut Vec<NamedTerm>,
    kind: Named,
    guards: &[FormulaId],
    m: &Meant,
) -> Result<(), AllocError>
    requires names { HasAllNamed bank.old names.old.items }
    requires guards { HasFormulas bank.old guards.now }
    requires meant { HasMeant bank.old m.now }
    ensures at { IfOk result (λ u. AreNames bank.new names.new.items (λ b. map (named_at b) names.old.items ++ named_as kind (formulas_at b guards.now) (meant_at b m.now))) }
    ensures grown { IsGrown bank.old bank.new }
{
    match m {
        Meant::One(t) => add_alone(bank, names, kind, guards, *t),
        Meant::Either(choices) => add_choices(alloc, bank, names, kind, guards, choices),
        Meant::Says(_) => Ok(()),
        Meant::All(_) => Ok(()),
        Meant::Any(_) => Ok(()),
    }
}

fn add_name(
    alloc: Global,
    bank: &mut Bank,
    names: &mut Vec<NamedTerm>,
    context: &Context<'_>,
    seen: bool,
    name: &Modifies,
) -> Result<(), AllocError>
    requires names { HasAllNamed bank.old names.old.items }
    requires context { HasContext bank.old context.now }
    ensures at { IfOk result (λ u. AreNames bank.new names.new.items (λ b. map (named_at b) names.old.items ++ names_of (context_at b context.entry.now) (name_seen seen (view.named_of name.now)))) }
    ensures grown { IsGrown bank.old bank.new }
{
    let kind = kind_of(name, seen);
    let named = naming(alloc, bank, context, subject_of(name))?;
    add_meant(alloc, bank, names, kind, &named.0, &named.1)?;
    Ok(())
}

/// What the clause names, as it is written or as a caller sees it.
pub(crate) fn named_terms(
    alloc: Global,
    bank: &mut Bank,
    context: &Context<'_>,
    seen: bool,
    list: &[Modifies],
) -> Result<Vec<NamedTerm>, AllocError>
    requires { HasContext bank.old context.now }
    ensures at { IfOk result (λ v. AreNames bank.new v.items (λ b. heaps.named_terms (map (name_seen seen) (map view.named_of list.now)) (context_at b context.entry.now))) }
    ensures grown { IsGrown bank.old bank.new }
{
    let mut names = Vec::new(alloc);
    for name in list {
        add_name(alloc, bank, &mut names, context, seen, name)?;
    }
    Ok(names)
}
