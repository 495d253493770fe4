// An object as one of a class.

ghost use Rattle.std.specs.Prelude.{◌≡◌, [], ◌∷◌, ◌++◌, IfOk, flat_map};
ghost use Rattle.ss_logic.specs.Express as spec;
ghost use Rattle.ss_logic.specs.Shapes.{null_term};
ghost use Rattle.ss_logic.specs.Formulas.{neg};
ghost use Rattle.ss_terms.specs.Forms.{term_at, formula_at, IsGrown};
ghost use Rattle.ss_vcgen_express.specs.Numbers.{choice_at, choices_at, meant_at, HasChoice, HasChoices, HasMeant, IsFormula, IsChoice, AreChoices, IsMeant};
ghost use Rattle.ss_vcgen_express.specs.Sayings.{said_so, HasSaying};

use crate::meant::{Choice, Meant, choices};
use crate::sayings::Saying;
use crate::truths::{both, chosen, say};
use ss_terms::{Bank, FormulaId};
use std::alloc::{AllocError, Global};

// It is this one, of which something isn't so.
fn not_chosen(
    alloc: Global,
    bank: &mut Bank,
    c: Choice,
    saying: Saying,
) -> Result<FormulaId, AllocError>
    requires choice { HasChoice bank.old c }
    requires saying { HasSaying bank.old saying }
    ensures at { IfOk result (λ f. IsFormula bank.new f (λ b. spec.and_of (formula_at b c.condition ∷ neg (said_so (term_at b) saying (term_at b c.value)) ∷ []))) }
    ensures grown { IsGrown bank.old bank.new }
{
    let f = say(alloc, bank, saying, c.value)?;
    let other = bank.negation(f);
    both(bank, c.condition, other)
}

// The choice, where it is of the class.
fn as_itself(alloc: Global, bank: &mut Bank, class: u16, c: Choice) -> Result<Choice, AllocError>
    requires { HasChoice bank.old c }
    ensures at { IfOk result (λ r. IsChoice bank.new r (λ b. spec.choice (spec.and_of (formula_at b c.condition ∷ spec.is_of class (term_at b c.value) ∷ [])) (term_at b c.value))) }
    ensures grown { IsGrown bank.old bank.new }
{
    let condition = chosen(alloc, bank, c, Saying::IsOf(class))?;
    Ok(Choice {
        condition,
        value: c.value,
    })
}

// Null, where the choice isn't of the class.
fn as_null(alloc: Global, bank: &mut Bank, class: u16, c: Choice) -> Result<Choice, AllocError>
    requires { HasChoice bank.old c }
    ensures at { IfOk result (λ r. IsChoice bank.new r (λ b. spec.choice (spec.and_of (formula_at b c.condition ∷ neg (spec.is_of class (term_at b c.value)) ∷ [])) null_term)) }
    ensures grown { IsGrown bank.old bank.new }
{
    let condition = not_chosen(alloc, bank, c, Saying::IsOf(class))?;
    let value = bank.null()?;
    Ok(Choice { condition, value })
}

// The choice as one of the class.
fn add_as(
    alloc: Global,
    bank: &mut Bank,
    class: u16,
    c: Choice,
    made: &mut Vec<Choice>,
) -> Result<(), AllocError>
    requires choice { HasChoice bank.old c }
    requires made { HasChoices bank.old made.old.items }
    ensures at { IfOk result (λ u. AreChoices bank.new made.new.items (λ b. choices_at b made.old.items ++ spec.as_class class (choice_at b c))) }
    ensures grown { IsGrown bank.old bank.new }
{
    let itself = as_itself(alloc, bank, class, c)?;
    let null = as_null(alloc, bank, class, c)?;
    made.push(itself)?;
    made.push(null)?;
    Ok(())
}

// Each of the choices as one of the class.
fn as_choices(
    alloc: Global,
    bank: &mut Bank,
    class: u16,
    list: &[Choice],
) -> Result<Vec<Choice>, AllocError>
    requires { HasChoices bank.old list.now }
    ensures at { IfOk result (λ v. AreChoices bank.new v.items (λ b. flat_map (spec.as_class class) (choices_at b list.now))) }
    ensures grown { IsGrown bank.old bank.new }
{
    let mut made = Vec::new(alloc);
    for c in list {
        add_as(alloc, bank, class, *c, &mut made)?;
    }
    Ok(made)
}

/// It is itself where it is of the class or below, and else null.
pub fn as_class(alloc: Global, bank: &mut Bank, class: u16, m: &Meant) -> Result<Meant, AllocError>
    requires { HasMeant bank.old m.now }
    ensures at { IfOk result (λ r. IsMeant bank.new r (λ b. spec.Either (flat_map (spec.as_class class) (spec.choices (meant_at b m.now))))) }
    ensures grown { IsGrown bank.old bank.new }
{
    let list = choices(alloc, bank, m)?;
    let made = as_choices(alloc, bank, class, &list)?;
    Ok(Meant::Either(made))
}
