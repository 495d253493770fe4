// Functions of what expressions mean.

ghost use Rattle.std.specs.Prelude.{◌≡◌, [], ◌∷◌, ◌++◌, IfOk, map, flat_map};
ghost use Rattle.ss_logic.specs.Express as spec;
ghost use Rattle.ss_terms.specs.Forms.{term_at, formula_at, HasTerm, IsGrown};
ghost use Rattle.ss_vcgen_express.specs.Numbers.{choice_at, choices_at, meant_at, HasChoice, HasChoices, HasMeant, IsTerm, IsChoice, AreChoices, IsMeant};
ghost use Rattle.ss_vcgen_express.specs.Functions.{applied, applied_two, HasFunction};

use crate::meant::{Choice, Meant, choices};
use crate::truths::both;
use ss_terms::{Bank, Symbol, TermId};
use std::alloc::{AllocError, Global};

/// A function of one value or of two, after a first term where it has one, as a store is.
#[derive(Clone, Copy)]
pub struct Function {
    pub symbol: Symbol,
    pub first: Option<TermId>,
}

// The function of a term.
fn applied(bank: &mut Bank, function: Function, x: TermId) -> Result<TermId, AllocError>
    requires function { HasFunction bank.old function }
    requires value { HasTerm bank.old x }
    ensures at { IfOk result (λ t. IsTerm bank.new t (λ b. applied (term_at b) function (term_at b x))) }
    ensures grown { IsGrown bank.old bank.new }
{
    match function.first {
        Some(s) => bank.apply(function.symbol, &[s, x]),
        None => bank.apply(function.symbol, &[x]),
    }
}

// The function of two terms.
fn applied_two(
    bank: &mut Bank,
    function: Function,
    x: TermId,
    y: TermId,
) -> Result<TermId, AllocError>
    requires function { HasFunction bank.old function }
    requires first { HasTerm bank.old x }
    requires second { HasTerm bank.old y }
    ensures at { IfOk result (λ t. IsTerm bank.new t (λ b. applied_two (term_at b) function (term_at b x) (term_at b y))) }
    ensures grown { IsGrown bank.old bank.new }
{
    match function.first {
        Some(s) => bank.apply(function.symbol, &[s, x, y]),
        None => bank.apply(function.symbol, &[x, y]),
    }
}

// The function of each choice.
fn mapped_choices(
    alloc: Global,
    bank: &mut Bank,
    function: Function,
    list: &[Choice],
) -> Result<Vec<Choice>, AllocError>
    requires function { HasFunction bank.old function }
    requires choices { HasChoices bank.old list.now }
    ensures at { IfOk result (λ v. AreChoices bank.new v.items (λ b. map (λ c. spec.choice c.condition (applied (term_at b) function c.value)) (choices_at b list.now))) }
    ensures grown { IsGrown bank.old bank.new }
{
    let mut made = Vec::new(alloc);
    for c in list {
        let value = applied(bank, function, c.value)?;
        made.push(Choice {
            condition: c.condition,
            value,
        })?;
    }
    Ok(made)
}

// The function of the one that it is.
fn mapped_either(
    alloc: Global,
    bank: &mut Bank,
    function: Function,
    m: &Meant,
) -> Result<Meant, AllocError>
    requires function { HasFunction bank.old function }
    requires meant { HasMeant bank.old m.now }
    ensures at { IfOk result (λ r. IsMeant bank.new r (λ b. spec.Either (map (λ c. spec.choice c.condition (applied (term_at b) function c.value)) (spec.choices (meant_at b m.now))))) }
    ensures grown { IsGrown bank.old bank.new }
{
    let list = choices(alloc, bank, m)?;
    let made = mapped_choices(alloc, bank, function, &list)?;
    Ok(Meant::Either(made))
}

/// The function of what an expression means.
pub fn mapped(
    alloc: Global,
    bank: &mut Bank,
    function: Function,
    m: &Meant,
) -> Result<Meant, AllocError>
    requires function { HasFunction bank.old function }
    requires meant { HasMeant bank.old m.now }
    ensures at { IfOk result (λ r. IsMeant bank.new r (λ b. spec.mapped (applied (term_at b) function) (meant_at b m.now))) }
    ensures grown { IsGrown bank.old bank.new }
{
    match m {
        Meant::One(t) => {
            let t = applied(bank, function, *t)?;
            Ok(Meant::One(t))
        }
        Meant::Either(_) => mapped_either(alloc, bank, function, m),
        Meant::Says(_) | Meant::All(_) | Meant::Any(_) => {
            mapped_either(alloc, bank, function, m)
        }
    }
}

// The function of two choices, where both are taken.
fn pair(bank: &mut Bank, function: Function, x: Choice, y: Choice) -> Result<Choice, AllocError>
    requires function { HasFunction bank.old function }
    requires first { HasChoice bank.old x }
    requires second { HasChoice bank.old y }
    ensures at { IfOk result (λ c. IsChoice bank.new c (λ b. spec.both (applied_two (term_at b) function) (choice_at b x) (choice_at b y))) }
    ensures grown { IsGrown bank.old bank.new }
{
    let condition = both(bank, x.condition, y.condition)?;
    let value = applied_two(bank, function, x.value, y.value)?;
    Ok(Choice { condition, value })
}

// The function of one choice and each of a list.
fn add_pairs(
    bank: &mut Bank,
    function: Function,
    x: Choice,
    list: &[Choice],
    made: &mut Vec<Choice>,
) -> Result<(), AllocError>
    requires function { HasFunction bank.old function }
    requires first { HasChoice bank.old x }
    requires choices { HasChoices bank.old list.now }
    requires made { HasChoices bank.old made.old.items }
    ensures at { IfOk result (λ u. AreChoices bank.new made.new.items (λ b. choices_at b made.old.items ++ map (spec.both (applied_two (term_at b) function) (choice_at b x)) (choices_at b list.now))) }
    ensures grown { IsGrown bank.old bank.new }
{
    for y in list {
        let z = pair(bank, function, x, *y)?;
        made.push(z)?;
    }
    Ok(())
}

// The function of each choice of one list and each of another.
fn pairs(
    alloc: Global,
    bank: &mut Bank,
    function: Function,
    xs: &[Choice],
    ys: &[Choice],
) -> Result<Vec<Choice>, AllocError>
    requires function { HasFunction bank.old function }
    requires first { HasChoices bank.old xs.now }
    requires second { HasChoices bank.old ys.now }
    ensures at { IfOk result (λ v. AreChoices bank.new v.items (λ b. flat_map (λ x. map (spec.both (applied_two (term_at b) function) x) (choices_at b ys.now)) (choices_at b xs.now))) }
    ensures grown { IsGrown bank.old bank.new }
{
    let mut made = Vec::new(alloc);
    for x in xs {
        add_pairs(bank, function, *x, ys, &mut made)?;
    }
    Ok(made)
}

// The function of the two that they are.
fn paired_either(
    alloc: Global,
    bank: &mut Bank,
    function: Function,
    x: &Meant,
    y: &Meant,
) -> Result<Meant, AllocError>
    requires function { HasFunction bank.old function }
    requires first { HasMeant bank.old x.now }
    requires second { HasMeant bank.old y.now }
    ensures at { IfOk result (λ r. IsMeant bank.new r (λ b. spec.Either (flat_map (λ c. map (spec.both (applied_two (term_at b) function) c) (spec.choices (meant_at b y.now))) (spec.choices (meant_at b x.now))))) }
    ensures grown { IsGrown bank.old bank.new }
{
    let xs = choices(alloc, bank, x)?;
    let ys = choices(alloc, bank, y)?;
    let made = pairs(alloc, bank, function, &xs, &ys)?;
    Ok(Meant::Either(made))
}

/// The function of what two expressions mean.
pub fn paired(
    alloc: Global,
    bank: &mut Bank,
    function: Function,
    x: &Meant,
    y: &Meant,
) -> Result<Meant, AllocError>
    requires function { HasFunction bank.old function }
    requires first { HasMeant bank.old x.now }
    requires second { HasMeant bank.old y.now }
    ensures at { IfOk result (λ r. IsMeant bank.new r (λ b. spec.paired (applied_two (term_at b) function) (meant_at b x.now) (meant_at b y.now))) }
    ensures grown { IsGrown bank.old bank.new }
{
    match (x, y) {
        (Meant::One(s), Meant::One(t)) => {
            let t = applied_two(bank, function, *s, *t)?;
            Ok(Meant::One(t))
        }
        _ => paired_either(alloc, bank, function, x, y),
    }
}
