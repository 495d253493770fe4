// Formulas over what expressions mean.

ghost use Rattle.std.specs.Prelude.{◌≡◌, [], ◌∷◌, IfOk, map};
ghost use Rattle.ss_logic.specs.Express as spec;
ghost use Rattle.ss_terms.specs.Forms.{term_at, formula_at, formulas_at, HasTerm, HasFormula, HasFormulas, IsGrown};
ghost use Rattle.ss_vcgen_express.specs.Numbers.{choice_at, choices_at, meant_at, HasChoice, HasChoices, HasMeant, IsFormula, AreFormulas};
ghost use Rattle.ss_vcgen_express.specs.Sayings.{related, said_so, HasRelation, HasSaying};

use crate::meant::{Choice, Meant, choices};
use crate::sayings::{Relation, Saying, said_so};
use ss_terms::{Bank, FormulaId, TermId};
use std::alloc::{AllocError, Global};

/// What is said of a term.
pub fn say(
    alloc: Global,
    bank: &mut Bank,
    saying: Saying,
    x: TermId,
) -> Result<FormulaId, AllocError>
    requires saying { HasSaying bank.old saying }
    requires value { HasTerm bank.old x }
    ensures at { IfOk result (λ f. IsFormula bank.new f (λ b. said_so (term_at b) saying (term_at b x))) }
    ensures grown { IsGrown bank.old bank.new }
{
    said_so(alloc, bank, saying, x)
}

/// Both of these.
pub fn both(bank: &mut Bank, f: FormulaId, g: FormulaId) -> Result<FormulaId, AllocError>
    requires first { HasFormula bank.old f }
    requires second { HasFormula bank.old g }
    ensures at { IfOk result (λ h. IsFormula bank.new h (λ b. spec.and_of (formula_at b f ∷ formula_at b g ∷ []))) }
    ensures grown { IsGrown bank.old bank.new }
{
    bank.and(&[f, g])
}

/// One of these.
pub fn any(bank: &mut Bank, fs: &[FormulaId]) -> Result<FormulaId, AllocError>
    requires { HasFormulas bank.old fs.now }
    ensures at { IfOk result (λ h. IsFormula bank.new h (λ b. spec.or_of (formulas_at b fs.now))) }
    ensures grown { IsGrown bank.old bank.new }
{
    bank.or(fs)
}

/// All of these.
pub fn all(bank: &mut Bank, fs: &[FormulaId]) -> Result<FormulaId, AllocError>
    requires { HasFormulas bank.old fs.now }
    ensures at { IfOk result (λ h. IsFormula bank.new h (λ b. spec.and_of (formulas_at b fs.now))) }
    ensures grown { IsGrown bank.old bank.new }
{
    bank.and(fs)
}

// It is this one, of which something is so.
pub(crate) fn chosen(
    alloc: Global,
    bank: &mut Bank,
    c: Choice,
    saying: Saying,
) -> Result<FormulaId, AllocError>
    requires choice { HasChoice bank.old c }
    requires saying { HasSaying bank.old saying }
    ensures at { IfOk result (λ f. IsFormula bank.new f (λ b. spec.and_of (formula_at b c.condition ∷ said_so (term_at b) saying (term_at b c.value) ∷ []))) }
    ensures grown { IsGrown bank.old bank.new }
{
    let f = say(alloc, bank, saying, c.value)?;
    both(bank, c.condition, f)
}

// The same of each choice.
fn each_chosen(
    alloc: Global,
    bank: &mut Bank,
    list: &[Choice],
    saying: Saying,
) -> Result<Vec<FormulaId>, AllocError>
    requires choices { HasChoices bank.old list.now }
    requires saying { HasSaying bank.old saying }
    ensures at { IfOk result (λ v. AreFormulas bank.new v.items (λ b. map (λ c. spec.and_of (c.condition ∷ said_so (term_at b) saying c.value ∷ [])) (choices_at b list.now))) }
    ensures grown { IsGrown bank.old bank.new }
{
    let mut made = Vec::new(alloc);
    for c in list {
        let f = chosen(alloc, bank, *c, saying)?;
        made.push(f)?;
    }
    Ok(made)
}

// That something is so of the one that it is.
fn over_choices(
    alloc: Global,
    bank: &mut Bank,
    m: &Meant,
    saying: Saying,
) -> Result<FormulaId, AllocError>
    requires meant { HasMeant bank.old m.now }
    requires saying { HasSaying bank.old saying }
    ensures at { IfOk result (λ f. IsFormula bank.new f (λ b. spec.or_of (map (λ c. spec.and_of (c.condition ∷ said_so (term_at b) saying c.value ∷ [])) (spec.choices (meant_at b m.now))))) }
    ensures grown { IsGrown bank.old bank.new }
{
    let list = choices(alloc, bank, m)?;
    let made = each_chosen(alloc, bank, &list, saying)?;
    any(bank, &made)
}

/// That something is so of what an expression means.
pub fn over(
    alloc: Global,
    bank: &mut Bank,
    m: &Meant,
    saying: Saying,
) -> Result<FormulaId, AllocError>
    requires meant { HasMeant bank.old m.now }
    requires saying { HasSaying bank.old saying }
    ensures at { IfOk result (λ f. IsFormula bank.new f (λ b. spec.over (meant_at b m.now) (said_so (term_at b) saying))) }
    ensures grown { IsGrown bank.old bank.new }
{
    match m {
        Meant::One(t) => say(alloc, bank, saying, *t),
        Meant::Either(_) => over_choices(alloc, bank, m, saying),
        Meant::Says(_) | Meant::All(_) | Meant::Any(_) => over_choices(alloc, bank, m, saying),
    }
}

/// That it is true.
pub fn said(alloc: Global, bank: &mut Bank, m: &Meant) -> Result<FormulaId, AllocError>
    requires { HasMeant bank.old m.now }
    ensures at { IfOk result (λ f. IsFormula bank.new f (λ b. spec.said (meant_at b m.now))) }
    ensures grown { IsGrown bank.old bank.new }
{
    match m {
        Meant::One(t) => say(alloc, bank, Saying::IsTrue, *t),
        Meant::Either(_) => over_choices(alloc, bank, m, Saying::IsTrue),
        Meant::Says(f) => Ok(*f),
        Meant::All(fs) => all(bank, fs),
        Meant::Any(fs) => any(bank, fs),
    }
}

// It is this one, of which and another value something is so.
fn chosen_two(
    alloc: Global,
    bank: &mut Bank,
    c: Choice,
    y: &Meant,
    relation: Relation,
) -> Result<FormulaId, AllocError>
    requires choice { HasChoice bank.old c }
    requires second { HasMeant bank.old y.now }
    requires relation { HasRelation bank.old relation }
    ensures at { IfOk result (λ f. IsFormula bank.new f (λ b. spec.and_of (formula_at b c.condition ∷ spec.over (meant_at b y.now) (related (term_at b) relation (term_at b c.value)) ∷ []))) }
    ensures grown { IsGrown bank.old bank.new }
{
    let f = over(alloc, bank, y, Saying::Behind(relation, c.value))?;
    both(bank, c.condition, f)
}

// The same of each choice.
fn each_chosen_two(
    alloc: Global,
    bank: &mut Bank,
    list: &[Choice],
    y: &Meant,
    relation: Relation,
) -> Result<Vec<FormulaId>, AllocError>
    requires choices { HasChoices bank.old list.now }
    requires second { HasMeant bank.old y.now }
    requires relation { HasRelation bank.old relation }
    ensures at { IfOk result (λ v. AreFormulas bank.new v.items (λ b. map (λ c. spec.and_of (c.condition ∷ spec.over (meant_at b y.now) (related (term_at b) relation c.value) ∷ [])) (choices_at b list.now))) }
    ensures grown { IsGrown bank.old bank.new }
{
    let mut made = Vec::new(alloc);
    for c in list {
        let f = chosen_two(alloc, bank, *c, y, relation)?;
        made.push(f)?;
    }
    Ok(made)
}

// That something is so of the one that the first is, and of the second.
fn over_two_choices(
    alloc: Global,
    bank: &mut Bank,
    x: &Meant,
    y: &Meant,
    relation: Relation,
) -> Result<FormulaId, AllocError>
    requires first { HasMeant bank.old x.now }
    requires second { HasMeant bank.old y.now }
    requires relation { HasRelation bank.old relation }
    ensures at { IfOk result (λ f. IsFormula bank.new f (λ b. spec.or_of (map (λ c. spec.and_of (c.condition ∷ spec.over (meant_at b y.now) (related (term_at b) relation c.value) ∷ [])) (spec.choices (meant_at b x.now))))) }
    ensures grown { IsGrown bank.old bank.new }
{
    let list = choices(alloc, bank, x)?;
    let made = each_chosen_two(alloc, bank, &list, y, relation)?;
    any(bank, &made)
}

/// That something is so of what two expressions mean.
pub fn over_two(
    alloc: Global,
    bank: &mut Bank,
    x: &Meant,
    y: &Meant,
    relation: Relation,
) -> Result<FormulaId, AllocError>
    requires first { HasMeant bank.old x.now }
    requires second { HasMeant bank.old y.now }
    requires relation { HasRelation bank.old relation }
    ensures at { IfOk result (λ f. IsFormula bank.new f (λ b. spec.over_two (meant_at b x.now) (meant_at b y.now) (related (term_at b) relation))) }
    ensures grown { IsGrown bank.old bank.new }
{
    match x {
        Meant::One(t) => over(alloc, bank, y, Saying::Behind(relation, *t)),
        Meant::Either(_) => over_two_choices(alloc, bank, x, y, relation),
        Meant::Says(_) | Meant::All(_) | Meant::Any(_) => {
            over_two_choices(alloc, bank, x, y, relation)
        }
    }
}
