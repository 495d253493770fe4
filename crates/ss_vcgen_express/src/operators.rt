// Operators, at what their operands mean.

ghost use Rattle.std.specs.Prelude.{◌≡◌, IfOk};
ghost use Rattle.ss_logic.specs.Express as spec;
ghost use Rattle.ss_logic.specs.Formulas.{neg};
ghost use Rattle.ss_terms.specs.Forms.{term_at, symbol_of, IsGrown};
ghost use Rattle.ss_vcgen_express.specs.Functions.{of_two};
ghost use Rattle.ss_vcgen_express.specs.Chains.{conjuncts, disjuncts};
ghost use Rattle.ss_vcgen_express.specs.Numbers.{meant_at, HasMeant, IsFormula, AreFormulas, IsMeant};
ghost use Rattle.ss_vcgen_express.specs.Sayings.{related, HasRelation};

use crate::chains::{conjuncts, disjuncts};
use crate::functions::{Function, paired};
use crate::meant::Meant;
use crate::operations::same_truths;
use crate::sayings::Relation;
use crate::truths::{over_two, said};
use ss_core::Operator;
use ss_terms::{Bank, FormulaId, Symbol};
use std::alloc::{AllocError, Global};

// The formulas of which it says that all are so.
fn conjuncts_of(alloc: Global, bank: &mut Bank, x: &Meant) -> Result<Vec<FormulaId>, AllocError>
    requires { HasMeant bank.old x.now }
    ensures at { IfOk result (λ v. AreFormulas bank.new v.items (λ b. conjuncts (spec.said (meant_at b x.now)))) }
    ensures grown { IsGrown bank.old bank.new }
{
    let f = said(alloc, bank, x)?;
    conjuncts(bank, alloc, f)
}

// The formulas of which it says that one is so.
fn disjuncts_of(alloc: Global, bank: &mut Bank, x: &Meant) -> Result<Vec<FormulaId>, AllocError>
    requires { HasMeant bank.old x.now }
    ensures at { IfOk result (λ v. AreFormulas bank.new v.items (λ b. disjuncts (spec.said (meant_at b x.now)))) }
    ensures grown { IsGrown bank.old bank.new }
{
    let f = said(alloc, bank, x)?;
    disjuncts(bank, alloc, f)
}

// The same; those of a chain are handed over.
fn all_of(alloc: Global, bank: &mut Bank, x: Meant) -> Result<Vec<FormulaId>, AllocError>
    requires { HasMeant bank.old x }
    ensures at { IfOk result (λ v. AreFormulas bank.new v.items (λ b. conjuncts (spec.said (meant_at b x)))) }
    ensures grown { IsGrown bank.old bank.new }
{
    match x {
        Meant::All(fs) => Ok(fs),
        other => conjuncts_of(alloc, bank, &other),
    }
}

fn any_of(alloc: Global, bank: &mut Bank, x: Meant) -> Result<Vec<FormulaId>, AllocError>
    requires { HasMeant bank.old x }
    ensures at { IfOk result (λ v. AreFormulas bank.new v.items (λ b. disjuncts (spec.said (meant_at b x)))) }
    ensures grown { IsGrown bank.old bank.new }
{
    match x {
        Meant::Any(fs) => Ok(fs),
        other => disjuncts_of(alloc, bank, &other),
    }
}

// That they are equal; `bools` says that they are truth values.
fn equal_said(
    alloc: Global,
    bank: &mut Bank,
    bools: bool,
    x: &Meant,
    y: &Meant,
) -> Result<FormulaId, AllocError>
    requires first { HasMeant bank.old x.now }
    requires second { HasMeant bank.old y.now }
    ensures at { IfOk result (λ h. IsFormula bank.new h (λ b. spec.equal_meant bools (meant_at b x.now) (meant_at b y.now))) }
    ensures grown { IsGrown bank.old bank.new }
{
    if bools {
        same_truths(alloc, bank, x, y)
    } else {
        over_two(alloc, bank, x, y, Relation::Equal)
    }
}

// Both are true; a chain is one formula.
fn and(alloc: Global, bank: &mut Bank, x: Meant, y: &Meant) -> Result<Meant, AllocError>
    requires first { HasMeant bank.old x }
    requires second { HasMeant bank.old y.now }
    ensures at { IfOk result (λ r. IsMeant bank.new r (λ b. spec.Says (spec.and_more (spec.said (meant_at b x)) (spec.said (meant_at b y.now))))) }
    ensures grown { IsGrown bank.old bank.new }
{
    let last = said(alloc, bank, y)?;
    let mut parts = all_of(alloc, bank, x)?;
    parts.push(last)?;
    Ok(Meant::All(parts))
}

// Either is true; a chain is one formula.
fn or(alloc: Global, bank: &mut Bank, x: Meant, y: &Meant) -> Result<Meant, AllocError>
    requires first { HasMeant bank.old x }
    requires second { HasMeant bank.old y.now }
    ensures at { IfOk result (λ r. IsMeant bank.new r (λ b. spec.Says (spec.or_more (spec.said (meant_at b x)) (spec.said (meant_at b y.now))))) }
    ensures grown { IsGrown bank.old bank.new }
{
    let last = said(alloc, bank, y)?;
    let mut parts = any_of(alloc, bank, x)?;
    parts.push(last)?;
    Ok(Meant::Any(parts))
}

// They are equal.
fn equal(
    alloc: Global,
    bank: &mut Bank,
    bools: bool,
    x: &Meant,
    y: &Meant,
) -> Result<Meant, AllocError>
    requires first { HasMeant bank.old x.now }
    requires second { HasMeant bank.old y.now }
    ensures at { IfOk result (λ r. IsMeant bank.new r (λ b. spec.Says (spec.equal_meant bools (meant_at b x.now) (meant_at b y.now)))) }
    ensures grown { IsGrown bank.old bank.new }
{
    let f = equal_said(alloc, bank, bools, x, y)?;
    Ok(Meant::Says(f))
}

// They aren't equal.
fn not_equal(
    alloc: Global,
    bank: &mut Bank,
    bools: bool,
    x: &Meant,
    y: &Meant,
) -> Result<Meant, AllocError>
    requires first { HasMeant bank.old x.now }
    requires second { HasMeant bank.old y.now }
    ensures at { IfOk result (λ r. IsMeant bank.new r (λ b. spec.Says (neg (spec.equal_meant bools (meant_at b x.now) (meant_at b y.now))))) }
    ensures grown { IsGrown bank.old bank.new }
{
    let f = equal_said(alloc, bank, bools, x, y)?;
    Ok(Meant::Says(bank.negation(f)))
}

// This is so of them.
fn compared(
    alloc: Global,
    bank: &mut Bank,
    relation: Relation,
    x: &Meant,
    y: &Meant,
) -> Result<Meant, AllocError>
    requires first { HasMeant bank.old x.now }
    requires second { HasMeant bank.old y.now }
    requires relation { HasRelation bank.old relation }
    ensures at { IfOk result (λ r. IsMeant bank.new r (λ b. spec.Says (spec.over_two (meant_at b x.now) (meant_at b y.now) (related (term_at b) relation)))) }
    ensures grown { IsGrown bank.old bank.new }
{
    let f = over_two(alloc, bank, x, y, relation)?;
    Ok(Meant::Says(f))
}

// The number that is this of them.
fn calculated(
    alloc: Global,
    bank: &mut Bank,
    symbol: Symbol,
    x: &Meant,
    y: &Meant,
) -> Result<Meant, AllocError>
    requires first { HasMeant bank.old x.now }
    requires second { HasMeant bank.old y.now }
    ensures at { IfOk result (λ r. IsMeant bank.new r (λ b. spec.paired (of_two (symbol_of symbol)) (meant_at b x.now) (meant_at b y.now))) }
    ensures grown { IsGrown bank.old bank.new }
{
    let function = Function {
        symbol,
        first: None,
    };
    paired(alloc, bank, function, x, y)
}

/// The operation of two expressions; `bools` says that they are truth values.
pub fn operated(
    alloc: Global,
    bank: &mut Bank,
    operator: Operator,
    bools: bool,
    x: Meant,
    y: &Meant,
) -> Result<Meant, AllocError>
    requires first { HasMeant bank.old x }
    requires second { HasMeant bank.old y.now }
    ensures at { IfOk result (λ r. IsMeant bank.new r (λ b. spec.operated operator bools (meant_at b x) (meant_at b y.now))) }
    ensures grown { IsGrown bank.old bank.new }
{
    match operator {
        Operator::And => and(alloc, bank, x, y),
        Operator::Or => or(alloc, bank, x, y),
        Operator::Equal => equal(alloc, bank, bools, &x, y),
        Operator::NotEqual => not_equal(alloc, bank, bools, &x, y),
        Operator::Less => compared(alloc, bank, Relation::Less, &x, y),
        Operator::LessEqual => compared(alloc, bank, Relation::AtMost, &x, y),
        Operator::Greater => compared(alloc, bank, Relation::Greater, &x, y),
        Operator::GreaterEqual => compared(alloc, bank, Relation::AtLeast, &x, y),
        Operator::Add => calculated(alloc, bank, Symbol::Add, &x, y),
        Operator::Subtract => calculated(alloc, bank, Symbol::Subtract, &x, y),
        Operator::Multiply => calculated(alloc, bank, Symbol::Multiply, &x, y),
        Operator::Divide => calculated(alloc, bank, Symbol::Quotient, &x, y),
        Operator::Remainder => calculated(alloc, bank, Symbol::Remainder, &x, y),
    }
}
