// Conditions of contracts.

ghost use Rattle.std.specs.Prelude.{◌≡◌, [], ◌∷◌, ◌++◌, map, IfOk};
ghost use Rattle.ss_core.specs.View as core;
ghost use Rattle.ss_logic.specs.Express as spec;
ghost use Rattle.ss_terms.specs.Forms.{IsGrown};
ghost use Rattle.ss_vcgen_express.specs.Marked.{formulas_of};
ghost use Rattle.ss_vcgen_express.specs.Numbers.{meant_at, HasMeant, IsFormula, AreFormulas, IsMeant};
ghost use Rattle.ss_vcgen_express.specs.Contexts.{context_at, HasContext};
ghost use Rattle.ss_vcgen_heaps.specs.Contracts as heaps;
ghost use Rattle.ss_vcgen_walk.specs.Parts.{parts_at, HasParts};
ghost use Rattle.ss_vcgen_walk.specs.Reading.{Defines};

use crate::null_context::NullContext;
use crate::parts::Part;
use crate::reading_context::ReadingContext;
use crate::walk::express;
use ss_bit_set::BitSet;
use ss_core::Expr;
use ss_terms::{Bank, FormulaId};
use ss_vcgen_express::{Context, Meant, Saying, all_with, over, said};
use ss_vcgen_known::{Fields, Known, Tests};
use ss_vcgen_types::TypeContext;
use std::alloc::{AllocError, Global};

// Nothing is known.
fn nothing(alloc: Global) -> Known {
    Known {
        facts: BitSet::new(alloc),
        sides: Vec::new(alloc),
        beyond: BitSet::new(alloc),
        fields: Fields {
            list: Vec::new(alloc),
            beyond: false,
        },
    }
}

// What a condition means, and all its parts.
fn read(
    alloc: Global,
    bank: &mut Bank,
    context: &Context<'_>,
    parts: &mut Vec<Part>,
    e: &Expr,
) -> Result<Meant, AllocError>
    requires context { HasContext bank.old context.now }
    requires parts { HasParts bank.old parts.old.items }
    ensures expressed { IfOk result (λ m. Defines bank.new m parts.new.items parts.old.items (core.expr e.now) context.entry.now) }
    ensures grown { IsGrown bank.old bank.new }
{
    let known = nothing(alloc);
    let tests = Tests::Nothing;
    let nulls = NullContext {
        typing: TypeContext {
            classes: context.classes,
            types: &[],
            constructs: false,
        },
        known: &known,
        tests: &tests,
    };
    let reading = ReadingContext {
        alloc,
        nulls: &nulls,
        expression: context,
    };
    express(bank, &reading, parts, e)
}

// What the parts say.
fn formulas(alloc: Global, parts: &[Part]) -> Result<Vec<FormulaId>, AllocError>
    ensures { IfOk result (λ v. v.items ≡ map (λ p. p.formula) parts.now) }
{
    let mut list = Vec::new(alloc);
    for part in parts {
        list.push(part.formula)?;
    }
    Ok(list)
}

// All the parts, and that the condition is true.
fn joined(
    alloc: Global,
    bank: &mut Bank,
    parts: &[Part],
    m: &Meant,
) -> Result<FormulaId, AllocError>
    requires parts { HasParts bank.old parts.now }
    requires meant { HasMeant bank.old m.now }
    ensures at { IfOk result (λ f. IsFormula bank.new f (λ b. spec.and_of (formulas_of (parts_at b parts.now) ++ spec.said (meant_at b m.now) ∷ []))) }
    ensures grown { IsGrown bank.old bank.new }
{
    let list = formulas(alloc, parts)?;
    let f = said(alloc, bank, m)?;
    all_with(alloc, bank, &list, f)
}

/// That a condition has a value and is true.
pub fn holds(
    alloc: Global,
    bank: &mut Bank,
    context: &Context<'_>,
    e: &Expr,
) -> Result<FormulaId, AllocError>
    requires { HasContext bank.old context.now }
    ensures at { IfOk result (λ f. IsFormula bank.new f (λ b. spec.holds_formula (core.expr e.now) (context_at b context.entry.now))) }
    ensures grown { IsGrown bank.old bank.new }
{
    let mut parts = Vec::new(alloc);
    let m = read(alloc, bank, context, &mut parts, e)?;
    joined(alloc, bank, &parts, &m)
}

/// The same of each of a list.
pub fn conditions(
    alloc: Global,
    bank: &mut Bank,
    context: &Context<'_>,
    es: &[Expr],
) -> Result<Vec<FormulaId>, AllocError>
    requires { HasContext bank.old context.now }
    ensures at { IfOk result (λ v. AreFormulas bank.new v.items (λ b. heaps.conditions (core.exprs es.now) (context_at b context.entry.now))) }
    ensures grown { IsGrown bank.old bank.new }
{
    let mut list = Vec::new(alloc);
    for e in es {
        let f = holds(alloc, bank, context, e)?;
        list.push(f)?;
    }
    Ok(list)
}

// All the parts, and that the value isn't null.
fn guards(
    alloc: Global,
    bank: &mut Bank,
    parts: &[Part],
    m: &Meant,
) -> Result<Vec<FormulaId>, AllocError>
    requires parts { HasParts bank.old parts.now }
    requires meant { HasMeant bank.old m.now }
    ensures at { IfOk result (λ v. AreFormulas bank.new v.items (λ b. formulas_of (parts_at b parts.now) ++ spec.not_null (meant_at b m.now) ∷ [])) }
    ensures grown { IsGrown bank.old bank.new }
{
    let f = over(alloc, bank, m, Saying::NotNull)?;
    let mut list = formulas(alloc, parts)?;
    list.push(f)?;
    Ok(list)
}

/// When an expression names an object, and which.
pub fn naming(
    alloc: Global,
    bank: &mut Bank,
    context: &Context<'_>,
    e: &Expr,
) -> Result<(Vec<FormulaId>, Meant), AllocError>
    requires { HasContext bank.old context.now }
    ensures parts { IfOk result (λ r. AreFormulas bank.new r.0.items (λ b. heaps.naming_parts (core.expr e.now) (context_at b context.entry.now))) }
    ensures meant { IfOk result (λ r. IsMeant bank.new r.1 (λ b. spec.meant (core.expr e.now) (context_at b context.entry.now))) }
    ensures grown { IsGrown bank.old bank.new }
{
    let mut parts = Vec::new(alloc);
    let m = read(alloc, bank, context, &mut parts, e)?;
    let list = guards(alloc, bank, &parts, &m)?;
    Ok((list, m))
}
