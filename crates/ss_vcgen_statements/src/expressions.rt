// Expressions of code, and the checks of their parts.

ghost use Rattle.std.specs.Prelude.{◌≡◌, [], ◌∷◌, IfOk, OnOk};
ghost use Rattle.ss_core.specs.View.{expr, exprs};
ghost use Rattle.ss_vcgen_heaps.specs.Positions as positions;
ghost use Rattle.ss_vcgen_express.specs.Marked.{checked_of, marked};
ghost use Rattle.ss_vcgen_express.specs.Numbers.{IsFormula, IsMeant};
ghost use Rattle.ss_vcgen_walk.specs.Parts.{marked_at, parts_at, HasParts, AreParts};
ghost use Rattle.ss_terms.specs.Forms.{HasFormula};
ghost use Rattle.ss_vcgen_builder.specs.Builder.{position_at, walk_at, IsFine, IsWalk, Becomes};

use crate::contexts::context;
use ss_core::Expr;
use ss_terms::FormulaId;
use ss_vcgen_builder::{Builder, Walk};
use ss_vcgen_express::Meant;
use ss_vcgen_known::Tests;
use ss_vcgen_types::TypeContext;
use ss_vcgen_walk::{NullContext, Part, ReadingContext, express, holds};
use std::alloc::AllocError;

// A part is checked, unless it holds by the types.
fn check_part(builder: &mut Builder, walk: &Walk, part: Part) -> Result<(), AllocError>
    requires fine { IsFine builder.old }
    requires part { HasFormula builder.old.bank part.formula }
    ensures { OnOk result (Becomes builder.old builder.new (λ b. positions.check_parts (walk_at b walk.now) (checked_of (marked_at b part ∷ [])) (position_at b builder.old))) }
{
    if part.checked {
        builder.check(walk, part.kind, part.place, part.formula)
    } else {
        Ok(())
    }
}

/// The parts are checked, but for those that hold by the types.
pub fn check_parts(builder: &mut Builder, walk: &Walk, parts: &[Part]) -> Result<(), AllocError>
    requires fine { IsFine builder.old }
    requires parts { HasParts builder.old.bank parts.now }
    ensures { OnOk result (Becomes builder.old builder.new (λ b. positions.check_parts (walk_at b walk.now) (checked_of (parts_at b parts.now)) (position_at b builder.old))) }
{
    for part in parts {
        check_part(builder, walk, *part)?;
    }
    Ok(())
}

// What an expression means at the position, and its parts.
fn expressed(
    builder: &mut Builder,
    walk: &Walk,
    parts: &mut Vec<Part>,
    e: &Expr,
) -> Result<Meant, AllocError>
    requires fine { IsFine builder.old }
    requires walk { IsWalk builder.old.bank walk.now }
    requires none { parts.old.items ≡ [] }
    ensures meant { IfOk result (λ m. IsMeant builder.new.bank m (λ b. positions.meant_at (walk_at b walk.now) (expr e.now) (position_at b builder.old))) }
    ensures parts { IfOk result (λ m. AreParts builder.new.bank parts.new.items (λ b. marked (expr e.now) (positions.site (walk_at b walk.now)) (position_at b builder.old).known (positions.context_at (walk_at b walk.now) (position_at b builder.old)))) }
    ensures stays { IfOk result (λ m. Becomes builder.old builder.new (λ b. position_at b builder.old)) }
{
    let context = context(builder, walk)?;
    let tests = Tests::Nothing;
    let nulls = NullContext {
        typing: TypeContext {
            classes: &walk.core.classes,
            types: walk.types,
            constructs: walk.body.flags.ctor,
        },
        known: &builder.known,
        tests: &tests,
    };
    let reading = ReadingContext {
        alloc: builder.alloc,
        nulls: &nulls,
        expression: &context,
    };
    express(&mut builder.bank, &reading, parts, e)
}

/// What an expression means at the position; nothing is checked.
pub fn meaning(builder: &mut Builder, walk: &Walk, e: &Expr) -> Result<Meant, AllocError>
    requires fine { IsFine builder.old }
    requires walk { IsWalk builder.old.bank walk.now }
    ensures at { IfOk result (λ m. IsMeant builder.new.bank m (λ b. positions.meant_at (walk_at b walk.now) (expr e.now) (position_at b builder.old))) }
    ensures stays { IfOk result (λ m. Becomes builder.old builder.new (λ b. position_at b builder.old)) }
{
    let mut parts = Vec::new(builder.alloc);
    expressed(builder, walk, &mut parts, e)
}

/// What an expression means at the position; its parts are checked.
pub fn evaluate(builder: &mut Builder, walk: &Walk, e: &Expr) -> Result<Meant, AllocError>
    requires fine { IsFine builder.old }
    requires walk { IsWalk builder.old.bank walk.now }
    ensures at { IfOk result (λ m. IsMeant builder.new.bank m (λ b. positions.meant_at (walk_at b walk.now) (expr e.now) (position_at b builder.old))) }
    ensures becomes { IfOk result (λ m. Becomes builder.old builder.new (λ b. positions.evaluate (walk_at b walk.now) (expr e.now) (position_at b builder.old))) }
{
    let mut parts = Vec::new(builder.alloc);
    let meant = expressed(builder, walk, &mut parts, e)?;
    check_parts(builder, walk, &parts)?;
    Ok(meant)
}

// The parts of an expression are checked.
fn evaluated(builder: &mut Builder, walk: &Walk, e: &Expr) -> Result<(), AllocError>
    requires fine { IsFine builder.old }
    requires walk { IsWalk builder.old.bank walk.now }
    ensures { OnOk result (Becomes builder.old builder.new (λ b. positions.evaluate (walk_at b walk.now) (expr e.now) (position_at b builder.old))) }
{
    evaluate(builder, walk, e)?;
    Ok(())
}

/// The parts of each of these are checked.
pub fn evaluate_all(builder: &mut Builder, walk: &Walk, es: &[Expr]) -> Result<(), AllocError>
    requires fine { IsFine builder.old }
    requires walk { IsWalk builder.old.bank walk.now }
    ensures { OnOk result (Becomes builder.old builder.new (λ b. positions.evaluate_all (walk_at b walk.now) (exprs es.now) (position_at b builder.old))) }
{
    for e in es {
        evaluated(builder, walk, e)?;
    }
    Ok(())
}

/// That a condition has a value at the position, and that is true.
pub fn holds_at(builder: &mut Builder, walk: &Walk, e: &Expr) -> Result<FormulaId, AllocError>
    requires fine { IsFine builder.old }
    requires walk { IsWalk builder.old.bank walk.now }
    ensures at { IfOk result (λ f. IsFormula builder.new.bank f (λ b. positions.holds_at (walk_at b walk.now) (position_at b builder.old) (expr e.now))) }
    ensures stays { IfOk result (λ f. Becomes builder.old builder.new (λ b. position_at b builder.old)) }
{
    let context = context(builder, walk)?;
    holds(builder.alloc, &mut builder.bank, &context, e)
}
