// The two sides of a test.

ghost use Rattle.std.specs.Prelude.{false, IfOk};
ghost use Rattle.ss_core.specs.View.{expr};
ghost use Rattle.ss_store_rules.specs.NonNull.{known_tested};
ghost use Rattle.ss_logic.specs.Express.{said};
ghost use Rattle.ss_terms.specs.Forms.{Forms};
ghost use Rattle.ss_vcgen_heaps.specs.Positions as position;
ghost use Rattle.ss_vcgen_heaps.specs.Obligations as spec;
ghost use Rattle.ss_vcgen_express.specs.Numbers.{meant_at, HasMeant, IsFormula};
ghost use Rattle.ss_vcgen_builder.specs.Builder.{position_at, walk_at, IsSpot, IsFine, IsWalk, Becomes};
ghost use Rattle.ss_vcgen_statements.specs.Words.{Stays};
ghost use Rattle.ss_vcgen_bodies.specs.Words.{other_side, exit_side};

use ss_core::Expr;
use ss_terms::FormulaId;
use ss_vcgen_builder::{Builder, Guard, Spot, Walk};
use ss_vcgen_express::{Meant, said};
use ss_vcgen_statements::evaluate;
use ss_vcgen_types::is_literal_true;
use std::alloc::{AllocError, Global};

// That what is meant is true.
fn truth(builder: &mut Builder, meant: &Meant) -> Result<FormulaId, AllocError>
    requires fine { IsFine builder.old }
    requires meant { HasMeant builder.old.bank meant.now }
    ensures at { IfOk result (λ f. IsFormula builder.new.bank f (λ b. said (meant_at b meant.now))) }
    ensures stays { IfOk result (λ f. Stays builder.old builder.new) }
{
    said(builder.alloc, &mut builder.bank, meant)
}

// That a test comes out true; its parts are checked.
fn tested(builder: &mut Builder, walk: &Walk<'_>, e: &Expr) -> Result<FormulaId, AllocError>
    requires fine { IsFine builder.old }
    requires walk { IsWalk builder.old.bank walk.now }
    ensures at { IfOk result (λ f. IsFormula builder.new.bank f (λ b. said (position.meant_at (walk_at b walk.now) (expr e.now) (position_at b builder.old)))) }
    ensures becomes { IfOk result (λ f. Becomes builder.old builder.new (λ b. position.evaluate (walk_at b walk.now) (expr e.now) (position_at b builder.old))) }
{
    let meant = evaluate(builder, walk, e)?;
    let f = truth(builder, &meant)?;
    Ok(f)
}

// Here the test has come out false.
fn failed(alloc: Global, spot: Spot, e: &Expr) -> Result<Spot, AllocError>
    ensures { IfOk result (λ p. (a : Forms) (says : Forms → position.Position) → IsSpot a spot says → IsSpot a p (λ b. record (says b) { known = known_tested (expr e.now) false (says b).known })) }
{
    let mut spot = spot;
    spot.known.test(alloc, e, false)?;
    Ok(spot)
}

/// Goes where a test comes out true. The spot is where it comes out false.
pub fn enter_side(builder: &mut Builder, walk: &Walk<'_>, e: &Expr) -> Result<Spot, AllocError>
    requires fine { IsFine builder.old }
    requires walk { IsWalk builder.old.bank walk.now }
    ensures becomes { IfOk result (λ p. Becomes builder.old builder.new (λ b. spec.into_body (walk_at b walk.now) (expr e.now) (position_at b builder.old))) }
    ensures spot { IfOk result (λ p. IsSpot builder.new.bank p (λ b. other_side (walk_at b walk.now) (expr e.now) (position_at b builder.old))) }
{
    let f = tested(builder, walk, e)?;
    let spot = builder.first_side(f)?;
    let other = failed(builder.alloc, spot, e)?;
    builder.test(e, true)?;
    Ok(other)
}

/// The spot after a loop: where its test is the literal `true`, that isn't reached.
pub fn exit_spot(spot: Spot, e: &Expr) -> Spot
    ensures { (a : Forms) (says : Forms → position.Position) → IsSpot a spot says → IsSpot a result (λ b. exit_side (expr e.now) (says b)) }
{
    if is_literal_true(e) {
        Spot {
            guard: Guard::Never,
            ..spot
        }
    } else {
        spot
    }
}
