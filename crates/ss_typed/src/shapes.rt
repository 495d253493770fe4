// What an expression is outermost, chains and paths without parts set aside; and whether statements call `base(..)`.

ghost use Rattle.std.specs.Prelude.{◌≡◌, map};
ghost use Rattle.ss_typed.specs.Tree.{SimpleOf, stmt_trees};
ghost use Rattle.ss_typed.specs.View.{expr, simple_of, stmt_of};
ghost use Rattle.ss_typed.specs.Shapes as shapes;

use crate::expr::TypedExpr;
use crate::stmt::{TypedSimple, TypedStmt};
use ss_core::Place;

/// The place at which it stands.
pub fn place_of(e: &TypedExpr) -> Place
    ensures { result ≡ shapes.place_of (expr e.now) }
{
    match e {
        TypedExpr::Chain(place, first, links) => {
            if links.is_empty() {
                place_of(first)
            } else {
                *place
            }
        }
        TypedExpr::Path(place, first, steps) => {
            if steps.is_empty() {
                place_of(first)
            } else {
                *place
            }
        }
        TypedExpr::Int(place, ..)
        | TypedExpr::Bool(place, ..)
        | TypedExpr::Null(place)
        | TypedExpr::This(place, ..)
        | TypedExpr::Local(place, ..)
        | TypedExpr::Result(place, ..)
        | TypedExpr::Bound(place, ..)
        | TypedExpr::Iff(place, ..)
        | TypedExpr::Implies(place, ..)
        | TypedExpr::Negate(place, ..)
        | TypedExpr::Not(place, ..)
        | TypedExpr::Cast(place, ..)
        | TypedExpr::Old(place, ..)
        | TypedExpr::Quantified(place, ..)
        | TypedExpr::State(place, ..)
        | TypedExpr::Owners(place, ..)
        | TypedExpr::New(place, ..)
        | TypedExpr::NewArray(place, ..)
        | TypedExpr::Static(place, ..)
        | TypedExpr::Base(place, ..) => *place,
    }
}

/// Whether it is `this`.
pub fn is_this(e: &TypedExpr) -> bool
    ensures { result ≡ shapes.is_this (expr e.now) }
{
    match e {
        TypedExpr::This(..) => true,
        TypedExpr::Chain(_, first, links) => {
            if links.is_empty() {
                is_this(first)
            } else {
                false
            }
        }
        TypedExpr::Path(_, first, steps) => {
            if steps.is_empty() {
                is_this(first)
            } else {
                false
            }
        }
        TypedExpr::Int(..)
        | TypedExpr::Bool(..)
        | TypedExpr::Null(..)
        | TypedExpr::Local(..)
        | TypedExpr::Result(..)
        | TypedExpr::Bound(..)
        | TypedExpr::Iff(..)
        | TypedExpr::Implies(..)
        | TypedExpr::Negate(..)
        | TypedExpr::Not(..)
        | TypedExpr::Cast(..)
        | TypedExpr::Old(..)
        | TypedExpr::Quantified(..)
        | TypedExpr::State(..)
        | TypedExpr::Owners(..)
        | TypedExpr::New(..)
        | TypedExpr::NewArray(..)
        | TypedExpr::Static(..)
        | TypedExpr::Base(..) => false,
    }
}

/// Whether it is the literal `true`.
pub fn is_true(e: &TypedExpr) -> bool
    ensures { result ≡ shapes.is_true (expr e.now) }
{
    match e {
        TypedExpr::Bool(_, value) => *value,
        TypedExpr::Chain(_, first, links) => {
            if links.is_empty() {
                is_true(first)
            } else {
                false
            }
        }
        TypedExpr::Path(_, first, steps) => {
            if steps.is_empty() {
                is_true(first)
            } else {
                false
            }
        }
        TypedExpr::Int(..)
        | TypedExpr::Null(..)
        | TypedExpr::This(..)
        | TypedExpr::Local(..)
        | TypedExpr::Result(..)
        | TypedExpr::Bound(..)
        | TypedExpr::Iff(..)
        | TypedExpr::Implies(..)
        | TypedExpr::Negate(..)
        | TypedExpr::Not(..)
        | TypedExpr::Cast(..)
        | TypedExpr::Old(..)
        | TypedExpr::Quantified(..)
        | TypedExpr::State(..)
        | TypedExpr::Owners(..)
        | TypedExpr::New(..)
        | TypedExpr::NewArray(..)
        | TypedExpr::Static(..)
        | TypedExpr::Base(..) => false,
    }
}

// Whether a simple statement is `base(..)`.
fn calls_base(done: &TypedSimple) -> bool
    ensures { result ≡ shapes.is_base (SimpleOf (simple_of done.now)) }
{
    match done {
        TypedSimple::Base(..) => true,
        TypedSimple::Assign(..)
        | TypedSimple::Step(..)
        | TypedSimple::Alone(_)
        | TypedSimple::Print(..)
        | TypedSimple::PrintText(..) => false,
    }
}

/// Whether the statement is `base(..)`.
pub fn is_base(statement: &TypedStmt) -> bool
    ensures { result ≡ shapes.is_base (stmt_of statement.now) }
{
    match statement {
        TypedStmt::Simple(done) => calls_base(done),
        TypedStmt::Block(_)
        | TypedStmt::Declare(_)
        | TypedStmt::If(..)
        | TypedStmt::While(..)
        | TypedStmt::For { .. }
        | TypedStmt::Return(..)
        | TypedStmt::Assert(..)
        | TypedStmt::Assume(..)
        | TypedStmt::Expose(..)
        | TypedStmt::Empty(_) => false,
    }
}

/// Whether one of the statements is `base(..)`.
pub fn has_base(statements: &[TypedStmt]) -> bool
    ensures { result ≡ shapes.has_base (stmt_trees (map stmt_of statements.now)) }
{
    for statement in statements {
        if is_base(statement) {
            return true;
        }
    }
    false
}
