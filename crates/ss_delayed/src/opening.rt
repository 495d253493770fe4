// What stands before `base(..)` in a constructor, and which `base(..)` is written.

ghost use Rattle.std.specs.Prelude.{◌≡◌, ◌≤◌, length, map, option_map, take};
ghost use Rattle.ss_typed.specs.Tree.{SimpleOf, stmt_trees};
ghost use Rattle.ss_typed.specs.View.{body, simple_of, stmt_of, typed};
ghost use Rattle.ss_delayed_rules.specs.Opening.{opening_of, opening, base_in, written_base};
ghost use Rattle.ss_delayed.specs.Openings.{run, is_no_base, base_at, base_of};

use ss_core::{ClassId, Place};
use ss_paths_assigned::{Fields, count_first};
use ss_typed::{TypedBody, TypedExpr, TypedSimple, TypedStmt, has_base, is_base};

/// `base(..)`: its place and its arguments.
#[derive(Clone, Copy)]
pub struct BaseCall<'e> {
    pub place: Place,
    pub arguments: &'e [TypedExpr],
}

// ---- what stands before it

// How many statements stand before the first `base(..)`.
fn count_before_base(statements: &[TypedStmt]) -> usize
    ensures told { run is_no_base (stmt_trees (map stmt_of statements.now)) ≡ stmt_trees (map stmt_of (take result statements.now)) }
    ensures within { result ≤ length statements.now }
{
    for (count, statement) in statements.iter().enumerate() {
        if is_base(statement) {
            return count;
        }
    }
    statements.len()
}

// How many statements stand before `base(..)`, where none stands before the block.
fn count_in_block(fields: &Fields<'_>, class: ClassId, statements: &[TypedStmt]) -> usize
    ensures told { opening_of (typed fields.now.program.now) class.0 None (stmt_trees (map stmt_of statements.now)) ≡ stmt_trees (map stmt_of (take result statements.now)) }
    ensures within { result ≤ length statements.now }
{
    if has_base(statements) {
        return count_before_base(statements);
    }
    count_first(fields, class, statements)
}

/// How many statements of a constructor's block stand before `base(..)`.
pub fn count_opening(fields: &Fields<'_>, constructor: &TypedBody) -> usize
    ensures told { opening (typed fields.now.program.now) (body constructor.now) ≡ stmt_trees (map stmt_of (take result constructor.now.block.statements.items)) }
    ensures within { result ≤ length constructor.now.block.statements.items }
{
    match &constructor.base {
        Some(_) => 0,
        None => count_in_block(fields, constructor.class, &constructor.block.statements),
    }
}

// ---- the `base(..)` that is written

fn base_done(done: &TypedSimple) -> Option<BaseCall<'_>>
    ensures { option_map base_of result ≡ base_at (SimpleOf (simple_of done.now)) }
{
    match done {
        TypedSimple::Base(place, list) => Some(BaseCall {
            place: *place,
            arguments: list.as_slice(),
        }),
        TypedSimple::Assign(..)
        | TypedSimple::Step(..)
        | TypedSimple::Alone(_)
        | TypedSimple::Print(..)
        | TypedSimple::PrintText(..) => None,
    }
}

fn base_at(statement: &TypedStmt) -> Option<BaseCall<'_>>
    ensures { option_map base_of result ≡ base_at (stmt_of statement.now) }
{
    match statement {
        TypedStmt::Simple(done) => base_done(done),
        TypedStmt::Block(_)
        | TypedStmt::Declare(_)
        | TypedStmt::If(..)
        | TypedStmt::While(..)
        | TypedStmt::For { .. }
        | TypedStmt::Return(..)
        | TypedStmt::Assert(..)
        | TypedStmt::Assume(..)
        | TypedStmt::Expose(..)
        | TypedStmt::Empty(_) => None,
    }
}

fn base_in(statements: &[TypedStmt]) -> Option<BaseCall<'_>>
    ensures { option_map base_of result ≡ base_in (stmt_trees (map stmt_of statements.now)) }
{
    for statement in statements {
        if let Some(base) = base_at(statement) {
            return Some(base);
        }
    }
    None
}

/// The `base(..)` that is written in a constructor.
pub fn written_base(constructor: &TypedBody) -> Option<BaseCall<'_>>
    ensures { option_map base_of result ≡ written_base (body constructor.now) }
{
    match &constructor.base {
        Some(base) => Some(BaseCall {
            place: base.place,
            arguments: base.arguments.as_slice(),
        }),
        None => base_in(&constructor.block.statements),
    }
}
