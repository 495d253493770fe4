// The assignments to fields of its class with which a constructor's block begins.

ghost use Rattle.std.specs.Prelude.{◌≡◌, ◌≤◌, length, map};
ghost use Rattle.std.specs.List.{prefix_len};
ghost use Rattle.ss_typed.specs.Tree.{AssignOf};
ghost use Rattle.ss_typed.specs.View.{expr, simple_of, stmt_of, typed};
ghost use Rattle.ss_paths.specs.Opening.{is_field_of_class, is_first_simple, is_first};

use crate::fields::Fields;
use ss_ast::AssignOperator;
use ss_core::ClassId;
use ss_typed::{TypedExpr, TypedSimple, TypedStmt, mentions_this, own_field};

// Whether the expression is a field of `this` that the class declares.
fn is_field_of_class(fields: &Fields<'_>, class: ClassId, e: &TypedExpr) -> bool
    ensures { result ≡ is_field_of_class (typed fields.now.program.now) class.0 (expr e.now) }
{
    match own_field(e) {
        Some(field) => fields.numbers(class).is_among(field),
        None => false,
    }
}

// Whether an assignment may stand before `base(..)` that is implied.
fn is_first_assignment(
    fields: &Fields<'_>,
    class: ClassId,
    left: &TypedExpr,
    operator: AssignOperator,
    right: &TypedExpr,
) -> bool
    ensures { result ≡ is_first_simple (typed fields.now.program.now) class.0 (AssignOf (expr left.now) operator (expr right.now)) }
{
    match operator {
        AssignOperator::Set => is_field_of_class(fields, class, left) && !mentions_this(right),
        AssignOperator::Add | AssignOperator::Subtract | AssignOperator::Multiply => false,
    }
}

fn is_first_simple(fields: &Fields<'_>, class: ClassId, done: &TypedSimple) -> bool
    ensures { result ≡ is_first_simple (typed fields.now.program.now) class.0 (simple_of done.now) }
{
    match done {
        TypedSimple::Assign(left, operator, right) => {
            is_first_assignment(fields, class, left, *operator, right)
        }
        TypedSimple::Step(..)
        | TypedSimple::Alone(_)
        | TypedSimple::Print(..)
        | TypedSimple::PrintText(..)
        | TypedSimple::Base(..) => false,
    }
}

fn is_first(fields: &Fields<'_>, class: ClassId, statement: &TypedStmt) -> bool
    ensures { result ≡ is_first (typed fields.now.program.now) class.0 (stmt_of statement.now) }
{
    match statement {
        TypedStmt::Simple(done) => is_first_simple(fields, class, done),
        TypedStmt::Block(_)
        | TypedStmt::Declare(_)
        | TypedStmt::If(..)
        | TypedStmt::While(..)
        | TypedStmt::For { .. }
        | TypedStmt::Return(..)
        | TypedStmt::Assert(..)
        | TypedStmt::Assume(..)
        | TypedStmt::Expose(..)
        | TypedStmt::Empty(_) => false,
    }
}

/// How many of the statements are such assignments, one after the other from the first.
pub fn count_first(fields: &Fields<'_>, class: ClassId, statements: &[TypedStmt]) -> usize
    ensures counted { result ≡ prefix_len (is_first (typed fields.now.program.now) class.0) (map stmt_of statements.now) }
    ensures within { result ≤ length statements.now }
{
    for (count, statement) in statements.iter().enumerate() {
        if !is_first(fields, class, statement) {
            return count;
        }
    }
    statements.len()
}
