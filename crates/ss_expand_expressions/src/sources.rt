// Where values come from, and the statements that keep or drop them.

ghost use Rattle.std.specs.Prelude.{◌≡◌, ◌++◌, ◌∷◌, [], IfOk, OnOk, MatchOption};
ghost use Rattle.ss_typed.specs.Tree.{ExprTree};
ghost use Rattle.ss_core.specs.Tree as tree;
ghost use Rattle.ss_core.specs.View as core;
ghost use Rattle.ss_expand_rules.specs.Calls as calls;
ghost use Rattle.ss_typed.specs.Shapes.{place_of};
ghost use Rattle.ss_expand_rules.specs.Lifting as lifting;
ghost use Rattle.ss_expand_rules.specs.Simple as simple;
ghost use Rattle.ss_typed.specs.Types as types;
ghost use Rattle.ss_expand_expressions.specs.Views.{numbers_of};
ghost use Rattle.ss_expand_expressions.specs.Sources.{source_of, stmts_of, lifted_by, valued_by};

use crate::locals::Numbers;
use crate::types::{any_object, temporary_type};
use ss_core::{Callee, ClassId, Expr, Place, Stmt, Ty};
use std::alloc::AllocError;

/// An expression without calls, or what a statement makes.
#[derive(Drop)]
pub enum Source {
    Pure(Expr),
    Created(Place, ClassId, Vec<Expr>),
    CreatedArray(Place, ClassId, Expr),
    Called(Place, Callee, Vec<Expr>),
}

/// The statement that puts the value into a local. An assignment stands at this place, a call at its own.
pub fn put(place: Place, x: usize, source: Source) -> Stmt
    ensures { core.stmt_of result ≡ lifting.put place x (source_of source) }
{
    match source {
        Source::Pure(e) => Stmt::Assign(place, x, e),
        Source::Created(at, class, values) => Stmt::New(at, Some(x), class, values),
        Source::CreatedArray(at, class, size) => Stmt::NewArray(at, Some(x), class, size),
        Source::Called(at, callee, values) => Stmt::Call(at, Some(x), callee, values),
    }
}

/// The statement that makes the value and drops it: none for an expression without calls.
pub fn dropped(source: Source) -> Option<Stmt>
    ensures { MatchOption result (simple.drop_result (source_of source) ≡ []) (λ s. simple.drop_result (source_of source) ≡ core.stmt_of s ∷ []) }
{
    match source {
        Source::Pure(_) => None,
        Source::Created(at, class, values) => Some(Stmt::New(at, None, class, values)),
        Source::CreatedArray(at, class, size) => Some(Stmt::NewArray(at, None, class, size)),
        Source::Called(at, callee, values) => Some(Stmt::Call(at, None, callee, values)),
    }
}

/// A call of an instance method on this receiver.
pub fn dispatched(
    place: Place,
    class: ClassId,
    method: usize,
    receiver: Expr,
    values: Vec<Expr>,
) -> Source
    ensures { source_of result ≡ lifting.Called place (tree.Dispatched (core.expr receiver) class.0 method) (core.exprs values.items) }
{
    Source::Called(place, Callee::Dispatched(receiver, class, method), values)
}

/// The number of the next temporary, where so many are made. There is no room for so many that it doesn't fit.
pub fn next(numbers: &Numbers, made: &[Ty]) -> Result<usize, AllocError>
    ensures { IfOk result (λ x. x ≡ lifting.next (numbers_of numbers.now) made.now) }
{
    numbers
        .first_temporary
        .checked_add(made.len())
        .ok_or(AllocError)
}

/// Adds a statement.
pub fn add_stmt(code: &mut Vec<Stmt>, statement: Stmt) -> Result<(), AllocError>
    ensures { OnOk result (stmts_of code.new ≡ stmts_of code.old ++ core.stmt_of statement ∷ []) }
{
    code.push(statement)?;
    Ok(())
}

/// Puts the value into a local that is a new temporary of this type.
pub fn in_local(
    code: &mut Vec<Stmt>,
    made: &mut Vec<Ty>,
    place: Place,
    x: usize,
    ty: Ty,
    source: Source,
) -> Result<Expr, AllocError>
    ensures { IfOk result (λ e. valued_by code.new made.new e ≡ lifting.in_local place x ty (lifted_by code.old made.old source)) }
{
    add_stmt(code, put(place, x, source))?;
    made.push(ty)?;
    Ok(Expr::Local(place, x))
}

/// Puts the value into a temporary of its own.
pub fn in_temporary(
    numbers: &Numbers,
    code: &mut Vec<Stmt>,
    made: &mut Vec<Ty>,
    place: Place,
    ty: Ty,
    source: Source,
) -> Result<Expr, AllocError>
    ensures { IfOk result (λ e. valued_by code.new made.new e ≡ lifting.in_temporary (numbers_of numbers.now) place ty (lifted_by code.old made.old source)) }
{
    let x = next(numbers, made)?;
    in_local(code, made, place, x, ty, source)
}

/// The value as an expression, where it is that of an expression at this place with this type: that of a call is put into a
/// temporary.
pub fn valued(
    numbers: &Numbers,
    code: &mut Vec<Stmt>,
    made: &mut Vec<Ty>,
    place: Place,
    ty: Option<Ty>,
    source: Source,
) -> Result<Expr, AllocError>
    ensures { (e : ExprTree) → place_of e ≡ place → types.type_of e ≡ ty
        → IfOk result (λ v. valued_by code.new made.new v ≡ lifting.valued (numbers_of numbers.now) e (lifted_by code.old made.old source)) }
{
    match source {
        Source::Pure(e) => Ok(e),
        Source::Created(..) | Source::CreatedArray(..) | Source::Called(..) => {
            let kept = temporary_type(any_object(), ty);
            in_temporary(numbers, code, made, place, kept, source)
        }
    }
}
