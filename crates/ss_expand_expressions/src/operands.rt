// Operands of operations with a call inside, once they are lifted.

ghost use Rattle.std.specs.Prelude.{◌≡◌, ◌++◌, ◌∷◌, [], IfOk, OnOk, List};
ghost use Rattle.ss_core.specs.declared.names.Ty.{Ty};
ghost use Rattle.ss_core.specs.Tree as tree;
ghost use Rattle.ss_core.specs.View as core;
ghost use Rattle.ss_typed.specs.Tree.{ExprTree};
ghost use Rattle.ss_expand_rules.specs.Lifting as lifting;
ghost use Rattle.ss_expand_expressions.specs.Views.{numbers_of};
ghost use Rattle.ss_expand_expressions.specs.Sources.{source_of, stmts_of, lifted_by, valued_by, valued_after};
ghost use Rattle.ss_expand_expressions.specs.Operands.{IsOperand, IsBegun, IsEnded};

use crate::locals::Numbers;
use crate::sources::{Source, add_stmt, in_local, in_temporary, next, put, valued};
use crate::types::temporary_type;
use ss_core::{Expr, Place, Stmt, Ty};
use std::alloc::{AllocError, Global};

/// An expression that has been lifted, with what is known of it.
#[derive(Drop)]
pub struct Operand {
    pub source: Source,
    pub place: Place,
    pub ty: Option<Ty>,
    /// A call stands in it.
    pub has_call: bool,
    /// It is an operation whose right side is evaluated only where its left side asks for it.
    pub is_lazy: bool,
}

/// The operand in a temporary, where a lazy operation with a call is already.
pub fn keep(
    numbers: &Numbers,
    code: &mut Vec<Stmt>,
    made: &mut Vec<Ty>,
    wanted: Ty,
    operand: Operand,
) -> Result<Expr, AllocError>
    ensures { (s : lifting.ElaborationContext) → (e : ExprTree) → (before : List tree.StmtTree) → (types : List Ty)
        → s.numbers ≡ numbers_of numbers.now → IsOperand s e before types code.old made.old operand
        → IfOk result (λ v. valued_by code.new made.new v ≡ valued_after before (lifting.operand s.numbers wanted e (lifting.lifted s e) types)) }
{
    if operand.is_lazy && operand.has_call {
        return valued(
            numbers,
            code,
            made,
            operand.place,
            operand.ty,
            operand.source,
        );
    }
    let kept = temporary_type(wanted, operand.ty);
    in_temporary(numbers, code, made, operand.place, kept, operand.source)
}

/// Puts the left side of a lazy operation, which stands at this place, into a temporary. The result is its number.
pub fn begin_lazy(
    numbers: &Numbers,
    code: &mut Vec<Stmt>,
    made: &mut Vec<Ty>,
    place: Place,
    source: Source,
) -> Result<usize, AllocError>
    ensures { IfOk result (λ x. IsBegun (numbers_of numbers.now) place (lifted_by code.old made.old source) x (stmts_of code.new) made.new.items) }
{
    let x = next(numbers, made)?;
    in_local(code, made, place, x, Ty::Bool, source)?;
    Ok(x)
}

// Adds an `if` without another side.
fn add_if(
    alloc: Global,
    code: &mut Vec<Stmt>,
    place: Place,
    test: Expr,
    inner: Vec<Stmt>,
) -> Result<(), AllocError>
    ensures { OnOk result (stmts_of code.new ≡ stmts_of code.old ++ tree.IfStmt place (core.expr test) (core.code_of (stmts_of inner)) tree.NoCode ∷ []) }
{
    add_stmt(code, Stmt::If(place, test, inner, Vec::new(alloc)))
}

/// The right side of a lazy operation.
#[derive(Drop)]
pub struct LazyRight {
    /// Its place.
    pub place: Place,
    /// The code in front of its value.
    pub code: Vec<Stmt>,
    /// Its value.
    pub source: Source,
}

/// Ends a lazy operation at this place. Where the test holds, the code of the right side is done, and its value put into the same
/// temporary.
pub fn end_lazy(
    alloc: Global,
    code: &mut Vec<Stmt>,
    place: Place,
    test: Expr,
    x: usize,
    right: LazyRight,
) -> Result<Source, AllocError>
    ensures { IfOk result (λ r. IsEnded place (core.expr test) x right.place (stmts_of right.code) (source_of right.source) (stmts_of code.old) (stmts_of code.new) (source_of r)) }
{
    let LazyRight {
        place: at,
        code: mut inner,
        source,
    } = right;
    add_stmt(&mut inner, put(at, x, source))?;
    add_if(alloc, code, place, test, inner)?;
    Ok(Source::Pure(Expr::Local(place, x)))
}
