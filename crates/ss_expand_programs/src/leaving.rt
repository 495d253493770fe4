// Returns.

ghost use Rattle.std.specs.Prelude.{◌≡◌, ◌++◌, ◌∷◌, [], false, None, IfOk, OnOk, option_map};
ghost use Rattle.ss_core.specs.Tree.{ReturnStmt};
ghost use Rattle.ss_core.specs.View as core;
ghost use Rattle.ss_typed.specs.View as typed;
ghost use Rattle.ss_expand_rules.specs.Code.{after};
ghost use Rattle.ss_expand_rules.specs.Lifting as lifting;
ghost use Rattle.ss_expand_rules.specs.Statements as statements;
ghost use Rattle.ss_expand_expressions.specs.Sources.{stmts_of, valued_by, valued_after};
ghost use Rattle.ss_expand_lifting.specs.Made.{coded_by};
ghost use Rattle.ss_expand_lifting.specs.Contexts.{context_of};
ghost use Rattle.ss_expand_programs.specs.Returns.{returned_value};

use ss_core::{Expr, Place, Stmt, Ty};
use ss_expand_bodies::{add_pack_this, add_packs};
use ss_expand_expressions::{any_object, in_temporary};
use ss_expand_lifting::{Code, ElaborationContext, right_side, value};
use ss_typed::{TypedExpr, place_of};
use std::alloc::AllocError;

// Adds the packs before a return at this place: of the exposes around it, from the innermost outwards, and of a constructor's `this`.
fn add_all_packs(
    context: &ElaborationContext<'_>,
    code: &mut Code,
    place: Place,
) -> Result<(), AllocError>
    ensures { OnOk result (stmts_of code.new.statements ≡ stmts_of code.old.statements ++ statements.packs (context_of context.now) place) }
{
    add_packs(&mut code.statements, &context.exposes)?;
    add_pack_this(&mut code.statements, context.body, place)?;
    Ok(())
}

// Adds the packs, and the return of this value.
fn add_return(
    context: &ElaborationContext<'_>,
    code: &mut Code,
    place: Place,
    value: Option<Expr>,
) -> Result<(), AllocError>
    ensures { OnOk result (stmts_of code.new.statements ≡ stmts_of code.old.statements ++ (statements.packs (context_of context.now) place ++ ReturnStmt place (option_map core.expr value) ∷ [])) }
{
    add_all_packs(context, code, place)?;
    code.add(Stmt::Return(place, value))?;
    Ok(())
}

// The type of a result.
fn result_type(ty: Option<Ty>) -> Ty
    ensures { result ≡ statements.result_type ty }
{
    match ty {
        Some(ty) => ty,
        None => any_object(),
    }
}

// The value of a return inside an `expose`, in a temporary of the result's type.
fn kept_result(
    context: &ElaborationContext<'_>,
    e: &TypedExpr,
    code: &mut Code,
    made: &mut Vec<Ty>,
) -> Result<Expr, AllocError>
    ensures { IfOk result (λ v. valued_by code.new.statements made.new v
        ≡ valued_after (stmts_of code.old.statements) (statements.kept_result (context_of context.now) (typed.expr e.now) (lifting.right_side (context_of context.now) (typed.expr e.now) made.old.items))) }
{
    let source = right_side(context, e, code, made)?;
    let ty = result_type(context.body.result);
    let place = place_of(e);
    let before = &mut code.statements;
    let kept = in_temporary(context.numbers, before, made, place, ty, source)?;
    Ok(kept)
}

// The value of a return, which inside an `expose` is in a temporary.
fn returned_value(
    context: &ElaborationContext<'_>,
    e: &TypedExpr,
    code: &mut Code,
    made: &mut Vec<Ty>,
) -> Result<Expr, AllocError>
    ensures { IfOk result (λ v. valued_by code.new.statements made.new v
        ≡ valued_after (stmts_of code.old.statements) (returned_value (context_of context.now) (typed.expr e.now) made.old.items)) }
{
    match context.exposes.as_slice() {
        [] => value(context, e, code, made),
        [_, ..] => kept_result(context, e, code, made),
    }
}

// Adds a return of a value.
fn leave_with(
    context: &ElaborationContext<'_>,
    place: Place,
    e: &TypedExpr,
    code: &mut Code,
    made: &mut Vec<Ty>,
) -> Result<(), AllocError>
    ensures { OnOk result (coded_by code.new made.new
        ≡ after (stmts_of code.old.statements) (statements.leave_value (context_of context.now) place (typed.expr e.now) (context_of context.now).exposes made.old.items)) }
{
    let value = returned_value(context, e, code, made)?;
    add_return(context, code, place, Some(value))?;
    Ok(())
}

/// Adds a return without a value.
pub fn leave_empty(
    context: &ElaborationContext<'_>,
    code: &mut Code,
    place: Place,
) -> Result<(), AllocError>
    ensures { OnOk result (stmts_of code.new.statements ≡ stmts_of code.old.statements ++ (statements.packs (context_of context.now) place ++ ReturnStmt place None ∷ [])) }
{
    add_return(context, code, place, None)?;
    Ok(())
}

/// Adds a return. The result says whether its end can be reached.
pub fn leave(
    context: &ElaborationContext<'_>,
    place: Place,
    e: &Option<TypedExpr>,
    code: &mut Code,
    made: &mut Vec<Ty>,
) -> Result<bool, AllocError>
    ensures coded { OnOk result (coded_by code.new made.new
        ≡ after (stmts_of code.old.statements) (statements.leave (context_of context.now) place (option_map typed.expr e.now) made.old.items)) }
    ensures ends { IfOk result (λ reached. reached ≡ false) }
{
    match e {
        Some(e) => {
            leave_with(context, place, e, code, made)?;
            Ok(false)
        }
        None => {
            leave_empty(context, code, place)?;
            Ok(false)
        }
    }
}
