// Declarations, calls alone, printing and `base(..)`.

ghost use Rattle.std.specs.Prelude.{◌≡◌, ◌++◌, ◌∷◌, [], IfOk, OnOk, None, map, option_map};
ghost use Rattle.ss_core.specs.Tree as core;
ghost use Rattle.ss_core.specs.View as view;
ghost use Rattle.ss_typed.specs.Tree as tree;
ghost use Rattle.ss_typed.specs.View as typed;
ghost use Rattle.ss_expand_rules.specs.Code.{after};
ghost use Rattle.ss_expand_rules.specs.Lifting as lifting;
ghost use Rattle.ss_typed.specs.Lookups as lookups;
ghost use Rattle.ss_expand_rules.specs.Simple as elab;
ghost use Rattle.ss_expand_expressions.specs.Sources.{stmts_of, source_of, lifted_by, lifted_after};
ghost use Rattle.ss_expand_lifting.specs.Contexts.{context_of};
ghost use Rattle.ss_expand_lifting.specs.Made.{coded_by, initial_of};

use crate::assignments::{add_put, assignment, one_more};
use crate::code::Code;
use crate::context::ElaborationContext;
use crate::lifting::{arguments, right_side, value};
use ss_core::{BodyId, Callee, ClassId, Expr, Place, Stmt, Ty};
use ss_expand_bodies::{Origin, above_of, has_delayed_constructor, number_among, params_in};
use ss_expand_expressions::{Source, default_of, dropped};
use ss_typed::{TypedDeclarator, TypedExpr, TypedSimple, constructor_of};
use std::alloc::{AllocError, Global};

// What a declared local begins with.
fn first_value(
    context: &ElaborationContext<'_>,
    declarator: &TypedDeclarator,
    code: &mut Code,
    made: &mut Vec<Ty>,
) -> Result<Source, AllocError>
    ensures { IfOk result (λ r. lifted_by code.new.statements made.new r
        ≡ lifted_after (stmts_of code.old.statements) (initial_of (context_of context.now) (typed.declarator declarator.now) (typed.declarator declarator.now).initial made.old.items)) }
{
    match &declarator.initial {
        Some(e) => {
            let source = right_side(context, e, code, made)?;
            Ok(source)
        }
        None => Ok(Source::Pure(default_of(declarator.place, declarator.ty))),
    }
}

// Adds what a declared local begins with.
fn declare_one(
    context: &ElaborationContext<'_>,
    declarator: &TypedDeclarator,
    code: &mut Code,
    made: &mut Vec<Ty>,
) -> Result<(), AllocError>
    ensures { OnOk result (coded_by code.new made.new
        ≡ after (stmts_of code.old.statements) (elab.declared_as (context_of context.now) (typed.declarator declarator.now) (typed.declarator declarator.now).initial made.old.items)) }
{
    let source = first_value(context, declarator, code, made)?;
    add_put(declarator.place, declarator.local, source, code)?;
    Ok(())
}

/// Adds what declared locals begin with.
pub fn declare(
    context: &ElaborationContext<'_>,
    declarators: &[TypedDeclarator],
    code: &mut Code,
    made: &mut Vec<Ty>,
) -> Result<(), AllocError>
    ensures { OnOk result (coded_by code.new made.new
        ≡ after (stmts_of code.old.statements) (elab.declare (context_of context.now) (map typed.declarator declarators.now) made.old.items)) }
{
    for declarator in declarators {
        declare_one(context, declarator, code, made)?;
    }
    Ok(())
}

// ---- calls alone and printing

// Adds the statement that makes the value and drops it.
fn add_dropped(source: Source, code: &mut Code) -> Result<(), AllocError>
    ensures { OnOk result (stmts_of code.new.statements ≡ stmts_of code.old.statements ++ elab.drop_result (source_of source)) }
{
    match dropped(source) {
        Some(statement) => code.add(statement),
        None => Ok(()),
    }
}

// Adds a call alone, which keeps nothing.
fn alone(
    context: &ElaborationContext<'_>,
    e: &TypedExpr,
    code: &mut Code,
    made: &mut Vec<Ty>,
) -> Result<(), AllocError>
    ensures { OnOk result (coded_by code.new made.new
        ≡ after (stmts_of code.old.statements) (elab.alone (lifting.right_side (context_of context.now) (typed.expr e.now) made.old.items))) }
{
    let source = right_side(context, e, code, made)?;
    add_dropped(source, code)?;
    Ok(())
}

// Adds the print of this value, where there is one.
fn add_print(
    place: Place,
    value: Option<Expr>,
    line: bool,
    code: &mut Code,
) -> Result<(), AllocError>
    ensures { OnOk result (stmts_of code.new.statements ≡ stmts_of code.old.statements ++ core.PrintStmt place (option_map view.expr value) line ∷ []) }
{
    code.add(Stmt::Print(place, value, line))
}

// Adds the print of a value, where there is one.
fn print(
    context: &ElaborationContext<'_>,
    place: Place,
    e: &Option<TypedExpr>,
    line: bool,
    code: &mut Code,
    made: &mut Vec<Ty>,
) -> Result<(), AllocError>
    ensures { OnOk result (coded_by code.new made.new
        ≡ after (stmts_of code.old.statements) (elab.print (context_of context.now) place (option_map typed.expr e.now) line made.old.items)) }
{
    match e {
        Some(e) => {
            let value = value(context, e, code, made)?;
            add_print(place, Some(value), line, code)?;
            Ok(())
        }
        None => {
            add_print(place, None, line, code)?;
            Ok(())
        }
    }
}

// ---- `base(..)`

// Adds what makes `this` ready after a call of the constructor of this class.
fn add_ready(
    context: &ElaborationContext<'_>,
    place: Place,
    above: ClassId,
    code: &mut Code,
) -> Result<(), AllocError>
    ensures { OnOk result (stmts_of code.new.statements ≡ stmts_of code.old.statements ++ elab.ready_after (context_of context.now) place above.0) }
{
    if context.body.flags.delayed {
        return Ok(());
    }
    if has_delayed_constructor(context.program, above) {
        return code.add(Stmt::Ready(place));
    }
    Ok(())
}

// Adds the call of this constructor on `this`.
fn add_base_call(
    place: Place,
    number: BodyId,
    values: Vec<Expr>,
    code: &mut Code,
) -> Result<(), AllocError>
    ensures { OnOk result (stmts_of code.new.statements ≡ stmts_of code.old.statements
        ++ core.CallStmt place None (core.BaseConstructor number.0) (view.exprs values.items) ∷ []) }
{
    code.add(Stmt::Call(place, None, Callee::Constructor(number), values))
}

// Adds the call of the constructor of this class.
fn base_with(
    context: &ElaborationContext<'_>,
    place: Place,
    es: &[TypedExpr],
    above: ClassId,
    code: &mut Code,
    made: &mut Vec<Ty>,
) -> Result<(), AllocError>
    ensures { OnOk result (coded_by code.new made.new
        ≡ after (stmts_of code.old.statements) (elab.base_with (context_of context.now) place above.0
        (lifting.arguments_of (context_of context.now) (lookups.param_types_in (lookups.constructor_of (typed.typed context.now.program.now) above.0)) (tree.arguments (typed.exprs es.now)) made.old.items))) }
{
    let params = params_in(constructor_of(context.program, above));
    let values = arguments(context, params, es, code, made)?;
    let number = number_among(context.origins, Origin::Constructor(above))?;
    add_base_call(place, number, values, code)?;
    add_ready(context, place, above, code)?;
    Ok(())
}

/// Adds `base(..)` at this place, with what makes `this` ready after it.
pub fn base_call(
    context: &ElaborationContext<'_>,
    place: Place,
    es: &[TypedExpr],
    code: &mut Code,
    made: &mut Vec<Ty>,
) -> Result<(), AllocError>
    ensures { OnOk result (coded_by code.new made.new
        ≡ after (stmts_of code.old.statements) (elab.base_call (context_of context.now) place (tree.arguments (typed.exprs es.now)) made.old.items)) }
{
    let above = above_of(context.program, context.body.class);
    if above.0 == 0 {
        add_ready(context, place, above, code)?;
        Ok(())
    } else {
        base_with(context, place, es, above, code, made)?;
        Ok(())
    }
}

// ---- simple statements

// Adds the print of these bytes.
fn print_text(
    alloc: Global,
    place: Place,
    text: &[u8],
    line: bool,
    code: &mut Code,
) -> Result<(), AllocError>
    ensures { OnOk result (stmts_of code.new.statements ≡ stmts_of code.old.statements ++ core.PrintTextStmt place text.now line ∷ []) }
{
    let copy = Vec::from_slice(alloc, text)?;
    code.add(Stmt::PrintText(place, copy, line))
}

/// Adds the code of a statement that has no other inside.
pub fn simple_statement(
    context: &ElaborationContext<'_>,
    statement: &TypedSimple,
    code: &mut Code,
    made: &mut Vec<Ty>,
) -> Result<(), AllocError>
    ensures { OnOk result (coded_by code.new made.new
        ≡ after (stmts_of code.old.statements) (elab.simple (context_of context.now) (typed.simple_of statement.now) made.old.items)) }
{
    match statement {
        TypedSimple::Assign(target, operator, e) => {
            assignment(context, target, *operator, e, code, made)
        }
        TypedSimple::Step(target, operator) => { one_more(context, target, *operator, code, made) }
        TypedSimple::Alone(e) => alone(context, e, code, made),
        TypedSimple::Print(place, e, line) => { print(context, *place, e, *line, code, made) }
        TypedSimple::PrintText(place, text, line) => {
            print_text(context.alloc, *place, text, *line, code)
        }
        TypedSimple::Base(place, es) => base_call(context, *place, es, code, made),
    }
}
