// The beginning and the end of an `expose`.

ghost use Rattle.std.specs.Prelude.{◌≡◌, ◌++◌, ◌∷◌, [], IfOk, OnOk, map, option_map, if◌then◌else◌};
ghost use Rattle.ss_core.specs.Tree.{LocalExpr, UnpackStmt};
ghost use Rattle.ss_typed.specs.View as typed;
ghost use Rattle.ss_typed.specs.Shapes as shapes;
ghost use Rattle.ss_expand_rules.specs.Code.{after};
ghost use Rattle.ss_expand_rules.specs.Lifting as lifting;
ghost use Rattle.ss_expand_rules.specs.Statements as statements;
ghost use Rattle.ss_expand_expressions.specs.Operands.{valued_as};
ghost use Rattle.ss_expand_expressions.specs.Sources.{stmts_of, valued_after};
ghost use Rattle.ss_expand_bodies.specs.Exposes.{opened_of};
ghost use Rattle.ss_expand_lifting.specs.Made.{coded_by};
ghost use Rattle.ss_expand_lifting.specs.Contexts.{context_of};
ghost use Rattle.ss_expand_programs.specs.Opening.{opened_by, object_of, opening};

use ss_core::{ClassId, Place, Stmt, Ty};
use ss_expand_bodies::{Opened, pack_of};
use ss_expand_expressions::{any_object, class_of_type, in_local, next, temporary_type};
use ss_expand_lifting::{Code, ElaborationContext, right_side};
use ss_typed::{TypedExpr, place_of, type_of};
use std::alloc::{AllocError, Global};

// The class at which it is: the static class of the object, where none is written.
fn exposed_class(e: &TypedExpr, class: Option<ClassId>) -> ClassId
    ensures { result.0 ≡ statements.exposed_class (typed.expr e.now) (option_map (λ t. t.0) class) }
{
    match class {
        Some(class) => class,
        None => class_of_type(type_of(e)),
    }
}

// Puts the object into a temporary, whose number is the result.
fn put_object(
    context: &ElaborationContext<'_>,
    e: &TypedExpr,
    code: &mut Code,
    made: &mut Vec<Ty>,
) -> Result<usize, AllocError>
    ensures kept { IfOk result (λ x. valued_as (stmts_of code.new.statements) (LocalExpr (shapes.place_of (typed.expr e.now)) x) made.new.items
        ≡ valued_after (stmts_of code.old.statements) (object_of (context_of context.now) (typed.expr e.now) made.old.items)) }
    ensures number { IfOk result (λ x. x ≡ lifting.next (context_of context.now).numbers (lifting.right_side (context_of context.now) (typed.expr e.now) made.old.items).made) }
{
    let source = right_side(context, e, code, made)?;
    let x = next(context.numbers, made)?;
    let ty = temporary_type(any_object(), type_of(e));
    let place = place_of(e);
    in_local(&mut code.statements, made, place, x, ty, source)?;
    Ok(x)
}

// Adds the unpack of the object in this local.
fn add_unpack(code: &mut Code, place: Place, local: usize, class: ClassId) -> Result<(), AllocError>
    ensures { OnOk result (stmts_of code.new.statements ≡ stmts_of code.old.statements ++ UnpackStmt place local class.0 ∷ []) }
{
    code.add(Stmt::Unpack(place, local, class))?;
    Ok(())
}

/// Adds the beginning: the object in a temporary, and its unpack.
pub fn open(
    context: &ElaborationContext<'_>,
    place: Place,
    e: &TypedExpr,
    class: Option<ClassId>,
    code: &mut Code,
    made: &mut Vec<Ty>,
) -> Result<Opened, AllocError>
    ensures coded { OnOk result (coded_by code.new made.new
        ≡ after (stmts_of code.old.statements) (opening (context_of context.now) place (typed.expr e.now) (option_map (λ t. t.0) class) made.old.items)) }
    ensures opened { IfOk result (λ o. opened_of o ≡ opened_by (context_of context.now) place (typed.expr e.now) (option_map (λ t. t.0) class) made.old.items) }
{
    let local = put_object(context, e, code, made)?;
    let class = exposed_class(e, class);
    add_unpack(code, place, local, class)?;
    Ok(Opened {
        place,
        local,
        class,
    })
}

// The exposes with one more inside them.
fn with_opened(alloc: Global, exposes: &[Opened], opened: Opened) -> Result<Vec<Opened>, AllocError>
    ensures { IfOk result (λ os. map opened_of os.items ≡ map opened_of exposes.now ++ opened_of opened ∷ []) }
{
    let mut list = Vec::from_slice(alloc, exposes)?;
    list.push(opened)?;
    Ok(list)
}

/// The same context inside one more `expose`.
pub fn within<'a>(
    context: &ElaborationContext<'a>,
    opened: Opened,
) -> Result<ElaborationContext<'a>, AllocError>
    ensures { IfOk result (λ s. context_of s ≡ statements.within (context_of context.now) (opened_of opened)) }
{
    let exposes = with_opened(context.alloc, &context.exposes, opened)?;
    Ok(ElaborationContext {
        alloc: context.alloc,
        program: context.program,
        origins: context.origins,
        body: context.body,
        numbers: context.numbers,
        exposes,
    })
}

/// Adds the pack at the end, where that can be reached.
pub fn close(code: &mut Code, opened: Opened, reached: bool) -> Result<(), AllocError>
    ensures { OnOk result (stmts_of code.new.statements ≡ stmts_of code.old.statements ++ (if reached then statements.pack_of (opened_of opened) ∷ [] else [])) }
{
    if reached {
        code.add(pack_of(opened))?;
    }
    Ok(())
}
