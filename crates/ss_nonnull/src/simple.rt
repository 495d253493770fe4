// What is done at a point.

ghost use Rattle.std.specs.Prelude.{◌≡◌, ◌++◌, IfOk, OnOk, map, option_map};
ghost use Rattle.ss_typed.specs.Tree.{AssignOf, arguments};
ghost use Rattle.ss_typed.specs.View.{expr, declarator, simple_of, init_of};
ghost use Rattle.ss_nonnull_rules.specs.NonNull.{known_declared, known_done};
ghost use Rattle.ss_nonnull_rules.specs.Faults.{inside, inside_if, starts, handed_to_base, done_faults, returned_faults};
ghost use Rattle.ss_nonnull_seen.specs.Codes.{path_of, context_of, seen_of};
ghost use Rattle.ss_nonnull_seen.specs.Seen.{seen};
ghost use Rattle.ss_nonnull_seen.specs.Paths.{starts_never, fields_known, assigned_known};
ghost use Rattle.ss_nonnull.specs.Walks.{known_after_all, all_faults, known_after_first, heading_faults, step_faults_of, test_seen, test_faults};

use crate::expr::{check, check_arguments, check_wanted};
use ss_ast::AssignOperator;
use ss_core::{Place, Ty, is_non_null};
use ss_faults::Fault;
use ss_nonnull_seen::{
    Known, NullContext, Seen, above, assign, constructor, declare, literal, note_null, set_left,
};
use ss_typed::{TypedDeclarator, TypedExpr, TypedInit, TypedSimple};
use std::alloc::AllocError;

// An expression, where there is one.
fn check_any(
    context: &NullContext<'_>,
    known: &Option<Known>,
    found: &mut Vec<Fault>,
    e: &Option<TypedExpr>,
) -> Result<(), AllocError>
    ensures { OnOk result (found.new.items ≡ found.old.items ++ inside_if (context_of context.now) (path_of known.now) (option_map expr e.now)) }
{
    match e {
        Some(e) => {
            check(context, known, found, e)?;
            Ok(())
        }
        None => Ok(()),
    }
}

/// The arguments of `base(..)`.
pub fn check_base(
    context: &NullContext<'_>,
    known: &Option<Known>,
    found: &mut Vec<Fault>,
    list: &[TypedExpr],
) -> Result<(), AllocError>
    ensures { OnOk result (found.new.items ≡ found.old.items ++ handed_to_base (context_of context.now) (path_of known.now) (arguments (map expr list.now))) }
{
    let entered = constructor(
        context.program,
        above(&context.program.classes, context.class),
    );
    check_arguments(context, known, found, entered, list)?;
    Ok(())
}

/// A result that is handed out.
pub fn check_returned(
    context: &NullContext<'_>,
    known: &Option<Known>,
    found: &mut Vec<Fault>,
    e: &Option<TypedExpr>,
) -> Result<(), AllocError>
    ensures { OnOk result (found.new.items ≡ found.old.items ++ returned_faults (context_of context.now) (option_map expr e.now) (path_of known.now)) }
{
    match e {
        Some(e) => {
            check_wanted(context, known, found, context.result, e)?;
            Ok(())
        }
        None => Ok(()),
    }
}

// The test of a `for`.
pub fn check_test(
    context: &NullContext<'_>,
    known: &Option<Known>,
    found: &mut Vec<Fault>,
    place: Place,
    test: &Option<TypedExpr>,
) -> Result<Seen, AllocError>
    ensures seen { IfOk result (λ v. seen_of v ≡ test_seen (context_of context.now) (path_of known.now) place (option_map expr test.now)) }
    ensures noted { OnOk result (found.new.items ≡ found.old.items ++ test_faults (context_of context.now) (path_of known.now) place (option_map expr test.now)) }
{
    match test {
        Some(test) => {
            let head = check(context, known, found, test)?;
            Ok(head)
        }
        None => Ok(literal(context.alloc, place, true)),
    }
}

// ---- declared locals

// What a declared local starts with; whether that isn't null.
fn check_start(
    context: &NullContext<'_>,
    known: &Option<Known>,
    found: &mut Vec<Fault>,
    place: Place,
    ty: Ty,
    initial: &Option<TypedExpr>,
) -> Result<bool, AllocError>
    ensures never { IfOk result (λ b. b ≡ starts_never (context_of context.now) (path_of known.now) (option_map expr initial.now)) }
    ensures noted { OnOk result (found.new.items ≡ found.old.items ++ starts (context_of context.now) (path_of known.now) place ty (option_map expr initial.now)) }
{
    match initial {
        Some(e) => {
            let head = check_wanted(context, known, found, Some(ty), e)?;
            Ok(head.never_null)
        }
        None => {
            note_null(found, is_non_null(ty), place)?;
            Ok(false)
        }
    }
}

fn check_declarator(
    context: &NullContext<'_>,
    known: Option<Known>,
    found: &mut Vec<Fault>,
    declared: &TypedDeclarator,
) -> Result<Option<Known>, AllocError>
    ensures known { IfOk result (λ k. path_of k ≡ option_map (known_declared (context_of context.now) (declarator declared.now)) (path_of known)) }
    ensures noted { OnOk result (found.new.items ≡ found.old.items
        ++ starts (context_of context.now) (path_of known) declared.now.place declared.now.ty (declarator declared.now).initial) }
{
    let non_null = check_start(
        context,
        &known,
        found,
        declared.place,
        declared.ty,
        &declared.initial,
    )?;
    let behind = declare(known, declared.local, non_null)?;
    Ok(behind)
}

/// Declared locals, one after the other.
pub fn check_declarators(
    context: &NullContext<'_>,
    known: Option<Known>,
    found: &mut Vec<Fault>,
    declarators: &[TypedDeclarator],
) -> Result<Option<Known>, AllocError>
    ensures known { IfOk result (λ k. path_of k ≡ known_after_all (context_of context.now) (map declarator declarators.now) (path_of known)) }
    ensures noted { OnOk result (found.new.items ≡ found.old.items ++ all_faults (context_of context.now) (map declarator declarators.now) (path_of known)) }
{
    let mut reached = known;
    for declared in declarators {
        reached = check_declarator(context, reached, found, declared)?;
    }
    Ok(reached)
}

// ---- simple statements

// After an assignment of what isn't null, or of what may be.
fn assigned(
    context: &NullContext<'_>,
    known: Option<Known>,
    stmt: &TypedSimple,
    operator: AssignOperator,
    local: Option<usize>,
    non_null: bool,
) -> Result<Option<Known>, AllocError>
    ensures { IfOk result (λ k. path_of k ≡ option_map (λ l. fields_known (context_of context.now).numbers (simple_of stmt.now) (assigned_known operator local non_null l)) (path_of known)) }
{
    let put = set_left(known, operator, local, non_null)?;
    let behind = assign(put, context.numbers, stmt)?;
    Ok(behind)
}

/// A simple statement.
pub fn check_simple(
    context: &NullContext<'_>,
    known: Option<Known>,
    found: &mut Vec<Fault>,
    stmt: &TypedSimple,
) -> Result<Option<Known>, AllocError>
    ensures known { IfOk result (λ k. path_of k ≡ option_map (known_done (context_of context.now) (simple_of stmt.now)) (path_of known)) }
    ensures noted { OnOk result (found.new.items ≡ found.old.items ++ done_faults (context_of context.now) (simple_of stmt.now) (path_of known)) }
{
    match stmt {
        TypedSimple::Assign(left, operator, e) => {
            let target = check(context, &known, found, left)?;
            let head = check_wanted(context, &known, found, target.ty, e)?;
            let behind = assigned(
                context,
                known,
                stmt,
                *operator,
                target.local,
                head.never_null,
            )?;
            Ok(behind)
        }
        TypedSimple::Step(left, _) => {
            check(context, &known, found, left)?;
            let behind = assign(known, context.numbers, stmt)?;
            Ok(behind)
        }
        TypedSimple::Alone(e) => {
            check(context, &known, found, e)?;
            let behind = assign(known, context.numbers, stmt)?;
            Ok(behind)
        }
        TypedSimple::Print(_, e, _) => {
            check_any(context, &known, found, e)?;
            let behind = assign(known, context.numbers, stmt)?;
            Ok(behind)
        }
        TypedSimple::PrintText(..) => {
            let behind = assign(known, context.numbers, stmt)?;
            Ok(behind)
        }
        TypedSimple::Base(_, list) => {
            check_base(context, &known, found, list)?;
            let behind = assign(known, context.numbers, stmt)?;
            Ok(behind)
        }
    }
}

/// What a `for` begins with.
pub fn check_first(
    context: &NullContext<'_>,
    known: Option<Known>,
    found: &mut Vec<Fault>,
    first: &Option<TypedInit>,
) -> Result<Option<Known>, AllocError>
    ensures known { IfOk result (λ k. path_of k ≡ known_after_first (context_of context.now) (option_map init_of first.now) (path_of known)) }
    ensures noted { OnOk result (found.new.items ≡ found.old.items ++ heading_faults (context_of context.now) (option_map init_of first.now) (path_of known)) }
{
    match first {
        Some(TypedInit::Declare(declarators)) => {
            let behind = check_declarators(context, known, found, declarators)?;
            Ok(behind)
        }
        Some(TypedInit::Simple(stmt)) => {
            let behind = check_simple(context, known, found, stmt)?;
            Ok(behind)
        }
        None => Ok(known),
    }
}

/// The step of a `for`.
pub fn check_step(
    context: &NullContext<'_>,
    known: Option<Known>,
    found: &mut Vec<Fault>,
    step: &Option<TypedSimple>,
) -> Result<(), AllocError>
    ensures { OnOk result (found.new.items ≡ found.old.items ++ step_faults_of (context_of context.now) (option_map simple_of step.now) (path_of known)) }
{
    match step {
        Some(stmt) => {
            check_simple(context, known, found, stmt)?;
            Ok(())
        }
        None => Ok(()),
    }
}
