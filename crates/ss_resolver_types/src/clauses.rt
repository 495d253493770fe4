// Contracts and parameters.

ghost use Rattle.std.specs.Prelude.{◌≡◌, ◌++◌, OnOk, map, option_map};
ghost use Rattle.ss_ast.specs.Expressions.{expr_tree, type_tree};
ghost use Rattle.ss_ast.specs.Programs.{OneOf, param_tree, modified_tree, clause_tree};
ghost use Rattle.ss_tables_scopes.specs.Views.{scope_of};
ghost use Rattle.ss_tables_lookup.specs.Views.{type_of};
ghost use Rattle.ss_resolver_types_heads.specs.Wants.{ABool};
ghost use Rattle.ss_resolver_types_heads.specs.Expressions.{faults_as};
ghost use Rattle.ss_resolver_types_expressions.specs.Members.{before, after, type_of_result, gives_none, term_faults, terms_faults, clause_faults, clauses_faults, params_faults, result_faults};
ghost use Rattle.ss_resolver_types_heads.specs.Codes.{context_of, head_of};
ghost use Rattle.ss_resolver_types.specs.Bodies.{body_of, outcome_of, field_term_at};

use crate::body::{Body, Outcome};
use crate::simple::{check_condition, is_member_target, read};
use ss_ast::{Clause, Expr, Modified, Param, TypeRef};
use ss_faults::Fault;
use ss_resolver_types_expressions::{check_as, place_of};
use ss_resolver_types_heads::{ExprContext, Head, Want, note_bad_type, note_mark};
use ss_tables_lookup::StaticType;
use ss_tables_scopes::Scopes;
use std::alloc::AllocError;

// Whether `modifies` may name it as a field.
fn is_field_term(context: &ExprContext<'_, '_>, locals: &Scopes, head: Head<'_>) -> bool
    ensures { result ≡ field_term_at (context_of context.now locals.now).scope (head_of head.entry) }
{
    match head {
        Head::Name(_, name) => locals.find(name.as_str()).is_none(),
        Head::Member(_, _, known, name) => is_member_target(known, name.text.as_str()),
        Head::Base(_) | Head::Value(..) => false,
    }
}

// A field that `modifies` names.
fn check_field_term(
    context: &ExprContext<'_, '_>,
    locals: &mut Scopes,
    found: &mut Vec<Fault>,
    e: &Expr,
) -> Result<(), AllocError>
    ensures noted { OnOk result (found.new.items ≡ found.old.items ++ term_faults (context_of context.now locals.old) (OneOf (expr_tree e.now))) }
    ensures same { OnOk result (locals.new ≡ locals.old) }
{
    let (head, _) = read(context, locals, found, e)?;
    note_bad_type(found, !is_field_term(context, locals, head), place_of(e))?;
    Ok(())
}

// A term of `modifies`.
fn check_term(
    context: &ExprContext<'_, '_>,
    locals: &mut Scopes,
    found: &mut Vec<Fault>,
    term: &Modified,
) -> Result<(), AllocError>
    ensures noted { OnOk result (found.new.items ≡ found.old.items ++ term_faults (context_of context.now locals.old) (modified_tree term.now)) }
    ensures same { OnOk result (locals.new ≡ locals.old) }
{
    match term {
        Modified::All(e) => {
            check_as(context, locals, found, Want::OfClass(0), e)?;
            Ok(())
        }
        Modified::Elements(e) => {
            check_as(context, locals, found, Want::AnArray, e)?;
            Ok(())
        }
        Modified::One(e) => check_field_term(context, locals, found, e),
    }
}

fn check_terms(
    context: &ExprContext<'_, '_>,
    locals: &mut Scopes,
    found: &mut Vec<Fault>,
    terms: &[Modified],
) -> Result<(), AllocError>
    ensures noted { OnOk result (found.new.items ≡ found.old.items ++ terms_faults (context_of context.now locals.old) (map modified_tree terms.now)) }
    ensures same { OnOk result (locals.new ≡ locals.old) }
{
    for term in terms {
        check_term(context, locals, found, term)?;
    }
    Ok(())
}

/// The type of `result`.
pub fn type_of_result(outcome: Outcome) -> Option<StaticType>
    ensures { option_map type_of result ≡ type_of_result (outcome_of outcome) }
{
    match outcome {
        Outcome::Nothing => None,
        Outcome::Gives(ty) => ty,
    }
}

fn gives_none(outcome: Outcome) -> bool
    ensures { result ≡ gives_none (outcome_of outcome) }
{
    match outcome {
        Outcome::Nothing => true,
        Outcome::Gives(_) => false,
    }
}

// `ensures`, in which `result` is a fault where the body has none.
fn check_ensures(
    body: &Body<'_, '_>,
    locals: &mut Scopes,
    found: &mut Vec<Fault>,
    e: &Expr,
) -> Result<(), AllocError>
    ensures noted { OnOk result (found.new.items ≡ found.old.items ++ faults_as (after (body_of body.now) (scope_of body.now.within locals.old)) ABool (expr_tree e.now)) }
    ensures same { OnOk result (locals.new ≡ locals.old) }
{
    let context = ExprContext {
        within: body.within,
        is_static: body.is_static,
        in_condition: true,
        lacks_result: gives_none(body.outcome),
    };
    check_as(&context, locals, found, Want::ABool, e)?;
    Ok(())
}

// `modifies`
fn check_modifies(
    body: &Body<'_, '_>,
    locals: &mut Scopes,
    found: &mut Vec<Fault>,
    terms: &[Modified],
) -> Result<(), AllocError>
    ensures noted { OnOk result (found.new.items ≡ found.old.items ++ terms_faults (before (body_of body.now) (scope_of body.now.within locals.old)) (map modified_tree terms.now)) }
    ensures same { OnOk result (locals.new ≡ locals.old) }
{
    let context = ExprContext {
        within: body.within,
        is_static: body.is_static,
        in_condition: true,
        lacks_result: false,
    };
    check_terms(&context, locals, found, terms)
}

// A clause of a contract.
fn check_clause(
    body: &Body<'_, '_>,
    locals: &mut Scopes,
    found: &mut Vec<Fault>,
    clause: &Clause,
) -> Result<(), AllocError>
    ensures noted { OnOk result (found.new.items ≡ found.old.items ++ clause_faults (body_of body.now) (scope_of body.now.within locals.old) (clause_tree clause.now)) }
    ensures same { OnOk result (locals.new ≡ locals.old) }
{
    match clause {
        Clause::Requires(e) => check_condition(body, locals, found, e),
        Clause::Ensures(e) => check_ensures(body, locals, found, e),
        Clause::Modifies(terms) => check_modifies(body, locals, found, terms),
    }
}

/// A contract.
pub fn check_clauses(
    body: &Body<'_, '_>,
    locals: &mut Scopes,
    found: &mut Vec<Fault>,
    clauses: &[Clause],
) -> Result<(), AllocError>
    ensures noted { OnOk result (found.new.items ≡ found.old.items ++ clauses_faults (body_of body.now) (scope_of body.now.within locals.old) (map clause_tree clauses.now)) }
    ensures same { OnOk result (locals.new ≡ locals.old) }
{
    for clause in clauses {
        check_clause(body, locals, found, clause)?;
    }
    Ok(())
}

/// Parameters.
pub fn note_params(found: &mut Vec<Fault>, params: &[Param]) -> Result<(), AllocError>
    ensures { OnOk result (found.new.items ≡ found.old.items ++ params_faults (map param_tree params.now)) }
{
    for param in params {
        note_mark(found, &param.ty)?;
    }
    Ok(())
}

/// The type of a result.
pub fn note_result(found: &mut Vec<Fault>, ty: &Option<TypeRef>) -> Result<(), AllocError>
    ensures { OnOk result (found.new.items ≡ found.old.items ++ result_faults (option_map type_tree ty.now)) }
{
    match ty {
        Some(ty) => note_mark(found, ty),
        None => Ok(()),
    }
}
