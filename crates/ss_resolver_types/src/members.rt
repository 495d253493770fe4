// Members of classes.

ghost use Rattle.std.specs.Prelude.{◌≡◌, ◌++◌, ◌<◌, ◌&&◌, ◌||◌, false, true, length, map, drop, option_map, is_some, is_none, OnOk};
ghost use Rattle.ss_ast.specs.declared.class.Modifier.{Modifier};
ghost use Rattle.ss_ast.specs.Expressions.{arguments, expr_tree, name_tree, type_tree};
ghost use Rattle.ss_ast.specs.Statements.{declarator_tree, declaration_tree, block_tree, stmt_tree, stmt_trees};
ghost use Rattle.ss_ast.specs.Programs.{param_tree, clause_tree, base_call_tree, member_kind_tree, member_tree, class_tree};
ghost use Rattle.ss_tables.specs.Scopes.{param_scope, behind};
ghost use Rattle.ss_tables_lookup.specs.Classes.{trees};
ghost use Rattle.ss_tables_lookup.specs.Views.{type_of};
ghost use Rattle.ss_tables_scopes.specs.Views.{scope_of};
ghost use Rattle.ss_resolver_types_heads.specs.Faults.{bad_type};
ghost use Rattle.ss_resolver_types_heads.specs.Wants.{ABool};
ghost use Rattle.ss_resolver_types_heads.specs.Expressions.{faults_as, mark_faults};
ghost use Rattle.ss_resolver_types_expressions.specs.Statements.{block_faults};
ghost use Rattle.ss_resolver_types_expressions.specs.Members.{surplus_words, clauses_faults, outcome_of, type_of_result, method_scope, end_faults, constructor_body, base_faults, written_base, block_calls_base, outermost_faults, constructor_stmts, constructor_block, constructor_faults, title_faults, implied_base, kind_faults, method_body, method_faults, fields_faults, in_class, member_faults};
ghost use Rattle.ss_resolver_types_expressions.specs.Members.{base_call as spec_base_call, is_first_assignment};
ghost use Rattle.ss_resolver_types_heads.specs.Codes.{context_of};
ghost use Rattle.ss_resolver_types.specs.Bodies as bodies;

use crate::bases::{base_call, calls_base, is_first_assignment};
use crate::body::{Body, Outcome};
use crate::clauses::{check_clauses, note_params, note_result, type_of_result};
use crate::simple::check_initial;
use crate::stmts::{check_block, check_stmt};
use ss_ast::{
    BaseCall, Block, ClassDecl, Constructor, Declaration, Declarator, Expr, Member, MemberKind,
    Method, Modifier, Name, Stmt, TypeRef,
};
use ss_core::Place;
use ss_faults::Fault;
use ss_resolver_types_expressions::{PlacedCall, block_reaches_end, check_as, check_call};
use ss_resolver_types_heads::{
    ExprContext, Want, call_above, note_bad_type, note_end, note_mark, takes_nothing,
};
use ss_tables_lookup::Tables;
use ss_tables_scopes::{ClassContext, NameScopes, Scopes, declare_params, is_static_word};
use std::alloc::{AllocError, Global};

// ---- words

fn note_words(found: &mut Vec<Fault>, words: &[Modifier]) -> Result<(), AllocError>
    ensures { OnOk result (found.new.items ≡ found.old.items ++ map (λ (w : Modifier). bad_type w.place) words.now) }
{
    for word in words {
        note_bad_type(found, true, word.place)?;
    }
    Ok(())
}

fn note_after_first(found: &mut Vec<Fault>, words: &[Modifier]) -> Result<(), AllocError>
    ensures { OnOk result (found.new.items ≡ found.old.items ++ map (λ (w : Modifier). bad_type w.place) (drop 1 words.now)) }
{
    match words {
        [] => Ok(()),
        [_, rest @ ..] => note_words(found, rest),
    }
}

// The words past those that the member may have.
fn note_surplus(found: &mut Vec<Fault>, member: &Member) -> Result<(), AllocError>
    ensures { OnOk result (found.new.items ≡ found.old.items ++ surplus_words (member_tree member.now)) }
{
    match &member.kind {
        MemberKind::Method(_) => note_after_first(found, &member.modifiers),
        MemberKind::Fields(_) | MemberKind::Invariant(_) | MemberKind::Constructor(_) => {
            note_words(found, &member.modifiers)
        }
    }
}

// ---- fields and invariants

fn check_fields(
    context: &ExprContext<'_, '_>,
    locals: &mut Scopes,
    found: &mut Vec<Fault>,
    ty: &TypeRef,
    declarators: &[Declarator],
) -> Result<(), AllocError>
    ensures noted { OnOk result (found.new.items ≡ found.old.items ++ fields_faults (context_of context.now locals.old) (type_tree ty.now) (map declarator_tree declarators.now)) }
    ensures same { OnOk result (locals.new ≡ locals.old) }
{
    for declarator in declarators {
        check_initial(context, locals, found, ty, &declarator.initial)?;
    }
    Ok(())
}

fn check_declared(
    alloc: Global,
    tables: &Tables<'_>,
    class: usize,
    found: &mut Vec<Fault>,
    declaration: &Declaration,
) -> Result<(), AllocError>
    requires { class < length (trees tables.now) }
    ensures { OnOk result (found.new.items ≡ found.old.items ++ (mark_faults (declaration_tree declaration.now).ty
        ++ fields_faults (in_class (trees tables.now) class false) (declaration_tree declaration.now).ty (declaration_tree declaration.now).declarators)) }
{
    let context = ExprContext {
        within: ClassContext {
            alloc,
            tables,
            class,
            refuses_members: false,
            refuses_this: false,
            outcome: None,
        },
        is_static: false,
        in_condition: false,
        lacks_result: false,
    };
    let mut locals = NameScopes::new(alloc);
    note_mark(found, &declaration.ty)?;
    check_fields(
        &context,
        &mut locals,
        found,
        &declaration.ty,
        &declaration.declarators,
    )
}

fn check_invariant(
    alloc: Global,
    tables: &Tables<'_>,
    class: usize,
    found: &mut Vec<Fault>,
    e: &Expr,
) -> Result<(), AllocError>
    requires { class < length (trees tables.now) }
    ensures { OnOk result (found.new.items ≡ found.old.items ++ faults_as (in_class (trees tables.now) class true) ABool (expr_tree e.now)) }
{
    let context = ExprContext {
        within: ClassContext {
            alloc,
            tables,
            class,
            refuses_members: false,
            refuses_this: false,
            outcome: None,
        },
        is_static: false,
        in_condition: true,
        lacks_result: false,
    };
    let mut locals = NameScopes::new(alloc);
    check_as(&context, &mut locals, found, Want::ABool, e)?;
    Ok(())
}

// ---- methods

fn outcome_of(tables: &Tables<'_>, returns: &Option<TypeRef>) -> Outcome
    ensures { bodies.outcome_of result ≡ outcome_of (trees tables.now) (option_map type_tree returns.now) }
{
    match returns {
        Some(ty) => Outcome::Gives(tables.written_type(ty)),
        None => Outcome::Nothing,
    }
}

// The end of a body with a result.
fn check_end(
    found: &mut Vec<Fault>,
    returns: &Option<TypeRef>,
    block: &Block,
) -> Result<(), AllocError>
    ensures { OnOk result (found.new.items ≡ found.old.items ++ end_faults (option_map type_tree returns.now) (block_tree block.now)) }
{
    let is_fault = returns.is_some() && block_reaches_end(block);
    note_end(found, is_fault, block.end)
}

// The contract and the body of a method, with its parameters in scope.
fn check_inner(
    body: &Body<'_, '_>,
    found: &mut Vec<Fault>,
    method: &Method,
) -> Result<(), AllocError>
    requires outcome { option_map type_of body.now.within.outcome ≡ type_of_result (bodies.outcome_of body.now.outcome) }
    requires calls { body.now.within.refuses_members ≡ body.now.is_static }
    requires this { body.now.within.refuses_this ≡ body.now.is_static }
    ensures { OnOk result (found.new.items ≡ found.old.items
        ++ (clauses_faults (bodies.body_of body.now) (method_scope (trees body.now.within.tables.now) body.now.within.class (bodies.body_of body.now) (map param_tree method.now.params.items)) (map clause_tree method.now.clauses.items)
        ++ block_faults (bodies.body_of body.now) (method_scope (trees body.now.within.tables.now) body.now.within.class (bodies.body_of body.now) (map param_tree method.now.params.items)) (block_tree method.now.body))) }
{
    let mut locals = NameScopes::new(body.within.alloc);
    declare_params(body.within, &mut locals, &method.params)?;
    check_clauses(body, &mut locals, found, &method.clauses)?;
    check_block(body, &mut locals, found, &method.body)
}

fn check_method(
    alloc: Global,
    tables: &Tables<'_>,
    class: usize,
    found: &mut Vec<Fault>,
    words: &[Modifier],
    method: &Method,
) -> Result<(), AllocError>
    requires { class < length (trees tables.now) }
    ensures { OnOk result (found.new.items ≡ found.old.items
        ++ method_faults (trees tables.now) class (method_body (trees tables.now) words.now (option_map type_tree method.now.returns)) (option_map type_tree method.now.returns)
        (map param_tree method.now.params.items) (map clause_tree method.now.clauses.items) (block_tree method.now.body)) }
{
    let outcome = outcome_of(tables, &method.returns);
    let is_static = is_static_word(words);
    let body = Body {
        within: ClassContext {
            alloc,
            tables,
            class,
            refuses_members: is_static,
            refuses_this: is_static,
            outcome: type_of_result(outcome),
        },
        is_static,
        outcome,
    };
    note_result(found, &method.returns)?;
    note_params(found, &method.params)?;
    check_inner(&body, found, method)?;
    check_end(found, &method.returns, &method.body)
}

// ---- constructors

/// Where no `base(..)` is written, the constructor of the class above is called without arguments.
pub fn note_implied_base(
    tables: &Tables<'_>,
    class: usize,
    found: &mut Vec<Fault>,
    is_written: bool,
    place: Place,
) -> Result<(), AllocError>
    ensures { OnOk result (found.new.items ≡ found.old.items ++ implied_base (trees tables.now) class is_written place) }
{
    let is_fault = !is_written && !takes_nothing(call_above(tables, class));
    note_bad_type(found, is_fault, place)
}

// The arguments of `base(..)`, which stands at this place.
fn check_base(
    body: &Body<'_, '_>,
    locals: &mut Scopes,
    found: &mut Vec<Fault>,
    place: Place,
    list: &[Expr],
) -> Result<(), AllocError>
    ensures noted { OnOk result (found.new.items ≡ found.old.items ++ base_faults body.now.within.class (scope_of body.now.within locals.old) place (arguments (map expr_tree list.now))) }
    ensures same { OnOk result (locals.new ≡ locals.old) }
{
    let context = ExprContext {
        within: body.within,
        is_static: false,
        in_condition: false,
        lacks_result: false,
    };
    let called = call_above(body.within.tables, body.within.class);
    let placed = PlacedCall {
        place,
        is_call: false,
        called,
    };
    check_call(&context, locals, found, placed, list)
}

// `: base(..)`, where it is written.
fn check_written_base(
    body: &Body<'_, '_>,
    locals: &mut Scopes,
    found: &mut Vec<Fault>,
    base: &Option<BaseCall>,
) -> Result<(), AllocError>
    ensures noted { OnOk result (found.new.items ≡ found.old.items ++ written_base body.now.within.class (scope_of body.now.within locals.old) (option_map base_call_tree base.now)) }
    ensures same { OnOk result (locals.new ≡ locals.old) }
{
    match base {
        Some(base) => check_base(body, locals, found, base.place, &base.arguments),
        None => Ok(()),
    }
}

// A statement of the outermost block, where `base(..)` may stand or not.
fn check_outermost(
    body: &Body<'_, '_>,
    locals: &mut Scopes,
    found: &mut Vec<Fault>,
    may_call: bool,
    stmt: &Stmt,
) -> Result<(), AllocError>
    requires { bodies.body_of body.now ≡ constructor_body }
    ensures noted { OnOk result (found.new.items ≡ found.old.items
        ++ outermost_faults body.now.within.class (scope_of body.now.within locals.old) (stmt_tree stmt.now) may_call (spec_base_call (stmt_tree stmt.now))) }
    ensures scope { OnOk result (scope_of body.now.within locals.new ≡ behind (scope_of body.now.within locals.old) (stmt_tree stmt.now)) }
    ensures outer { OnOk result (locals.new.outer ≡ locals.old.outer) }
{
    if !may_call {
        return check_stmt(body, locals, found, stmt);
    }
    match base_call(stmt) {
        Some((place, list)) => check_base(body, locals, found, place, list),
        None => check_stmt(body, locals, found, stmt),
    }
}

// Whether `base(..)` may still stand after a statement.
fn may_still_call(may_call: bool, body: &Body<'_, '_>, locals: &Scopes, stmt: &Stmt) -> bool
    ensures { result ≡ (may_call && is_first_assignment body.now.within.class (scope_of body.now.within locals.now) (stmt_tree stmt.now)) }
{
    may_call && is_first_assignment(body.within, locals, stmt)
}

// The statements of the outermost block.
fn check_all_outermost(
    body: &Body<'_, '_>,
    locals: &mut Scopes,
    found: &mut Vec<Fault>,
    may_call: bool,
    stmts: &[Stmt],
) -> Result<(), AllocError>
    requires { bodies.body_of body.now ≡ constructor_body }
    ensures { OnOk result (found.new.items ≡ found.old.items ++ constructor_stmts body.now.within.class (scope_of body.now.within locals.old) may_call (stmt_trees (map stmt_tree stmts.now))) }
{
    let mut may = may_call;
    for stmt in stmts {
        let may_next = may_still_call(may, body, locals, stmt);
        check_outermost(body, locals, found, may, stmt)?;
        may = may_next;
    }
    Ok(())
}

// The outermost block.
fn check_outermost_block(
    body: &Body<'_, '_>,
    locals: &mut Scopes,
    found: &mut Vec<Fault>,
    may_call: bool,
    block: &Block,
) -> Result<(), AllocError>
    requires { bodies.body_of body.now ≡ constructor_body }
    ensures { OnOk result (found.new.items ≡ found.old.items ++ constructor_block body.now.within.class (scope_of body.now.within locals.old) may_call (block_tree block.now)) }
{
    locals.enter(body.within.alloc)?;
    check_all_outermost(body, locals, found, may_call, &block.statements)
}

// A name that isn't that of the class.
fn note_title(
    found: &mut Vec<Fault>,
    declaration: &ClassDecl,
    name: &Name,
) -> Result<(), AllocError>
    ensures { OnOk result (found.new.items ≡ found.old.items ++ title_faults (class_tree declaration.now) (name_tree name.now)) }
{
    let is_fault = name.text.as_str() != declaration.name.text.as_str();
    note_bad_type(found, is_fault, name.place)
}

// Whether `base(..)` is written, before the body or in it.
fn writes_base(constructor: &Constructor) -> bool
    ensures { result ≡ (is_some (option_map base_call_tree constructor.now.base) || block_calls_base (block_tree constructor.now.body)) }
{
    constructor.base.is_some() || calls_base(&constructor.body.statements)
}

// What calls the constructor of the class above.
fn check_bases(
    body: &Body<'_, '_>,
    locals: &mut Scopes,
    found: &mut Vec<Fault>,
    constructor: &Constructor,
) -> Result<(), AllocError>
    ensures noted { OnOk result (found.new.items ≡ found.old.items
        ++ bodies.bases_faults (trees body.now.within.tables.now) body.now.within.class (scope_of body.now.within locals.old) (name_tree constructor.now.name) (option_map base_call_tree constructor.now.base) (block_tree constructor.now.body)) }
    ensures same { OnOk result (locals.new ≡ locals.old) }
{
    check_written_base(body, locals, found, &constructor.base)?;
    let is_written = writes_base(constructor);
    note_implied_base(
        body.within.tables,
        body.within.class,
        found,
        is_written,
        constructor.name.place,
    )
}

fn lacks_base(constructor: &Constructor) -> bool
    ensures { result ≡ is_none (option_map base_call_tree constructor.now.base) }
{
    constructor.base.is_none()
}

// The contract and the body.
fn check_built(
    body: &Body<'_, '_>,
    locals: &mut Scopes,
    found: &mut Vec<Fault>,
    constructor: &Constructor,
) -> Result<(), AllocError>
    requires { bodies.body_of body.now ≡ constructor_body }
    ensures { OnOk result (found.new.items ≡ found.old.items
        ++ bodies.built_faults body.now.within.class (scope_of body.now.within locals.old) (option_map base_call_tree constructor.now.base) (map clause_tree constructor.now.clauses.items) (block_tree constructor.now.body)) }
{
    check_clauses(body, locals, found, &constructor.clauses)?;
    let may_call = lacks_base(constructor);
    check_outermost_block(body, locals, found, may_call, &constructor.body)
}

// All but the name and the types of the parameters, with the parameters in scope.
fn check_constructed(
    body: &Body<'_, '_>,
    found: &mut Vec<Fault>,
    constructor: &Constructor,
) -> Result<(), AllocError>
    requires outcome { body.now.within.outcome ≡ None }
    requires calls { body.now.within.refuses_members ≡ false }
    requires this { body.now.within.refuses_this ≡ false }
    requires body { bodies.body_of body.now ≡ constructor_body }
    ensures { OnOk result (found.new.items ≡ found.old.items
        ++ (bodies.bases_faults (trees body.now.within.tables.now) body.now.within.class (param_scope (trees body.now.within.tables.now) body.now.within.class (map param_tree constructor.now.params.items)) (name_tree constructor.now.name)
        (option_map base_call_tree constructor.now.base) (block_tree constructor.now.body)
        ++ bodies.built_faults body.now.within.class (param_scope (trees body.now.within.tables.now) body.now.within.class (map param_tree constructor.now.params.items))
        (option_map base_call_tree constructor.now.base) (map clause_tree constructor.now.clauses.items) (block_tree constructor.now.body))) }
{
    let mut locals = NameScopes::new(body.within.alloc);
    declare_params(body.within, &mut locals, &constructor.params)?;
    check_bases(body, &mut locals, found, constructor)?;
    check_built(body, &mut locals, found, constructor)
}

fn check_constructor(
    alloc: Global,
    tables: &Tables<'_>,
    class: usize,
    found: &mut Vec<Fault>,
    declaration: &ClassDecl,
    constructor: &Constructor,
) -> Result<(), AllocError>
    requires { class < length (trees tables.now) }
    ensures { OnOk result (found.new.items ≡ found.old.items
        ++ constructor_faults (trees tables.now) class (class_tree declaration.now) (name_tree constructor.now.name) (map param_tree constructor.now.params.items)
        (option_map base_call_tree constructor.now.base) (map clause_tree constructor.now.clauses.items) (block_tree constructor.now.body)) }
{
    let body = Body {
        within: ClassContext {
            alloc,
            tables,
            class,
            refuses_members: false,
            refuses_this: false,
            outcome: None,
        },
        is_static: false,
        outcome: Outcome::Nothing,
    };
    note_title(found, declaration, &constructor.name)?;
    note_params(found, &constructor.params)?;
    check_constructed(&body, found, constructor)
}

// ---- members

fn check_kind(
    alloc: Global,
    tables: &Tables<'_>,
    class: usize,
    found: &mut Vec<Fault>,
    declaration: &ClassDecl,
    member: &Member,
) -> Result<(), AllocError>
    requires { class < length (trees tables.now) }
    ensures { OnOk result (found.new.items ≡ found.old.items
        ++ kind_faults (trees tables.now) class (class_tree declaration.now) member.now.modifiers.items (member_kind_tree member.now.kind)) }
{
    match &member.kind {
        MemberKind::Fields(fields) => check_declared(alloc, tables, class, found, fields),
        MemberKind::Invariant(e) => check_invariant(alloc, tables, class, found, e),
        MemberKind::Method(method) => {
            check_method(alloc, tables, class, found, &member.modifiers, method)
        }
        MemberKind::Constructor(constructor) => {
            check_constructor(alloc, tables, class, found, declaration, constructor)
        }
    }
}

/// A member of a class.
pub fn check_member(
    alloc: Global,
    tables: &Tables<'_>,
    class: usize,
    found: &mut Vec<Fault>,
    declaration: &ClassDecl,
    member: &Member,
) -> Result<(), AllocError>
    requires { class < length (trees tables.now) }
    ensures { OnOk result (found.new.items ≡ found.old.items ++ member_faults (trees tables.now) class (class_tree declaration.now) (member_tree member.now)) }
{
    note_surplus(found, member)?;
    check_kind(alloc, tables, class, found, declaration, member)
}
