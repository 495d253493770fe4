// Faults of the members of a class.

ghost use Rattle.std.specs.Prelude.{◌≡◌, ◌++◌, ◌<◌, true, length, map, OnOk, option_map};
ghost use Rattle.ss_ast.specs.Expressions.{expr_tree, type_tree};
ghost use Rattle.ss_ast.specs.Statements.{declarator_tree, block_tree};
ghost use Rattle.ss_ast.specs.Programs.{param_tree, modified_tree, clause_tree, base_call_tree, member_kind_tree, member_tree};
ghost use Rattle.ss_tables.specs.Types.{written_type};
ghost use Rattle.ss_tables.specs.Scopes.{declare, declare_params, class_scope};
ghost use Rattle.ss_resolver_names_rules.specs.Faults.{type_faults, twice_in};
ghost use Rattle.ss_tables_scopes.specs.Names.{Names};
ghost use Rattle.ss_tables_lookup.specs.Views.{type_of};
ghost use Rattle.ss_resolver_names_rules.specs.Members.{params_faults, modified_expr, modified_faults, clause_faults, clauses_faults, written_type_faults, base_faults, initials_faults, in_method, body_faults, kind_faults, members_faults};
ghost use Rattle.ss_tables_scopes.specs.Views.{scope_of};
ghost use Rattle.ss_tables_lookup.specs.Classes.{trees};

use crate::found::check_type;
use crate::stmts::{check_all, check_any, check_block, check_local};
use crate::walk::check;
use ss_ast::{
    BaseCall, Block, Clause, Constructor, Declarator, Expr, Member, MemberKind, Method, Modified,
    Modifier, Param, TypeRef,
};
use ss_faults::Fault;
use ss_tables_lookup::{StaticType, Tables};
use ss_tables_scopes::{
    ClassContext, NameScopes, Scopes, declare_param, is_static_word, result_type,
};
use std::alloc::{AllocError, Global};

// A parameter.
fn check_param(
    context: ClassContext<'_, '_>,
    locals: &mut Scopes,
    faults: &mut Vec<Fault>,
    param: &Param,
) -> Result<(), AllocError>
    ensures noted { OnOk result (faults.new.items ≡ faults.old.items
        ++ (type_faults (trees context.entry.tables.now) (param_tree param.now).ty ++ twice_in locals.old.inner (param_tree param.now).name)) }
    ensures declared { OnOk result (scope_of context.entry locals.new
        ≡ declare (scope_of context.entry locals.old) (param_tree param.now).name.text (record { ty = written_type (trees context.entry.tables.now) (param_tree param.now).ty; is_param = true })) }
{
    check_type(context.tables, faults, &param.ty)?;
    check_local(locals, faults, &param.name)?;
    declare_param(context, locals, param)
}

// Parameters.
fn check_params(
    context: ClassContext<'_, '_>,
    locals: &mut Scopes,
    faults: &mut Vec<Fault>,
    params: &[Param],
) -> Result<(), AllocError>
    ensures noted { OnOk result (faults.new.items ≡ faults.old.items ++ params_faults (scope_of context.entry locals.old) (map param_tree params.now)) }
    ensures declared { OnOk result (scope_of context.entry locals.new ≡ declare_params (scope_of context.entry locals.old) (map param_tree params.now)) }
{
    for param in params {
        check_param(context, locals, faults, param)?;
    }
    Ok(())
}

fn modified_expr(modified: &Modified) -> &Expr
    ensures { expr_tree result.now ≡ modified_expr (modified_tree modified.now) }
{
    match modified {
        Modified::All(e) | Modified::Elements(e) | Modified::One(e) => e,
    }
}

fn check_modified(
    context: ClassContext<'_, '_>,
    locals: &mut Scopes,
    faults: &mut Vec<Fault>,
    list: &[Modified],
) -> Result<(), AllocError>
    ensures noted { OnOk result (faults.new.items ≡ faults.old.items ++ modified_faults (scope_of context.entry locals.old) (map modified_tree list.now)) }
    ensures kept { OnOk result (locals.new ≡ locals.old) }
{
    for modified in list {
        check(context, locals, faults, modified_expr(modified))?;
    }
    Ok(())
}

// The same place in a method, static or not, where `result` has this type.
fn in_method<'t, 'p>(
    context: ClassContext<'t, 'p>,
    is_static: bool,
    outcome: Option<StaticType>,
) -> ClassContext<'t, 'p>
    ensures { (names : Names) → scope_of result names ≡ in_method (scope_of context.entry names) is_static (option_map type_of outcome) }
{
    ClassContext {
        alloc: context.alloc,
        tables: context.tables,
        class: context.class,
        refuses_members: is_static,
        refuses_this: context.refuses_this,
        outcome,
    }
}

fn check_clause(
    context: ClassContext<'_, '_>,
    locals: &mut Scopes,
    faults: &mut Vec<Fault>,
    clause: &Clause,
) -> Result<(), AllocError>
    ensures noted { OnOk result (faults.new.items ≡ faults.old.items ++ clause_faults (scope_of context.entry locals.old) (clause_tree clause.now)) }
    ensures kept { OnOk result (locals.new ≡ locals.old) }
{
    match clause {
        Clause::Requires(e) | Clause::Ensures(e) => {
            check(context, locals, faults, e)?;
            Ok(())
        }
        Clause::Modifies(list) => check_modified(context, locals, faults, list),
    }
}

fn check_clauses(
    context: ClassContext<'_, '_>,
    locals: &mut Scopes,
    faults: &mut Vec<Fault>,
    clauses: &[Clause],
) -> Result<(), AllocError>
    ensures noted { OnOk result (faults.new.items ≡ faults.old.items ++ clauses_faults (scope_of context.entry locals.old) (map clause_tree clauses.now)) }
    ensures kept { OnOk result (locals.new ≡ locals.old) }
{
    for clause in clauses {
        check_clause(context, locals, faults, clause)?;
    }
    Ok(())
}

fn check_result(
    tables: &Tables<'_>,
    faults: &mut Vec<Fault>,
    ty: &Option<TypeRef>,
) -> Result<(), AllocError>
    ensures { OnOk result (faults.new.items ≡ faults.old.items ++ written_type_faults (trees tables.now) (option_map type_tree ty.now)) }
{
    match ty {
        Some(ty) => check_type(tables, faults, ty),
        None => Ok(()),
    }
}

fn check_base(
    context: ClassContext<'_, '_>,
    locals: &mut Scopes,
    faults: &mut Vec<Fault>,
    base: &Option<BaseCall>,
) -> Result<(), AllocError>
    ensures noted { OnOk result (faults.new.items ≡ faults.old.items ++ base_faults (scope_of context.entry locals.old) (option_map base_call_tree base.now)) }
    ensures kept { OnOk result (locals.new ≡ locals.old) }
{
    match base {
        Some(base) => check_all(context, locals, faults, &base.arguments),
        None => Ok(()),
    }
}

fn check_initials(
    context: ClassContext<'_, '_>,
    locals: &mut Scopes,
    faults: &mut Vec<Fault>,
    declarators: &[Declarator],
) -> Result<(), AllocError>
    ensures noted { OnOk result (faults.new.items ≡ faults.old.items ++ initials_faults (scope_of context.entry locals.old) (map declarator_tree declarators.now)) }
    ensures kept { OnOk result (locals.new ≡ locals.old) }
{
    for declarator in declarators {
        check_any(context, locals, faults, &declarator.initial)?;
    }
    Ok(())
}

/// A method or a constructor after its name.
#[derive(Clone, Copy)]
struct WrittenBody<'m> {
    params: &'m [Param],
    base: &'m Option<BaseCall>,
    clauses: &'m [Clause],
    block: &'m Block,
}

// The parameters, the contract and the body.
fn check_body(
    context: ClassContext<'_, '_>,
    locals: &mut Scopes,
    faults: &mut Vec<Fault>,
    written: WrittenBody<'_>,
) -> Result<(), AllocError>
    ensures { OnOk result (faults.new.items ≡ faults.old.items ++ body_faults (scope_of context.entry locals.old) (map param_tree written.entry.params.now)
        (option_map base_call_tree written.entry.base.now) (map clause_tree written.entry.clauses.now) (block_tree written.entry.block.now)) }
{
    check_params(context, locals, faults, written.params)?;
    check_base(context, locals, faults, written.base)?;
    check_clauses(context, locals, faults, written.clauses)?;
    check_block(context, locals, faults, written.block)
}

fn check_method(
    context: ClassContext<'_, '_>,
    locals: &mut Scopes,
    faults: &mut Vec<Fault>,
    words: &[Modifier],
    method: &Method,
) -> Result<(), AllocError>
    ensures { OnOk result (faults.new.items ≡ faults.old.items ++ kind_faults (scope_of context.entry locals.old) words.now (member_kind_tree (MemberKind.Method method.now))) }
{
    check_result(context.tables, faults, &method.returns)?;
    let outcome = result_type(context.tables, &method.returns);
    let inner = in_method(context, is_static_word(words), outcome);
    check_body(
        inner,
        locals,
        faults,
        WrittenBody {
            params: &method.params,
            base: &None,
            clauses: &method.clauses,
            block: &method.body,
        },
    )
}

fn check_constructor(
    context: ClassContext<'_, '_>,
    locals: &mut Scopes,
    faults: &mut Vec<Fault>,
    constructor: &Constructor,
) -> Result<(), AllocError>
    ensures { OnOk result (faults.new.items ≡ faults.old.items ++ body_faults (scope_of context.entry locals.old) (map param_tree constructor.now.params.items)
        (option_map base_call_tree constructor.now.base) (map clause_tree constructor.now.clauses.items) (block_tree constructor.now.body)) }
{
    check_body(
        context,
        locals,
        faults,
        WrittenBody {
            params: &constructor.params,
            base: &constructor.base,
            clauses: &constructor.clauses,
            block: &constructor.body,
        },
    )
}

// A member, in which no local stands before.
fn check_member(
    alloc: Global,
    tables: &Tables<'_>,
    class: usize,
    faults: &mut Vec<Fault>,
    member: &Member,
) -> Result<(), AllocError>
    requires { class < length (trees tables.now) }
    ensures { OnOk result (faults.new.items ≡ faults.old.items ++ kind_faults (class_scope (trees tables.now) class) (member_tree member.now).modifiers (member_tree member.now).kind) }
{
    let context = ClassContext {
        alloc,
        tables,
        class,
        refuses_members: false,
        refuses_this: false,
        outcome: None,
    };
    let mut locals = NameScopes::new(alloc);
    match &member.kind {
        MemberKind::Fields(declaration) => {
            check_type(tables, faults, &declaration.ty)?;
            check_initials(context, &mut locals, faults, &declaration.declarators)
        }
        MemberKind::Invariant(e) => {
            check(context, &mut locals, faults, e)?;
            Ok(())
        }
        MemberKind::Method(method) => {
            check_method(context, &mut locals, faults, &member.modifiers, method)
        }
        MemberKind::Constructor(constructor) => {
            check_constructor(context, &mut locals, faults, constructor)
        }
    }
}

/// The members of a class.
pub fn check_members(
    alloc: Global,
    tables: &Tables<'_>,
    class: usize,
    faults: &mut Vec<Fault>,
    members: &[Member],
) -> Result<(), AllocError>
    requires { class < length (trees tables.now) }
    ensures { OnOk result (faults.new.items ≡ faults.old.items ++ members_faults (class_scope (trees tables.now) class) (map member_tree members.now)) }
{
    for member in members {
        check_member(alloc, tables, class, faults, member)?;
    }
    Ok(())
}
