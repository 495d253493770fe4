// Methods and constructors.

ghost use Rattle.std.specs.Prelude.{◌≡◌, ◌++◌, ◌∷◌, [], false, None, IfOk, OnOk, map, option_map, unwrap_or, if◌then◌else◌};
ghost use Rattle.ss_ast.specs.Expressions.{type_tree};
ghost use Rattle.ss_ast.specs.Statements.{block_tree};
ghost use Rattle.ss_ast.specs.Programs.{param_tree, clause_tree};
ghost use Rattle.ss_tables_lookup.specs.Classes.{trees};
ghost use Rattle.ss_tables_lookup.specs.Views.{type_of, method_tree, constructor_tree};
ghost use Rattle.ss_core.specs.declared.names.Ty.TheVariants as static_type;
ghost use Rattle.ss_typed.specs.View as view;
ghost use Rattle.ss_resolver_rules.specs.Numbers.{type_id};
ghost use Rattle.ss_resolver_rules.specs.Names.{class_env, declare_params};
ghost use Rattle.ss_resolver_rules.specs.Programs.{param_env, result_env, method_env, base_of, method_flags, constructor_flags, method_body, constructor_body};
ghost use Rattle.ss_resolver_tables.specs.Limits.{HasFewClasses};
ghost use Rattle.ss_resolver_expressions.specs.LocalContext.{LocalContext};
ghost use Rattle.ss_resolver_expressions.specs.Environments.{env_of};
ghost use Rattle.ss_resolver_programs.specs.Parts.{param_in, AreParts};

use crate::contracts::{resolve_base, resolve_entry, resolve_exit, resolve_modifies};
use crate::locals::list_locals;
use crate::marks::copy_names;
use ss_ast::{Block, Clause, Param, TypeRef};
use ss_core::Local;
use ss_resolver_expressions::{LocalNames, ResolutionContext};
use ss_resolver_statements::{declare_params, resolve_block};
use ss_resolver_tables::{class_number, declared_result, type_id};
use ss_tables_lookup::{ConstructorRef, MethodRef, StaticType, Tables};
use ss_tables_scopes::{ClassContext, has_attribute, is_static};
use ss_typed::{
    TypedBase, TypedBlock, TypedBody, TypedExpr, TypedFlags, TypedModifies, TypedParam,
};
use std::alloc::{AllocError, Global};

fn resolve_param(
    alloc: Global,
    tables: &Tables<'_>,
    param: &Param,
) -> Result<TypedParam, AllocError>
    requires { HasFewClasses (trees tables.now) }
    ensures { IfOk result (λ p. view.param p ≡ param_in (trees tables.now) (param_tree param.now)) }
{
    let name = String::from_str(alloc, param.name.text.as_str())?;
    let attributes = copy_names(alloc, &param.attributes)?;
    let captured = has_attribute("Captured", &param.attributes);
    Ok(TypedParam {
        name,
        place: param.name.place,
        ty: type_id(tables, &param.ty),
        captured,
        attributes,
    })
}

// One more parameter.
fn add_param(
    alloc: Global,
    tables: &Tables<'_>,
    list: &mut Vec<TypedParam>,
    param: &Param,
) -> Result<(), AllocError>
    requires { HasFewClasses (trees tables.now) }
    ensures { OnOk result (map view.param list.new.items ≡ map view.param list.old.items ++ param_in (trees tables.now) (param_tree param.now) ∷ []) }
{
    let param = resolve_param(alloc, tables, param)?;
    list.push(param)?;
    Ok(())
}

fn resolve_params(
    alloc: Global,
    tables: &Tables<'_>,
    params: &[Param],
) -> Result<Vec<TypedParam>, AllocError>
    requires { HasFewClasses (trees tables.now) }
    ensures { IfOk result (λ v. map view.param v.items ≡ map (param_in (trees tables.now)) (map param_tree params.now)) }
{
    let mut list = Vec::new(alloc);
    for param in params {
        add_param(alloc, tables, &mut list, param)?;
    }
    Ok(list)
}

// The names with the parameters of a body, where the first local has this number.
fn enter_params(
    context: &ResolutionContext<'_, '_>,
    first: usize,
    params: &[Param],
) -> Result<LocalNames, AllocError>
    requires outcome { context.now.within.outcome ≡ None }
    requires calls { context.now.within.refuses_members ≡ false }
    requires this { context.now.within.refuses_this ≡ false }
    ensures { IfOk result (λ a. env_of context.now a ≡ declare_params (record (class_env (trees context.now.within.tables.now) context.now.within.class) { next = first }) (map param_tree params.now)) }
{
    let mut names = LocalNames::new(context.within.alloc, first);
    declare_params(context, &mut names, params)?;
    Ok(names)
}

/// What a body has besides its heading.
#[derive(Drop)]
pub struct Parts {
    pub params: Vec<TypedParam>,
    pub locals: Vec<Local>,
    pub entry: Vec<TypedExpr>,
    pub exit: Vec<TypedExpr>,
    pub modifies: Option<Vec<TypedModifies>>,
    pub block: TypedBlock,
}

// The parts of a body whose parameters are in scope.
fn resolve_parts<'p>(
    context: &ResolutionContext<'_, 'p>,
    names: &mut LocalNames,
    params: &[Param],
    clauses: &'p [Clause],
    body: &'p Block,
) -> Result<Parts, AllocError>
    ensures { IfOk result (λ p. AreParts (env_of context.now names.old) (map param_tree params.now) (map clause_tree clauses.now) (block_tree body.now) p) }
{
    let tables = context.within.tables;
    let params = resolve_params(context.within.alloc, tables, params)?;
    let locals = list_locals(context.within.alloc, tables, body)?;
    let entry = resolve_entry(context, names, clauses)?;
    let exit = resolve_exit(context, names, clauses)?;
    let modifies = resolve_modifies(context, names, clauses)?;
    let block = resolve_block(context, names, body)?;
    Ok(Parts {
        params,
        locals,
        entry,
        exit,
        modifies,
        block,
    })
}

fn or_null(ty: Option<StaticType>) -> StaticType
    ensures { type_of result ≡ unwrap_or (option_map type_of ty) static_type.Null }
{
    match ty {
        Some(ty) => ty,
        None => StaticType::Null,
    }
}

// The static type of `result`.
fn outcome_of(tables: &Tables<'_>, ty: &Option<TypeRef>) -> Option<StaticType>
    ensures { option_map type_of result ≡ option_map (type_id (trees tables.now)) (option_map type_tree ty.now) }
{
    match ty {
        Some(ty) => Some(or_null(tables.written_type(ty))),
        None => None,
    }
}

// The context of a method, in which `result` has its type.
fn method_context<'t, 'p>(
    context: &ResolutionContext<'t, 'p>,
    returns: &Option<TypeRef>,
) -> ResolutionContext<'t, 'p>
    ensures { (a : LocalContext) → env_of result a ≡ result_env (env_of context.now a) (option_map (type_id (trees context.now.within.tables.now)) (option_map type_tree returns.now)) }
{
    let tables = context.within.tables;
    ResolutionContext {
        within: ClassContext {
            alloc: context.within.alloc,
            tables,
            class: context.within.class,
            refuses_members: context.within.refuses_members,
            refuses_this: context.within.refuses_this,
            outcome: outcome_of(tables, returns),
        },
        fields: context.fields,
        bodies: context.bodies,
        tables: context.tables,
        outcome: declared_result(tables, returns),
    }
}

fn method_flags(method: MethodRef<'_>) -> TypedFlags
    ensures { result ≡ method_flags (method_tree method.entry) }
{
    TypedFlags {
        is_static: is_static(method),
        ctor: false,
        delayed: false,
        pure: has_attribute("Pure", &method.member.attributes),
        no_default_contract: has_attribute("NoDefaultContract", &method.member.attributes),
    }
}

fn constructor_flags(constructor: ConstructorRef<'_>) -> TypedFlags
    ensures { result ≡ constructor_flags (constructor_tree constructor.entry) }
{
    TypedFlags {
        is_static: false,
        ctor: true,
        delayed: !has_attribute("NotDelayed", constructor.attributes),
        pure: has_attribute("Pure", constructor.attributes),
        no_default_contract: has_attribute("NoDefaultContract", constructor.attributes),
    }
}

// The number of the first local: a static method has no `this`.
fn first_local(is_static: bool) -> usize
    ensures { result ≡ (if is_static then 0 else 1) }
{
    if is_static { 0 } else { 1 }
}

// What a method has besides its heading, where `result` has its type.
fn method_parts<'p>(
    context: &ResolutionContext<'_, 'p>,
    method: MethodRef<'p>,
) -> Result<Parts, AllocError>
    requires outcome { context.now.within.outcome ≡ None }
    requires calls { context.now.within.refuses_members ≡ false }
    requires this { context.now.within.refuses_this ≡ false }
    ensures { IfOk result (λ p. AreParts (method_env (trees context.now.within.tables.now) context.now.within.class (method_tree method.entry))
        (method_tree method.entry).params (method_tree method.entry).clauses (method_tree method.entry).body p) }
{
    let written = method.method;
    let own = method_context(context, &written.returns);
    let first = first_local(is_static(method));
    let mut names = enter_params(context, first, &written.params)?;
    resolve_parts(
        &own,
        &mut names,
        &written.params,
        &written.clauses,
        &written.body,
    )
}

/// A method.
pub(crate) fn resolve_method<'p>(
    context: &ResolutionContext<'_, 'p>,
    method: MethodRef<'p>,
) -> Result<TypedBody, AllocError>
    requires outcome { context.now.within.outcome ≡ None }
    requires calls { context.now.within.refuses_members ≡ false }
    requires this { context.now.within.refuses_this ≡ false }
    ensures { IfOk result (λ b. view.body b ≡ method_body (trees context.now.within.tables.now) context.now.within.class (method_tree method.entry)) }
{
    let written = method.method;
    let name = String::from_str(context.within.alloc, written.name.text.as_str())?;
    let attributes = copy_names(context.within.alloc, &method.member.attributes)?;
    let parts = method_parts(context, method)?;
    Ok(TypedBody {
        class: class_number(context.within.class),
        name,
        place: written.name.place,
        flags: method_flags(method),
        attributes,
        params: parts.params,
        locals: parts.locals,
        result: declared_result(context.within.tables, &written.returns),
        entry: parts.entry,
        exit: parts.exit,
        modifies: parts.modifies,
        base: None,
        block: parts.block,
    })
}

/// What a constructor has besides its heading.
#[derive(Drop)]
pub struct Based {
    pub base: Option<TypedBase>,
    pub parts: Parts,
}

// The same where its parameters are in scope.
fn based_parts<'p>(
    context: &ResolutionContext<'_, 'p>,
    names: &mut LocalNames,
    constructor: ConstructorRef<'p>,
) -> Result<Based, AllocError>
    ensures base { IfOk result (λ b. option_map view.base b.base ≡ option_map (base_of (env_of context.now names.old)) (constructor_tree constructor.entry).base) }
    ensures parts { IfOk result (λ b. AreParts (env_of context.now names.old) (constructor_tree constructor.entry).params (constructor_tree constructor.entry).clauses (constructor_tree constructor.entry).body b.parts) }
{
    let written = constructor.constructor;
    let base = resolve_base(context, names, &written.base)?;
    let parts = resolve_parts(
        context,
        names,
        &written.params,
        &written.clauses,
        &written.body,
    )?;
    Ok(Based { base, parts })
}

fn constructor_parts<'p>(
    context: &ResolutionContext<'_, 'p>,
    constructor: ConstructorRef<'p>,
) -> Result<Based, AllocError>
    requires outcome { context.now.within.outcome ≡ None }
    requires calls { context.now.within.refuses_members ≡ false }
    requires this { context.now.within.refuses_this ≡ false }
    ensures base { IfOk result (λ b. option_map view.base b.base
        ≡ option_map (base_of (param_env (trees context.now.within.tables.now) context.now.within.class false (constructor_tree constructor.entry).params)) (constructor_tree constructor.entry).base) }
    ensures parts { IfOk result (λ b. AreParts (param_env (trees context.now.within.tables.now) context.now.within.class false (constructor_tree constructor.entry).params)
        (constructor_tree constructor.entry).params (constructor_tree constructor.entry).clauses (constructor_tree constructor.entry).body b.parts) }
{
    let written = constructor.constructor;
    let mut names = enter_params(context, 1, &written.params)?;
    based_parts(context, &mut names, constructor)
}

/// A constructor.
pub(crate) fn resolve_constructor<'p>(
    context: &ResolutionContext<'_, 'p>,
    constructor: ConstructorRef<'p>,
) -> Result<TypedBody, AllocError>
    requires outcome { context.now.within.outcome ≡ None }
    requires calls { context.now.within.refuses_members ≡ false }
    requires this { context.now.within.refuses_this ≡ false }
    ensures { IfOk result (λ b. view.body b ≡ constructor_body (trees context.now.within.tables.now) context.now.within.class (constructor_tree constructor.entry)) }
{
    let written = constructor.constructor;
    let name = String::from_str(context.within.alloc, written.name.text.as_str())?;
    let attributes = copy_names(context.within.alloc, constructor.attributes)?;
    let whole = constructor_parts(context, constructor)?;
    let parts = whole.parts;
    Ok(TypedBody {
        class: class_number(context.within.class),
        name,
        place: written.name.place,
        flags: constructor_flags(constructor),
        attributes,
        params: parts.params,
        locals: parts.locals,
        result: None,
        entry: parts.entry,
        exit: parts.exit,
        modifies: parts.modifies,
        base: whole.base,
        block: parts.block,
    })
}
