// Declared locals and parameters.

ghost use Rattle.std.specs.Prelude.{◌≡◌, ◌++◌, ◌∷◌, [], IfOk, OnOk, map, option_map};
ghost use Rattle.ss_ast.specs.Expressions.{name_tree, type_tree, expr_tree};
ghost use Rattle.ss_ast.specs.Statements.{declarator_tree, declaration_tree};
ghost use Rattle.ss_ast.specs.Programs.{param_tree};
ghost use Rattle.ss_typed.specs.View as view;
ghost use Rattle.ss_resolver_rules.specs.Names.{declare, declare_all, declare_param, declare_params, after_declaration};
ghost use Rattle.ss_resolver_rules.specs.Expressions.{expr};
ghost use Rattle.ss_resolver_rules.specs.Statements as resolved;
ghost use Rattle.ss_resolver_expressions.specs.Environments.{env_of};
ghost use Rattle.ss_resolver_statements.specs.Boxes.{value_of};

use crate::built::value_in;
use ss_ast::{Declaration, Declarator, Expr, Name, Param, TypeRef};
use ss_resolver_expressions::{LocalNames, ResolutionContext, resolve_boxed};
use ss_resolver_tables::type_id;
use ss_tables_scopes::LocalInfo;
use ss_typed::{TypedDeclarator, TypedExpr};
use std::alloc::AllocError;

// Declares a local.
fn declare_local(
    context: &ResolutionContext<'_, '_>,
    names: &mut LocalNames,
    ty: &TypeRef,
    name: &Name,
) -> Result<(), AllocError>
    ensures { OnOk result (env_of context.now names.new ≡ declare (env_of context.now names.old) (type_tree ty.now) (name_tree name.now)) }
{
    let tables = context.within.tables;
    let local = LocalInfo {
        ty: tables.written_type(ty),
        is_param: false,
    };
    names.declare(
        context.within.alloc,
        name.text.as_str(),
        local,
        type_id(tables, ty),
    )
}

// Declares a parameter.
fn declare_param(
    context: &ResolutionContext<'_, '_>,
    names: &mut LocalNames,
    param: &Param,
) -> Result<(), AllocError>
    ensures { OnOk result (env_of context.now names.new ≡ declare_param (env_of context.now names.old) (param_tree param.now)) }
{
    let tables = context.within.tables;
    let local = LocalInfo {
        ty: tables.written_type(&param.ty),
        is_param: true,
    };
    let name = param.name.text.as_str();
    names.declare(
        context.within.alloc,
        name,
        local,
        type_id(tables, &param.ty),
    )
}

/// Declares parameters in order.
pub fn declare_params(
    context: &ResolutionContext<'_, '_>,
    names: &mut LocalNames,
    params: &[Param],
) -> Result<(), AllocError>
    ensures { OnOk result (env_of context.now names.new ≡ declare_params (env_of context.now names.old) (map param_tree params.now)) }
{
    for param in params {
        declare_param(context, names, param)?;
    }
    Ok(())
}

/// An expression where there is one.
pub fn resolve_option<'p>(
    context: &ResolutionContext<'_, 'p>,
    names: &mut LocalNames,
    e: &'p Option<Expr>,
) -> Result<Option<Box<TypedExpr>>, AllocError>
    ensures tree { IfOk result (λ r. value_of r ≡ option_map (expr (env_of context.now names.old)) (option_map expr_tree e.now)) }
    ensures kept { OnOk result (names.new ≡ names.old) }
{
    match e {
        Some(e) => {
            let value = resolve_boxed(context, names, e)?;
            Ok(Some(value))
        }
        None => Ok(None),
    }
}

// A declarator, after which its name is in scope.
fn resolve_declarator<'p>(
    context: &ResolutionContext<'_, 'p>,
    names: &mut LocalNames,
    ty: &TypeRef,
    declarator: &'p Declarator,
) -> Result<TypedDeclarator, AllocError>
    ensures tree { IfOk result (λ d. view.declarator d ≡ resolved.declarator (env_of context.now names.old) (type_tree ty.now) (declarator_tree declarator.now)) }
    ensures behind { OnOk result (env_of context.now names.new ≡ declare (env_of context.now names.old) (type_tree ty.now) (name_tree declarator.now.name)) }
{
    let initial = resolve_option(context, names, &declarator.initial)?;
    let local = names.next();
    declare_local(context, names, ty, &declarator.name)?;
    Ok(TypedDeclarator {
        place: declarator.name.place,
        local,
        ty: type_id(context.within.tables, ty),
        initial: value_in(initial),
    })
}

// One more declarator.
fn add_declarator<'p>(
    context: &ResolutionContext<'_, 'p>,
    names: &mut LocalNames,
    list: &mut Vec<TypedDeclarator>,
    ty: &TypeRef,
    declarator: &'p Declarator,
) -> Result<(), AllocError>
    ensures trees { OnOk result (map view.declarator list.new.items ≡ map view.declarator list.old.items ++ resolved.declarator (env_of context.now names.old) (type_tree ty.now) (declarator_tree declarator.now) ∷ []) }
    ensures behind { OnOk result (env_of context.now names.new ≡ declare (env_of context.now names.old) (type_tree ty.now) (name_tree declarator.now.name)) }
{
    let declarator = resolve_declarator(context, names, ty, declarator)?;
    list.push(declarator)?;
    Ok(())
}

// Declarators of one type, in order.
fn resolve_declarators<'p>(
    context: &ResolutionContext<'_, 'p>,
    names: &mut LocalNames,
    ty: &TypeRef,
    declarators: &'p [Declarator],
) -> Result<Vec<TypedDeclarator>, AllocError>
    ensures trees { IfOk result (λ v. map view.declarator v.items ≡ resolved.declarators (env_of context.now names.old) (type_tree ty.now) (map declarator_tree declarators.now)) }
    ensures behind { OnOk result (env_of context.now names.new ≡ declare_all (env_of context.now names.old) (type_tree ty.now) (map declarator_tree declarators.now)) }
{
    let mut list = Vec::new(context.within.alloc);
    for declarator in declarators {
        add_declarator(context, names, &mut list, ty, declarator)?;
    }
    Ok(list)
}

/// The declarators of a declaration, after which their names are in scope.
pub(crate) fn resolve_declaration<'p>(
    context: &ResolutionContext<'_, 'p>,
    names: &mut LocalNames,
    declaration: &'p Declaration,
) -> Result<Vec<TypedDeclarator>, AllocError>
    ensures trees { IfOk result (λ v. map view.declarator v.items ≡ resolved.declaration (env_of context.now names.old) (declaration_tree declaration.now)) }
    ensures behind { OnOk result (env_of context.now names.new ≡ after_declaration (env_of context.now names.old) (declaration_tree declaration.now)) }
{
    resolve_declarators(context, names, &declaration.ty, &declaration.declarators)
}
