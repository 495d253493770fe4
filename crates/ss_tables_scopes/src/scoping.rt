// Declarations put into scope.

ghost use Rattle.std.specs.Prelude.{◌≡◌, true, map, OnOk, option_map};
ghost use Rattle.ss_ast.specs.Expressions.{name_tree, type_tree};
ghost use Rattle.ss_ast.specs.Statements.{declarator_tree, declaration_tree, for_init_tree};
ghost use Rattle.ss_ast.specs.Programs.{param_tree};
ghost use Rattle.ss_tables.specs.Scopes.{declare_local, declare_all, after_declaration, after_init, declare, declare_params};
ghost use Rattle.ss_tables.specs.Types.{written_type};
ghost use Rattle.ss_tables_lookup.specs.Classes.{trees};
ghost use Rattle.ss_tables_scopes.specs.Views.{scope_of};

use crate::class_context::ClassContext;
use crate::local::{LocalInfo, Scopes};
use ss_ast::{Declaration, Declarator, ForInit, Name, Param, TypeRef};
use std::alloc::AllocError;

/// Declares a local of a written type.
pub fn declare_local(
    context: ClassContext<'_, '_>,
    locals: &mut Scopes,
    ty: &TypeRef,
    name: &Name,
) -> Result<(), AllocError>
    ensures declared { OnOk result (scope_of context.entry locals.new ≡ declare_local (scope_of context.entry locals.old) (type_tree ty.now) (name_tree name.now)) }
    ensures around { OnOk result (locals.new.outer ≡ locals.old.outer) }
{
    let local = LocalInfo {
        ty: context.tables.written_type(ty),
        is_param: false,
    };
    locals.declare(context.alloc, name.text.as_str(), local)
}

/// Declares a parameter.
pub fn declare_param(
    context: ClassContext<'_, '_>,
    locals: &mut Scopes,
    param: &Param,
) -> Result<(), AllocError>
    ensures { OnOk result (scope_of context.entry locals.new
        ≡ declare (scope_of context.entry locals.old) (param_tree param.now).name.text (record { ty = written_type (trees context.entry.tables.now) (param_tree param.now).ty; is_param = true })) }
{
    let local = LocalInfo {
        ty: context.tables.written_type(&param.ty),
        is_param: true,
    };
    locals.declare(context.alloc, param.name.text.as_str(), local)
}

/// Declares parameters.
pub fn declare_params(
    context: ClassContext<'_, '_>,
    locals: &mut Scopes,
    params: &[Param],
) -> Result<(), AllocError>
    ensures { OnOk result (scope_of context.entry locals.new ≡ declare_params (scope_of context.entry locals.old) (map param_tree params.now)) }
{
    for param in params {
        declare_param(context, locals, param)?;
    }
    Ok(())
}

fn declare_all(
    context: ClassContext<'_, '_>,
    locals: &mut Scopes,
    ty: &TypeRef,
    declarators: &[Declarator],
) -> Result<(), AllocError>
    ensures declared { OnOk result (scope_of context.entry locals.new ≡ declare_all (scope_of context.entry locals.old) (type_tree ty.now) (map declarator_tree declarators.now)) }
    ensures around { OnOk result (locals.new.outer ≡ locals.old.outer) }
{
    for declarator in declarators {
        declare_local(context, locals, ty, &declarator.name)?;
    }
    Ok(())
}

/// Declares the locals of a declaration.
pub fn declare_declaration(
    context: ClassContext<'_, '_>,
    locals: &mut Scopes,
    declaration: &Declaration,
) -> Result<(), AllocError>
    ensures declared { OnOk result (scope_of context.entry locals.new ≡ after_declaration (scope_of context.entry locals.old) (declaration_tree declaration.now)) }
    ensures around { OnOk result (locals.new.outer ≡ locals.old.outer) }
{
    declare_all(context, locals, &declaration.ty, &declaration.declarators)
}

/// Declares what a `for` begins with.
pub fn declare_init(
    context: ClassContext<'_, '_>,
    locals: &mut Scopes,
    init: &Option<ForInit>,
) -> Result<(), AllocError>
    ensures declared { OnOk result (scope_of context.entry locals.new ≡ after_init (scope_of context.entry locals.old) (option_map for_init_tree init.now)) }
    ensures around { OnOk result (locals.new.outer ≡ locals.old.outer) }
{
    match init {
        Some(ForInit::Declare(declaration)) => { declare_declaration(context, locals, declaration) }
        Some(ForInit::Simple(_)) | None => Ok(()),
    }
}
