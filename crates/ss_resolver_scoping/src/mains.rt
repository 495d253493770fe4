// The methods with which a program may begin.

ghost use Rattle.std.specs.Prelude.{◌≡◌, map};
ghost use Rattle.ss_ast.specs.Expressions.{IntType, type_name_tree};
ghost use Rattle.ss_ast.specs.Programs.{param_tree};
ghost use Rattle.ss_tables_lookup.specs.Views.{method_tree};
ghost use Rattle.ss_resolver_names_rules.specs.Members.{same_type_name};
ghost use Rattle.ss_resolver_names_rules.specs.Programs.{takes_input, is_main};

use ss_ast::{Param, TypeName};
use ss_tables_lookup::MethodRef;
use ss_tables_scopes::is_static;

/// Whether a type is `int`.
pub fn is_int(name: &TypeName) -> bool
    ensures { result ≡ same_type_name IntType (type_name_tree name.now) }
{
    match name {
        TypeName::Int => true,
        TypeName::Bool | TypeName::Object | TypeName::Class(_) => false,
    }
}

fn takes_input(params: &[Param]) -> bool
    ensures { result ≡ takes_input (map param_tree params.now) }
{
    match params {
        [] => true,
        [only] => only.ty.is_array && is_int(&only.ty.name),
        [_, _, ..] => false,
    }
}

/// Whether a program begins with this method.
pub fn is_main(method: MethodRef<'_>) -> bool
    ensures { result ≡ is_main (method_tree method.entry) }
{
    method.method.name.text.as_str() == "Main"
        && is_static(method)
        && method.method.returns.is_none()
        && takes_input(&method.method.params)
}
