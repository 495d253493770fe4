// Arguments, and the types that are wanted of them.

ghost use Rattle.std.specs.Prelude.{◌≡◌};
ghost use Rattle.ss_typed.specs.Tree.{arguments};
ghost use Rattle.ss_typed.specs.View as typed;
ghost use Rattle.ss_expand_rules.specs.Calls as calls;
ghost use Rattle.ss_expand_rules.specs.Lifting as lifting;
ghost use Rattle.ss_expand_expressions.specs.Parameters.{param_types};

use crate::calls::has_call;
use crate::types::any_object;
use ss_core::Ty;
use ss_typed::{TypedExpr, TypedParam};

/// Whether a call or a `new` stands in one of them.
pub fn have_call(es: &[TypedExpr]) -> bool
    ensures { result ≡ calls.have_call (arguments (typed.exprs es.now)) }
{
    for e in es {
        if has_call(e) {
            return true;
        }
    }
    false
}

/// The type that is wanted of the first argument.
pub fn first_type(params: &[TypedParam]) -> Ty
    ensures { result ≡ lifting.first_type (param_types params.now) }
{
    match params {
        [first, ..] => first.ty,
        [] => any_object(),
    }
}

/// The parameters of the others.
pub fn other_params(params: &[TypedParam]) -> &[TypedParam]
    ensures { param_types result.now ≡ lifting.other_types (param_types params.now) }
{
    match params {
        [_, others @ ..] => others,
        [] => params,
    }
}
