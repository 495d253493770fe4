// What is known of the beginning of a path.

ghost use Rattle.std.specs.Prelude.{◌≡◌, option_map};
ghost use Rattle.ss_tables_lookup.specs.Classes.{trees};
ghost use Rattle.ss_tables_lookup.specs.Views.{type_of};
ghost use Rattle.ss_tables_scopes.specs.Views.{scope_of, receiver_of, callee_of};
ghost use Rattle.ss_resolver_names_rules.specs.Expressions.{has_member, declares, is_inherited, asked_class};
ghost use Rattle.ss_resolver_names_rules.specs.Prefixes.{prefix_value, prefix_receiver, prefix_callee, prefix_asked, bare_place};
ghost use Rattle.ss_resolver_scoping.specs.Views.{prefix_view};

use ss_ast::Name;
use ss_core::Place;
use ss_tables_lookup::{StaticType, Tables, declared_place, is_array_number};
use ss_tables_scopes::{
    Callee, ClassContext, Receiver, Scopes, is_length, is_member, is_state_call, member_callee,
    name_callee, name_receiver, name_type, read_type,
};

/// An expression before what may stand after it.
#[derive(Clone, Copy)]
pub enum Prefix<'p> {
    /// A bare name.
    Name(Place, &'p String),
    /// The word `base`.
    Base,
    /// A member after a dot, with the place of the bare name before it where one stands there.
    Member(Option<Place>, Receiver, &'p Name),
    /// Any other expression, with its static type.
    Value(Option<StaticType>),
}

/// Whether the class has a field or a method of the name from above.
pub fn is_inherited(tables: &Tables<'_>, class: usize, name: &str) -> bool
    ensures { result ≡ is_inherited (trees tables.now) class name.now }
{
    tables.inherited_field(class, name).is_some() || tables.inherited_method(class, name).is_some()
}

fn declares(tables: &Tables<'_>, name: &str, class: Option<usize>) -> bool
    ensures { result ≡ declares (trees tables.now) name.now class }
{
    match class {
        Some(class) => is_member(tables, class, name),
        None => false,
    }
}

/// Whether a member of the name is known on a value of the class with this number, or nothing is known of its class.
pub fn has_member(tables: &Tables<'_>, name: &str, class: Option<usize>) -> bool
    ensures { result ≡ has_member (trees tables.now) name.now class }
{
    let Some(number) = class else {
        return true;
    };
    if is_array_number(number) {
        return is_length(name);
    }
    declares(tables, name, declared_place(number))
}

/// The static type of an expression.
pub fn prefix_value(
    context: ClassContext<'_, '_>,
    locals: &Scopes,
    prefix: Prefix<'_>,
) -> Option<StaticType>
    ensures { option_map type_of result ≡ prefix_value (scope_of context.entry locals.now) (prefix_view prefix.entry) }
{
    match prefix {
        Prefix::Name(_, name) => name_type(context, locals, name.as_str()),
        Prefix::Base => None,
        Prefix::Member(_, receiver, name) => {
            read_type(context.tables, name.text.as_str(), receiver)
        }
        Prefix::Value(ty) => ty,
    }
}

/// What an expression is before a dot.
pub fn prefix_receiver(
    context: ClassContext<'_, '_>,
    locals: &Scopes,
    prefix: Prefix<'_>,
) -> Receiver
    ensures { receiver_of result ≡ prefix_receiver (scope_of context.entry locals.now) (prefix_view prefix.entry) }
{
    match prefix {
        Prefix::Name(_, name) => {
            let ty = name_type(context, locals, name.as_str());
            name_receiver(context, locals, name.as_str(), ty)
        }
        Prefix::Base => Receiver::Base,
        Prefix::Member(_, receiver, name) => {
            Receiver::Value(read_type(context.tables, name.text.as_str(), receiver))
        }
        Prefix::Value(ty) => Receiver::Value(ty),
    }
}

/// What a call of an expression calls.
pub fn prefix_callee<'p>(
    context: ClassContext<'_, 'p>,
    locals: &Scopes,
    prefix: Prefix<'_>,
) -> Callee<'p>
    ensures { callee_of result ≡ prefix_callee (scope_of context.entry locals.now) (prefix_view prefix.entry) }
{
    match prefix {
        Prefix::Name(_, name) => name_callee(context, locals, name.as_str()),
        Prefix::Base => Callee::Base,
        Prefix::Member(_, receiver, name) => member_callee(context, name.text.as_str(), receiver),
        Prefix::Value(_) => Callee::Nothing,
    }
}

// Which argument of a question after a dot names a class.
fn asked_class(name: &str, receiver: Receiver) -> Option<usize>
    ensures { result ≡ asked_class name.now (receiver_of receiver) }
{
    match receiver {
        Receiver::Console => None,
        Receiver::Owner => { if name == "Is" { Some(2) } else { None } }
        Receiver::Base | Receiver::Class(_) | Receiver::Value(_) => {
            if is_state_call(name) { Some(0) } else { None }
        }
    }
}

/// Which argument of a call of the expression names a class, counted from 0.
pub fn prefix_asked(prefix: Prefix<'_>) -> Option<usize>
    ensures { result ≡ prefix_asked (prefix_view prefix.entry) }
{
    match prefix {
        Prefix::Member(_, receiver, name) => asked_class(name.text.as_str(), receiver),
        Prefix::Name(..) | Prefix::Base | Prefix::Value(_) => None,
    }
}

/// The place of a bare name.
pub fn bare_place(prefix: Prefix<'_>) -> Option<Place>
    ensures { result ≡ bare_place (prefix_view prefix.entry) }
{
    match prefix {
        Prefix::Name(place, _) => Some(place),
        Prefix::Base | Prefix::Member(..) | Prefix::Value(_) => None,
    }
}
