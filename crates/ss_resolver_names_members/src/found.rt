// Faults that are found, one after another.

ghost use Rattle.std.specs.Prelude.{◌≡◌, ◌++◌, OnOk};
ghost use Rattle.ss_ast.specs.Expressions.{type_tree, type_name_tree, name_tree};
ghost use Rattle.ss_tables.specs.Statics.{TheBase, AClass};
ghost use Rattle.ss_resolver_names_rules.specs.Faults.{fault, unless, class_faults, type_name_faults, type_faults};
ghost use Rattle.ss_resolver_names_rules.specs.Prefixes.{pending, called, asked, dotted, unknown_at, member_pending, member_called};
ghost use Rattle.ss_tables_scopes.specs.Views.{scope_of, receiver_of};
ghost use Rattle.ss_resolver_scoping.specs.Views.{prefix_view};
ghost use Rattle.ss_tables_lookup.specs.Classes.{trees};

use ss_ast::{Name, TypeName, TypeRef};
use ss_core::{Place, Rule};
use ss_faults::Fault;
use ss_resolver_scoping::{Prefix, has_member, is_inherited};
use ss_tables_lookup::Tables;
use ss_tables_scopes::{
    ClassContext, Receiver, Scopes, class_of_type, is_known, is_member, is_owner_word, is_print,
    is_state_word,
};
use std::alloc::AllocError;

/// Notes a fault.
pub fn add(faults: &mut Vec<Fault>, rule: Rule, place: Place) -> Result<(), AllocError>
    ensures { OnOk result (faults.new.items ≡ faults.old.items ++ fault rule place) }
{
    faults.push(Fault {
        rule: rule.number(),
        place,
    })?;
    Ok(())
}

/// Notes a fault where something doesn't hold.
pub fn add_unless(
    faults: &mut Vec<Fault>,
    holds: bool,
    rule: Rule,
    place: Place,
) -> Result<(), AllocError>
    ensures { OnOk result (faults.new.items ≡ faults.old.items ++ unless holds (fault rule place)) }
{
    if holds {
        return Ok(());
    }
    add(faults, rule, place)
}

/// A name that is to be that of a class.
pub fn check_class(
    tables: &Tables<'_>,
    faults: &mut Vec<Fault>,
    name: &str,
    place: Place,
) -> Result<(), AllocError>
    ensures { OnOk result (faults.new.items ≡ faults.old.items ++ class_faults (trees tables.now) name.now place) }
{
    add_unless(
        faults,
        tables.class_named(name).is_some(),
        Rule::Unknown,
        place,
    )
}

/// What a type names.
pub fn check_type_name(
    tables: &Tables<'_>,
    faults: &mut Vec<Fault>,
    place: Place,
    name: &TypeName,
) -> Result<(), AllocError>
    ensures { OnOk result (faults.new.items ≡ faults.old.items ++ type_name_faults (trees tables.now) place (type_name_tree name.now)) }
{
    match name {
        TypeName::Class(name) => check_class(tables, faults, name.as_str(), place),
        TypeName::Int | TypeName::Bool | TypeName::Object => Ok(()),
    }
}

/// A written type.
pub fn check_type(
    tables: &Tables<'_>,
    faults: &mut Vec<Fault>,
    ty: &TypeRef,
) -> Result<(), AllocError>
    ensures { OnOk result (faults.new.items ≡ faults.old.items ++ type_faults (trees tables.now) (type_tree ty.now)) }
{
    check_type_name(tables, faults, ty.place, &ty.name)
}

// An unknown name, where one stands there.
fn add_unknown_at(faults: &mut Vec<Fault>, place: Option<Place>) -> Result<(), AllocError>
    ensures { OnOk result (faults.new.items ≡ faults.old.items ++ unknown_at place) }
{
    match place {
        Some(place) => add(faults, Rule::Unknown, place),
        None => Ok(()),
    }
}

// A class before a dot where nothing is called.
fn add_member_pending(
    faults: &mut Vec<Fault>,
    bare: Option<Place>,
    receiver: Receiver,
) -> Result<(), AllocError>
    ensures { OnOk result (faults.new.items ≡ faults.old.items ++ member_pending bare (receiver_of receiver)) }
{
    match receiver {
        Receiver::Class(_) => add_unknown_at(faults, bare),
        Receiver::Console | Receiver::Owner | Receiver::Base | Receiver::Value(_) => Ok(()),
    }
}

/// What an expression has besides where its value is read.
pub fn add_pending(
    context: ClassContext<'_, '_>,
    locals: &Scopes,
    faults: &mut Vec<Fault>,
    prefix: Prefix<'_>,
) -> Result<(), AllocError>
    ensures { OnOk result (faults.new.items ≡ faults.old.items ++ pending (scope_of context.entry locals.now) (prefix_view prefix.entry)) }
{
    match prefix {
        Prefix::Name(place, name) => add_unless(
            faults,
            is_known(context, locals, name.as_str()),
            Rule::Unknown,
            place,
        ),
        Prefix::Member(bare, receiver, _) => add_member_pending(faults, bare, receiver),
        Prefix::Base | Prefix::Value(_) => Ok(()),
    }
}

// A method after `base`.
fn add_base_called(
    context: ClassContext<'_, '_>,
    locals: &Scopes,
    faults: &mut Vec<Fault>,
    bare: Option<Place>,
    name: &Name,
) -> Result<(), AllocError>
    ensures { OnOk result (faults.new.items ≡ faults.old.items ++ member_called (scope_of context.entry locals.now) bare (name_tree name.now) TheBase) }
{
    let text = name.text.as_str();
    let known = is_state_word(text) || is_inherited(context.tables, context.class, text);
    add_unless(faults, known, Rule::Unknown, name.place)
}

// A method after a class.
fn add_class_called(
    context: ClassContext<'_, '_>,
    locals: &Scopes,
    faults: &mut Vec<Fault>,
    bare: Option<Place>,
    class: usize,
    name: &Name,
) -> Result<(), AllocError>
    ensures { OnOk result (faults.new.items ≡ faults.old.items ++ member_called (scope_of context.entry locals.now) bare (name_tree name.now) (AClass class)) }
{
    if is_state_word(name.text.as_str()) {
        return add_unknown_at(faults, bare);
    }
    add_unless(
        faults,
        is_member(context.tables, class, name.text.as_str()),
        Rule::Unknown,
        name.place,
    )
}

/// What an expression has besides where it is called.
pub fn add_called(
    context: ClassContext<'_, '_>,
    locals: &Scopes,
    faults: &mut Vec<Fault>,
    prefix: Prefix<'_>,
) -> Result<(), AllocError>
    ensures { OnOk result (faults.new.items ≡ faults.old.items ++ called (scope_of context.entry locals.now) (prefix_view prefix.entry)) }
{
    match prefix {
        Prefix::Name(place, name) => add_unless(
            faults,
            is_known(context, locals, name.as_str()),
            Rule::Unknown,
            place,
        ),
        Prefix::Member(bare, Receiver::Class(class), name) => {
            add_class_called(context, locals, faults, bare, class, name)
        }
        Prefix::Member(bare, Receiver::Base, name) => {
            add_base_called(context, locals, faults, bare, name)
        }
        Prefix::Member(_, Receiver::Console | Receiver::Owner | Receiver::Value(_), _)
        | Prefix::Base
        | Prefix::Value(_) => Ok(()),
    }
}

/// What an expression has besides where it is to be the name of a class.
pub fn add_asked(
    context: ClassContext<'_, '_>,
    locals: &Scopes,
    faults: &mut Vec<Fault>,
    prefix: Prefix<'_>,
) -> Result<(), AllocError>
    ensures { OnOk result (faults.new.items ≡ faults.old.items ++ asked (scope_of context.entry locals.now) (prefix_view prefix.entry)) }
{
    match prefix {
        Prefix::Name(place, name) => check_class(context.tables, faults, name.as_str(), place),
        Prefix::Member(bare, receiver, _) => add_member_pending(faults, bare, receiver),
        Prefix::Base | Prefix::Value(_) => Ok(()),
    }
}

/// What an expression has besides where a dot and a name stand after it.
pub fn add_dotted(
    context: ClassContext<'_, '_>,
    locals: &Scopes,
    faults: &mut Vec<Fault>,
    prefix: Prefix<'_>,
    receiver: Receiver,
    name: &Name,
) -> Result<(), AllocError>
    ensures { OnOk result (faults.new.items ≡ faults.old.items ++ dotted (scope_of context.entry locals.now) (prefix_view prefix.entry) (name_tree name.now) (receiver_of receiver)) }
{
    let text = name.text.as_str();
    match receiver {
        Receiver::Console => add_unless(faults, is_print(text), Rule::Unknown, name.place),
        Receiver::Owner => add_unless(faults, is_owner_word(text), Rule::Unknown, name.place),
        Receiver::Base | Receiver::Class(_) => Ok(()),
        Receiver::Value(ty) => {
            add_pending(context, locals, faults, prefix)?;
            let known = is_state_word(text) || has_member(context.tables, text, class_of_type(ty));
            add_unless(faults, known, Rule::Unknown, name.place)
        }
    }
}
