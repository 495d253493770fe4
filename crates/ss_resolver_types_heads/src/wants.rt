// What is wanted where an expression stands.

ghost use Rattle.std.specs.Prelude.{◌≡◌, ◌++◌, OnOk, length, option_map};
ghost use Rattle.ss_tables.specs.Classes.{chain_from};
ghost use Rattle.ss_tables_lookup.specs.Classes.{trees};
ghost use Rattle.ss_tables_lookup.specs.Views.{type_of};
ghost use Rattle.ss_resolver_types_heads.specs.Faults.{bad_type, call_in_condition, no_return, fault_where};
ghost use Rattle.ss_resolver_types_heads.specs.Wants.{is_below, is_int, is_bool, is_reference, is_array, is_object_of, is_declared, may_stand_for, are_alike, suits, is_unsuited, misfit, in_chain, is_null, stands_above};
ghost use Rattle.ss_resolver_types_heads.specs.Codes.{want_of, known_of};

use ss_core::{Place, Rule};
use ss_faults::Fault;
use ss_tables_lookup::{StaticType, Tables, class_of, declared_place, is_array_number};
use std::alloc::AllocError;

/// What is wanted of an expression.
#[derive(Clone, Copy)]
pub enum Want {
    AnInt,
    ABool,
    AReference,
    AnArray,
    AnyValue,
    /// A value of the type; `None` where it isn't known.
    OfType(Option<StaticType>),
    /// A number, a truth value, or a string.
    Printable,
    /// An object of a declared class.
    OfDeclared,
    /// An object of the class with this number, or of one below.
    OfClass(usize),
    /// The name of a class.
    ClassName,
}

/// What is known of an expression: its place, its static type, and whether it is a call without a result.
#[derive(Clone, Copy)]
pub struct Known {
    pub place: Place,
    pub ty: Option<StaticType>,
    pub is_nothing: bool,
}

// Whether the class at this place is among these and those above them.
fn is_in_chain(tables: &Tables<'_>, start: Option<usize>, place: usize) -> bool
    ensures { result ≡ in_chain place (chain_from (trees tables.now) (length (trees tables.now)) start) }
{
    let mut next = start;
    for step in 0..tables.len() {
        let Some(class) = next else {
            return false;
        };
        if class == place {
            return true;
        }
        next = tables.above(class);
    }
    false
}

// Whether a class is `d` or stands below it.
fn is_below(tables: &Tables<'_>, c: usize, d: usize) -> bool
    ensures { result ≡ is_below (trees tables.now) c d }
{
    d == 0 || c == d || stands_above(tables, declared_place(d), declared_place(c))
}

// Whether the declared class at the first place is the one at the second or stands above it.
fn stands_above(tables: &Tables<'_>, above: Option<usize>, below: Option<usize>) -> bool
    ensures { result ≡ stands_above (trees tables.now) above below }
{
    let Some(place) = above else {
        return false;
    };
    match below {
        Some(class) => is_in_chain(tables, Some(class), place),
        None => false,
    }
}

fn is_int(ty: StaticType) -> bool
    ensures { result ≡ is_int (type_of ty) }
{
    match ty {
        StaticType::Int => true,
        StaticType::Bool | StaticType::Null | StaticType::Ref { .. } => false,
    }
}

fn is_bool(ty: StaticType) -> bool
    ensures { result ≡ is_bool (type_of ty) }
{
    match ty {
        StaticType::Bool => true,
        StaticType::Int | StaticType::Null | StaticType::Ref { .. } => false,
    }
}

fn is_reference(ty: StaticType) -> bool
    ensures { result ≡ is_reference (type_of ty) }
{
    match ty {
        StaticType::Null | StaticType::Ref { .. } => true,
        StaticType::Int | StaticType::Bool => false,
    }
}

fn is_null(ty: StaticType) -> bool
    ensures { result ≡ is_null (type_of ty) }
{
    match ty {
        StaticType::Null => true,
        StaticType::Int | StaticType::Bool | StaticType::Ref { .. } => false,
    }
}

fn is_array(ty: StaticType) -> bool
    ensures { result ≡ is_array (type_of ty) }
{
    match ty {
        StaticType::Ref { class, .. } => is_array_number(class),
        StaticType::Int | StaticType::Bool | StaticType::Null => false,
    }
}

// Whether it is of the class with this number, or of one below.
fn is_object_of(tables: &Tables<'_>, d: usize, ty: StaticType) -> bool
    ensures { result ≡ is_object_of (trees tables.now) d (type_of ty) }
{
    match ty {
        StaticType::Ref { class, .. } => is_below(tables, class, d),
        StaticType::Int | StaticType::Bool | StaticType::Null => false,
    }
}

fn is_declared(ty: StaticType) -> bool
    ensures { result ≡ is_declared (type_of ty) }
{
    match class_of(ty) {
        Some(class) => declared_place(class).is_some(),
        None => false,
    }
}

// Whether a value of the first type may stand where one of the second is wanted.
fn may_stand_for(tables: &Tables<'_>, ty: StaticType, wanted: StaticType) -> bool
    ensures { result ≡ may_stand_for (trees tables.now) (type_of ty) (type_of wanted) }
{
    match wanted {
        StaticType::Int => is_int(ty),
        StaticType::Bool => is_bool(ty),
        StaticType::Null => is_reference(ty),
        StaticType::Ref { class, .. } => is_object_of(tables, class, ty) || is_null(ty),
    }
}

/// Whether both are numbers, both truth values, or both references.
pub fn are_alike(one: StaticType, other: StaticType) -> bool
    ensures { result ≡ are_alike (type_of one) (type_of other) }
{
    (is_int(one) && is_int(other))
        || (is_bool(one) && is_bool(other))
        || (is_reference(one) && is_reference(other))
}

fn suits(tables: &Tables<'_>, want: Want, ty: StaticType) -> bool
    ensures { result ≡ suits (trees tables.now) (want_of want) (type_of ty) }
{
    match want {
        Want::AnInt => is_int(ty),
        Want::ABool => is_bool(ty),
        Want::AReference => is_reference(ty),
        Want::AnArray => is_array(ty),
        Want::AnyValue => true,
        Want::OfType(None) => true,
        Want::OfType(Some(wanted)) => may_stand_for(tables, ty, wanted),
        Want::Printable => is_int(ty) || is_bool(ty),
        Want::OfDeclared => is_declared(ty),
        Want::OfClass(class) => is_object_of(tables, class, ty),
        Want::ClassName => false,
    }
}

fn is_unsuited(tables: &Tables<'_>, want: Want, ty: Option<StaticType>) -> bool
    ensures { result ≡ is_unsuited (trees tables.now) (want_of want) (option_map type_of ty) }
{
    match ty {
        Some(ty) => !suits(tables, want, ty),
        None => false,
    }
}

/// Notes something of another type or form than is wanted there.
pub fn note_bad_type(
    faults: &mut Vec<Fault>,
    is_fault: bool,
    place: Place,
) -> Result<(), AllocError>
    ensures { OnOk result (faults.new.items ≡ faults.old.items ++ fault_where is_fault (bad_type place)) }
{
    if !is_fault {
        return Ok(());
    }
    faults.push(Fault {
        rule: Rule::BadType.number(),
        place,
    })?;
    Ok(())
}

/// Notes a call in a condition.
pub fn note_call(faults: &mut Vec<Fault>, is_fault: bool, place: Place) -> Result<(), AllocError>
    ensures { OnOk result (faults.new.items ≡ faults.old.items ++ fault_where is_fault (call_in_condition place)) }
{
    if !is_fault {
        return Ok(());
    }
    faults.push(Fault {
        rule: Rule::CallInCondition.number(),
        place,
    })?;
    Ok(())
}

/// Notes an end that can be reached.
pub fn note_end(faults: &mut Vec<Fault>, is_fault: bool, place: Place) -> Result<(), AllocError>
    ensures { OnOk result (faults.new.items ≡ faults.old.items ++ fault_where is_fault (no_return place)) }
{
    if !is_fault {
        return Ok(());
    }
    faults.push(Fault {
        rule: Rule::NoReturn.number(),
        place,
    })?;
    Ok(())
}

/// Notes an expression that isn't what is wanted where it stands.
pub fn note_misfit(
    tables: &Tables<'_>,
    faults: &mut Vec<Fault>,
    want: Want,
    known: Known,
) -> Result<(), AllocError>
    ensures { OnOk result (faults.new.items ≡ faults.old.items ++ misfit (trees tables.now) (want_of want) (known_of known)) }
{
    let is_fault = known.is_nothing || is_unsuited(tables, want, known.ty);
    note_bad_type(faults, is_fault, known.place)
}
