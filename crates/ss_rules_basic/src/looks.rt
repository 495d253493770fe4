// Reads, and the arguments that name them.

ghost use Rattle.std.specs.Prelude.{◌≡◌, ◌≤◌, ◌^◌, [], ◌∷◌, length};
ghost use Rattle.ss_core.specs.Chain.{most_classes, all_fields};
ghost use Rattle.ss_core.specs.View as view;
ghost use Rattle.ss_store_rules.specs.Changes.{field_class, field_mark, field_type};
ghost use Rattle.ss_logic.specs.Terms.{has_field};
ghost use Rattle.ss_logic.specs.Reads.{look_from, look_of, look_of_one, look_of_two, is_look};
ghost use Rattle.ss_terms.specs.Forms.{Forms, term_at, terms_at, HasTerm, HasTerms, IsBankOf};
ghost use Rattle.ss_rules_basic.specs.Looks.{look_in, HasLook, IsLookOf, fitting};

use crate::natural;
use ss_core::{Classes, FieldId, Mark, Ty};
use ss_logic::Sort;
use ss_terms::{Bank, TermId};

/// A read, without its store.
#[derive(Clone, Copy)]
pub enum Look {
    /// Of this field of an object.
    Field(TermId, u32),
    /// Of an element of this sort, in an array at an index.
    Element(Sort, TermId, TermId),
    /// Of the level of an object.
    Level(TermId),
    /// Of the owner of an object.
    Owner(TermId),
    /// Of the reference that is allocated next.
    Next,
    /// Of whether an object is allocated.
    Allocated(TermId),
    /// Of whether an object is committed.
    Committed(TermId),
    /// Of whether an object is ready.
    Ready(TermId),
    /// Of the length of an array.
    Length(TermId),
}

/// The class that declares a field.
pub fn class_of_field(classes: &Classes, f: u32) -> u16
    requires { length (view.classes classes.now) ≤ most_classes }
    ensures { result ≡ field_class (view.classes classes.now) f }
{
    match classes.field(FieldId(f)) {
        Some((class, _)) => class.0,
        None => 0,
    }
}

/// The mark of a field.
pub fn mark_of_field(classes: &Classes, f: u32) -> Mark
    requires { length (view.classes classes.now) ≤ most_classes }
    ensures { result ≡ field_mark (view.classes classes.now) f }
{
    match classes.field(FieldId(f)) {
        Some((_, field)) => field.mark,
        None => Mark::Plain,
    }
}

/// The type of a field.
pub fn type_of_field(classes: &Classes, f: u32) -> Ty
    requires { length (view.classes classes.now) ≤ most_classes }
    ensures { result ≡ field_type (view.classes classes.now) f }
{
    match classes.field(FieldId(f)) {
        Some((_, field)) => field.ty,
        None => Ty::Int,
    }
}

// Whether the program has the field.
fn is_field(classes: &Classes, f: u32) -> bool
    requires { length (view.classes classes.now) ≤ most_classes }
    ensures { result ≡ has_field (view.classes classes.now) f }
{
    match classes.field(FieldId(f)) {
        Some(_) => true,
        None => false,
    }
}

/// The number of a field, where the program has the field that the literal names.
pub fn field_named(b: &Bank, classes: &Classes, t: TermId) -> Option<u32>
    requires term { HasTerm b.now t }
    requires classes { length (view.classes classes.now) ≤ most_classes }
    requires fields { length (all_fields (view.classes classes.now)) ≤ 2 ^ 32 }
    ensures { result ≡ existing (view.classes classes.now) (natural_of (term_at b.now t)) }
{
    let n = natural(b, t)?;
    let f = u32::try_from(n).ok()?;
    if is_field(classes, f) { Some(f) } else { None }
}

ghost use Rattle.ss_logic.specs.Shapes.{natural_of};
ghost use Rattle.ss_rules_basic.specs.Looks.{existing};

// Whether the program of the bank has the field.
fn is_field_of(b: &Bank, classes: &Classes, f: u32) -> bool
    requires { IsBankOf (view.classes classes.now) b.now }
    ensures { result ≡ has_field (view.classes classes.now) f }
{
    let _ = classes;
    b.is_field(f)
}

// The number of a field, where the program of the bank has the field that the literal names. No class is looked at.
fn field_of_bank(b: &Bank, classes: &Classes, t: TermId) -> Option<u32>
    requires bank { IsBankOf (view.classes classes.now) b.now }
    requires term { HasTerm b.now t }
    requires fields { length (all_fields (view.classes classes.now)) ≤ 2 ^ 32 }
    ensures { result ≡ existing (view.classes classes.now) (natural_of (term_at b.now t)) }
{
    let n = natural(b, t)?;
    let f = u32::try_from(n).ok()?;
    if is_field_of(b, classes, f) {
        Some(f)
    } else {
        None
    }
}

// The read of this number with no argument.
fn bare_look(number: u128) -> Option<Look>
    ensures { (b : Forms) → IsLookOf b result (look_of number []) }
{
    if number == 4 { Some(Look::Next) } else { None }
}

// The read of this number of one object.
fn object_look(number: u128, o: TermId) -> Option<Look>
    ensures { (b : Forms) → HasTerm b o → IsLookOf b result (look_of_one number (term_at b o)) }
{
    if number == 2 {
        Some(Look::Level(o))
    } else if number == 3 {
        Some(Look::Owner(o))
    } else if number == 5 {
        Some(Look::Allocated(o))
    } else if number == 6 {
        Some(Look::Committed(o))
    } else if number == 7 {
        Some(Look::Ready(o))
    } else if number == 8 {
        Some(Look::Length(o))
    } else {
        None
    }
}

// The read of an element of this number.
fn element_look(number: u128, a: TermId, i: TermId) -> Option<Look>
    ensures { (b : Forms) → HasTerm b a → HasTerm b i → IsLookOf b result (element_of number (term_at b a) (term_at b i)) }
{
    if number == 1 {
        Some(Look::Element(Sort::Rest, a, i))
    } else if number == 9 {
        Some(Look::Element(Sort::Whole, a, i))
    } else if number == 10 {
        Some(Look::Element(Sort::Truth, a, i))
    } else {
        None
    }
}

ghost use Rattle.ss_rules_basic.specs.Looks.{element_of};

// Whether the arguments of a read, but for its field, have their sorts.
fn has_sorts(b: &Bank, classes: &Classes, look: Look) -> bool
    requires bank { IsBankOf (view.classes classes.now) b.now }
    requires look { HasLook b.now look }
    ensures { result ≡ look_sorted (view.classes classes.now) (look_in b.now look) }
{
    let _ = classes;
    match look {
        Look::Field(o, _) => b.have_sorts(&[Sort::Rest], &[o]),
        Look::Element(Sort::Store, _, _) => false,
        Look::Element(_, a, i) => b.have_sorts(&[Sort::Rest, Sort::Whole], &[a, i]),
        Look::Level(o) => b.have_sorts(&[Sort::Rest], &[o]),
        Look::Owner(o) => b.have_sorts(&[Sort::Rest], &[o]),
        Look::Next => true,
        Look::Allocated(o) => b.have_sorts(&[Sort::Rest], &[o]),
        Look::Committed(o) => b.have_sorts(&[Sort::Rest], &[o]),
        Look::Ready(o) => b.have_sorts(&[Sort::Rest], &[o]),
        Look::Length(o) => b.have_sorts(&[Sort::Rest], &[o]),
    }
}

ghost use Rattle.ss_rules_basic.specs.Looks.{look_sorted};

// The read of a field or an element.
fn pair_look(b: &Bank, classes: &Classes, number: u128, o: TermId, x: TermId) -> Option<Look>
    requires bank { IsBankOf (view.classes classes.now) b.now }
    requires object { HasTerm b.now o }
    requires other { HasTerm b.now x }
    requires fields { length (all_fields (view.classes classes.now)) ≤ 2 ^ 32 }
    ensures { IsLookOf b.now result (with_field (view.classes classes.now) (look_of_two number (term_at b.now o) (term_at b.now x))) }
{
    if number != 0 {
        return element_look(number, o, x);
    }
    match field_of_bank(b, classes, x) {
        Some(f) => Some(Look::Field(o, f)),
        None => None,
    }
}

ghost use Rattle.ss_rules_basic.specs.Looks.{with_field};

// The read of this number, where the program has its field.
fn numbered_look(b: &Bank, classes: &Classes, number: u128, arguments: &[TermId]) -> Option<Look>
    requires bank { IsBankOf (view.classes classes.now) b.now }
    requires arguments { HasTerms b.now arguments.now }
    requires fields { length (all_fields (view.classes classes.now)) ≤ 2 ^ 32 }
    ensures { IsLookOf b.now result (with_field (view.classes classes.now) (look_of number (terms_at b.now arguments.now))) }
{
    match arguments {
        [] => bare_look(number),
        [o] => object_look(number, *o),
        [o, x] => pair_look(b, classes, number, *o, *x),
        _ => None,
    }
}

/// The read that a literal and the other arguments name, where they have their sorts and the program has the field.
pub fn read_named(b: &Bank, classes: &Classes, kind: TermId, arguments: &[TermId]) -> Option<Look>
    requires bank { IsBankOf (view.classes classes.now) b.now }
    requires kind { HasTerm b.now kind }
    requires arguments { HasTerms b.now arguments.now }
    requires classes { length (view.classes classes.now) ≤ most_classes }
    requires fields { length (all_fields (view.classes classes.now)) ≤ 2 ^ 32 }
    ensures { IsLookOf b.now result (fitting (view.classes classes.now) (look_from (term_at b.now kind) (terms_at b.now arguments.now))) }
{
    let Some(number) = natural(b, kind) else {
        return None;
    };
    let Some(look) = numbered_look(b, classes, number, arguments) else {
        return None;
    };
    if has_sorts(b, classes, look) {
        Some(look)
    } else {
        None
    }
}
