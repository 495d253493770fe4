// What one term of a `modifies` clause names.
ghost use Rattle.std.specs.Prelude.{◌≡◌, ◌≤◌, length, option_to_list};
ghost use Rattle.std.specs.List.{list_any};
ghost use Rattle.ss_core.specs.View as view;
ghost use Rattle.ss_core.specs.Chain.{most_classes};
ghost use Rattle.ss_store_rules.specs.Changes.{field_class};
ghost use Rattle.ss_machine_rules.specs.Frame as frame;

use ss_core::{ClassId, Classes, Expr, FieldId, Modifies};
use ss_machine_rules::Named;
use ss_store_rules::Value;

/// The expression whose object the term speaks of.
pub(crate) fn subject_of(term: &Modifies) -> &Expr
    ensures { view.expr result.now ≡ frame.subject_of (view.named_of term.now) }
{
    match term {
        Modifies::Field(e, _) => e,
        Modifies::All(e) => e,
        Modifies::Elements(e) => e,
        Modifies::Upto(e, _) => e,
    }
}

fn named_of(term: &Modifies, o: u32) -> Named
    ensures { result ≡ frame.named_of (view.named_of term.now) o }
{
    match term {
        Modifies::Field(_, f) => Named::Field(o, *f),
        Modifies::All(_) => Named::All(o),
        Modifies::Elements(_) => Named::Elements(o),
        Modifies::Upto(_, t) => Named::Upto(o, *t),
    }
}

/// What the term names, where its expression has this value.
pub(crate) fn named_by(term: &Modifies, value: Value) -> Option<Named>
    ensures { option_to_list result ≡ frame.named_by (view.named_of term.now) value }
{
    match value {
        Value::Obj(o) => Some(named_of(term, o)),
        _ => None,
    }
}

/// The class that declares the field.
fn field_class(k: &Classes, f: FieldId) -> ClassId
    requires { length (view.classes k.now) ≤ most_classes }
    ensures { result.0 ≡ field_class (view.classes k.now) f.0 }
{
    match k.field(f) {
        Some((t, _)) => t,
        None => ClassId(0),
    }
}

fn names_field(k: &Classes, o: u32, f: FieldId, named: Named) -> bool
    requires { length (view.classes k.now) ≤ most_classes }
    ensures { result ≡ frame.names_field (view.classes k.now) o f.0 named }
{
    match named {
        Named::Field(q, g) => q == o && g == f,
        Named::All(q) => q == o,
        Named::Elements(_) => false,
        Named::Upto(q, t) => q == o && k.is_level(t, field_class(k, f)),
    }
}

fn names_elements(o: u32, named: Named) -> bool
    ensures { result ≡ frame.names_elements o named }
{
    match named {
        Named::Elements(q) => q == o,
        _ => false,
    }
}

fn names_level(o: u32, named: Named) -> bool
    ensures { result ≡ frame.names_level o named }
{
    match named {
        Named::All(q) => q == o,
        Named::Upto(q, _) => q == o,
        _ => false,
    }
}

pub(crate) fn any_names_field(k: &Classes, named: &[Named], o: u32, f: FieldId) -> bool
    requires { length (view.classes k.now) ≤ most_classes }
    ensures { result ≡ list_any (frame.names_field (view.classes k.now) o f.0) named.now }
{
    named.iter().any(|n| names_field(k, o, f, *n))
}

pub(crate) fn any_names_elements(named: &[Named], o: u32) -> bool
    ensures { result ≡ list_any (frame.names_elements o) named.now }
{
    named.iter().any(|n| names_elements(o, *n))
}

pub(crate) fn any_names_level(named: &[Named], o: u32) -> bool
    ensures { result ≡ list_any (frame.names_level o) named.now }
{
    named.iter().any(|n| names_level(o, *n))
}
