// The names of classes, methods and bodies.

ghost use Rattle.std.specs.Prelude.{◌≡◌, ◌++◌, OnOk, map, slice_get};
ghost use Rattle.ss_core.specs.View as view;
ghost use Rattle.ss_report_names.specs.Names as names;
ghost use Rattle.ss_report_names.specs.Tables.{texts};

use ss_core::{Body, BodyId, ClassId, Classes, Ty};
use std::alloc::AllocError;

/// The name of this number, or nothing where there is none.
pub(crate) fn name_at<'a>(table: &[&'a str], k: usize) -> &'a [u8]
    ensures { result.now ≡ names.or_nothing (slice_get (texts table.now) k) }
{
    match table.get(k) {
        Some(name) => name.as_bytes(),
        None => b"",
    }
}

fn declared_name(classes: &Classes, t: ClassId) -> &[u8]
    ensures { result.now ≡ names.declared_name (view.classes classes.now) t.0 }
{
    match classes.declared(t) {
        Some(class) => class.name.as_bytes(),
        None => b"",
    }
}

fn plain_name(classes: &Classes, t: ClassId) -> &[u8]
    ensures { result.now ≡ names.plain_name (view.classes classes.now) t.0 }
{
    if t.0 == 0 {
        return b"object";
    }
    declared_name(classes, t)
}

fn element_name(classes: &Classes, t: ClassId) -> &[u8]
    ensures { result.now ≡ names.element_name (view.classes classes.now) t.0 }
{
    match t.element_type() {
        Ty::Int => b"int",
        Ty::Bool => b"bool",
        Ty::Null => b"",
        Ty::Ref { class, .. } => plain_name(classes, class),
    }
}

/// What the elements of an array are.
pub fn push_element(out: &mut Vec<u8>, classes: &Classes, t: ClassId) -> Result<(), AllocError>
    ensures { OnOk result (out.new.items ≡ out.old.items ++ names.element_name (view.classes classes.now) t.0) }
{
    out.extend_from_slice(element_name(classes, t))
}

/// Writes the name of a class.
pub fn push_class(out: &mut Vec<u8>, classes: &Classes, t: ClassId) -> Result<(), AllocError>
    ensures { OnOk result (out.new.items ≡ out.old.items ++ names.class_name (view.classes classes.now) t.0) }
{
    if t.is_array() {
        push_element(out, classes, t)?;
        return out.extend_from_slice(b"[]");
    }
    out.extend_from_slice(plain_name(classes, t))
}

/// The method at a place of a class's table.
pub fn method_name(classes: &Classes, t: ClassId, m: usize) -> &[u8]
    ensures { result.now ≡ names.method_name (view.classes classes.now) t.0 m }
{
    let Some(class) = classes.declared(t) else {
        return b"";
    };
    match class.table.get(m) {
        Some(entry) => entry.name.as_bytes(),
        None => b"",
    }
}

/// The name of a body; nothing where there is none.
pub fn body_name(bodies: &[Body], n: BodyId) -> &[u8]
    ensures { result.now ≡ names.name_of_body (slice_get (map view.body bodies.now) n.0) }
{
    match bodies.get(n.0 as usize) {
        Some(body) => body.name.as_bytes(),
        None => b"",
    }
}

/// The class and the name of a body.
pub fn push_title(out: &mut Vec<u8>, classes: &Classes, body: &Body) -> Result<(), AllocError>
    ensures { OnOk result (out.new.items ≡ out.old.items ++ names.title (view.classes classes.now) (view.body body.now)) }
{
    push_class(out, classes, body.class)?;
    out.extend_from_slice(b".")?;
    out.extend_from_slice(body.name.as_bytes())
}

/// The class and the name of the body of this number.
pub fn push_title_of(
    out: &mut Vec<u8>,
    classes: &Classes,
    bodies: &[Body],
    n: BodyId,
) -> Result<(), AllocError>
    ensures { OnOk result (out.new.items ≡ out.old.items ++ names.title_of_body (view.classes classes.now) (slice_get (map view.body bodies.now) n.0)) }
{
    match bodies.get(n.0 as usize) {
        Some(body) => push_title(out, classes, body),
        None => Ok(()),
    }
}
