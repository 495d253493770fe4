// What a body names and captures, by the values at its entry.
ghost use Rattle.std.specs.Prelude.{◌≡◌, ◌≤◌, length, map, drop, flat_map, option_to_list, IfOk};
ghost use Rattle.ss_core.specs.View as view;
ghost use Rattle.ss_core.specs.Chain.{most_classes};
ghost use Rattle.ss_store_rules.specs.Values.{setting, at_entry, value_of};
ghost use Rattle.ss_store_rules.specs.Locals.{this_types};
ghost use Rattle.ss_machine_rules.specs.Frame as frame;

use crate::entry::Entry;
use crate::terms::{named_by, subject_of};
use ss_core::{Body, Core, Expr, Local, Modifies};
use ss_machine_rules::Named;
use ss_store::Store;
use ss_store_rules::Value;
use std::alloc::{AllocError, Global};

/// The value of an expression as it was at the entry; one that is undefined counts as null.
fn value_at_entry(c: &Core, now: &Store, entry: &Entry<'_>, e: &Expr, locals: &[Value]) -> Value
    requires { length (view.classes c.now.classes) ≤ most_classes }
    ensures { result ≡ frame.defined_value (value_of (view.expr e.now) (at_entry (setting (view.classes c.now.classes) now.now.objects entry.now locals.now))) }
{
    match now.eval_at_entry(c, entry, e, locals) {
        Ok(value) => value,
        Err(_) => Value::Null,
    }
}

/// What the term names.
fn named_at_entry(
    c: &Core,
    now: &Store,
    entry: &Entry<'_>,
    term: &Modifies,
    locals: &[Value],
) -> Option<Named>
    requires { length (view.classes c.now.classes) ≤ most_classes }
    ensures { option_to_list result ≡ frame.named_by (view.named_of term.now) (frame.defined_value (value_of (frame.subject_of (view.named_of term.now)) (at_entry (setting (view.classes c.now.classes) now.now.objects entry.now locals.now)))) }
{
    named_by(
        term,
        value_at_entry(c, now, entry, subject_of(term), locals),
    )
}

/// What the terms of a `modifies` clause name.
pub(crate) fn all_named(
    alloc: Global,
    c: &Core,
    now: &Store,
    entry: &Entry<'_>,
    terms: &[Modifies],
    locals: &[Value],
) -> Result<Vec<Named>, AllocError>
    requires { length (view.classes c.now.classes) ≤ most_classes }
    ensures { IfOk result (λ v. v.items ≡ flat_map (λ n. frame.named_by n (frame.defined_value (value_of (frame.subject_of n) (at_entry (setting (view.classes c.now.classes) now.now.objects entry.now locals.now))))) (map view.named_of terms.now)) }
{
    let mut all = Vec::new(alloc);
    for term in terms {
        if let Some(named) = named_at_entry(c, now, entry, term, locals) {
            all.push(named)?;
        }
    }
    Ok(all)
}

/// How many locals stand before the parameters.
fn first_parameter(body: &Body) -> usize
    ensures { result ≡ length (this_types (view.body body.now)) }
{
    if body.flags.is_static { 0 } else { 1 }
}

/// The values from this number on.
fn values_from(values: &[Value], first: usize) -> &[Value]
    ensures { result.now ≡ drop first values.now }
{
    if first <= values.len() {
        &values[first..]
    } else {
        &[]
    }
}

/// The values of those parameters that are captured.
fn captured_among(
    alloc: Global,
    params: &[Local],
    values: &[Value],
) -> Result<Vec<Value>, AllocError>
    ensures { IfOk result (λ v. v.items ≡ frame.captured_among (map view.local_of params.now) values.now) }
{
    let mut captured = Vec::new(alloc);
    for (i, param) in params.iter().enumerate() {
        if i >= values.len() {
            return Ok(captured);
        }
        if param.captured {
            captured.push(values[i])?;
        }
    }
    Ok(captured)
}

/// The values of the captured parameters.
pub(crate) fn captured_values(
    alloc: Global,
    body: &Body,
    locals: &[Value],
) -> Result<Vec<Value>, AllocError>
    ensures { IfOk result (λ v. v.items ≡ frame.captured_among (map view.local_of body.now.params.items) (drop (length (this_types (view.body body.now))) locals.now)) }
{
    captured_among(
        alloc,
        &body.params,
        values_from(locals, first_parameter(body)),
    )
}
