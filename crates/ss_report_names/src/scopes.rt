// The texts of locals and of bound names.

ghost use Rattle.std.specs.Prelude.{◌≡◌, ◌++◌, ◌+◌, ◌≤◌, length, map, take, slice_get, string_bytes, OnOk, bytes_eq, if◌then◌else◌, codes, decimal};
ghost use Rattle.std.specs.List.{list_any};
ghost use Rattle.ss_report_names.specs.Names as names;
ghost use Rattle.ss_report_names.specs.Tables.{texts};
ghost use Rattle.ss_report_names.specs.Contexts.{names_in};
ghost use Rattle.ss_core.specs.View as view;

use crate::context::{Context, Locals};
use crate::locals::marked;
use std::alloc::{AllocError, Global};

fn is_among(table: &[&str], name: &str) -> bool
    ensures { result ≡ list_any (λ n. bytes_eq name.now n.now) table.now }
{
    table.iter().any(|other| name == *other)
}

fn text_at(table: &[String], x: usize) -> &[u8]
    ensures { result.now ≡ names.or_nothing (slice_get (map string_bytes table.now) x) }
{
    match table.get(x) {
        Some(text) => text.as_bytes(),
        None => b"",
    }
}

impl<'a> Locals<'a> {
    fn has(&self, name: &str) -> bool
        ensures { result ≡ names.is_among (names.local_names (view.body self.now.body.now)) name.now }
    {
        self.table.known.contains(name)
    }

    // The text of the local of this number, or nothing where it isn't one of the body's own.
    fn text(&self, x: usize) -> &[u8]
        ensures { result.now ≡ names.local_text (names.local_names (view.body self.now.body.now)) x }
    {
        text_at(&self.table.texts, x)
    }

    #[tactic(auto, using(crate::proofs::NameTexts::table_length))]
    fn count(&self) -> usize
        ensures { result ≡ length (names.local_names (view.body self.now.body.now)) }
    {
        self.table.texts.len()
    }
}

impl<'a> Context<'a> {
    #[tactic(auto, using(crate::proofs::NameTexts::taken_here, crate::proofs::NameTexts::taken_there))]
    // Whether a local, or one of the first `k` bound names, has this name.
    fn is_taken(&self, k: usize, name: &str) -> bool
        requires { k ≤ length self.now.bound.now }
        ensures { result ≡ names.is_among (names.local_names (view.body self.now.locals.now.body.now) ++ take k (texts self.now.bound.now)) name.now }
    {
        if self.locals.has(name) {
            return true;
        }
        is_among(&self.bound[..k], name)
    }
}

/// Writes these bytes.
pub fn push_bytes(out: &mut Vec<u8>, bytes: &[u8]) -> Result<(), AllocError>
    ensures { OnOk result (out.new.items ≡ out.old.items ++ bytes.now) }
{
    out.extend_from_slice(bytes)
}

fn push_marked(
    alloc: Global,
    out: &mut Vec<u8>,
    name: &str,
    repeated: bool,
    number: usize,
) -> Result<(), AllocError>
    ensures { OnOk result (out.new.items ≡ out.old.items ++ (if repeated then name.now ++ codes "#" ++ decimal number else name.now)) }
{
    let text = marked(alloc, name, repeated, number)?;
    out.extend_from_slice(text.as_bytes())
}

/// The name that a quantifier binds.
pub fn push_bound(out: &mut Vec<u8>, context: &Context<'_>, name: &str) -> Result<(), AllocError>
    ensures { OnOk result (out.new.items ≡ out.old.items ++ names.marked (names_in context.now) name.now) }
{
    let count = context.locals.table.texts.len();
    let depth = context.bound.len();
    let number = count + depth;
    let repeated = context.is_taken(depth, name);
    push_marked(context.alloc, out, name, repeated, number)
}

fn bound_at<'a>(bound: &[&'a str], k: usize) -> &'a str
    ensures { result.now ≡ names.or_nothing (slice_get (texts bound.now) k) }
{
    match bound.get(k) {
        Some(name) => name,
        None => "",
    }
}

// The bound name at the place `k`, of this number.
fn push_bound_at(
    out: &mut Vec<u8>,
    context: &Context<'_>,
    k: usize,
    number: usize,
) -> Result<(), AllocError>
    requires { number ≡ length (names.local_names (view.body context.now.locals.now.body.now)) + k }
    ensures { OnOk result (out.new.items ≡ out.old.items ++ names.local_text (names_in context.now) number) }
{
    if k >= context.bound.len() {
        return Ok(());
    }
    let name = bound_at(context.bound, k);
    let repeated = context.is_taken(k, name);
    push_marked(context.alloc, out, name, repeated, number)
}

/// The local of this number.
pub fn push_local(out: &mut Vec<u8>, context: &Context<'_>, x: usize) -> Result<(), AllocError>
    ensures { OnOk result (out.new.items ≡ out.old.items ++ names.local_text (names_in context.now) x) }
{
    let count = context.locals.count();
    if x < count {
        return push_bytes(out, context.locals.text(x));
    }
    push_bound_at(out, context, x - count, x)
}
