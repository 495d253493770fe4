// What the frame condition speaks of.

use crate::entry::Entry;
use ss_core::{Body, Classes};
use ss_journal::Journal;
use ss_machine_rules::Named;
use ss_store::Store;
use ss_store_rules::Value;

/// A body and its locals, the store at its entry and that of now, the objects of enclosing exposes, and what the body names and
/// captures.
#[derive(Drop)]
pub(crate) struct Span<'a> {
    pub(crate) classes: &'a Classes,
    pub(crate) body: &'a Body,
    pub(crate) locals: &'a [Value],
    pub(crate) before: Entry<'a>,
    pub(crate) store: &'a Store,
    pub(crate) journal: &'a Journal,
    pub(crate) unfull: &'a [u32],
    pub(crate) outside: &'a [Value],
    pub(crate) named: Vec<Named>,
    pub(crate) captured: Vec<Value>,
}
