// The context in which reads of stores are looked up.

use ss_core::Classes;
use ss_rules_basic::Look;
use std::alloc::Global;

/// The classes of a program, and what is read of a store.
#[derive(Clone, Copy)]
pub(crate) struct ReadContext<'a> {
    pub(crate) alloc: Global,
    pub(crate) classes: &'a Classes,
    pub(crate) look: Look,
}
