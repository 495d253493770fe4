// The context in which instances are made.

use ss_core::Classes;
use std::alloc::Global;

/// The classes of which instances speak.
#[derive(Clone, Copy)]
pub(crate) struct SayingContext<'a> {
    pub(crate) alloc: Global,
    pub(crate) classes: &'a Classes,
}
