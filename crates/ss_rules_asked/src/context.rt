// The context in which instances are asked for.

use ss_core::Classes;
use ss_terms::Bank;
use std::alloc::Global;

/// A bank, and the classes of its program.
#[derive(Clone, Copy)]
pub(crate) struct AskingContext<'a> {
    pub(crate) alloc: Global,
    pub(crate) bank: &'a Bank,
    pub(crate) classes: &'a Classes,
}
