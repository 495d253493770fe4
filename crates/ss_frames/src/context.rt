// The context in which it is said what an object keeps.

use crate::calls::CallTerms;
use ss_core::Classes;
use ss_terms::TermId;
use std::alloc::Global;

/// An object, the classes of its program, and the two stores with what may differ between them.
#[derive(Clone, Copy)]
pub(crate) struct FrameContext<'a> {
    pub(crate) alloc: Global,
    pub(crate) classes: &'a Classes,
    pub(crate) call: &'a CallTerms,
    pub(crate) object: TermId,
}
