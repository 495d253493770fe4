// The context in which an expression is read.

use crate::null_context::NullContext;
use ss_vcgen_express::Context;
use std::alloc::Global;

/// The context in which an expression is read: where it may be null, and what its names mean.
#[derive(Clone, Copy)]
pub struct ReadingContext<'p> {
    pub alloc: Global,
    pub nulls: &'p NullContext<'p>,
    pub expression: &'p Context<'p>,
}
