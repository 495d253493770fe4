// The context in which a ground form is made.

use ss_core::Classes;
use std::alloc::Global;

/// The classes of a program, and how many formulas its ground form may have.
#[derive(Clone, Copy)]
pub struct GroundContext<'a> {
    /// Where lists are made.
    pub alloc: Global,
    /// The classes.
    pub classes: &'a Classes,
    /// How many formulas there may be.
    pub limit: usize,
}
