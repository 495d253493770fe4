// The context of an expression.

use ss_core::Ty;
use ss_paths_assigned::Numbers;
use ss_typed::Typed;
use std::alloc::Global;

/// The context in which it is asked whether an expression may be null.
#[derive(Clone, Copy)]
pub struct NullContext<'p> {
    pub alloc: Global,
    pub program: &'p Typed,
    /// The class, and the numbers of its fields.
    pub class: usize,
    pub numbers: Numbers,
    /// In a constructor.
    pub constructs: bool,
    pub in_old: bool,
    /// The type of the body's result.
    pub result: Option<Ty>,
}
