// The context in which expressions have their types.

use ss_core::{Classes, Ty};

/// The context in which an expression has its type: the classes, the types of the locals, and whether that is in a constructor.
#[derive(Clone, Copy)]
pub struct TypeContext<'p> {
    pub classes: &'p Classes,
    pub types: &'p [Ty],
    pub constructs: bool,
}
