// What a name stands for.

use ss_core::Ty;

/// What a name stands for.
#[derive(Clone, Copy)]
pub enum Known {
    /// A parameter or a local, by its number, with its type.
    Variable(usize, Ty),
    /// The name of a quantifier: how many stand around it.
    BoundName(usize),
}
