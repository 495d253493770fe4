// The context in which a statement stands.

use ss_core::{Body, Core, Ty};

/// The context in which a statement stands: the program, the body, and the types of its locals.
#[derive(Clone, Copy)]
pub struct BodyContext<'p> {
    pub core: &'p Core,
    pub body: &'p Body,
    pub types: &'p [Ty],
}
