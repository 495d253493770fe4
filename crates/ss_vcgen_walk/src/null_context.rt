// The context in which values may be null.

use ss_vcgen_known::{Known, Tests};
use ss_vcgen_types::TypeContext;

/// The context in which an expression may be null: where it stands, and what is known there of null, by its body and by the tests that
/// have come out on the way.
#[derive(Clone, Copy)]
pub struct NullContext<'p> {
    pub typing: TypeContext<'p>,
    pub known: &'p Known,
    pub tests: &'p Tests<'p>,
}
