// What has to be so for an expression to have a value.

use ss_core::{Kind, Place};
use ss_terms::FormulaId;
use ss_vcgen_express::Meant;

/// What has to be so, and the check that fails where it isn't. One that isn't checked holds by the types.
#[derive(Clone, Copy)]
pub struct Part {
    pub formula: FormulaId,
    pub kind: Kind,
    pub place: Place,
    pub checked: bool,
}

/// An expression as it was read: its parts, and what it means.
#[derive(Clone, Copy)]
pub(crate) struct ReadExpression<'a> {
    pub(crate) parts: &'a [Part],
    pub(crate) meant: &'a Meant,
}
