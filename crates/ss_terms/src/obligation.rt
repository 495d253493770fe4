// What has to be shown.

use crate::forms::FormulaId;
use ss_core::{BodyId, Kind, Place};

/// What has to be shown for one check: the goal, where the premises are true. The premises are lent by the list that holds them,
/// so none is copied.
#[derive(Clone, Copy)]
pub struct Obligation<'o> {
    pub premises: &'o [FormulaId],
    /// What has to be true.
    pub goal: FormulaId,
    /// What the check is about.
    pub kind: Kind,
    /// Where the check stands in the source.
    pub place: Place,
    /// The body that the check stands in.
    pub body: BodyId,
}
