// What surrounds a statement.

use ss_tables_lookup::StaticType;
use ss_tables_scopes::ClassContext;

/// What a body gives.
#[derive(Clone, Copy)]
pub enum Outcome {
    Nothing,
    /// A value of the type; `None` where it isn't known.
    Gives(Option<StaticType>),
}

/// What surrounds a statement, its locals aside.
#[derive(Clone, Copy)]
pub struct Body<'t, 'p> {
    pub within: ClassContext<'t, 'p>,
    pub is_static: bool,
    pub outcome: Outcome,
}
