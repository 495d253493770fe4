// The context of an expression.

use ss_tables_scopes::ClassContext;

/// The context of an expression, its locals aside.
#[derive(Clone, Copy)]
pub struct ExprContext<'t, 'p> {
    pub within: ClassContext<'t, 'p>,
    /// It stands in a static method, or in a clause of one.
    pub is_static: bool,
    pub in_condition: bool,
    /// It stands in `ensures` of a body without a result.
    pub lacks_result: bool,
}
