// The congruence, and its joins, over which lines are written.

use ss_equality::Congruence;
use ss_equality_rules::Join;
use ss_terms::Bank;
use std::alloc::Global;

/// A congruence over a bank, and how many formulas are known.
#[derive(Clone, Copy)]
pub struct CongruenceContext<'a> {
    pub alloc: Global,
    pub bank: &'a Bank,
    pub congruence: &'a Congruence,
    pub count: usize,
}

/// The joins of a congruence over a bank, the join that ended each class, and how many formulas are known.
#[derive(Clone, Copy)]
pub(crate) struct JoinContext<'a> {
    pub(crate) alloc: Global,
    pub(crate) bank: &'a Bank,
    pub(crate) congruence: &'a Congruence,
    pub(crate) joins: &'a [Join],
    pub(crate) ends: &'a [Option<usize>],
    pub(crate) known: usize,
}
