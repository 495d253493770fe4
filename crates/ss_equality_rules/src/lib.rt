//! Which terms of a bank are equal by congruence, and how a log of joins of classes says it.
#![tactic(auto)]

use ss_terms::TermId;

/// Two terms that were said to be equal, and the reason that was given.
#[derive(Clone, Copy, Drop)]
pub struct Merge {
    pub left: TermId,
    pub right: TermId,
    pub because: usize,
}

/// A merge that stands, and how many joins and signatures there were before it.
#[derive(Clone, Copy, Drop)]
pub struct Stand {
    pub merge: Merge,
    pub joins: usize,
    pub signatures: usize,
}

/// Two terms that are equal, and why: a merge with this number, or the same function at equal arguments.
#[derive(Clone, Copy, Drop)]
pub struct Pending {
    pub left: usize,
    pub right: usize,
    pub why: Option<usize>,
}

/// One class gets the name of another. It has a term of each, why these are equal, and how many users and what weight the class had that keeps its
/// name.
#[derive(Clone, Copy, Drop)]
pub struct Join {
    pub from: usize,
    pub to: usize,
    pub left: usize,
    pub right: usize,
    pub why: Option<usize>,
    pub count: usize,
    pub weight: usize,
}

/// Two terms of one class.
#[derive(Clone, Copy, Drop)]
pub struct Pair {
    pub left: usize,
    pub right: usize,
}
