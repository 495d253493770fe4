// Marks of kinds of terms, of which a class has a set.

use crate::question::{FIELD, LEVEL, NEXT, OWNER, PAIR, READY_MADE, SET, TYPE};

/// The mark of a kind of terms. Kinds of changed stores share one, and all kinds that aren't named here share another.
pub fn mark_of(kind: usize) -> usize {
    if kind == FIELD {
        1
    } else if kind == TYPE {
        2
    } else if kind == LEVEL {
        4
    } else if kind == OWNER {
        8
    } else if kind == PAIR {
        16
    } else if kind == NEXT {
        32
    } else if kind >= SET && kind <= READY_MADE {
        64
    } else {
        128
    }
}

/// The mark of a class with a node that is, or was, an argument of another one.
pub const USED: usize = 256;

/// Whether of a class with these marks something may be read, or it has an owner or a reference that is allocated next.
pub fn is_read(kinds: usize) -> bool {
    kinds & (USED | mark_of(OWNER) | mark_of(NEXT)) != 0
}
