// The names of the rules.

/// A rule. What the first seven say is true in every structure, and what the others say wherever their store is good.
#[derive(Clone, Copy, PartialEq, Eq, Debug, Hash)]
pub enum RuleName {
    /// `read`: what a read gives over a changed store, or over an equal one.
    Read,
    /// `fresh`: the reference that a store allocates next.
    Fresh,
    /// `class`: which classes count as others.
    Class,
    /// `split`: owners are groups or pairs.
    Split,
    /// `apart`: two whole numbers are equal, or one is below the other.
    Apart,
    /// `quorem`: a quotient and its remainder.
    Quorem,
    /// `bool`: a truth value is true or false.
    Bool,
    /// `g1`: an object has the invariants of each class at which it is packed.
    Invariants,
    /// `g2`: a committed object is at its full level.
    Full,
    /// `g3`: an owned object is committed exactly where its owner is packed.
    Owned,
    /// `g4`: what a marked field refers to has the owner that the mark says.
    Marks,
    /// `g5`: values are in range, allocated and of their classes.
    Typed,
    /// `g6`: fields of ready objects aren't null, and values refer to ready objects.
    Ready,
}
