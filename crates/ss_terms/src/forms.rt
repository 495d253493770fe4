// The forms of terms and formulas over numbers of a bank.

use crate::lists::{Arguments, Parts};
use ss_logic::Sort;

/// The number of a term in a bank.
#[derive(Clone, Copy, PartialEq, Eq, Debug, Hash, Default)]
pub struct TermId(pub usize);

/// The number of a formula in a bank.
#[derive(Clone, Copy, PartialEq, Eq, Debug, Hash, Default)]
pub struct FormulaId(pub usize);

/// A function: a term is one at its arguments. Classes and fields stand in it by their numbers.
#[derive(Clone, Copy, PartialEq, Eq, Hash)]
pub enum Symbol {
    /// A whole number.
    Number(i128),
    /// A truth value.
    Fixed(bool),
    /// Null.
    Null,
    /// A class.
    ClassName(u16),
    /// The constant of this sort with this number.
    Constant(Sort, usize),
    /// A sum.
    Add,
    /// A difference.
    Subtract,
    /// A product.
    Multiply,
    /// A quotient, rounded to zero.
    Quotient,
    /// The remainder of that quotient.
    Remainder,
    /// A field of an object in a store.
    Field(u32),
    /// An element of an array in a store, of this sort.
    Element(Sort),
    /// The length of an array.
    Length,
    /// The class of an object.
    TypeOf,
    /// The level of an object in a store.
    Level,
    /// The owner of an object in a store.
    Owner,
    /// The owner that is an object at a class.
    Pair,
    /// The reference that a store allocates next.
    Next,
    /// A store with a value in a field of an object.
    Set(u32),
    /// A store with a value as an element of an array.
    Put,
    /// A store with an object unpacked from this class.
    Unpack(u16),
    /// A store with an object packed at this class.
    Pack(u16),
    /// A store in which the group of an object is owned by another object at this class.
    Capture(u16),
    /// A store in which two objects have one owner.
    Join,
    /// A store with a new object of this class.
    New(u16),
    /// A store with a new array of this class.
    NewArray(u16),
    /// A store with an object ready.
    MakeReady,
}

/// What an atom says of its arguments.
#[derive(Clone, Copy, PartialEq, Eq, Hash)]
pub enum Predicate {
    /// The two terms are equal.
    Equal,
    /// The first number is at most the second.
    AtMost,
    /// The first class counts as the second.
    Sub,
    /// The store has the object.
    Allocated,
    /// The object is committed in the store.
    Committed,
    /// The object is ready in the store.
    Ready,
    /// The owner is a group.
    IsGroup,
    /// The store is good.
    Good,
}

/// The form of a term.
#[derive(PartialEq, Eq, Drop, Hash)]
pub enum Term {
    /// The bound name with this number, counted from the outermost.
    Bound(usize),
    /// The function at these arguments.
    App(Symbol, Arguments),
}

/// The form of a formula.
#[derive(PartialEq, Eq, Drop, Hash)]
pub enum Formula {
    /// An atom, or its negation.
    Literal {
        /// Whether the atom holds.
        holds: bool,
        /// What the atom says.
        predicate: Predicate,
        /// Of which terms.
        arguments: Arguments,
    },
    /// Each of these.
    And(Parts),
    /// One of these.
    Or(Parts),
    /// The formula, for all values of bound names of these sorts.
    Forall(Vec<Sort>, FormulaId),
    /// The formula, for some values of bound names of these sorts.
    Exists(Vec<Sort>, FormulaId),
}
