// Expressions. The place of a part is that of its first byte.

use crate::names::{ClassId, FieldId, Place};

/// An operator that groups to the left.
#[derive(Clone, Copy, Debug, PartialEq, Eq)]
pub enum Operator {
    Or,
    And,
    Equal,
    NotEqual,
    Less,
    LessEqual,
    Greater,
    GreaterEqual,
    Add,
    Subtract,
    Multiply,
    Divide,
    Remainder,
}

#[derive(Clone, Copy, Debug, PartialEq, Eq)]
pub enum Quantifier {
    Forall,
    Exists,
}

/// A question about the state of one object. All are undefined on null.
#[derive(Clone, Copy, Debug, PartialEq, Eq)]
pub enum StateWord {
    /// `e.IsConsistent`: it is at its full level and not committed.
    Consistent,
    /// `e.IsCommitted`
    Committed,
    /// `e.IsNew`: it was not allocated at entry.
    New,
    /// `e.IsLevel(T)`: its level is `T`.
    Level(ClassId),
    /// `e.IsPacked(T)`: its level is `T` or below.
    Packed(ClassId),
    /// `Owner.None(e)`: its owner is a group.
    Unowned,
}

/// A question about the owners of two objects. Both are undefined on null.
#[derive(Clone, Copy, Debug, PartialEq, Eq)]
pub enum OwnerTest {
    /// `Owner.Same(a, b)`
    Same,
    /// `Owner.Is(a, o, T)`: the owner of `a` is the pair of `o` and `T`.
    Is(ClassId),
}

/// A condition of a default contract, or of a `[Captured]` parameter. An argument is named by its local.
#[derive(Clone, Copy, Debug, PartialEq, Eq)]
pub enum DefaultCondition {
    /// `this` is at this level and not committed.
    AtLevel(ClassId),
    /// `this` is at the level `object`.
    Unpacked,
    /// The owner of `this` is a group.
    Unowned,
    /// The fields of `this` that this class and those above it declare are at their defaults.
    Defaults(ClassId),
    /// Each object owned by `this` at this class or one above it is at its full level.
    OwnedFull(ClassId),
    /// `this` is at its full level.
    Full,
    /// The argument is null, or at its full level and not committed.
    ConsistentArgument(usize),
    /// The argument is null, or at its full level.
    FullArgument(usize),
    /// The argument is null, or its owner is a group whose members are all at their full levels. Where it is told apart from
    /// `this`, that isn't one of them.
    Captured {
        argument: usize,
        apart_from_this: bool,
    },
}

/// An expression. A local is named by its number in the body. Past the numbers of the body stand those of the bound names of
/// quantifiers, from the outermost inwards.
#[cycle(expr)]
#[derive(Drop)]
pub enum Expr {
    Int(Place, i32),
    Bool(Place, bool),
    Null(Place),
    Local(Place, usize),
    /// `a <==> b`
    Iff(Place, Box<Expr>, Box<Expr>),
    /// `a ==> b`
    Implies(Place, Box<Expr>, Box<Expr>),
    /// Operations of one rank, grouped to the left: the first operand, and at least one link. The place is that of each.
    Chain(Place, Box<Expr>, Vec<Link>),
    Negate(Place, Box<Expr>),
    Not(Place, Box<Expr>),
    /// `(T)e`, or `(T!)e` where null doesn't pass.
    Cast(Place, ClassId, bool, Box<Expr>),
    /// A path `e.f[i].g`: what it begins with, and at least one step. The place is that of each.
    Path(Place, Box<Expr>, Vec<Step>),
    /// `old(e)`
    Old(Place, Box<Expr>),
    /// `forall{int i in (low: high); e}`, or `exists`, with the bytes of the bound name.
    Quantified(Place, Quantifier, String, Box<Expr>, Box<Expr>, Box<Expr>),
    State(Place, StateWord, Box<Expr>),
    Owners(Place, OwnerTest, Box<Expr>, Box<Expr>),
    /// Stands only in the conditions at entry and exit of a body.
    Default(Place, DefaultCondition),
}

/// What stands after an operand in a chain.
#[cycle(expr)]
#[derive(Drop)]
pub enum Link {
    Operation(Operator, Expr),
    Is(ClassId),
    As(ClassId),
}

/// What stands after the beginning of a path.
#[cycle(expr)]
#[derive(Drop)]
pub enum Step {
    Field(FieldId),
    Element(Expr),
    Length,
}
