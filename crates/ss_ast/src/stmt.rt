// Statements.

use crate::expr::{Expr, Name, TypeRef};
use ss_core::Place;

/// A declared name and what it begins with: `x = e`, or `x` alone.
#[derive(Drop)]
pub struct Declarator {
    pub name: Name,
    pub initial: Option<Expr>,
}

/// `T x = e, y`, which has at least one declarator.
#[derive(Drop)]
pub struct Declaration {
    pub ty: TypeRef,
    pub declarators: Vec<Declarator>,
}

#[derive(Clone, Copy, Debug, PartialEq, Eq)]
pub enum AssignOperator {
    /// `=`
    Set,
    /// `+=`
    Add,
    /// `-=`
    Subtract,
    /// `*=`
    Multiply,
}

#[derive(Clone, Copy, Debug, PartialEq, Eq)]
pub enum StepOperator {
    /// `++`
    Up,
    /// `--`
    Down,
}

/// A statement that may also stand in the heading of a `for`.
#[derive(Drop)]
pub enum Simple {
    Assign(Expr, AssignOperator, Expr),
    Step(Expr, StepOperator),
    /// A path alone, which is to be a call or a `new`.
    Alone(Expr),
}

/// What a `for` begins with.
#[derive(Drop)]
pub enum ForInit {
    Declare(Declaration),
    Simple(Simple),
}

/// Statements between two braces, with the places of both.
#[cycle(stmt)]
#[derive(Drop)]
pub struct Block {
    pub place: Place,
    pub statements: Vec<Stmt>,
    pub end: Place,
}

/// A statement.
#[cycle(stmt)]
#[derive(Drop)]
pub enum Stmt {
    Block(Block),
    Declare(Declaration),
    Simple(Simple),
    /// The test, what is done where it holds, and what is done otherwise.
    If(Place, Expr, Box<Stmt>, Option<Box<Stmt>>),
    /// The test, the invariants and the body.
    While(Place, Expr, Vec<Expr>, Box<Stmt>),
    /// `for (first; test; step) invariant ..; body`
    For {
        place: Place,
        first: Option<ForInit>,
        test: Option<Expr>,
        step: Option<Simple>,
        invariants: Vec<Expr>,
        body: Box<Stmt>,
    },
    Return(Place, Option<Expr>),
    Assert(Place, Expr),
    Assume(Place, Expr),
    /// `expose (e at T) { .. }`, where `at T` may be absent.
    Expose(Place, Expr, Option<Name>, Block),
    /// `;`
    Empty(Place),
}
