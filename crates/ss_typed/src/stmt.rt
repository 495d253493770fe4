// Statements.

use crate::expr::TypedExpr;
use ss_ast::{AssignOperator, StepOperator};
use ss_core::{ClassId, Place, Ty};

/// A declared local: the place of its name, its number, its type, and what it begins with.
#[derive(Drop)]
pub struct TypedDeclarator {
    pub place: Place,
    pub local: usize,
    pub ty: Ty,
    pub initial: Option<TypedExpr>,
}

/// A statement that may also stand in the heading of a `for`.
#[derive(Drop)]
pub enum TypedSimple {
    /// What is assigned is a local, a field or an element.
    Assign(TypedExpr, AssignOperator, TypedExpr),
    Step(TypedExpr, StepOperator),
    /// A call or a `new` alone.
    Alone(TypedExpr),
    /// Prints the value, where there is one, and where it is asked for a line end.
    Print(Place, Option<TypedExpr>, bool),
    /// Prints these bytes, and where it is asked for a line end.
    PrintText(Place, Vec<u8>, bool),
    /// `base(a, b)`
    Base(Place, Vec<TypedExpr>),
}

/// What a `for` begins with.
#[derive(Drop)]
pub enum TypedInit {
    Declare(Vec<TypedDeclarator>),
    Simple(TypedSimple),
}

/// Statements between two braces, with the places of both.
#[cycle(stmt)]
#[derive(Drop)]
pub struct TypedBlock {
    pub place: Place,
    pub statements: Vec<TypedStmt>,
    pub end: Place,
}

/// A statement.
#[cycle(stmt)]
#[derive(Drop)]
pub enum TypedStmt {
    Block(TypedBlock),
    Declare(Vec<TypedDeclarator>),
    Simple(TypedSimple),
    /// The test, what is done where it holds, and what is done otherwise.
    If(Place, TypedExpr, Box<TypedStmt>, Option<Box<TypedStmt>>),
    /// The test, the invariants and the body.
    While(Place, TypedExpr, Vec<TypedExpr>, Box<TypedStmt>),
    /// `for (first; test; step) invariant ..; body`
    For {
        place: Place,
        first: Option<TypedInit>,
        test: Option<TypedExpr>,
        step: Option<TypedSimple>,
        invariants: Vec<TypedExpr>,
        body: Box<TypedStmt>,
    },
    Return(Place, Option<TypedExpr>),
    Assert(Place, TypedExpr),
    Assume(Place, TypedExpr),
    /// `expose (e at T) { .. }`, where `at T` may be absent.
    Expose(Place, TypedExpr, Option<ClassId>, TypedBlock),
    /// `;`
    Empty(Place),
}
