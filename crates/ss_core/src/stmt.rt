// Statements. Each but `if` and a loop is one step of a machine.

use crate::expr::Expr;
use crate::names::{BodyId, ClassId, FieldId, Mark, Place};

/// What a call enters.
#[derive(Drop)]
pub enum Callee {
    /// `e.M(..)`: the receiver, its static class, and the place of the method in that class's table. In the table of the
    /// receiver's own class the method has the same place.
    Dispatched(Expr, ClassId, usize),
    /// `C.M(..)`
    Static(BodyId),
    /// `base.M(..)`, on `this`
    Base(BodyId),
    /// `base(..)`, on `this`
    Constructor(BodyId),
}

/// The object of an `expose` around a loop: the local that holds it, and the class at which it is exposed.
#[derive(Clone, Copy, Debug, PartialEq, Eq)]
pub struct Exposed {
    pub local: usize,
    pub class: ClassId,
}

/// A loop: at its head the invariants are checked, then the prelude is done, and then the test says whether the body is.
#[cycle(stmt)]
#[derive(Drop)]
pub struct Loop {
    pub invariants: Vec<Expr>,
    pub prelude: Vec<Stmt>,
    pub test: Expr,
    pub body: Vec<Stmt>,
    pub place: Place,
    /// The exposes around it, from the outermost inwards.
    pub exposes: Vec<Exposed>,
}

/// A statement. Where a call or a `new` has a local, that gets its result.
#[cycle(stmt)]
#[derive(Drop)]
pub enum Stmt {
    Assign(Place, usize, Expr),
    /// `o.f = e`, with the field's mark and the class that declares it
    Write {
        place: Place,
        object: Expr,
        field: FieldId,
        mark: Mark,
        class: ClassId,
        value: Expr,
    },
    /// `a[i] = e`
    WriteElement(Place, Expr, Expr, Expr),
    /// `x = new C(..)`
    New(Place, Option<usize>, ClassId, Vec<Expr>),
    /// `x = new E[n]`, with the class of the array
    NewArray(Place, Option<usize>, ClassId, Expr),
    Call(Place, Option<usize>, Callee, Vec<Expr>),
    /// `this` of a constructor becomes ready.
    Ready(Place),
    If(Place, Expr, Vec<Stmt>, Vec<Stmt>),
    Loop(Loop),
    /// `unpack x from T`
    Unpack(Place, usize, ClassId),
    /// `pack x as T`
    Pack(Place, usize, ClassId),
    Assert(Place, Expr),
    Assume(Place, Expr),
    /// Prints the value, where there is one, and where it is asked for a line end.
    Print(Place, Option<Expr>, bool),
    /// Prints these bytes, and where it is asked for a line end.
    PrintText(Place, Vec<u8>, bool),
    Return(Place, Option<Expr>),
}
