// Classes and programs. Access words and `using` lines leave no trace in the trees.

use crate::expr::{Expr, Name, TypeRef};
use crate::stmt::{Block, Declaration};
use ss_core::Place;

#[derive(Clone, Copy, Debug, PartialEq, Eq)]
pub enum ModifierWord {
    Static,
    Virtual,
    Override,
}

/// One of the words `static`, `virtual` and `override`.
#[derive(Clone, Copy)]
pub struct Modifier {
    pub place: Place,
    pub word: ModifierWord,
}

/// A parameter with its attributes, each a name at the place of its `[`.
#[derive(Drop)]
pub struct Param {
    pub attributes: Vec<Name>,
    pub ty: TypeRef,
    pub name: Name,
}

/// A term of a `modifies` clause.
#[derive(Drop)]
pub enum Modified {
    /// `o.*`
    All(Expr),
    /// `a[*]`
    Elements(Expr),
    /// a field, `o.f`
    One(Expr),
}

/// A clause of a contract.
#[derive(Drop)]
pub enum Clause {
    Requires(Expr),
    Ensures(Expr),
    Modifies(Vec<Modified>),
}

/// A method. Without a result it is `void`.
#[derive(Drop)]
pub struct Method {
    pub returns: Option<TypeRef>,
    pub name: Name,
    pub params: Vec<Param>,
    pub clauses: Vec<Clause>,
    pub body: Block,
}

/// `: base(a, b)` after the parameters of a constructor, with the place of `base`.
#[derive(Drop)]
pub struct BaseCall {
    pub place: Place,
    pub arguments: Vec<Expr>,
}

/// A constructor.
#[derive(Drop)]
pub struct Constructor {
    pub name: Name,
    pub params: Vec<Param>,
    pub base: Option<BaseCall>,
    pub clauses: Vec<Clause>,
    pub body: Block,
}

#[derive(Drop)]
pub enum MemberKind {
    Fields(Declaration),
    Invariant(Expr),
    Method(Method),
    Constructor(Constructor),
}

/// A member of a class, with its attributes, each a name at the place of its `[`, and with its words `static`, `virtual` and `override`
/// in order.
#[derive(Drop)]
pub struct Member {
    pub attributes: Vec<Name>,
    pub modifiers: Vec<Modifier>,
    pub kind: MemberKind,
}

/// A class, with the name of the class above it where one is written.
#[derive(Drop)]
pub struct ClassDecl {
    pub name: Name,
    pub above: Option<Name>,
    pub members: Vec<Member>,
}

/// A program, with the place of the end of its text.
#[derive(Drop)]
pub struct Program {
    pub classes: Vec<ClassDecl>,
    pub last: Place,
}
