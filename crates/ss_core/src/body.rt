// Bodies and programs.

use crate::class::Classes;
use crate::expr::Expr;
use crate::names::{BodyId, ClassId, FieldId, Place, Ty};
use crate::stmt::Stmt;

/// A local of a body. A parameter may be captured.
#[derive(Drop)]
pub struct Local {
    pub name: String,
    pub ty: Ty,
    pub captured: bool,
}

/// What a body may change, evaluated at its entry. What is undefined names nothing.
#[derive(Drop)]
pub enum Modifies {
    /// `o.f`
    Field(Expr, FieldId),
    /// `o.*`: the level and all fields
    All(Expr),
    /// `a[*]`
    Elements(Expr),
    /// `this.*` as a body sees it: the level, and the fields that this class and those above it declare
    Upto(Expr, ClassId),
}

/// What kind of body it is.
#[derive(Clone, Copy, Debug, PartialEq, Eq)]
pub struct BodyFlags {
    pub is_static: bool,
    pub pure: bool,
    pub ctor: bool,
    /// A constructor in which `this` is not ready.
    pub delayed: bool,
    /// It was made for an inherited method, and calls it inside an `expose`.
    pub wrapper: bool,
}

/// A method or a constructor. Its locals are numbered from 0, in order: `this` where it isn't static, parameters, other locals,
/// and the result where there is one.
#[derive(Drop)]
pub struct Body {
    pub class: ClassId,
    pub name: String,
    pub params: Vec<Local>,
    pub locals: Vec<Local>,
    pub result: Option<Ty>,
    /// The conditions at entry.
    pub entry: Vec<Expr>,
    /// The conditions at exit.
    pub exit: Vec<Expr>,
    pub named: Vec<Modifies>,
    pub flags: BodyFlags,
    pub code: Vec<Stmt>,
    pub place: Place,
}

/// A core program.
#[derive(Drop)]
pub struct Core {
    pub classes: Classes,
    pub bodies: Vec<Body>,
    pub main: BodyId,
}
