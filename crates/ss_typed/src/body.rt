// Methods and constructors as they are written.

use crate::expr::TypedExpr;
use crate::stmt::TypedBlock;
use ss_ast::Name;
use ss_core::{ClassId, FieldId, Local, Place, Ty};

/// A parameter, with the place of its name and its attributes.
#[derive(Drop)]
pub struct TypedParam {
    pub name: String,
    pub place: Place,
    pub ty: Ty,
    pub captured: bool,
    pub attributes: Vec<Name>,
}

/// A term of a `modifies` clause.
#[derive(Drop)]
pub enum TypedModifies {
    /// `o.f`
    Field(TypedExpr, FieldId),
    /// `o.*`
    All(TypedExpr),
    /// `a[*]`
    Elements(TypedExpr),
}

/// What kind of body it is, by its words and attributes.
#[derive(Clone, Copy, Debug, PartialEq, Eq)]
pub struct TypedFlags {
    pub is_static: bool,
    pub ctor: bool,
    /// A constructor that isn't `[NotDelayed]`.
    pub delayed: bool,
    /// `[Pure]`
    pub pure: bool,
    /// `[NoDefaultContract]`
    pub no_default_contract: bool,
}

/// `: base(a, b)` after the parameters of a constructor, with the place of `base`.
#[derive(Drop)]
pub struct TypedBase {
    pub place: Place,
    pub arguments: Vec<TypedExpr>,
}

/// A method or a constructor. Its locals are those that it declares, in order; the place is that of its name.
#[derive(Drop)]
pub struct TypedBody {
    pub class: ClassId,
    pub name: String,
    pub place: Place,
    pub flags: TypedFlags,
    pub attributes: Vec<Name>,
    pub params: Vec<TypedParam>,
    pub locals: Vec<Local>,
    pub result: Option<Ty>,
    /// What its `requires` clauses say.
    pub entry: Vec<TypedExpr>,
    /// What its `ensures` clauses say.
    pub exit: Vec<TypedExpr>,
    /// The terms of its `modifies` clauses, where it has one.
    pub modifies: Option<Vec<TypedModifies>>,
    pub base: Option<TypedBase>,
    pub block: TypedBlock,
}
