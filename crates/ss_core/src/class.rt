// Classes.

use crate::expr::Expr;
use crate::names::{BodyId, ClassId, Mark, Ty};

/// A field of a class.
#[derive(Drop)]
pub struct Field {
    pub name: String,
    pub ty: Ty,
    pub mark: Mark,
}

/// A method in a class's table: its name, and the body that a call enters where the receiver is of this class.
#[derive(Drop)]
pub struct Entry {
    pub name: String,
    pub body: BodyId,
}

/// A declared class. Its table has first the names of the table of the class above, in that order. After them stand the other
/// methods that it declares, static ones included, in order of declaration.
#[derive(Drop)]
pub struct Class {
    pub name: String,
    /// The class above it.
    pub above: ClassId,
    /// Types at which an object of the class stands beside its levels.
    pub also: Vec<ClassId>,
    pub fields: Vec<Field>,
    pub invariants: Vec<Expr>,
    pub table: Vec<Entry>,
}

/// The declared classes, in order. The number of the one at place `k` is `4 + 2 k`.
#[derive(Drop)]
pub struct Classes {
    pub list: Vec<Class>,
}
