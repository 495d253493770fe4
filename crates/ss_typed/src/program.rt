// Classes and programs.

use crate::body::TypedBody;
use crate::expr::TypedExpr;
use ss_ast::Name;
use ss_core::{BodyId, Classes, Place};

/// A field: the place of its name, its attributes, and what it begins with. Its name, type and mark stand in the table of
/// classes.
#[derive(Drop)]
pub struct TypedField {
    pub place: Place,
    pub attributes: Vec<Name>,
    pub initial: Option<TypedExpr>,
}

/// A class invariant and its attributes.
#[derive(Drop)]
pub struct TypedInvariant {
    pub attributes: Vec<Name>,
    pub condition: TypedExpr,
}

/// What a class has beside its entry in the table of classes. The place is that of its name, and the fields stand in the order of
/// the table. It has a constructor only where one is written.
#[derive(Drop)]
pub struct TypedClass {
    pub place: Place,
    pub constructor: Option<BodyId>,
    pub fields: Vec<TypedField>,
    pub invariants: Vec<TypedInvariant>,
}

/// A resolved program. Its classes have no invariants, and their tables name written bodies. Of an inherited method that is the
/// body of the nearest class above that declares it. The bodies are numbered in the order of the text's classes, in each the
/// constructor first, then the methods in order of declaration.
#[derive(Drop)]
pub struct Typed {
    pub classes: Classes,
    pub members: Vec<TypedClass>,
    pub bodies: Vec<TypedBody>,
    pub main: BodyId,
}
