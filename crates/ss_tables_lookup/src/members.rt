// The members of a class, each where it is written.

use ss_ast::{Constructor, Declarator, Member, Method, Name, TypeRef};

/// A declared field.
#[derive(Clone, Copy)]
pub struct FieldRef<'p> {
    pub attributes: &'p [Name],
    pub ty: &'p TypeRef,
    pub declarator: &'p Declarator,
}

/// A declared method, with its attributes and words.
#[derive(Clone, Copy)]
pub struct MethodRef<'p> {
    pub member: &'p Member,
    pub method: &'p Method,
}

/// A constructor.
#[derive(Clone, Copy)]
pub struct ConstructorRef<'p> {
    pub attributes: &'p [Name],
    pub constructor: &'p Constructor,
}
