//! Definitions of the object store: values, objects and their owners, what each change does, and what every good store keeps.
//! They stand in `specs/`; here are the enums that they share with code.
#![tactic(auto)]

use ss_core::{ClassId, Kind, Place};

/// A value of a local, a field or an element.
#[derive(Clone, Copy, Debug, PartialEq, Eq)]
pub enum Value {
    Int(i32),
    Bool(bool),
    /// The object at this position of the store.
    Obj(u32),
    Null,
}

/// The owner of an object (ECOOP 2004).
#[derive(Clone, Copy, Debug, PartialEq, Eq)]
pub enum Owner {
    /// None yet: the object is a member of the group of this number.
    Group(u32),
    /// The object at this position, at this class.
    Owned(u32, ClassId),
}

/// Why an expression has no value: the check that fails, and its place.
#[derive(Clone, Copy, Debug, PartialEq, Eq)]
pub struct Undefined {
    pub kind: Kind,
    pub place: Place,
}

/// A change that is refused, and which check failed.
#[derive(Clone, Copy, Debug, PartialEq, Eq)]
pub struct Refused {
    pub kind: Kind,
}
