//! Definitions of the checked machine: the frame condition, frames and states, one step, runs, and which states are good.
//! They stand in `specs/`; here are the enums that they share with code.
#![tactic(auto)]

use ss_core::{ClassId, FieldId};

/// A location of a store: what the frame condition speaks of.
#[derive(Clone, Copy, Debug, PartialEq, Eq)]
pub enum Location {
    /// The field of the object at this position.
    Field(u32, FieldId),
    /// The element of the array at this position, and its index.
    Element(u32, u32),
    /// The level of the object.
    Level(u32),
    /// Whether the object is committed.
    Committed(u32),
    /// The owner of the object.
    OwnerOf(u32),
}

/// What a term of a `modifies` clause names.
#[derive(Clone, Copy, Debug, PartialEq, Eq)]
pub enum Named {
    /// One field of the object.
    Field(u32, FieldId),
    /// The level and all fields of the object.
    All(u32),
    /// The elements of the array.
    Elements(u32),
    /// The level of the object, and the fields that this class and those above it declare.
    Upto(u32, ClassId),
}
