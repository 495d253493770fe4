//! The classes and members of a program by name: maps made once, each look-up exactly the one that is defined.
#![tactic(auto)]

mod members;
mod named;
mod places;
mod shelves;
mod tables;
mod types;

pub use members::{ConstructorRef, FieldRef, MethodRef};
pub use named::NameMap;
pub use places::{class_places, field_places, method_places};
pub use shelves::{Shelf, fill_shelf};
pub use ss_core::{declared_place, is_array_number};
pub use tables::Tables;
pub use types::{StaticType, class_of, element_type, nullable};
