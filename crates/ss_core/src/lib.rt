//! Core programs of the whole language: classes with their fields, invariants and tables of methods, and bodies. In these names
//! are numbers, and every implied step is written out.
#![tactic(auto)]

mod body;
mod chain;
mod class;
mod class_kind;
mod expr;
mod names;
mod rules;
mod stmt;
mod types;

pub use body::{Body, BodyFlags, Core, Local, Modifies};
pub use chain::{MOST_ABOVE, MOST_CLASSES, MOST_FIELDS, MOST_LEVELS};
pub use class::{Class, Classes, Entry, Field};
pub use class_kind::{ClassKind, declared_place, is_array_number};
pub use expr::{DefaultCondition, Expr, Link, Operator, OwnerTest, Quantifier, StateWord, Step};
pub use names::{BodyId, ClassId, FieldId, FrontStop, Kind, Mark, Place, Ty};
pub use rules::Rule;
pub use stmt::{Callee, Exposed, Loop, Stmt};
pub use types::{is_class_type, is_non_null, is_non_null_type, nullable};
