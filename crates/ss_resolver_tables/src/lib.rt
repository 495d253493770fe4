//! The numbers of classes, fields and bodies, types, and the tables of methods of a source. What they are stands in the definitions of `ss_resolver_rules`.
#![tactic(auto)]

mod slots;
mod starts;
mod tables;
mod types;

pub use slots::{MethodTable, Slot, constructor_id, field_id, method_id};
pub use starts::{Starts, body_starts, field_starts};
pub use tables::{method_tables, table_at, table_place};
pub use types::{
    array_class, class_id, class_number, declared_result, number_or_object, result_type, type_id,
    written_class, written_type,
};
