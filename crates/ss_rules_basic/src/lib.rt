//! The instances of the rules that speak of no read: which reference is new, which classes count as others, of which parts owners are, and what is
//! known of whole numbers and truth values. The arguments of rules, plans of terms, and the sentences that instances are.
#![tactic(auto)]

mod arguments;
mod classes;
mod clauses;
mod facts;
mod fresh;
mod looks;
mod owners;
mod plans;
mod sentences;
mod values;

pub use arguments::{class_name, is_null, literal, natural, next_store, one, two};
pub use classes::class_rule;
pub use clauses::{Claim, Clause, fill};
pub use facts::Fact;
pub use fresh::fresh_rule;
pub use looks::{Look, class_of_field, field_named, mark_of_field, read_named, type_of_field};
pub use owners::split_rule;
pub use plans::{Plan, Slot};
pub use sentences::{Sentence, make_all};
pub use values::{apart_rule, bool_rule, quorem_rule};
