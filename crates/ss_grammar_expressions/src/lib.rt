//! The grammar of expressions, as a relation between lists of tokens and trees, and what reading by it finds.
#![tactic(auto)]

mod laws;

pub use laws::{one_expression, reading_is_the_grammar};
