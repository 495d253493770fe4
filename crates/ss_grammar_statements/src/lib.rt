//! The grammar of statements and blocks, as a relation between lists of tokens and trees, and what reading by it finds.
#![tactic(auto)]

mod laws;

pub use laws::{
    a_type_and_a_name_declare, beginnings_are_two_productions, more_levels_have_it_too, one_block,
    reading_is_the_grammar, the_nearest_if_has_the_else,
};
