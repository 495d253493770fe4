//! What the search makes in the bank: instances, new constants, and terms and atoms that are asked for. And what it keeps of
//! that: what isn't named is forgotten. Numbers are looked up before they are used, so nothing is asked of them.
#![tactic(auto)]

mod kept;
mod made;

pub use kept::{keep_named, no_names};
pub use made::{
    Arguments, arguments_of, atom_made, choice_made, constants_of, delayed_made, good_made,
    inst_made, piece_made, rule_made, term_made, terms_alone,
};
