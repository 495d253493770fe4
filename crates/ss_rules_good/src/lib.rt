//! The instances of the rules on good stores.
#![tactic(auto)]

mod elements;
mod full;
mod marks;
mod owned;
mod ready;
mod rules;
mod typed;

pub use rules::good_sentence_at;
