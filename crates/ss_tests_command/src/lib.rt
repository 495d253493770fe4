//! The command and its messages once more, each handed on under clauses of its own contract. No program calls these. The wrong bodies in `must-fail/`
//! turn what they answer, and the prover must refuse each.
#![tactic(auto)]

mod command;
mod messages;

pub use command::answer_to_words;
pub use messages::message_of_refusal;
