//! The search for derivations over stores: one trail for all obligations of a program. On it proofs are found by what the denied
//! goal asks for, by splits and by what follows without one. Nothing trusts it: a checker decides of what it finds.
#![tactic(auto)]

mod cases;
mod choices;
mod conditions;
mod engine;
mod made;
mod satisfying;

pub use engine::{Answer, Engine};
pub use satisfying::Order;
pub use ss_search_state::Limits;
