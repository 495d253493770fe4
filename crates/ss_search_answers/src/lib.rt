//! What a search answers: of one obligation, and of the obligations of a program. Who only reads answers needs no search.
#![tactic(auto)]

mod answers;

pub use answers::{Budget, Countered, Found, Options, Undecided, Verdict};
pub use ss_logic_countermodels::Countermodel;
