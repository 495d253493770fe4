//! Known literals and the classes of a congruence: whether they contradict each other, and the lines of a derivation that say so. The lines that make
//! known what follows by congruence, and what it is that lines close a case.
#![tactic(auto)]

mod clashes;
mod clashing;
mod context;
mod ends;
mod equalities;
mod equating;
mod facts;
mod known;
mod laws;
mod needed;
mod opposing;
mod placing;
mod says;
mod signatures;
mod values;
mod ways;

pub use clashes::{Clash, Found, find_clash, look};
pub use clashing::{close, close_against};
pub use context::CongruenceContext;
pub use equalities::{Equality, sides};
pub use equating::{Shown, equate, swap};
pub use facts::Fact;
pub use known::{Against, Known};
pub use laws::{classes_are_of_terms, what_has_no_clash_fits};
