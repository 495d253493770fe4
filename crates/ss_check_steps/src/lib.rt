//! What single lines of a derivation read and make known: parts, equalities, instances of a `forall`, clashes, and the cases that are open.
#![tactic(auto)]

mod cases;
mod facts;
mod instances;
mod literals;
mod reads;
mod splits;

pub use cases::{Cases, reopen};
pub use facts::{chain, cong, part, swap};
pub use instances::inst;
pub use literals::good_store_at;
pub use reads::known_at;
pub use splits::{close, cut, learn, split};
