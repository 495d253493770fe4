//! The faults of the phase of types: what isn't of the type or form that is wanted where it stands, calls in conditions, and bodies with a
//! result whose end can be reached. Those of statements, members and programs are defined here, on those of expressions. The code finds
//! those of expressions, and the ends that can be reached.
#![tactic(auto)]

mod ends;
mod expr;
mod shapes;

pub use ends::block_reaches_end;
pub use expr::{PlacedCall, check, check_as, check_call, walk};
pub use shapes::{place_of, place_within};
