//! What a search knows on its trail: what follows of it without instances and cases, and what is asked for.
#![tactic(auto)]

mod asking;
mod bundles;
mod closing;
mod numbers;
mod positions;
mod requests;
mod state;

pub use asking::reads_store;
pub use requests::{Request, Wanted, new_request};
pub use state::{Extent, Limits, Mark, State, Step, first_mark};
