//! Over the numbers of a bank: terms in place of bound names, formulas under more of them, constants that terms and formulas avoid, and what they are
//! outermost.
#![tactic(auto)]

mod avoids_formulas;
mod avoids_terms;
mod constants;
mod formulas;
mod lifts_formulas;
mod lifts_terms;
mod shapes;
mod terms;

pub use constants::{are_constants, are_new};
pub use formulas::{SignedPredicate, put};
pub use lifts_formulas::lift;
pub use lifts_terms::lift_term;
pub use shapes::{is_exists, is_value};
pub use terms::put_term;
