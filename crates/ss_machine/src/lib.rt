//! The checked machine: it runs core programs of the whole language with all their checks, exactly as the definition of a run says.
#![tactic(auto)]

mod calls;
mod frame;
mod good;
mod halt;
mod loops;
mod machine;
mod pieces;
mod printing;
mod run;
mod step;
mod values;
mod writes;

pub use pieces::pieces_are_printed;
pub use run::{CheckedEnd, run_checked};
