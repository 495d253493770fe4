//! Public calls once more, each handed on under clauses of its own contract: those of the phases, of the checker and of the machine. No program calls
//! these. The wrong bodies in `must-fail/` turn what they answer, and the prover must refuse each.
#![tactic(auto)]

mod checks;
mod phases;
mod runs;

pub use checks::check_of_lines;
pub use phases::{
    accepted_source, first_construction_fault, first_null_fault, first_ownership_fault,
    program_of_tokens, resolved_program, tokens_of_source,
};
pub use runs::end_of_run;
