//! The resolved statements of a body, each in the environment after those before it, and the nodes that they are made of.
#![tactic(auto)]

mod built;
mod built_simples;
mod decls;
mod forms;
mod simples;
mod stmts;

pub use built::value_in;
pub use decls::{declare_params, resolve_option};
pub use stmts::resolve_block;
