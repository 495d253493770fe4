//! Expressions from tokens: the longest one, its tree, and the first token that cannot go on. The modules have the readers of
//! their parts, for what stands above expressions.
#![tactic(auto)]

pub mod arguments;
mod casts;
mod chains;
mod enclosed;
mod expr;
pub mod expressions;
pub mod paths;
pub mod quantifiers;
pub mod refusal;
pub mod types;
mod unaries;

pub use expr::parse_expr;

/// How deep brackets, statements and operands nest at most.
pub const LEVELS: u32 = 64;
