//! Statements and blocks from tokens: the block, its tree, and the first token that cannot go on. The modules have the readers
//! of their parts, for what stands above statements.
#![tactic(auto)]

mod blocks;
pub mod declarations;
mod exposes;
mod governed;
pub mod headings;
mod loops;
pub mod posts;
pub mod simples;
pub mod statements;

pub use blocks::parse_block;
pub use ss_parser_expressions::parse_expr;
