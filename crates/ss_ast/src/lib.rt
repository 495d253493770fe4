//! The tokens of the language and its syntax trees, each part with its place in the source.
#![tactic(auto)]

mod class;
mod expr;
mod stmt;
mod token;

pub use class::{
    BaseCall, ClassDecl, Clause, Constructor, Member, MemberKind, Method, Modified, Modifier,
    ModifierWord, Param, Program,
};
pub use expr::{Expr, Link, Name, Postfix, TypeName, TypeRef};
pub use ss_core::{Operator, Quantifier};
pub use stmt::{
    AssignOperator, Block, Declaration, Declarator, ForInit, Simple, StepOperator, Stmt,
};
pub use token::{Symbol, Token, TokenKind, Word, same_word};
