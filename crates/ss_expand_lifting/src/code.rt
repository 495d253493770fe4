// Code of the core program.

ghost use Rattle.std.specs.Prelude.{◌≡◌, ◌++◌, [], ◌∷◌, OnOk};
ghost use Rattle.ss_core.specs.View.{stmt_of};
ghost use Rattle.ss_expand_expressions.specs.Sources.{stmts_of};

use ss_core::Stmt;
use ss_expand_expressions::add_stmt;
use std::alloc::{AllocError, Global};

/// Statements that have been made so far.
#[derive(Drop)]
pub struct Code {
    pub statements: Vec<Stmt>,
}

impl Code {
    /// No statements.
    pub fn new(alloc: Global) -> Self
        ensures { stmts_of result.statements ≡ [] }
    {
        Code {
            statements: Vec::new(alloc),
        }
    }

    /// Adds a statement.
    pub fn add(&mut self, statement: Stmt) -> Result<(), AllocError>
        ensures { OnOk result (stmts_of self.new.statements ≡ stmts_of self.old.statements ++ stmt_of statement ∷ []) }
    {
        add_stmt(&mut self.statements, statement)
    }
}
