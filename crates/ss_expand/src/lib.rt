//! The elaboration: the core program of a resolved program.
#![tactic(auto)]

ghost use Rattle.std.specs.Prelude.{◌≡◌, IfOk};
ghost use Rattle.ss_ast.specs.Programs.{ProgramTree};
ghost use Rattle.ss_core.specs.View as core;
ghost use Rattle.ss_typed.specs.View.{typed};
ghost use Rattle.ss_resolver_rules.specs.Programs.{resolved};
ghost use Rattle.ss_store_rules.specs.Formed.{IsFormed};
ghost use Rattle.ss_expand_rules.specs.Elaborated.{elaborated};
ghost use Rattle.ss_expand_programs.specs.Limits.{HasFewClasses};
ghost use Rattle.ss_expand_formed.specs.Whole.{HasNoFault};

use ss_core::Core;
use ss_typed::Typed;
use std::alloc::{AllocError, Global};

/// The core program that the resolved program means. An error is want of memory.
///
/// Of a program in which no phase finds a fault it is formed: its types, tables, assigned locals, non-null values, construction,
/// exposed objects, contracts and invariants are as every later theorem asks.
pub fn expand(alloc: Global, program: &Typed) -> Result<Core, AllocError>
    requires few_classes { HasFewClasses (typed program.now) }
    ensures elaborated { IfOk result (λ c. core.core c ≡ elaborated (typed program.now)) }
    ensures formed { (p : ProgramTree) → HasNoFault p → resolved p ≡ typed program.now → IfOk result (λ c. IsFormed (core.core c)) }
{
    ss_expand_programs::expand(alloc, program)
}
