// The phases of the front end.

ghost use Rattle.ss_ast.specs.Programs.{program_tree};
ghost use Rattle.ss_decls.specs.Answer.{ProgramAnswer};
ghost use Rattle.ss_delayed_rules.specs.Program.{construction_faults};
ghost use Rattle.ss_faults.specs.First as first;
ghost use Rattle.ss_lexer.specs.Reading as lexer;
ghost use Rattle.ss_nonnull_rules.specs.Program.{null_faults};
ghost use Rattle.ss_owners_rules.specs.Program.{ownership_faults};
ghost use Rattle.ss_resolver.specs.Phases.{Resolves};
ghost use Rattle.ss_top_sources.specs.Sources.{Gives};
ghost use Rattle.ss_typed.specs.View.{typed};

use ss_ast::{Program, Token};
use ss_core::FrontStop;
use ss_decls::parse_program;
use ss_delayed::check_construction;
use ss_lexer::tokens;
use ss_nonnull::check_nulls;
use ss_owners::check_ownership;
use ss_resolver::resolve;
use ss_top_sources::{Accepted, read_source};
use ss_typed::Typed;
use std::alloc::Global;

/// The tokens of a source.
pub fn tokens_of_source(alloc: Global, source: &[u8]) -> Result<Vec<Token>, FrontStop>
    ensures { lexer.Answers source.now result }
{
    tokens(alloc, source)
}

/// The program that tokens are.
pub fn program_of_tokens(alloc: Global, tokens: &[Token]) -> Result<Program, FrontStop>
    ensures { ProgramAnswer tokens.now result }
{
    parse_program(alloc, tokens)
}

/// The resolved program.
pub fn resolved_program(alloc: Global, program: &Program) -> Result<Typed, FrontStop>
    ensures { Resolves (program_tree program.now) result }
{
    resolve(alloc, program)
}

/// The first fault of null.
pub fn first_null_fault(alloc: Global, program: &Typed) -> Result<(), FrontStop>
    ensures { first.Answers (first.first_fault (null_faults (typed program.now))) result }
{
    check_nulls(alloc, program)
}

/// The first fault of construction.
pub fn first_construction_fault(alloc: Global, program: &Typed) -> Result<(), FrontStop>
    ensures { first.Answers (first.first_fault (construction_faults (typed program.now))) result }
{
    check_construction(alloc, program)
}

/// The first fault of ownership.
pub fn first_ownership_fault(alloc: Global, program: &Typed) -> Result<(), FrontStop>
    ensures { first.Answers (first.first_fault (ownership_faults (typed program.now))) result }
{
    check_ownership(alloc, program)
}

/// The tokens and the resolved program of a source.
pub fn accepted_source(alloc: Global, source: &[u8]) -> Result<Accepted, FrontStop>
    ensures { Gives source.now result }
{
    read_source(alloc, source)
}
