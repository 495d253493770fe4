// The phases of the front end, one after the other.

ghost use Rattle.std.specs.Prelude.{◌≡◌, ℕ, List, IfOk};
ghost use Rattle.ss_core.specs.View as core;
ghost use Rattle.ss_ast.specs.Tokens.{Tok, toks};
ghost use Rattle.ss_ast.specs.Programs.{program_tree};
ghost use Rattle.ss_lexer.specs.Reading.{HasTokens};
ghost use Rattle.ss_faults.specs.First.{Answers};
ghost use Rattle.ss_typed.specs.View.{typed};
ghost use Rattle.ss_expand_rules.specs.Elaborated.{elaborated};
ghost use Rattle.ss_resolver.specs.Phases.{ResolvesTo};
ghost use Rattle.ss_top_sources.specs.Phases.{typed_fault};
ghost use Rattle.ss_top_sources.specs.Sources.{AreProgram, IsAccepted, Gives};

use ss_ast::{Program, Token};
use ss_core::FrontStop;
use ss_decls::parse_program;
use ss_delayed::check_construction;
use ss_expand::expand;
use ss_lexer::tokens;
use ss_nonnull::check_nulls;
use ss_owners::check_ownership;
use ss_resolver::resolve;
use ss_typed::Typed;
use std::alloc::{AllocError, Global};

/// An accepted source: its tokens, and its resolved program.
#[derive(Drop)]
pub struct Accepted {
    pub tokens: Vec<Token>,
    pub program: Typed,
}

// The phases of a resolved program, one after the other.
fn check_phases(alloc: Global, program: &Typed) -> Result<(), FrontStop>
    ensures { Answers (typed_fault (typed program.now)) result }
{
    check_nulls(alloc, program)?;
    check_construction(alloc, program)?;
    check_ownership(alloc, program)
}

// The phases after names and types.
fn check_typed(
    alloc: Global,
    source: &[u8],
    tokens: Vec<Token>,
    tree: &Program,
    program: Typed,
) -> Result<Accepted, FrontStop>
    requires reads { HasTokens source.now (toks tokens.items) }
    requires parses { AreProgram (toks tokens.items) (program_tree tree.now) }
    requires resolves { ResolvesTo (program_tree tree.now) (typed program) }
    ensures { Gives source.now result }
{
    let _source = source;
    let _tree = tree;
    match check_phases(alloc, &program) {
        Ok(()) => Ok(Accepted { tokens, program }),
        Err(stop) => Err(stop),
    }
}

// The phases after the grammar.
fn check_program(
    alloc: Global,
    source: &[u8],
    tokens: Vec<Token>,
    tree: &Program,
) -> Result<Accepted, FrontStop>
    requires reads { HasTokens source.now (toks tokens.items) }
    requires parses { AreProgram (toks tokens.items) (program_tree tree.now) }
    ensures { Gives source.now result }
{
    match resolve(alloc, tree) {
        Ok(program) => check_typed(alloc, source, tokens, tree, program),
        Err(stop) => Err(stop),
    }
}

// The phases after the tokens.
fn read_program(alloc: Global, source: &[u8], tokens: Vec<Token>) -> Result<Accepted, FrontStop>
    requires reads { HasTokens source.now (toks tokens.items) }
    ensures { Gives source.now result }
{
    match parse_program(alloc, &tokens) {
        Ok(tree) => check_program(alloc, source, tokens, &tree),
        Err(stop) => Err(stop),
    }
}

/// The tokens and the resolved program of a source. Refused comes with its first fault: rule 5 where it is too long, 1 to 4 at its
/// bytes, 10 to 12 at its tokens, 20 to 23, 25 and 27 at its names, 24, 26 and 28 at its types, 27 at a body with too many locals,
/// 30 and 31 at what may be null, 40 to 42 at its constructors, and 50 to 52 at its invariants, words of conditions and attributes.
pub fn read_source(alloc: Global, source: &[u8]) -> Result<Accepted, FrontStop>
    ensures { Gives source.now result }
{
    match tokens(alloc, source) {
        Ok(tokens) => read_program(alloc, source, tokens),
        Err(stop) => Err(stop),
    }
}

/// The core program of an accepted source.
pub fn elaborate(alloc: Global, accepted: &Accepted) -> Result<ss_core::Core, AllocError>
    requires accepted { (source : List ℕ) × (tokens : List Tok) × IsAccepted source tokens (typed accepted.now.program) }
    ensures { IfOk result (λ c. core.core c ≡ elaborated (typed accepted.now.program)) }
{
    expand(alloc, &accepted.program)
}
