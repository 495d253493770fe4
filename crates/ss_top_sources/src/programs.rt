// From the bytes of a source to its core program.

ghost use Rattle.std.specs.Prelude.{IfOk};
ghost use Rattle.ss_core.specs.View.{classes};
ghost use Rattle.ss_core.specs.Chain.{IsWithinLimits};
ghost use Rattle.ss_ast.specs.Tokens.{toks};
ghost use Rattle.ss_typed.specs.View.{typed};
ghost use Rattle.ss_top_sources.specs.Sources.{IsAccepted};
ghost use Rattle.ss_top_sources.specs.CoreSources.{Gives};

use crate::{Accepted, elaborate, read_source};
use ss_core::{Core, FrontStop};
use std::alloc::Global;

// The core program of an accepted source.
fn read_accepted(alloc: Global, source: &[u8], accepted: &Accepted) -> Result<Core, FrontStop>
    requires accepted { IsAccepted source.now (toks accepted.now.tokens.items) (typed accepted.now.program) }
    ensures gives { Gives source.now result }
    ensures limits { IfOk result (λ c. IsWithinLimits (classes c.classes)) }
{
    let _source = source;
    let program = elaborate(alloc, accepted)?;
    Ok(program)
}

/// The core program of a source. Refused comes with the first fault of the source.
pub fn read_program(alloc: Global, source: &[u8]) -> Result<Core, FrontStop>
    ensures gives { Gives source.now result }
    ensures limits { IfOk result (λ c. IsWithinLimits (classes c.classes)) }
{
    match read_source(alloc, source) {
        Ok(accepted) => read_accepted(alloc, source, &accepted),
        Err(stop) => Err(stop),
    }
}
