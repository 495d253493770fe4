// The obligations of a source.

ghost use Rattle.ss_ast.specs.Tokens.{toks};
ghost use Rattle.ss_typed.specs.View.{typed};
ghost use Rattle.ss_top_sources.specs.Sources.{IsAccepted};

use ss_top_sources::{Accepted, elaborate, read_source};
use ss_vcgen::{Obligations, obligations};
use std::alloc::Global;

fn of_accepted(alloc: Global, source: &[u8], accepted: &Accepted) -> Option<Obligations>
    requires accepted { IsAccepted source.now (toks accepted.now.tokens.items) (typed accepted.now.program) }
{
    let _source = source;
    match elaborate(alloc, accepted) {
        Ok(program) => obligations(alloc, &program).ok(),
        Err(_) => None,
    }
}

/// The obligations of a source, or nothing where it is refused or memory is wanting.
pub fn of_source(alloc: Global, source: &[u8]) -> Option<Obligations> {
    match read_source(alloc, source) {
        Ok(accepted) => of_accepted(alloc, source, &accepted),
        Err(_) => None,
    }
}
