// What a call goes by.

ghost use Rattle.std.specs.Prelude.{◌≡◌, option_map, if◌then◌else◌};
ghost use Rattle.ss_core.specs.View as view;
ghost use Rattle.ss_vcgen_heaps.specs.Contracts as heaps;
ghost use Rattle.ss_vcgen_heaps.specs.Contracts.{called};
ghost use Rattle.ss_vcgen_contracts.specs.Views.{contract_of, is_dispatched};

use ss_core::{Body, Callee, Core};
use ss_terms::TermId;
use ss_vcgen_types::callee_of;

/// The contract of a body, as it stands, or as it is seen where the call is dispatched on the object's own class.
#[derive(Clone, Copy)]
pub struct Contract<'p> {
    pub body: &'p Body,
    pub seen: bool,
}

/// A run of a body: the store at its entry, a later store, and its arguments.
#[derive(Clone, Copy)]
pub struct Run<'a> {
    pub before: TermId,
    pub after: TermId,
    pub arguments: &'a [TermId],
}

// The contract of a body, where there is one.
fn as_contract(body: Option<&Body>, seen: bool) -> Option<Contract<'_>>
    ensures { option_map contract_of result ≡ option_map (λ b. if seen then heaps.seen b else b) (option_map (λ b. view.body b.now) body.entry) }
{
    match body {
        Some(body) => Some(Contract { body, seen }),
        None => None,
    }
}

fn is_dispatched(callee: &Callee) -> bool
    ensures { result ≡ is_dispatched (view.callee_tree callee.now) }
{
    match callee {
        Callee::Dispatched(..) => true,
        Callee::Static(_) | Callee::Base(_) | Callee::Constructor(_) => false,
    }
}

/// The contract by which a call in the text of a body goes.
pub fn called<'p>(core: &'p Core, body: &Body, callee: &Callee) -> Option<Contract<'p>>
    ensures { option_map contract_of result ≡ called (view.core core.now) (view.body body.now) (view.callee_tree callee.now) }
{
    let dispatched = is_dispatched(callee);
    as_contract(callee_of(core, body, callee), dispatched)
}
