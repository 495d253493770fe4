// The owners that occur.

ghost use Rattle.std.specs.Prelude.{◌++◌, filter_map, option_map, option_to_list, IfOk, IfSome, OnOk};
ghost use Rattle.ss_logic.specs.Terms.{terms_from};
ghost use Rattle.ss_logic.specs.Asked as spec;
ghost use Rattle.ss_terms.specs.Forms.{term_at, terms_at, HasTerm, HasTerms};
ghost use Rattle.ss_rules_asked_first.specs.Good.{owner_at, owners_at, HasOwner, HasOwners, IsOwner, AreOwners};

use ss_terms::{Bank, Symbol, Term, TermId};
use std::alloc::{AllocError, Global};

/// The parts of a pair.
#[derive(Clone, Copy)]
pub(crate) struct Owner {
    pub(crate) object: TermId,
    pub(crate) class: TermId,
}

fn two_parts(bank: &Bank, ts: &[TermId]) -> Option<Owner>
    requires { HasTerms bank.now ts.now }
    ensures { IsOwner bank.now result (spec.two_parts (terms_from (terms_at bank.now ts.now))) }
{
    let _ = bank;
    match ts {
        [] => None,
        [_] => None,
        [object, class] => Some(Owner {
            object: *object,
            class: *class,
        }),
        [_, _, _, ..] => None,
    }
}

// The parts of a term that is a pair.
fn pair_parts(bank: &Bank, t: TermId) -> Option<Owner>
    requires { HasTerm bank.now t }
    ensures { IsOwner bank.now result (spec.pair_parts (term_at bank.now t)) }
{
    match bank.term_node(t) {
        Term::App(Symbol::Pair, ts) => two_parts(bank, ts),
        _ => None,
    }
}

// Adds an owner, if it is one.
#[tactic(auto, using(crate::proofs::Gathering::owner_kept))]
fn add_owner(bank: &Bank, owners: &mut Vec<Owner>, owner: Option<Owner>) -> Result<(), AllocError>
    requires owners { HasOwners bank.now owners.old.items }
    requires owner { IfSome owner (HasOwner bank.now) }
    ensures { OnOk result (AreOwners bank.now owners.new.items (owners_at bank.now owners.old.items ++ option_to_list (option_map (owner_at bank.now) owner))) }
{
    let _ = bank;
    match owner {
        Some(p) => {
            owners.push(p)?;
            Ok(())
        }
        None => Ok(()),
    }
}

/// The parts of the pairs among terms. An error is want of memory.
pub(crate) fn owners(alloc: Global, bank: &Bank, terms: &[TermId]) -> Result<Vec<Owner>, AllocError>
    requires { HasTerms bank.now terms.now }
    ensures { IfOk result (λ v. AreOwners bank.now v.items (filter_map spec.pair_parts (terms_at bank.now terms.now))) }
{
    let mut owners = Vec::new(alloc);
    for t in terms {
        let owner = pair_parts(bank, *t);
        add_owner(bank, &mut owners, owner)?;
    }
    Ok(owners)
}
