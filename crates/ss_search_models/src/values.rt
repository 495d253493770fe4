// Whether different values have different classes.

ghost use Rattle.std.specs.Prelude.{◌≡◌, true, IfOk, OnOk};
ghost use Rattle.ss_terms.specs.Forms.{HasTerm};
ghost use Rattle.ss_rules_occurring.specs.Found.{terms_of};
ghost use Rattle.ss_search_models.specs.Candidates.{model_at, HasCandidate};
ghost use Rattle.ss_search_models.specs.Keys.{Keeps};
ghost use Rattle.ss_search_models.specs.Said.{IsValueSaid, are_values_apart};

use crate::candidate::Candidate;
use crate::signatures::{Given, Signature, Signatures};
use ss_terms::{Bank, TermId};
use ss_terms_puts::is_value;
use std::alloc::{AllocError, Global};

// Whether no other value stands in the class of the term, where it is a value.
fn value_agrees(
    bank: &Bank,
    candidate: &Candidate<'_>,
    signatures: &mut Signatures,
    t: TermId,
) -> Result<bool, AllocError>
    requires candidate { HasCandidate bank.now candidate.now }
    requires term { HasTerm bank.now t }
    ensures said { IfOk result (λ r. r ≡ true → IsValueSaid signatures.new bank.now (model_at bank.now candidate.now) t) }
    ensures kept { OnOk result (Keeps signatures.old signatures.new) }
{
    if !is_value(bank, t) {
        return Ok(true);
    }
    let class = candidate.class(bank, t);
    signatures.agrees(Signature::Value(class), Given::Value(t))
}

/// Whether two different values have different classes. An error is want of memory.
pub(crate) fn values_differ(
    alloc: Global,
    bank: &Bank,
    candidate: &Candidate<'_>,
) -> Result<bool, AllocError>
    requires { HasCandidate bank.now candidate.now }
    ensures { IfOk result (λ r. r ≡ true → are_values_apart (model_at bank.now candidate.now) (terms_of bank.now candidate.now.terms.now) ≡ true) }
{
    let mut signatures = Signatures::new(alloc);
    for t in &candidate.terms.list {
        if !value_agrees(bank, candidate, &mut signatures, *t)? {
            return Ok(false);
        }
    }
    Ok(true)
}
