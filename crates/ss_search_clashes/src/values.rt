// Different values in one class.

ghost use Rattle.std.specs.Prelude.{◌≡◌, ◌≢◌, ◌+◌, None, true, IfOk, OnOk, IfSome};
ghost use Rattle.ss_terms.specs.Forms.{HasTerm};
ghost use Rattle.ss_equality_rules.specs.Equal.{class_number};
ghost use Rattle.ss_search_procedure_rules.specs.Clashes.{Classing};
ghost use Rattle.ss_search_clashes.specs.Numbered.{IsClassing, AreValuesApart};
ghost use Rattle.ss_search_clashes.specs.Says.{ValueKey, IsStep};
ghost use Rattle.ss_search_clashes.specs.Values.{IsEntered, AreEntered, AreOneClass};

use crate::says::class;
use crate::signatures::{Said, Signature, Signatures};
use ss_terms::{Bank, TermId};
use ss_terms_puts::is_value;
use std::alloc::{AllocError, Global};

// The number of another term.
fn other_than(place: usize, t: TermId) -> Option<TermId>
    ensures none { result ≡ None → place ≡ t.0 }
    ensures some { IfSome result (λ s. (s.0 ≡ place) × (s.0 ≢ t.0)) }
{
    if place == t.0 {
        None
    } else {
        Some(TermId(place))
    }
}

// Enters a value at its class. Another value that stands there.
fn enter(
    classes: &[usize],
    entered: &mut Signatures,
    t: TermId,
) -> Result<Option<TermId>, AllocError>
    ensures step { OnOk result (IsStep entered.old entered.new (ValueKey (class_number classes.now t)) (record { place = t.0; holds = true })) }
    ensures entered { IfOk result (λ o. o ≡ None → IsEntered entered.new (class_number classes.now t) t.0) }
    ensures other { IfOk result (λ o. IfSome o (λ s. (s.0 ≢ t.0) × IsEntered entered.old (class_number classes.now t) s.0)) }
{
    let signature = Signature::Value(class(classes, t));
    if let Some(first) = entered.find(&signature) {
        return Ok(other_than(first.place, t));
    }
    let said = Said {
        place: t.0,
        holds: true,
    };
    entered.insert(signature, said)?;
    Ok(None)
}

// Enters the next term, where it is a value. Another value of its class.
fn enter_next(
    bank: &Bank,
    classes: &[usize],
    entered: &mut Signatures,
    t: TermId,
) -> Result<Option<TermId>, AllocError>
    requires { HasTerm bank.now t }
    ensures more { AreEntered bank.now classes.now t.0 entered.old → IfOk result (λ o. o ≡ None → AreEntered bank.now classes.now (t.0 + 1) entered.new) }
    ensures other { (class : Classing) → IsClassing bank.now classes.now class → AreEntered bank.now classes.now t.0 entered.old → IfOk result (λ o. IfSome o (λ s. AreOneClass bank.now class s t)) }
{
    if !is_value(bank, t) {
        return Ok(None);
    }
    enter(classes, entered, t)
}

/// Two different values of the bank in one class. An error is want of memory.
pub(crate) fn find_values(
    alloc: Global,
    bank: &Bank,
    classes: &[usize],
) -> Result<Option<(TermId, TermId)>, AllocError>
    ensures none { (class : Classing) → IsClassing bank.now classes.now class → IfOk result (λ o. o ≡ None → AreValuesApart bank.now class) }
    ensures some { (class : Classing) → IsClassing bank.now classes.now class → IfOk result (λ o. IfSome o (λ p. AreOneClass bank.now class p.0 p.1)) }
{
    let mut entered = Signatures::new(alloc);
    for number in 0..bank.term_count() {
        let t = TermId(number);
        if let Some(s) = enter_next(bank, classes, &mut entered, t)? {
            return Ok(Some((s, t)));
        }
    }
    Ok(None)
}
