// What a formula of a bank says.

ghost use Rattle.std.specs.Prelude.{◌≡◌, map, Bool, None, IfOk, IfSome};
ghost use Rattle.ss_terms.specs.Forms.{formula_at, HasFormula};
ghost use Rattle.ss_equality_rules.specs.Equal.{class_number};
ghost use Rattle.ss_search_procedure_rules.specs.Clashes.{Classing};
ghost use Rattle.ss_search_clashes.specs.Numbered.{IsClassing};
ghost use Rattle.ss_search_clashes.specs.Says.{Key, key_of, Says};

use crate::signatures::Signature;
use ss_terms::{Bank, Formula, FormulaId, TermId};
use std::alloc::{AllocError, Global};

/// Of what something is said, and whether that holds.
#[derive(Drop)]
pub(crate) struct Saying {
    pub(crate) signature: Signature,
    pub(crate) holds: bool,
}

/// The class of a term.
pub(crate) fn class(classes: &[usize], t: TermId) -> usize
    ensures { result ≡ class_number classes.now t }
{
    classes.get(t.0).copied().unwrap_or(0)
}

// The classes of terms.
fn classes_at(alloc: Global, classes: &[usize], ts: &[TermId]) -> Result<Vec<usize>, AllocError>
    ensures { IfOk result (λ v. v.items ≡ map (class_number classes.now) ts.now) }
{
    let mut found = Vec::new(alloc);
    for t in ts {
        found.push(class(classes, *t))?;
    }
    Ok(found)
}

/// What a literal or a quantified formula says. An error is want of memory.
pub(crate) fn said_by(
    alloc: Global,
    bank: &Bank,
    classes: &[usize],
    f: FormulaId,
) -> Result<Option<Saying>, AllocError>
    requires { HasFormula bank.now f }
    ensures some { (class : Classing) → IsClassing bank.now classes.now class → IfOk result (λ o. IfSome o (λ s. Says bank.now class (formula_at bank.now f) (key_of s.signature) s.holds)) }
    ensures none { (class : Classing) → IfOk result (λ o. o ≡ None → (k : Key) (holds : Bool) → Says bank.now class (formula_at bank.now f) k holds → ⊥) }
{
    match bank.formula_node(f) {
        Formula::Literal {
            holds,
            predicate,
            arguments,
        } => {
            let found = classes_at(alloc, classes, arguments)?;
            Ok(Some(Saying {
                signature: Signature::Atom(*predicate, found),
                holds: *holds,
            }))
        }
        Formula::And(_) => Ok(None),
        Formula::Or(_) => Ok(None),
        Formula::Forall(_, _) => Ok(Some(Saying {
            signature: Signature::Quantified(f.0),
            holds: true,
        })),
        Formula::Exists(_, _) => Ok(Some(Saying {
            signature: Signature::Quantified(bank.negation(f).0),
            holds: false,
        })),
    }
}
