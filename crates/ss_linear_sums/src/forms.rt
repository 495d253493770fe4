// Linear sums over the numbers of a bank.

ghost use Rattle.std.specs.Prelude.{◌≡◌, pos, [], ◌∷◌, IfOk};
ghost use Rattle.ss_logic.specs.Sums.{number_sum, term_sum};
ghost use Rattle.ss_terms.specs.Forms.{Forms, term_at, HasTerm};
ghost use Rattle.ss_linear_sums.specs.Linear.{sum_at, HasParts};

use ss_terms::{Bank, TermId};
use std::alloc::{AllocError, Global};

/// A term and its coefficient.
#[derive(Clone, Copy)]
pub struct Part {
    pub term: TermId,
    pub coefficient: i128,
}

/// Terms, each once and with a coefficient, and a number.
#[derive(Drop)]
pub struct LinearSum {
    pub parts: Vec<Part>,
    pub constant: i128,
}

/// A sum that is 0, or at most 0.
#[derive(Drop)]
pub struct SumFact {
    pub is_equality: bool,
    pub sum: LinearSum,
}

/// The sum that a number is.
pub(crate) fn number_sum(alloc: Global, n: i128) -> LinearSum
    ensures sum { (b : Forms) → sum_at b result ≡ number_sum n }
    ensures parts { result.parts.items ≡ [] }
{
    LinearSum {
        parts: Vec::new(alloc),
        constant: n,
    }
}

/// The sum that a term alone is.
pub(crate) fn term_sum(alloc: Global, bank: &Bank, t: TermId) -> Result<LinearSum, AllocError>
    requires { HasTerm bank.now t }
    ensures sum { IfOk result (λ s. sum_at bank.now s ≡ term_sum (term_at bank.now t)) }
    ensures parts { IfOk result (λ s. HasParts bank.now s.parts.items) }
{
    let _ = bank;
    let parts = vec![in alloc;
        Part {
            term: t,
            coefficient: 1
        },
    ]?;
    Ok(LinearSum { parts, constant: 0 })
}

/// The sum once more.
pub(crate) fn copied(alloc: Global, sum: &LinearSum) -> Result<LinearSum, AllocError>
    ensures parts { IfOk result (λ s. s.parts.items ≡ sum.now.parts.items) }
    ensures constant { IfOk result (λ s. s.constant ≡ sum.now.constant) }
{
    let parts = Vec::from_slice(alloc, &sum.parts)?;
    Ok(LinearSum {
        parts,
        constant: sum.constant,
    })
}
