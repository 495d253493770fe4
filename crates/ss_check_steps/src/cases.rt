// The cases that are open.

ghost use Rattle.std.specs.Prelude.{◌≡◌, ℕ, List, [], ◌∷◌, ◌++◌, length, map, IfOk, true, false, reverse};
ghost use Rattle.ss_check_steps.specs.Stack.{IsReopened};

use ss_terms::FormulaId;
use std::alloc::{AllocError, Global};

/// What is known on the path, the cases that wait, and whether a case is open. A case that waits is a front of the path, by
/// its length, and one formula more.
#[derive(Drop)]
pub struct Cases {
    /// What is known on the path.
    pub known: Vec<FormulaId>,
    /// The cases that wait, of which the last is the next.
    pub waiting: Vec<(usize, FormulaId)>,
    /// Whether a case is open.
    pub is_open: bool,
}

impl Cases {
    /// The one case that is open at first, in which nothing is known.
    pub fn new(alloc: Global) -> Self
        ensures known { result.known.items ≡ [] }
        ensures waiting { result.waiting.items ≡ [] }
        ensures is_open { result.is_open ≡ true }
    {
        Cases {
            known: Vec::new(alloc),
            waiting: Vec::new(alloc),
            is_open: true,
        }
    }
}

/// Goes on with the next case that waits.
pub fn reopen(cases: &mut Cases) -> Result<bool, AllocError>
    requires { cases.old.is_open ≡ false }
    ensures { IfOk result (λ yes. IsReopened yes cases.old.known.items cases.old.waiting.items cases.new.is_open cases.new.known.items cases.new.waiting.items) }
{
    let Some((n, f)) = cases.waiting.pop() else {
        return Ok(false);
    };
    cases.known.truncate(n);
    cases.known.push(f)?;
    cases.is_open = true;
    Ok(true)
}

/// Closes the case, and lets one case wait for each of the formulas.
pub(crate) fn open_all(cases: &mut Cases, fs: &[FormulaId]) -> Result<(), AllocError>
    ensures known { IfOk result (λ _. cases.new.known.items ≡ cases.old.known.items) }
    ensures is_open { IfOk result (λ _. cases.new.is_open ≡ false) }
    ensures waiting { IfOk result (λ _. reverse cases.new.waiting.items ≡ map (λ f. (length cases.old.known.items, f)) fs.now ++ reverse cases.old.waiting.items) }
{
    push_all(&mut cases.waiting, cases.known.len(), fs)?;
    cases.is_open = false;
    Ok(())
}

/// Puts a case for each formula on the stack, the first one on top.
fn push_all(
    waiting: &mut Vec<(usize, FormulaId)>,
    n: usize,
    fs: &[FormulaId],
) -> Result<(), AllocError>
    ensures { IfOk result (λ _. reverse waiting.new.items ≡ map (λ f. (n, f)) fs.now ++ reverse waiting.old.items) }
{
    for i in 0..fs.len() {
        let f = fs[fs.len() - 1 - i];
        waiting.push((n, f))?;
    }
    Ok(())
}
