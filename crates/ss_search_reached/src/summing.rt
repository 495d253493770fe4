// Whether sums contradict known literals and the equalities of whole numbers of one class.

ghost use Rattle.std.specs.Prelude.{◌≡◌, List, true, IfOk};
ghost use Rattle.ss_core.specs.Tree.{ClassTree};
ghost use Rattle.ss_terms.specs.Forms.{formulas_at, HasFormulas, IsBankOf};
ghost use Rattle.ss_search_clashes.specs.Numbered.{class_of};
ghost use Rattle.ss_search_reached.specs.Following.{HasNoSum};

use crate::linking::whole_links;
use ss_linear::are_met;
use ss_search_clashes::classes_are_of_terms;
use ss_terms::{Bank, FormulaId};
use std::alloc::{AllocError, Global};

/// Whether numbers are seen at which formulas are so, and whole numbers of one class are equal. Then no sum contradicts them. An error is
/// want of memory.
pub fn numbers_are_seen(
    alloc: Global,
    bank: &Bank,
    classes: &[usize],
    known: &[FormulaId],
) -> Result<bool, AllocError>
    requires { HasFormulas bank.now known.now }
    ensures { (cs : List ClassTree) → IsBankOf cs bank.now → IfOk result (λ seen. seen ≡ true → HasNoSum cs (class_of bank.now classes.now) (formulas_at bank.now known.now)) }
{
    classes_are_of_terms(bank);
    let links = whole_links(alloc, bank, classes, known)?;
    are_met(alloc, bank, known, &links)
}
