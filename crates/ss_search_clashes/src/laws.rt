// The classes of a congruence that nothing contradicts.

ghost use Rattle.std.specs.Prelude.{ℕ, List};
ghost use Rattle.ss_terms.specs.declared.forms.FormulaId.{FormulaId};
ghost use Rattle.ss_terms.specs.Forms.{TermShape, formulas_at};
ghost use Rattle.ss_equality_rules.specs.declared.Merge.{Merge};
ghost use Rattle.ss_equality_rules.specs.Equal.{AreFormsOf, AreClassesOf};
ghost use Rattle.ss_search_procedure_rules.specs.Closed.{basics};
ghost use Rattle.ss_search_procedure_rules.specs.Clashes.{FitsClasses};
ghost use Rattle.ss_search_clashes.specs.Numbered.{class_of, IsClassing, HasNoClash, AreMerged};

use ss_terms::Bank;

/// Where nothing contradicts the classes of a congruence in which known equalities are merged, the known literals and quantified
/// formulas fit them.
pub fn what_has_no_clash_fits(bank: &Bank)
    ensures { (ts : List TermShape) (ms : List Merge) (classes : List ℕ) (known : List FormulaId) → AreFormsOf bank.now ts → AreClassesOf ts ms classes → AreMerged bank.now ts ms known → HasNoClash bank.now (class_of bank.now classes) known → FitsClasses (class_of bank.now classes) (basics (formulas_at bank.now known)) }
{
    bank.numbers_are_apart();
}

/// Each term of a bank has the class of its number.
pub fn classes_are_of_terms(bank: &Bank)
    ensures { (classes : List ℕ) → IsClassing bank.now classes (class_of bank.now classes) }
{
    bank.numbers_are_apart();
}
