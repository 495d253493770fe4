// What derivations show.

ghost use Rattle.std.specs.Prelude.{◌≡◌, ℕ, List, Some, None};
ghost use Rattle.ss_core.specs.Tree.{ClassTree};
ghost use Rattle.ss_core.specs.Chain.{IsChain, NoAlso};
ghost use Rattle.ss_logic.specs.Formulas.{Formula, IsValid};
ghost use Rattle.ss_logic_means.specs.Scenes.{AreInvariants};
ghost use Rattle.ss_logic_means.specs.Steps.{Line, Derives, first_bad};

/// What is derived is valid: in every structure in which the premises are true the goal is.
pub fn what_is_derived_is_valid()
    ensures { (cs : List ClassTree) → IsChain cs → NoAlso cs → AreInvariants cs → (premises : List Formula) (goal : Formula) (lines : List Line) → Derives cs premises goal lines → IsValid cs premises goal }
{}

/// Lines of which none is bad are a derivation.
pub fn lines_without_a_bad_one_derive()
    ensures { (cs : List ClassTree) (premises : List Formula) (goal : Formula) (lines : List Line) → first_bad cs premises goal lines ≡ None → Derives cs premises goal lines }
{}

/// Lines of which one is bad are none.
pub fn a_bad_line_derives_nothing()
    ensures { (cs : List ClassTree) (premises : List Formula) (goal : Formula) (lines : List Line) (n : ℕ) → first_bad cs premises goal lines ≡ Some n → Derives cs premises goal lines → ⊥ }
{}
