// What isn't closed, and what has a model.

ghost use Rattle.std.specs.Prelude.{◌≡◌, ◌⊎◌, ℕ, List, true};
ghost use Rattle.std.specs.List.{Contains};
ghost use Rattle.ss_core.specs.Tree.{ClassTree};
ghost use Rattle.ss_logic.specs.Terms.{Term};
ghost use Rattle.ss_logic.specs.Formulas.{Formula};
ghost use Rattle.ss_logic.specs.Shapes.{equal};
ghost use Rattle.ss_linear_rules.specs.Two.{Two};
ghost use Rattle.ss_logic.specs.Occurring.{terms};
ghost use Rattle.ss_logic_countermodels.specs.Refuting.{Model, Refutes, is_whole, facts_of};
ghost use Rattle.ss_search_procedure_rules.specs.Clashes.{Classing, model_by, FitsClasses};
ghost use Rattle.ss_logic.specs.Includes.{Includes};
ghost use Rattle.ss_search_procedure_rules.specs.Closed.{basics, Fits, IsSaturated, IsTotal, Closed, StaysOpen};

/// Where at some depth nothing more follows from what is reached, nothing of it is closed by splits nested so deep.
pub fn what_stays_open_is_not_closed()
    ensures { (cs : List ClassTree) (depth : ℕ) (reached fs : List Formula) → StaysOpen cs depth reached → Includes reached fs → Closed cs depth fs → ⊥ }
{}

/// Let a saturated list have, of each atom and quantified formula that occurs in it, that or its negation. Then its model is one of each list of its
/// formulas that has no other facts. (The facts have an equality in one order: that in which its terms first occur.)
pub fn what_is_saturated_and_total_has_a_model()
    ensures { (cs : List ClassTree) (reached fs : List Formula) → (saturated : IsSaturated cs reached) → IsTotal reached → Includes reached fs → Includes (facts_of cs saturated.model (basics reached)) (facts_of cs saturated.model fs) → Refutes cs saturated.model fs }
{}

/// What is closed has no model.
pub fn what_is_closed_has_no_model()
    ensures { (cs : List ClassTree) (depth : ℕ) (fs : List Formula) → Closed cs depth fs → (m : Model) → Refutes cs m fs → ⊥ }
{}

/// Classes of a congruence that contradict none of the known literals are a model of them.
pub fn what_has_fitting_classes_fits()
    ensures { (class : Classing) (known : List Formula) → FitsClasses class known → Fits known }
{}

/// Let facts have the known literals and the equalities of whole numbers of one class, and let no sum of them be a contradiction. Then classes that
/// contradict none of these literals are a model that refutes.
pub fn what_has_no_contradicting_sum_refutes()
    ensures { (cs : List ClassTree) (class : Classing) (known facts : List Formula) → FitsClasses class known → Includes facts known → ((s t : Term) → Contains (terms known) s → Contains (terms known) t → is_whole cs s ≡ true → is_whole cs t ≡ true → class s ≡ class t → (s ≡ t) ⊎ Contains facts (equal s t)) → (Two cs facts → ⊥) → Refutes cs (model_by class known) known }
{}
