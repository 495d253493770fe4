// Sums of terms and of facts mean what they say.

ghost use Rattle.std.specs.Prelude.{◌≡◌, ℕ, ℤ, List, [], Some};
ghost use Rattle.ss_core.specs.Tree.{ClassTree};
ghost use Rattle.ss_logic.specs.Values.{Structure};
ghost use Rattle.ss_logic.specs.Terms.{Term};
ghost use Rattle.ss_logic.specs.Formulas.{Formula, True, Hold};
ghost use Rattle.ss_logic.specs.Sums.{LinearSum, linear, sum_of};
ghost use Rattle.ss_logic.specs.SumsMean.{number_of, sum_value};

/// The linear sum that a term is has the term's number, in every structure.
pub fn a_linear_sum_is_its_term()
    ensures { (cs : List ClassTree) (m : Structure) (t : Term) (a : LinearSum) → linear t ≡ Some a → sum_value cs m a ≡ number_of cs m t }
{}

/// What a weighted sum of known facts gives is true in every structure in which the facts are.
pub fn what_a_sum_of_facts_gives_is_true()
    ensures { (cs : List ClassTree) (m : Structure) (known : List Formula) (divisor : ℤ) (weights : List (ℕ × ℤ)) (f : Formula) → Hold cs m known → sum_of cs known divisor weights ≡ Some f → True cs m [] f }
{}
