// Which sums of differences are contradictions.

ghost use Rattle.std.specs.Prelude.{◌≡◌, ℕ, ◌^◌, ◌<◌, ℤ, pos, ◌<ℤ◌, List, length, Some};
ghost use Rattle.std.specs.List.{AllByRecursion};
ghost use Rattle.ss_core.specs.Tree.{ClassTree};
ghost use Rattle.ss_logic.specs.Terms.{Term};
ghost use Rattle.ss_logic.specs.Formulas.{Formula};
ghost use Rattle.ss_logic.specs.Sums.{sum_of};
ghost use Rattle.ss_linear_rules.specs.Two.{IsFalse, IsDifferenceAt};
ghost use Rattle.ss_linear_rules.specs.Valued.{MeetsDifferences, IsUsed, total};

/// Where some numbers meet each known difference, no weighted sum of differences with divisor 1 gives what is false.
pub fn met_differences_never_contradict()
    ensures { (cs : List ClassTree) (known : List Formula) (v : Term → ℤ) (weights : List (ℕ × ℤ)) (f : Formula) → MeetsDifferences cs known v → AllByRecursion (λ p. IsDifferenceAt cs known p.0) weights → sum_of cs known (pos 1) weights ≡ Some f → IsFalse f → ⊥ }
{}

/// Differences of which the parts cancel whatever they are, with a number above 0 left, give what is false.
pub fn cancelling_differences_contradict()
    ensures { (cs : List ClassTree) (known : List Formula) (weights : List (ℕ × ℤ)) (k : ℤ) → AllByRecursion (λ p. IsUsed cs known p) weights → length weights < 2 ^ 63 → ((v : Term → ℤ) → total cs known v weights ≡ k) → pos 0 <ℤ k → (f : Formula) × (sum_of cs known (pos 1) weights ≡ Some f) × IsFalse f }
{}
