// What a line of a derivation may make known is well formed.

ghost use Rattle.std.specs.Prelude.{◌≡◌, ℕ, ℤ, List, [], true, Some};
ghost use Rattle.ss_core.specs.Tree.{ClassTree};
ghost use Rattle.ss_logic.specs.declared.Sort.{Sort};
ghost use Rattle.ss_logic.specs.Terms.{Term, have_sorts};
ghost use Rattle.ss_logic.specs.Formulas.{Formula, Forall, Exists, is_well_formed, neg, put};
ghost use Rattle.ss_logic.specs.declared.RuleName.{RuleName};
ghost use Rattle.ss_logic.specs.declared.GoodRule.{GoodRule};
ghost use Rattle.ss_logic.specs.Rules.{instance_of};
ghost use Rattle.ss_logic.specs.GoodRules.{good_instance_of};
ghost use Rattle.ss_logic.specs.Invariants.{invariants_of};
ghost use Rattle.ss_logic_means.specs.Scenes.{AreInvariants};
ghost use Rattle.ss_logic_means.specs.Sorts.{AreWellFormed};
ghost use Rattle.ss_logic.specs.Sums.{sum_of};
ghost use Rattle.ss_logic_means.specs.Steps.{part_of, cases_of, are_constants, chosen};

/// Each instance of a rule that is true in every structure is well formed.
pub fn every_instance_is_well_formed()
    ensures { (cs : List ClassTree) (name : RuleName) (ts : List Term) (f : Formula) → instance_of cs name ts ≡ Some f → is_well_formed cs [] f ≡ true }
{}

/// Each instance of a rule on good stores is well formed.
pub fn every_good_instance_is_well_formed()
    ensures { (cs : List ClassTree) (name : GoodRule) (s : Term) (ts : List Term) (f : Formula) → good_instance_of cs name s ts ≡ Some f → is_well_formed cs [] f ≡ true }
{}

/// Each instance of the rule on invariants is well formed.
pub fn every_instance_of_the_invariants_is_well_formed()
    ensures { (cs : List ClassTree) → AreInvariants cs → (s : Term) (ts : List Term) (f : Formula) → invariants_of cs s ts ≡ Some f → is_well_formed cs [] f ≡ true }
{}

/// The body of a well formed `forall` is well formed at terms of its sorts.
pub fn every_instance_of_a_forall_is_well_formed()
    ensures { (cs : List ClassTree) (ss : List Sort) (f : Formula) (ts : List Term) → is_well_formed cs [] (Forall ss f) ≡ true → have_sorts cs ss ts ≡ true → is_well_formed cs [] (put ts f) ≡ true }
{}

/// What ties a well formed `exists` to its body at constants of its sorts is well formed.
pub fn every_choice_is_well_formed()
    ensures { (cs : List ClassTree) (ss : List Sort) (f : Formula) (ts : List Term) → is_well_formed cs [] (Exists ss f) ≡ true → are_constants ss ts ≡ true → is_well_formed cs [] (chosen ss f ts) ≡ true }
{}

/// Each part of a well formed `and` is well formed.
pub fn every_part_is_well_formed()
    ensures { (cs : List ClassTree) (j : ℕ) (f part : Formula) → is_well_formed cs [] f ≡ true → part_of j f ≡ Some part → is_well_formed cs [] part ≡ true }
{}

/// Each case of a well formed `or` is well formed.
pub fn every_case_is_well_formed()
    ensures { (cs : List ClassTree) (k : ℕ) (f : Formula) (cases : List Formula) → is_well_formed cs [] f ≡ true → cases_of k f ≡ Some cases → AreWellFormed cs [] cases }
{}

/// The negation of a well formed formula is well formed.
pub fn every_negation_is_well_formed()
    ensures { (cs : List ClassTree) (f : Formula) → is_well_formed cs [] f ≡ true → is_well_formed cs [] (neg f) ≡ true }
{}

/// What a weighted sum of well formed facts gives is well formed.
pub fn every_sum_is_well_formed()
    ensures { (cs : List ClassTree) (known : List Formula) (divisor : ℤ) (weights : List (ℕ × ℤ)) (f : Formula) → AreWellFormed cs [] known → sum_of cs known divisor weights ≡ Some f → is_well_formed cs [] f ≡ true }
{}
