// What the rules say is true.

ghost use Rattle.std.specs.Prelude.{◌≡◌, List, [], ◌∷◌, Some};
ghost use Rattle.ss_core.specs.Tree.{ClassTree};
ghost use Rattle.ss_core.specs.Chain.{IsChain, NoAlso};
ghost use Rattle.ss_logic.specs.Values.{Structure};
ghost use Rattle.ss_logic.specs.Terms.{Term};
ghost use Rattle.ss_logic.specs.Formulas.{Good, Formula, True, atom};
ghost use Rattle.ss_logic.specs.declared.RuleName.{RuleName};
ghost use Rattle.ss_logic.specs.declared.GoodRule.{GoodRule};
ghost use Rattle.ss_logic.specs.Rules.{instance_of};
ghost use Rattle.ss_logic.specs.GoodRules.{good_instance_of};

/// Each instance of a rule is true in every structure.
pub fn every_instance_is_true()
    ensures { (cs : List ClassTree) → IsChain cs → NoAlso cs → (m : Structure) (name : RuleName) (ts : List Term) (f : Formula) → instance_of cs name ts ≡ Some f → True cs m [] f }
{}

/// Each instance of a rule on good stores is true wherever its store is good.
pub fn a_good_store_meets_every_instance()
    ensures { (cs : List ClassTree) → NoAlso cs → (m : Structure) (name : GoodRule) (s : Term) (ts : List Term) (f : Formula) → good_instance_of cs name s ts ≡ Some f → True cs m [] (atom Good (s ∷ [])) → True cs m [] f }
{}
