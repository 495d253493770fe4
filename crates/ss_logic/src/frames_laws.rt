// The formulas say what is so of the stores.

ghost use Rattle.std.specs.Prelude.{◌≡◌, List, [], ◌∷◌, true};
ghost use Rattle.ss_core.specs.Tree.{ClassTree};
ghost use Rattle.ss_logic.specs.declared.Sort.TheVariants as sort;
ghost use Rattle.ss_logic.specs.Values.{Structure};
ghost use Rattle.ss_logic.specs.Terms.{Term, have_sorts};
ghost use Rattle.ss_logic.specs.Formulas.{True};
ghost use Rattle.ss_logic.specs.Frames.{CallTerms, kept, grown};
ghost use Rattle.ss_logic.specs.FrameMeans.{IsKept, IsGrown, store_of};
ghost use Rattle.ss_logic.specs.Sorted.{AreSorted};

/// The frame condition is true only where the stores keep to it.
pub fn kept_is_true_only_of_kept_stores()
    ensures { (cs : List ClassTree) (m : Structure) (c : CallTerms) → AreSorted cs c → True cs m [] (kept cs c) → IsKept cs m c }
{}

/// And wherever they do.
pub fn kept_is_true_of_kept_stores()
    ensures { (cs : List ClassTree) (m : Structure) (c : CallTerms) → AreSorted cs c → IsKept cs m c → True cs m [] (kept cs c) }
{}

/// Growth is true only of a store that has grown out of the other.
pub fn grown_is_true_only_of_grown_stores()
    ensures { (cs : List ClassTree) (m : Structure) (before after : Term) → have_sorts cs (sort.Store ∷ sort.Store ∷ []) (before ∷ after ∷ []) ≡ true → True cs m [] (grown before after) → IsGrown (store_of cs m before) (store_of cs m after) }
{}

/// And wherever it has.
pub fn grown_is_true_of_grown_stores()
    ensures { (cs : List ClassTree) (m : Structure) (before after : Term) → have_sorts cs (sort.Store ∷ sort.Store ∷ []) (before ∷ after ∷ []) ≡ true → IsGrown (store_of cs m before) (store_of cs m after) → True cs m [] (grown before after) }
{}
