// What the formulas say of the stores.

ghost use Rattle.std.specs.Prelude.{◌≡◌, ◌↔◌, List, [], ◌∷◌, true};
ghost use Rattle.ss_core.specs.Tree.{ClassTree};
ghost use Rattle.ss_logic.specs.declared.Sort.TheVariants as sort;
ghost use Rattle.ss_logic.specs.Values.{Structure};
ghost use Rattle.ss_logic.specs.Terms.{Term, have_sorts};
ghost use Rattle.ss_logic.specs.Formulas.{True};
ghost use Rattle.ss_logic.specs.Frames.{CallTerms, kept, grown};
ghost use Rattle.ss_logic.specs.FrameMeans.{IsKept, store_of};
ghost use Rattle.ss_logic.specs.FrameMeans as means;
ghost use Rattle.ss_logic.specs.Sorted.{AreSorted};
ghost use Rattle.ss_terms.specs.declared.forms.FormulaId.{FormulaId};
ghost use Rattle.ss_terms.specs.Forms.{Forms, formula_at};

/// What `kept` makes is true exactly where the stores keep to the frame condition.
pub fn kept_is_true_where_stores_are_kept()
    ensures { (cs : List ClassTree) (s : Structure) (b : Forms) (f : FormulaId) (m : CallTerms) → AreSorted cs m → formula_at b f ≡ kept cs m → True cs s [] (formula_at b f) ↔ IsKept cs s m }
{}

/// What `grown` makes is true exactly where the later store has grown out of the earlier one.
pub fn grown_is_true_where_stores_have_grown()
    ensures { (cs : List ClassTree) (s : Structure) (b : Forms) (f : FormulaId) (before after : Term) → have_sorts cs (sort.Store ∷ sort.Store ∷ []) (before ∷ after ∷ []) ≡ true → formula_at b f ≡ grown before after → True cs s [] (formula_at b f) ↔ means.IsGrown (store_of cs s before) (store_of cs s after) }
{}
