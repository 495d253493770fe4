// What the origins of formulas tell.

ghost use Rattle.std.specs.Prelude.{List, [], ◌∷◌};
ghost use Rattle.ss_core.specs.Tree.{ClassTree};
ghost use Rattle.ss_logic.specs.Formulas.{Formula};
ghost use Rattle.ss_logic_means.specs.Scenes.{AreInvariants};
ghost use Rattle.ss_logic_means.specs.Sorts.{AreWellFormed};
ghost use Rattle.ss_logic_means.specs.Origins.{Choice, Origin, AreAccepted, AreOrigins};

/// Where premises and goal are well formed, and a derivation may make the choices, each formula that comes from them is well formed.
pub fn what_comes_from_well_formed_formulas_is_well_formed()
    ensures { (cs : List ClassTree) → AreInvariants cs → (premises : List Formula) (goal : Formula) → AreWellFormed cs [] (goal ∷ premises) → (choices : List Choice) → AreAccepted cs premises goal choices → (fs : List Formula) (origins : List Origin) → AreOrigins cs premises goal choices fs origins → AreWellFormed cs [] fs }
{}
