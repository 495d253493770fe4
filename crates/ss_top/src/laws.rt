// What holds of every source. No step of the program calls these.

ghost use Rattle.std.specs.Prelude.{◌≡◌, ℕ, List};
ghost use Rattle.ss_core.specs.declared.names.Place.{Place};
ghost use Rattle.ss_core.specs.Tree.{CoreTree};
ghost use Rattle.ss_top_sources.specs.Sources.{IsRefused};
ghost use Rattle.ss_top_sources.specs.CoreSources.{Means};

/// A source has one core program at most.
pub fn one_core()
    ensures { (source : List ℕ) (c d : CoreTree) → Means source c → Means source d → c ≡ d }
{}

/// A source that has a core program has no fault.
pub fn no_fault()
    ensures { (source : List ℕ) (c : CoreTree) (rule : ℕ) (place : Place) → Means source c → IsRefused source rule place → ⊥ }
{}
