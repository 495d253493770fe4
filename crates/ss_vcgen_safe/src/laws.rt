// Laws on formed programs whose obligations are valid.

ghost use Rattle.std.specs.Prelude.{◌≡◌, ℕ, ℤ, List, true};
ghost use Rattle.ss_core.specs.Tree.{CoreTree};
ghost use Rattle.ss_store_rules.specs.Admitted.{admitted};
ghost use Rattle.ss_store_rules.specs.Formed.{IsFormed};
ghost use Rattle.ss_machine_rules.specs.Runs.{run};
ghost use Rattle.ss_machine_rules.specs.Good.{IsUnfailed};
ghost use Rattle.ss_machine_typed.specs.Inputs.{IsInput};
ghost use Rattle.ss_vcgen_heaps.specs.Obligations.{obligations, AreValid};
ghost use Rattle.ss_logic_means.specs.Steps.{Line};
ghost use Rattle.ss_sound_outcomes.specs.Outcomes.{AllRunSafely};
ghost use Rattle.ss_vcgen_safe.specs.Derived.{AreDerived};

/// Where the obligations of a formed program are valid, each of its bodies goes on safely from its entry.
pub fn valid_obligations_make_bodies_safe()
    ensures { (c : CoreTree) → IsFormed c → AreValid c.classes (obligations c) → AllRunSafely c }
{}

/// Where the obligations of a formed program are valid, no check fails in a run of an admitted input, after any number of steps.
pub fn valid_obligations_never_fail()
    ensures { (c : CoreTree) → IsFormed c → AreValid c.classes (obligations c) → (input : List ℤ) → IsInput input → admitted c input ≡ true → (n : ℕ) → IsUnfailed (run c input n) }
{}

/// Where each obligation of a formed program has a derivation, no check fails in a run of an admitted input, after any number of steps.
pub fn derived_obligations_never_fail()
    ensures { (c : CoreTree) → IsFormed c → (derivations : List (List Line)) → AreDerived c.classes (obligations c) derivations → (input : List ℤ) → IsInput input → admitted c input ≡ true → (n : ℕ) → IsUnfailed (run c input n) }
{}
