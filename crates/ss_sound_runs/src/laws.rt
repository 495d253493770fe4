// Laws over the runs of programs whose bodies go on safely.

ghost use Rattle.std.specs.Prelude.{◌≡◌, ℕ, ℤ, List, true};
ghost use Rattle.ss_core.specs.Tree.{CoreTree};
ghost use Rattle.ss_store_rules.specs.Admitted.{admitted};
ghost use Rattle.ss_store_rules.specs.Formed.{IsFormed};
ghost use Rattle.ss_machine_rules.specs.Runs.{run};
ghost use Rattle.ss_machine_rules.specs.Good.{IsUnfailed};
ghost use Rattle.ss_machine_typed.specs.Inputs.{IsInput};
ghost use Rattle.ss_sound_outcomes.specs.Outcomes.{AllRunSafely};

/// Where each body of a formed program goes on safely from its entry, no check fails in a run of an admitted input, after any number of
/// steps.
pub fn safe_bodies_never_fail()
    ensures { (c : CoreTree) → IsFormed c → AllRunSafely c → (input : List ℤ) → IsInput input → admitted c input ≡ true → (n : ℕ) → IsUnfailed (run c input n) }
{}
