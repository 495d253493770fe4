// A law over the runs of formed programs.

ghost use Rattle.std.specs.Prelude.{ℕ, ℤ, List};
ghost use Rattle.ss_core.specs.Tree.{CoreTree};
ghost use Rattle.ss_store_rules.specs.Formed.{IsFormed};
ghost use Rattle.ss_machine_rules.specs.Runs.{run};
ghost use Rattle.ss_machine_typed.specs.Inputs.{IsInput};
ghost use Rattle.ss_machine_good.specs.States.{IsNonNullState};

/// In each state of each run of a formed program an expression of non-null type has no value, or one that isn't null. It is one of the body that
/// runs. Nothing is said of a state in which a check has failed.
pub fn non_null_never_gives_null()
    ensures { (c : CoreTree) → IsFormed c → (input : List ℤ) → IsInput input → (n : ℕ) → IsNonNullState c (run c input n) }
{}
