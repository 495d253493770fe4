// What holds of every run of a formed program.
ghost use Rattle.std.specs.Prelude.{ℕ};
ghost use Rattle.ss_core.specs.View as view;
ghost use Rattle.ss_store_rules.specs.Formed.{IsFormed};
ghost use Rattle.ss_machine_rules.specs.Good.{IsGoodState};
ghost use Rattle.ss_machine_rules.specs.Runs.{run};
ghost use Rattle.ss_machine_typed.specs.Inputs.{IsInput};
ghost use Rattle.ss_machine_good.specs.States.{IsNonNullState};

use ss_core::Core;

// Each state is good until a check has failed.
pub fn every_state_is_good(core: &Core, input: &[i32])
    ensures { IsFormed (view.core core.now) → IsInput input.now → (n : ℕ) → IsGoodState (view.core core.now) (run (view.core core.now) input.now n) }
{
    let (_core, _input) = (core, input);
}

// In no state does an expression of non-null type give null.
pub fn non_null_never_gives_null(core: &Core, input: &[i32])
    ensures { IsFormed (view.core core.now) → IsInput input.now → (n : ℕ) → IsNonNullState (view.core core.now) (run (view.core core.now) input.now n) }
{
    let (_core, _input) = (core, input);
}
