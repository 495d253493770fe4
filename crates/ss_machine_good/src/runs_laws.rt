// Laws over the runs of formed programs.

ghost use Rattle.std.specs.Prelude.{ℕ, ℤ, List};
ghost use Rattle.ss_core.specs.Tree.{CoreTree};
ghost use Rattle.ss_store_rules.specs.Formed.{IsFormed};
ghost use Rattle.ss_machine_rules.specs.States.{State};
ghost use Rattle.ss_machine_rules.specs.Runs.{step, start, run};
ghost use Rattle.ss_machine_rules.specs.Good.{IsGoodState};
ghost use Rattle.ss_machine_typed.specs.Inputs.{IsInput};
ghost use Rattle.ss_machine_good.specs.Stacks.{HasGoodStack};

/// State 0 has a good stack: that of Main alone.
pub fn start_has_good_stack()
    ensures { (c : CoreTree) → IsFormed c → (input : List ℤ) → IsInput input → HasGoodStack c (start c input) }
{}

/// Each step keeps the stack good: the frame that runs is good, and each other one is so once it gets what it waits for.
pub fn steps_keep_good_stacks()
    ensures { (c : CoreTree) → IsFormed c → (r : State) → HasGoodStack c r → HasGoodStack c (step c r) }
{}

/// Each state of each run of a formed program is good, after any number of steps: each object meets the invariants of each class at which it
/// is packed, and the locals of each body that runs are of their types. Nothing is said of a state in which a check has failed.
pub fn unfailed_states_are_good()
    ensures { (c : CoreTree) → IsFormed c → (input : List ℤ) → IsInput input → (n : ℕ) → IsGoodState c (run c input n) }
{}
