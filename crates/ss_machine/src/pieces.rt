// The pieces of a run.
ghost use Rattle.std.specs.Prelude.{◌≡◌, ℕ, ℤ, List};
ghost use Rattle.std.specs.List.{concat};
ghost use Rattle.ss_core.specs.Tree.{CoreTree};
ghost use Rattle.ss_machine_rules.specs.Runs.{printed};
ghost use Rattle.ss_machine.specs.Pieces.{pieces};

/// One after another, the pieces of a run are what it prints.
pub fn pieces_are_printed()
    ensures { (c : CoreTree) (input : List ℤ) (n : ℕ) → concat (pieces c input n) ≡ printed c input n }
{}
