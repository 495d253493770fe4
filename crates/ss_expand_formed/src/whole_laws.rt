// The parts of "the elaboration is formed" put together.

ghost use Rattle.ss_ast.specs.Programs.{ProgramTree};
ghost use Rattle.ss_store_rules.specs.Formed.{IsFormed};
ghost use Rattle.ss_expand_formed.specs.Laws.{core_of};
ghost use Rattle.ss_expand_formed.specs.Whole.{HasNoFault};

/// The elaboration of a program without faults is formed.
pub fn elaboration_is_formed()
    ensures { (p : ProgramTree) → HasNoFault p → IsFormed (core_of p) }
{}
