// The parts of "the elaboration is formed" on the numbers of locals.

ghost use Rattle.ss_ast.specs.Programs.{ProgramTree};
ghost use Rattle.std.specs.Prelude.{List};
ghost use Rattle.ss_typed.specs.Tree.{BodyTree, TypedTree};
ghost use Rattle.ss_expand_formed.specs.Laws.{core_of};
ghost use Rattle.ss_expand_formed.specs.Locals.{HaveTargets, NameOpenExposes, PackAtReturns, HasNumbers};

/// A body assigns the locals that stand between its arguments and its result, and no other.
pub fn have_targets()
    ensures { (p : ProgramTree) → HaveTargets (core_of p) }
{}

/// Each expose that a loop names encloses it.
pub fn name_open_exposes()
    ensures { (p : ProgramTree) → NameOpenExposes (core_of p) }
{}

/// A delayed constructor packs its `this` only directly before a return.
pub fn pack_at_returns()
    ensures { (p : ProgramTree) → PackAtReturns (core_of p) }
{}

/// The result of a body and its bound names stand where its code means them.
pub fn have_numbers()
    ensures { (p : TypedTree) (b : BodyTree) (bs : List BodyTree) → HasNumbers p b bs }
{}
