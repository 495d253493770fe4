// The parts of "the elaboration is formed" on the construction of objects.

ghost use Rattle.std.specs.Prelude.{◌≡◌, []};
ghost use Rattle.ss_ast.specs.Programs.{ProgramTree};
ghost use Rattle.ss_resolver_names_rules.specs.Programs.{program_faults};
ghost use Rattle.ss_resolver_types_expressions.specs.Programs.{type_faults};
ghost use Rattle.ss_resolver_rules.specs.Programs.{resolved};
ghost use Rattle.ss_delayed_rules.specs.Program.{construction_faults};
ghost use Rattle.ss_expand_formed.specs.Laws.{core_of};
ghost use Rattle.ss_expand_formed.specs.Construction.{StartInOrder, HaveOpening, KeepThisIn, WriteThisFirst};

/// `base(..)` and `ready this` stand once each where they are wanted, among the outermost statements and the second directly after the first.
pub fn start_in_order()
    ensures { (p : ProgramTree) → program_faults p ≡ [] → type_faults p ≡ [] → StartInOrder (core_of p) }
{}

/// Every path to the end of a constructor passes these two. Before them no field of its `this` is written but those that the class
/// declares.
pub fn have_opening()
    ensures { (p : ProgramTree) → program_faults p ≡ [] → type_faults p ≡ [] → HaveOpening (core_of p) }
{}

/// The code of a delayed constructor names its `this` only to read or to write a field of it, or to pack it.
pub fn keep_this_in()
    ensures { (p : ProgramTree) → construction_faults (resolved p) ≡ [] → KeepThisIn (core_of p) }
{}

/// Up to `base(..)` and `ready this`, the arguments of the first included, a constructor that isn't delayed names its `this` only to
/// write a field that the class declares.
pub fn write_this_first()
    ensures { (p : ProgramTree) → type_faults p ≡ [] → construction_faults (resolved p) ≡ [] → WriteThisFirst (core_of p) }
{}
