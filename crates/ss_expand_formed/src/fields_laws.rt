// The parts of "the elaboration is formed" on the fields that constructors assign.

ghost use Rattle.std.specs.Prelude.{◌≡◌, []};
ghost use Rattle.ss_ast.specs.Programs.{ProgramTree};
ghost use Rattle.ss_resolver_names_rules.specs.Programs.{program_faults};
ghost use Rattle.ss_resolver_types_expressions.specs.Programs.{type_faults};
ghost use Rattle.ss_resolver_rules.specs.Programs.{resolved};
ghost use Rattle.ss_delayed_rules.specs.Program.{construction_faults};
ghost use Rattle.ss_expand_formed.specs.Laws.{core_of};
ghost use Rattle.ss_expand_formed.specs.Fields.{ReturnWithFields, AreReadyWithFields};

/// A delayed constructor has given each non-null field of its class and of those above it its value, on every path to each return.
pub fn return_with_fields()
    ensures { (p : ProgramTree) → program_faults p ≡ [] → type_faults p ≡ [] → construction_faults (resolved p) ≡ [] → ReturnWithFields (core_of p) }
{}

/// One that isn't delayed has given each non-null field of its class its value on every path to `base(..)` and `ready this`.
pub fn are_ready_with_fields()
    ensures { (p : ProgramTree) → type_faults p ≡ [] → construction_faults (resolved p) ≡ [] → AreReadyWithFields (core_of p) }
{}
