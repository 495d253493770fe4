// The part of "the elaboration is formed" on null.

ghost use Rattle.std.specs.Prelude.{◌≡◌, []};
ghost use Rattle.ss_ast.specs.Programs.{ProgramTree};
ghost use Rattle.ss_resolver_names_rules.specs.Programs.{program_faults};
ghost use Rattle.ss_resolver_types_expressions.specs.Programs.{type_faults};
ghost use Rattle.ss_resolver_rules.specs.Programs.{resolved};
ghost use Rattle.ss_nonnull_rules.specs.Program.{null_faults};
ghost use Rattle.ss_delayed_rules.specs.Program.{construction_faults};
ghost use Rattle.ss_owners_rules.specs.Program.{ownership_faults};
ghost use Rattle.ss_expand_formed.specs.Laws.{core_of};
ghost use Rattle.ss_expand_formed.specs.Nulls.{KeepNullsOut};

/// In the elaboration of a program without faults no value that may be null goes where none is wanted.
pub fn keep_nulls_out()
    ensures { (p : ProgramTree) → program_faults p ≡ [] → type_faults p ≡ [] → null_faults (resolved p) ≡ [] → construction_faults (resolved p) ≡ [] → ownership_faults (resolved p) ≡ [] → KeepNullsOut (core_of p) }
{}
