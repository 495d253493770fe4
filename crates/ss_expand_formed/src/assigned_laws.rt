// The part of "the elaboration is formed" on assigned locals.

ghost use Rattle.std.specs.Prelude.{◌≡◌, []};
ghost use Rattle.ss_ast.specs.Programs.{ProgramTree};
ghost use Rattle.ss_owners_rules.specs.Program.{ownership_faults};
ghost use Rattle.ss_resolver_rules.specs.Programs.{resolved};
ghost use Rattle.ss_resolver_names_rules.specs.Programs.{program_faults};
ghost use Rattle.ss_resolver_types_expressions.specs.Programs.{type_faults};
ghost use Rattle.ss_expand_formed.specs.Laws.{core_of};
ghost use Rattle.ss_expand_formed.specs.Assigned.{ReadAssigned};

/// On every path of a body, each local is assigned before it is read.
pub fn read_what_is_assigned()
    ensures { (p : ProgramTree) → program_faults p ≡ [] → type_faults p ≡ [] → ownership_faults (resolved p) ≡ [] → ReadAssigned (core_of p) }
{}
