// The part of "the elaboration is formed" on the types of locals.

ghost use Rattle.std.specs.Prelude.{◌≡◌, []};
ghost use Rattle.ss_ast.specs.Programs.{ProgramTree};
ghost use Rattle.ss_resolver_names_rules.specs.Programs.{program_faults};
ghost use Rattle.ss_expand_formed.specs.Laws.{core_of};
ghost use Rattle.ss_expand_formed.specs.Types.{HaveLocals};

/// The locals of each body, its temporaries included, have types of the table, and none has that of null.
pub fn have_locals()
    ensures { (p : ProgramTree) → program_faults p ≡ [] → HaveLocals (core_of p) }
{}
