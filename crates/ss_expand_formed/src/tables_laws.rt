// The parts of "the elaboration is formed" on tables of methods.

ghost use Rattle.std.specs.Prelude.{◌≡◌, []};
ghost use Rattle.ss_ast.specs.Programs.{ProgramTree};
ghost use Rattle.ss_resolver_names_rules.specs.Programs.{program_faults};
ghost use Rattle.ss_resolver_rules.specs.Programs.{resolved};
ghost use Rattle.ss_nonnull_rules.specs.Program.{null_faults};
ghost use Rattle.ss_store_rules.specs.Tables.{AreTables};
ghost use Rattle.ss_expand_formed.specs.Laws.{core_of};
ghost use Rattle.ss_expand_formed.specs.Tables.{HaveInherited};

/// At the place of each method of the class above, the table of a class has the same body, or an override or a wrapper that stands for it.
pub fn have_inherited()
    ensures { (p : ProgramTree) → program_faults p ≡ [] → null_faults (resolved p) ≡ [] → HaveInherited (core_of p) }
{}

/// Each declared class has its table of methods.
pub fn have_tables()
    ensures { (p : ProgramTree) → program_faults p ≡ [] → null_faults (resolved p) ≡ [] → AreTables (core_of p) }
{}
