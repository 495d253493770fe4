// The parts of "the elaboration is formed" on declarations.

ghost use Rattle.std.specs.Prelude.{◌≡◌, []};
ghost use Rattle.ss_ast.specs.Programs.{ProgramTree};
ghost use Rattle.ss_resolver_names_rules.specs.Programs.{program_faults};
ghost use Rattle.ss_resolver_rules.specs.Programs.{resolved};
ghost use Rattle.ss_delayed_rules.specs.Program.{construction_faults};
ghost use Rattle.ss_owners_rules.specs.Program.{ownership_faults};
ghost use Rattle.ss_expand_formed.specs.Laws.{core_of};
ghost use Rattle.ss_expand_formed.specs.Members.{HaveFields, HaveParams, HaveDeclaredTypes, RequireNothingOfThis};

/// The fields of each class have types of the table, none that of null, and those of references alone are marked.
pub fn have_fields()
    ensures { (p : ProgramTree) → program_faults p ≡ [] → ownership_faults (resolved p) ≡ [] → HaveFields (core_of p) }
{}

/// The parameters of each body have types of the table, none that of null, and those of references alone are captured.
pub fn have_params()
    ensures { (p : ProgramTree) → program_faults p ≡ [] → ownership_faults (resolved p) ≡ [] → HaveParams (core_of p) }
{}

/// A written condition at entry says nothing of the `this` of a constructor.
pub fn require_nothing_of_this()
    ensures { (p : ProgramTree) → construction_faults (resolved p) ≡ [] → RequireNothingOfThis (core_of p) }
{}

/// The locals that a body declares have types of the table, and none that of null.
pub fn have_declared_types()
    ensures { (p : ProgramTree) → program_faults p ≡ [] → HaveDeclaredTypes p }
{}
