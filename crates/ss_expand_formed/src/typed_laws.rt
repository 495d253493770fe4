// The parts of "the elaboration is formed" on the types of statements.

ghost use Rattle.std.specs.Prelude.{◌≡◌, []};
ghost use Rattle.ss_ast.specs.Programs.{ProgramTree};
ghost use Rattle.ss_resolver_names_rules.specs.Programs.{program_faults};
ghost use Rattle.ss_resolver_types_expressions.specs.Programs.{type_faults};
ghost use Rattle.ss_resolver_rules.specs.Programs.{resolved};
ghost use Rattle.ss_owners_rules.specs.Program.{ownership_faults};
ghost use Rattle.ss_expand_formed.specs.Laws.{core_of};
ghost use Rattle.ss_expand_formed.specs.Typed.{HaveTypedCode, ExposeByClass};

/// Each statement of the code of each body has the types of the language.
pub fn have_typed_code()
    ensures { (p : ProgramTree) → program_faults p ≡ [] → type_faults p ≡ [] → ownership_faults (resolved p) ≡ [] → HaveTypedCode (core_of p) }
{}

/// What code unpacks, packs or names as exposed is of the class at which it is exposed, or of one below.
pub fn expose_by_class()
    ensures { (p : ProgramTree) → program_faults p ≡ [] → type_faults p ≡ [] → ownership_faults (resolved p) ≡ [] → ExposeByClass (core_of p) }
{}
