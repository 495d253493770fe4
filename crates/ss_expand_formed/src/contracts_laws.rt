// The parts of "the elaboration is formed" on contracts.

ghost use Rattle.std.specs.Prelude.{◌≡◌, []};
ghost use Rattle.ss_ast.specs.Programs.{ProgramTree};
ghost use Rattle.ss_resolver_names_rules.specs.Programs.{program_faults};
ghost use Rattle.ss_resolver_rules.specs.Programs.{resolved};
ghost use Rattle.ss_resolver_types_expressions.specs.Programs.{type_faults};
ghost use Rattle.ss_nonnull_rules.specs.Program.{null_faults};
ghost use Rattle.ss_owners_rules.specs.Program.{ownership_faults};
ghost use Rattle.ss_expand_formed.specs.Laws.{core_of};
ghost use Rattle.ss_expand_formed.specs.ContractParts.{HaveDefaults, HaveEntries, HaveExits, HaveNamed, HaveInvariants};

/// The default conditions of a body speak of `this` where it has one, of its class, and of arguments that are references.
pub fn have_defaults()
    ensures { (p : ProgramTree) → program_faults p ≡ [] → ownership_faults (resolved p) ≡ [] → HaveDefaults (core_of p) }
{}

/// The conditions at entry are truth values over the arguments, and default conditions are the body's own.
pub fn have_entries()
    ensures { (p : ProgramTree) → program_faults p ≡ [] → type_faults p ≡ [] → null_faults (resolved p) ≡ [] → ownership_faults (resolved p) ≡ [] → HaveEntries (core_of p) }
{}

/// The conditions at exit are truth values over the arguments and the result, and default conditions are the body's own.
pub fn have_exits()
    ensures { (p : ProgramTree) → program_faults p ≡ [] → type_faults p ≡ [] → null_faults (resolved p) ≡ [] → ownership_faults (resolved p) ≡ [] → HaveExits (core_of p) }
{}

/// What a body may change is over its arguments: a field, all of an object, the elements of an array, or `this` as its class knows it.
pub fn have_named()
    ensures { (p : ProgramTree) → program_faults p ≡ [] → type_faults p ≡ [] → null_faults (resolved p) ≡ [] → ownership_faults (resolved p) ≡ [] → HaveNamed (core_of p) }
{}

/// The invariants of each class are truth values over `this`.
pub fn have_invariants()
    ensures { (p : ProgramTree) → program_faults p ≡ [] → type_faults p ≡ [] → ownership_faults (resolved p) ≡ [] → HaveInvariants (core_of p) }
{}
