// The part of "the elaboration is formed" on admissible invariants.

ghost use Rattle.std.specs.Prelude.{◌≡◌, []};
ghost use Rattle.ss_ast.specs.Programs.{ProgramTree};
ghost use Rattle.ss_resolver_names_rules.specs.Programs.{program_faults};
ghost use Rattle.ss_resolver_rules.specs.Programs.{resolved};
ghost use Rattle.ss_owners_rules.specs.Program.{ownership_faults};
ghost use Rattle.ss_expand_formed.specs.Admissible.{HasAdmissibleInvariants, RefusesNoMore};

/// Each invariant speaks of the fields of `this` at the level of its class or above, and of what `this` owns there.
pub fn are_admissible()
    ensures { (p : ProgramTree) → program_faults p ≡ [] → ownership_faults (resolved p) ≡ [] → HasAdmissibleInvariants p }
{}

/// Of an invariant without calls no read is refused that the core program admits.
pub fn refuses_no_more()
    ensures { (p : ProgramTree) → RefusesNoMore p }
{}
