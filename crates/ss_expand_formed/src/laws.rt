// The parts of "the elaboration is formed", each from what the phases ask.

ghost use Rattle.std.specs.Prelude.{◌≡◌, []};
ghost use Rattle.ss_ast.specs.Programs.{ProgramTree};
ghost use Rattle.ss_resolver_names_rules.specs.Programs.{program_faults};
ghost use Rattle.ss_resolver_rules.specs.Programs.{resolved};
ghost use Rattle.ss_delayed_rules.specs.Program.{construction_faults};
ghost use Rattle.ss_resolver_types_expressions.specs.Programs.{type_faults};
ghost use Rattle.ss_expand_formed.specs.Laws.{core_of, HasChain, HasNothingBeside, HasLimits, HaveClasses, HaveFlags, HaveParamTypes, HaveResultTypes, HaveConstructors, HaveTableMethods, HaveTableNames, HaveOwnMethods, HasMain, EndsInReturn, HaveDelayedBase};

/// The classes above a class are in range and end in `object`.
pub fn has_chain()
    ensures { (p : ProgramTree) → program_faults p ≡ [] → HasChain (core_of p) }
{}

/// No type stands beside the classes above.
pub fn has_nothing_beside()
    ensures { (p : ProgramTree) → HasNothingBeside (core_of p) }
{}

/// There are not too many classes, nor fields of one object.
pub fn has_limits()
    ensures { (p : ProgramTree) → program_faults p ≡ [] → HasLimits (core_of p) }
{}

/// Each body is of a declared class.
pub fn have_classes()
    ensures { (p : ProgramTree) → HaveClasses (core_of p) }
{}

/// A constructor has a `this` and no result, and constructors alone are delayed.
pub fn have_flags()
    ensures { (p : ProgramTree) → HaveFlags (core_of p) }
{}

/// The parameters of each body have types of the table, and none has that of null.
pub fn have_param_types()
    ensures { (p : ProgramTree) → program_faults p ≡ [] → HaveParamTypes (core_of p) }
{}

/// So has its result.
pub fn have_result_types()
    ensures { (p : ProgramTree) → program_faults p ≡ [] → HaveResultTypes (core_of p) }
{}

/// Each class has one constructor.
pub fn have_constructors()
    ensures { (p : ProgramTree) → HaveConstructors (core_of p) }
{}

/// The table of a class names methods of its names, of the class and of those above it.
pub fn have_table_methods()
    ensures { (p : ProgramTree) → program_faults p ≡ [] → HaveTableMethods (core_of p) }
{}

/// The table of a class begins with the names of the table above, in their order.
pub fn have_table_names()
    ensures { (p : ProgramTree) → program_faults p ≡ [] → HaveTableNames (core_of p) }
{}

/// After the names of the table above stand methods of the class itself.
pub fn have_own_methods()
    ensures { (p : ProgramTree) → program_faults p ≡ [] → HaveOwnMethods (core_of p) }
{}

/// The number of Main is that of a body, which is static, has no parameter or one for the input, and no result.
pub fn has_main()
    ensures { (p : ProgramTree) → program_faults p ≡ [] → HasMain (core_of p) }
{}

/// The end of no body can be reached.
pub fn ends_in_a_return()
    ensures { (p : ProgramTree) → type_faults p ≡ [] → EndsInReturn (core_of p) }
{}

/// The constructor above a delayed one is delayed.
pub fn have_delayed_base()
    ensures { (p : ProgramTree) → program_faults p ≡ [] → construction_faults (resolved p) ≡ [] → HaveDelayedBase (core_of p) }
{}
