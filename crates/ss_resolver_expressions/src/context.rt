// What an expression is resolved in.

ghost use Rattle.std.specs.Prelude.{◌≡◌, option_map};
ghost use Rattle.ss_tables_lookup.specs.Classes.{trees};
ghost use Rattle.ss_tables_lookup.specs.Views.{type_of};
ghost use Rattle.ss_resolver_tables.specs.Limits.{IsWithinLimits};
ghost use Rattle.ss_resolver_rules.specs.Numbers.{field_count, body_count};
ghost use Rattle.ss_resolver_tables.specs.Slots.{AreStarts, AreTables};

use ss_core::Ty;
use ss_resolver_tables::{MethodTable, Starts};
use ss_tables_scopes::ClassContext;

/// The context in which an expression is resolved: the class, the type of `result` there, and the numbers of the program.
#[derive(Clone, Copy)]
pub struct ResolutionContext<'t, 'p> {
    pub within: ClassContext<'t, 'p>,
    pub fields: &'t Starts,
    pub bodies: &'t Starts,
    pub tables: &'t [MethodTable<'p>],
    pub outcome: Option<Ty>,
    ghost limits: { IsWithinLimits (trees within.tables.now) },
    ghost fields_are: { AreStarts field_count (trees within.tables.now) fields.now },
    ghost bodies_are: { AreStarts body_count (trees within.tables.now) bodies.now },
    ghost tables_are: { AreTables (trees within.tables.now) tables.now },
    ghost same_outcome: { outcome ≡ option_map type_of within.outcome },
}
