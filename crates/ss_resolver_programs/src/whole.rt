// The tables of a whole program.

ghost use Rattle.std.specs.Prelude.{◌≡◌, ◌<◌, length, None, false};
ghost use Rattle.ss_tables_lookup.specs.Classes.{trees};
ghost use Rattle.ss_resolver_rules.specs.Numbers.{field_count, body_count};
ghost use Rattle.ss_resolver_tables.specs.Limits.{IsWithinLimits};
ghost use Rattle.ss_resolver_tables.specs.Slots.{AreStarts, AreTables};

use ss_resolver_expressions::ResolutionContext;
use ss_resolver_tables::{MethodTable, Starts};
use ss_tables_lookup::Tables;
use ss_tables_scopes::ClassContext;
use std::alloc::Global;

/// The classes of a program, the numbers of their fields and bodies, and their tables of methods.
#[derive(Clone, Copy)]
pub(crate) struct Whole<'t, 'p> {
    pub alloc: Global,
    pub tables: &'t Tables<'p>,
    pub fields: &'t Starts,
    pub bodies: &'t Starts,
    pub methods: &'t [MethodTable<'p>],
    ghost limits: { IsWithinLimits (trees tables.now) },
    ghost fields_are: { AreStarts field_count (trees tables.now) fields.now },
    ghost bodies_are: { AreStarts body_count (trees tables.now) bodies.now },
    ghost methods_are: { AreTables (trees tables.now) methods.now },
}

impl<'t, 'p> Whole<'t, 'p> {
    /// The context of a member of a class.
    pub(crate) fn context(&self, class: usize) -> ResolutionContext<'t, 'p>
        requires { class < length (trees self.now.tables.now) }
        ensures tables { result.within.tables.now ≡ self.now.tables.now }
        ensures class { result.within.class ≡ class }
        ensures outcome { result.within.outcome ≡ None }
        ensures calls { result.within.refuses_members ≡ false }
        ensures this { result.within.refuses_this ≡ false }
    {
        ResolutionContext {
            within: ClassContext {
                alloc: self.alloc,
                tables: self.tables,
                class,
                refuses_members: false,
                refuses_this: false,
                outcome: None,
            },
            fields: self.fields,
            bodies: self.bodies,
            tables: self.methods,
            outcome: None,
        }
    }
}
