// The context of a place: its class.

ghost use Rattle.std.specs.Prelude.{◌<◌, length};
ghost use Rattle.ss_tables_lookup.specs.Classes.{trees};

use ss_tables_lookup::{StaticType, Tables};
use std::alloc::Global;

/// The class in which a place is, what of `this` is refused there, and the type of `result`.
#[derive(Clone, Copy)]
pub struct ClassContext<'t, 'p> {
    pub alloc: Global,
    pub tables: &'t Tables<'p>,
    pub class: usize,
    /// Members of `this` by their bare names and methods of `base` are refused.
    pub refuses_members: bool,
    /// So is `this`.
    pub refuses_this: bool,
    pub outcome: Option<StaticType>,
    ghost declared: { class < length (trees tables.now) },
}

impl ClassContext<'_, '_> {
    ghost use Rattle.std.specs.Prelude.{◌≡◌, option_map};
    ghost use Rattle.ss_tables.specs.Statics.{this_type};
    ghost use Rattle.ss_tables_lookup.specs.Views.{type_of};

    /// The type of `this`, where it isn't refused.
    pub fn this_type(self) -> Option<StaticType>
        ensures { option_map type_of result ≡ this_type self.entry.refuses_this self.entry.class }
    {
        if self.refuses_this {
            return None;
        }
        Some(StaticType::Ref {
            class: self.tables.class_number(self.class),
            non_null: true,
        })
    }
}
