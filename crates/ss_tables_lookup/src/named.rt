// What stands under names.

ghost use Rattle.std.specs.Prelude.{◌≡◌, [], ◌∷◌, ◌++◌, None, OnOk, string_bytes};
ghost use Rattle.ss_tables.specs.Named.{named_in, with_named};

use indexmap::IndexMap;
use std::alloc::{AllocError, Global};
use std::marker::Model;

/// A value under each name.
#[derive(Drop)]
pub struct NameMap<T> {
    first: IndexMap<String, T>,
}

impl<T> Model for NameMap<T> {
    ghost use Rattle.ss_tables.specs.Named.{Named};
    ghost use Rattle.ss_tables_lookup.specs.Codes.{named_code};

    ghost Value = { Named T };

    ghost coded = { named_code T.code };

    ghost use Rattle.ss_tables_lookup.specs.Views.{names_in};

    ghost view = { λ m. names_in m.first.entries };
}

impl<T: Drop> NameMap<T> {
    /// No names.
    pub fn new(alloc: Global) -> Self
        ensures { result ≡ [] }
    {
        NameMap {
            first: IndexMap::new(alloc),
        }
    }
}

impl<T: Copy + Drop> NameMap<T> {
    /// What stands under the name.
    pub fn find(&self, name: &str) -> Option<T>
        ensures { result ≡ named_in self.now name.now }
    {
        self.first.get(name).copied()
    }

    // A value under a new name.
    fn insert(&mut self, name: String, value: T) -> Result<(), AllocError>
        requires { named_in self.old (string_bytes name) ≡ None }
        ensures { OnOk result (self.new ≡ self.old ++ (string_bytes name, value) ∷ []) }
    {
        self.first.insert(name, value)?;
        Ok(())
    }

    /// A value under a name that has none yet.
    pub fn note(&mut self, alloc: Global, name: &str, value: T) -> Result<(), AllocError>
        ensures { OnOk result (self.new ≡ with_named self.old name.now value) }
    {
        if self.find(name).is_none() {
            self.insert(String::from_str(alloc, name)?, value)?;
        }
        Ok(())
    }
}
