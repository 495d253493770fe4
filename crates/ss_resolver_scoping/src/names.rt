// Names that were met.

ghost use Rattle.std.specs.Prelude.{◌≡◌, OnOk, string_bytes};
ghost use Rattle.ss_resolver_names_rules.specs.Faults.{is_listed, with_name};
ghost use Rattle.ss_resolver_scoping.specs.Views.{names_of};

use indexmap::IndexSet;
use std::alloc::{AllocError, Global};

/// Whether the name stands among these.
pub fn is_listed(names: &IndexSet<String>, name: &str) -> bool
    ensures { result ≡ is_listed (names_of names.now.keys) name.now }
{
    names.contains(name)
}

fn insert_name(names: &mut IndexSet<String>, name: String) -> Result<(), AllocError>
    ensures { OnOk result (names_of names.new.keys ≡ with_name (names_of names.old.keys) (string_bytes name)) }
{
    names.insert(name)?;
    Ok(())
}

/// Notes a name.
pub fn note_name(alloc: Global, names: &mut IndexSet<String>, name: &str) -> Result<(), AllocError>
    ensures { OnOk result (names_of names.new.keys ≡ with_name (names_of names.old.keys) name.now) }
{
    if is_listed(names, name) {
        return Ok(());
    }
    insert_name(names, String::from_str(alloc, name)?)
}
