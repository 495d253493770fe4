// The method with which a program begins.

ghost use Rattle.std.specs.Prelude.{◌≡◌, map, option_map, find};
ghost use Rattle.ss_tables.specs.Members.{methods_in};
ghost use Rattle.ss_tables.specs.Classes.{members_at};
ghost use Rattle.ss_tables_lookup.specs.Classes.{trees};
ghost use Rattle.ss_tables_lookup.specs.Views.{method_tree};
ghost use Rattle.ss_resolver_names_rules.specs.Programs.{is_main};
ghost use Rattle.ss_resolver_rules.specs.Programs.{main_from};

use crate::whole::Whole;
use ss_core::BodyId;
use ss_resolver_scoping::is_main;
use ss_resolver_tables::method_id;
use ss_tables_lookup::{MethodRef, Tables};

// The first of these methods that is `Main`.
fn main_in<'p>(methods: &[MethodRef<'p>]) -> Option<MethodRef<'p>>
    ensures { option_map method_tree result ≡ find is_main (map method_tree methods.now) }
{
    for method in methods {
        if is_main(*method) {
            return Some(*method);
        }
    }
    None
}

// The `Main` of a class.
fn main_of<'p>(tables: &Tables<'p>, class: usize) -> Option<MethodRef<'p>>
    ensures { option_map method_tree result ≡ find is_main (methods_in (members_at (trees tables.now) class)) }
{
    match tables.shelf(class) {
        Some(shelf) => main_in(&shelf.methods),
        None => None,
    }
}

/// The method with which the program begins: the first `Main`.
pub(crate) fn main_body(whole: &Whole<'_, '_>) -> BodyId
    ensures { result.0 ≡ main_from (trees whole.now.tables.now) 0 (trees whole.now.tables.now) }
{
    let tables = whole.tables;
    for class in 0..tables.len() {
        if let Some(method) = main_of(tables, class) {
            return method_id(
                tables,
                whole.bodies,
                class,
                method.method.name.text.as_str(),
            );
        }
    }
    BodyId(0)
}
