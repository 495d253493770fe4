// What stands above a class.

ghost use Rattle.std.specs.Prelude.{◌≡◌, length, IfOk, Some};
ghost use Rattle.ss_tables.specs.Members.{fields_in};
ghost use Rattle.ss_tables.specs.Classes.{steps_above, members_at};
ghost use Rattle.ss_tables_lookup.specs.Classes.{trees};
ghost use Rattle.ss_resolver_names_rules.specs.Programs.{ends, is_deep, inherited_fields, is_first_of_cycle};

use ss_core::MOST_ABOVE;
use ss_resolver_scoping::plus;
use ss_tables_lookup::Tables;
use std::alloc::AllocError;

// The class so many steps above.
fn steps_above(tables: &Tables<'_>, steps: usize, class: usize) -> Option<usize>
    ensures { result ≡ steps_above (trees tables.now) steps (Some class) }
{
    let mut at = Some(class);
    let mut left = steps;
    while left > 0 {
        let Some(next) = at else {
            return None;
        };
        at = tables.above(next);
        left -= 1;
    }
    at
}

/// Whether the classes above end in `object`.
pub fn ends(tables: &Tables<'_>, class: usize) -> bool
    ensures { result ≡ ends (trees tables.now) class }
{
    steps_above(tables, tables.len(), class).is_none()
}

/// Whether a class is too deep below `object`.
#[tactic(auto, unfolding(ss_resolver_names_rules::specs::Programs::most_levels))]
pub fn is_deep(tables: &Tables<'_>, class: usize) -> bool
    ensures { result ≡ is_deep (trees tables.now) class }
{
    steps_above(tables, MOST_ABOVE, class).is_some() && ends(tables, class)
}

/// Whether one comes back to a class, going up over later ones alone.
pub fn is_first_of_cycle(tables: &Tables<'_>, class: usize) -> bool
    ensures { result ≡ is_first_of_cycle (trees tables.now) class }
{
    let mut at = tables.above(class);
    let mut left = tables.len();
    while left > 0 {
        let Some(next) = at else {
            return false;
        };
        if next == class {
            return true;
        }
        if next < class {
            return false;
        }
        at = tables.above(next);
        left -= 1;
    }
    false
}

// How many fields a class itself declares.
fn own_fields(tables: &Tables<'_>, class: usize) -> usize
    ensures { result ≡ length (fields_in (members_at (trees tables.now) class)) }
{
    match tables.shelf(class) {
        Some(shelf) => shelf.fields.len(),
        None => 0,
    }
}

/// How many fields an object of the class has from the classes above.
pub fn inherited_fields(tables: &Tables<'_>, class: usize) -> Result<usize, AllocError>
    ensures { IfOk result (λ n. n ≡ inherited_fields (trees tables.now) class) }
{
    let mut count = 0;
    let mut at = tables.above(class);
    let mut left = tables.len();
    while left > 0 {
        let Some(next) = at else {
            return Ok(count);
        };
        count = plus(count, own_fields(tables, next))?;
        at = tables.above(next);
        left -= 1;
    }
    Ok(count)
}
