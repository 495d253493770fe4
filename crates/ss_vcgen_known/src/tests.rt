// Tests that have come out on the way to an expression.

ghost use Rattle.std.specs.Prelude.{◌≡◌};
ghost use Rattle.ss_store_rules.specs.NonNull.{side_facts};
ghost use Rattle.ss_vcgen_types.specs.Told.{facts_of, all_facts, tells_of, all_tell};
ghost use Rattle.ss_vcgen_known.specs.Views.{known_of, tested};

use crate::known::Known;
use ss_vcgen_types::Told;

/// Tests that have come out on the way to an expression, by what each tells.
#[derive(Clone, Copy)]
pub enum Tests<'t> {
    Nothing,
    Told(&'t Tests<'t>, &'t [Told]),
}

// Whether it tells that the local has the truth value.
fn tells(told: Told, local: usize, outcome: bool) -> bool
    ensures { result ≡ tells_of told local outcome }
{
    match told {
        Told::NotNull(_) => false,
        Told::Truth(other, truth) => local == other && outcome == truth,
    }
}

fn all_tell(list: &[Told], local: usize, outcome: bool) -> bool
    ensures { result ≡ all_tell list.now local outcome }
{
    for told in list {
        if tells(*told, local, outcome) {
            return true;
        }
    }
    false
}

// Whether the local y isn't null where the local x has the truth value.
fn side_has(known: &Known, tests: &Tests<'_>, x: usize, outcome: bool, y: usize) -> bool
    ensures { result ≡ side_facts ((tested tests.now (known_of known.now)).sides x outcome) y }
{
    match tests {
        Tests::Nothing => known.side_has(x, outcome, y),
        Tests::Told(before, list) => {
            if all_tell(list, x, !outcome) {
                false
            } else {
                side_has(known, before, x, outcome, y)
            }
        }
    }
}

// Whether it tells that the local isn't null.
fn is_fact(known: &Known, tests: &Tests<'_>, told: Told, local: usize) -> bool
    ensures { result ≡ facts_of (tested tests.now (known_of known.now)) told local }
{
    match told {
        Told::NotNull(other) => other == local,
        Told::Truth(other, truth) => side_has(known, tests, other, truth, local),
    }
}

fn any_fact(known: &Known, tests: &Tests<'_>, list: &[Told], local: usize) -> bool
    ensures { result ≡ all_facts (tested tests.now (known_of known.now)) list.now local }
{
    for told in list {
        if is_fact(known, tests, *told, local) {
            return true;
        }
    }
    false
}

/// Whether the local is known not to be null.
pub fn knows(known: &Known, tests: &Tests<'_>, local: usize) -> bool
    ensures { result ≡ (tested tests.now (known_of known.now)).facts local }
{
    match tests {
        Tests::Nothing => known.facts.has(local),
        Tests::Told(before, list) => {
            knows(known, before, local) || any_fact(known, before, list, local)
        }
    }
}

/// Whether the field of `this` is known to have its value.
pub(crate) fn has_field(known: &Known, tests: &Tests<'_>, field: usize) -> bool
    ensures { result ≡ (tested tests.now (known_of known.now)).fields field }
{
    match tests {
        Tests::Nothing => known.fields.has(field),
        Tests::Told(before, _) => has_field(known, before, field),
    }
}
