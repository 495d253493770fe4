// Faults that are noted.

ghost use Rattle.std.specs.Prelude.{◌≡◌, ◌++◌, OnOk, map};
ghost use Rattle.ss_core.specs.Rules.{rule_number};
ghost use Rattle.ss_owners_rules.specs.Program.{at, of_reads, of_words, of_attributes};

use ss_core::{Place, Rule};
use ss_faults::Fault;
use std::alloc::AllocError;

// Notes a fault of this rule at each place.
fn note(rule: Rule, places: &[Place], found: &mut Vec<Fault>) -> Result<(), AllocError>
    ensures { OnOk result (found.new.items ≡ found.old.items ++ map (at (rule_number rule)) places.now) }
{
    for place in places {
        found.push(Fault {
            rule: rule.number(),
            place: *place,
        })?;
    }
    Ok(())
}

/// Notes that the reads at these places aren't admissible.
pub fn note_reads(places: &[Place], found: &mut Vec<Fault>) -> Result<(), AllocError>
    ensures { OnOk result (found.new.items ≡ found.old.items ++ of_reads places.now) }
{
    note(Rule::NotAdmissible, places, found)
}

/// Notes that the words at these places may not stand there.
pub fn note_words(places: &[Place], found: &mut Vec<Fault>) -> Result<(), AllocError>
    ensures { OnOk result (found.new.items ≡ found.old.items ++ of_words places.now) }
{
    note(Rule::MisplacedWord, places, found)
}

/// Notes that the attributes at these places may not stand there.
pub fn note_bad(places: &[Place], found: &mut Vec<Fault>) -> Result<(), AllocError>
    ensures { OnOk result (found.new.items ≡ found.old.items ++ of_attributes places.now) }
{
    note(Rule::BadAttribute, places, found)
}
