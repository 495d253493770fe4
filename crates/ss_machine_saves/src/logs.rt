// What each change logs before it is made.
ghost use Rattle.std.specs.Prelude.{OnOk};
ghost use Rattle.ss_journal.specs.Saved.{HasMore};
ghost use Rattle.ss_machine_saves.specs.Whole.{HasMoreListed};
ghost use Rattle.ss_machine_saves.specs.Moved.{IsReadyForLevel, IsReadyForWrite, HasContent, IsGroupSaved};

use crate::levels::list;
use crate::owners::{Owned, moved_group, save_those};
use ss_core::{ClassId, Mark};
use ss_journal::Journal;
use ss_store::Store;
use ss_store_rules::Value;
use std::alloc::AllocError;

/// Logs what the object is, and what it owns at `t`, and lists it. An error is want of memory.
pub fn log_level(
    journal: &mut Journal,
    unfull: &mut Vec<u32>,
    store: &Store,
    object: Value,
    t: ClassId,
) -> Result<(), AllocError>
    ensures more { HasMore store.now.objects journal.old journal.new }
    ensures listed { HasMoreListed unfull.old.items unfull.new.items }
    ensures logged { OnOk result (IsReadyForLevel store.now.objects journal.new unfull.new.items object t.0) }
{
    let Value::Obj(o) = object else {
        return Ok(());
    };
    list(unfull, object)?;
    journal.save_header(store, o)?;
    save_those(journal, store, Owned::Pair(o, t))
}

/// Logs the fields and elements of the object. An error is want of memory.
pub fn log_content(journal: &mut Journal, store: &Store, object: Value) -> Result<(), AllocError>
    ensures more { HasMore store.now.objects journal.old journal.new }
    ensures logged { OnOk result (HasContent journal.new object) }
{
    match object {
        Value::Obj(o) => journal.save_content(store, o),
        _ => Ok(()),
    }
}

/// Logs the members of the group that gets another owner. An error is want of memory.
fn log_group(journal: &mut Journal, store: &Store, group: Option<u32>) -> Result<(), AllocError>
    ensures more { HasMore store.now.objects journal.old journal.new }
    ensures logged { OnOk result (IsGroupSaved group store.now.objects journal.new) }
{
    match group {
        Some(g) => save_those(journal, store, Owned::Member(g)),
        None => Ok(()),
    }
}

/// Logs what a write changes to a field of this mark. An error is want of memory.
pub fn log_write(
    journal: &mut Journal,
    store: &Store,
    mark: Mark,
    object: Value,
    value: Value,
) -> Result<(), AllocError>
    ensures more { HasMore store.now.objects journal.old journal.new }
    ensures logged { OnOk result (IsReadyForWrite store.now.objects journal.new mark object value) }
{
    let Value::Obj(o) = object else {
        return Ok(());
    };
    journal.save_content(store, o)?;
    log_group(journal, store, moved_group(store, mark, o, value))
}
