// What is logged before levels and owners change.
ghost use Rattle.std.specs.Prelude.{◌≡◌, ◌≤◌, ℕ, length, true, OnOk};
ghost use Rattle.ss_core.specs.View.{classes};
ghost use Rattle.ss_core.specs.Chain.{most_classes};
ghost use Rattle.ss_store_rules.specs.Changes.{field_mark};
ghost use Rattle.ss_journal.specs.Saved.{HasMore, has_header};
ghost use Rattle.ss_machine_saves.specs.Whole.{is_listed};
ghost use Rattle.ss_machine_saves.specs.Moved.{has_owner, holder_of, AreSaved, IsSavedAt, group_joined, group_captured, group_for, moved_group};

use ss_core::{ClassId, Classes, FieldId, Mark};
use ss_journal::Journal;
use ss_store::{Store, same_owner};
use ss_store_rules::{Owner, Value};
use std::alloc::AllocError;

/// Objects by their owner.
#[derive(Clone, Copy)]
pub(crate) enum Owned {
    /// Those that the object owns at this class.
    Pair(u32, ClassId),
    /// The members of the group.
    Member(u32),
}

/// Whether it is one of them.
fn has_owner(those: Owned, owner: Owner) -> bool
    ensures { result ≡ has_owner those owner }
{
    match (those, owner) {
        (Owned::Pair(o, t), Owner::Owned(p, u)) => p == o && u == t,
        (Owned::Member(g), Owner::Group(h)) => h == g,
        _ => false,
    }
}

/// The position of the object that holds them.
fn holder_of(those: Owned) -> u32
    ensures { result ≡ holder_of those }
{
    match those {
        Owned::Pair(o, _) => o,
        Owned::Member(g) => g,
    }
}

/// Logs what the object is, where this is so. An error is want of memory.
fn save_if(journal: &mut Journal, store: &Store, q: u32, is: bool) -> Result<(), AllocError>
    ensures more { HasMore store.now.objects journal.old journal.new }
    ensures saved { OnOk result (is ≡ true → has_header journal.new q ≡ true) }
{
    if is {
        journal.save_header(store, q)
    } else {
        Ok(())
    }
}

/// Logs what the object at the position is, where it is one of those. An error is want of memory.
fn save_at(journal: &mut Journal, store: &Store, those: Owned, q: u32) -> Result<(), AllocError>
    ensures more { HasMore store.now.objects journal.old journal.new }
    ensures saved { OnOk result (IsSavedAt those store.now.objects journal.new q) }
{
    save_if(journal, store, q, has_owner(those, store.owner_of(q)))
}

/// Logs what those of the first `n` objects are. An error is want of memory.
fn save_below(journal: &mut Journal, store: &Store, those: Owned, n: u32) -> Result<(), AllocError>
    requires { length store.now.objects ≡ n }
    ensures more { HasMore store.now.objects journal.old journal.new }
    ensures saved { OnOk result (AreSaved those store.now.objects journal.new) }
{
    for q in 0..n {
        save_at(journal, store, those, q)?;
    }
    Ok(())
}

/// Logs what those at these positions are. An error is want of memory.
fn save_among(
    journal: &mut Journal,
    store: &Store,
    those: Owned,
    positions: &[u32],
) -> Result<(), AllocError>
    ensures more { HasMore store.now.objects journal.old journal.new }
    ensures saved { OnOk result ((q : ℕ) → is_listed positions.now q ≡ true → IsSavedAt those store.now.objects journal.new q) }
{
    for q in positions {
        save_at(journal, store, those, *q)?;
    }
    Ok(())
}

/// Logs what each object of a store is that is one of those. A store with too many objects for a number answers want of memory.
fn save_each(journal: &mut Journal, store: &Store, those: Owned) -> Result<(), AllocError>
    ensures more { HasMore store.now.objects journal.old journal.new }
    ensures saved { OnOk result (AreSaved those store.now.objects journal.new) }
{
    let n = u32::try_from(store.count()).map_err(|_| AllocError)?;
    save_below(journal, store, those, n)
}

/// Logs what those objects are. An error is want of memory.
pub(crate) fn save_those(
    journal: &mut Journal,
    store: &Store,
    those: Owned,
) -> Result<(), AllocError>
    ensures more { HasMore store.now.objects journal.old journal.new }
    ensures saved { OnOk result (AreSaved those store.now.objects journal.new) }
{
    let o = holder_of(those);
    match store.held_by(o) {
        Some(positions) => {
            save_at(journal, store, those, o)?;
            save_among(journal, store, those, positions)
        }
        None => save_each(journal, store, those),
    }
}

fn group_joined(w: Owner, v: Owner) -> Option<u32>
    ensures { result ≡ group_joined w v }
{
    match (w, v) {
        (_, Owner::Group(g)) => Some(g),
        (Owner::Group(g), _) => Some(g),
        _ => None,
    }
}

fn group_captured(v: Owner) -> Option<u32>
    ensures { result ≡ group_captured v }
{
    match v {
        Owner::Group(g) => Some(g),
        Owner::Owned(_, _) => None,
    }
}

fn group_for(mark: Mark, w: Owner, v: Owner) -> Option<u32>
    ensures { result ≡ group_for mark w v }
{
    match mark {
        Mark::Plain => None,
        Mark::Rep => group_captured(v),
        Mark::Peer => if same_owner(w, v) {
            None
        } else {
            group_joined(w, v)
        },
    }
}

/// The mark of the field.
pub fn mark_of(k: &Classes, f: FieldId) -> Mark
    requires { length (classes k.now) ≤ most_classes }
    ensures { result ≡ field_mark (classes k.now) f.0 }
{
    match k.field(f) {
        Some((_, field)) => field.mark,
        None => Mark::Plain,
    }
}

/// The group that gets another owner, where the object comes to refer to the value by a field of this mark.
pub(crate) fn moved_group(store: &Store, mark: Mark, o: u32, v: Value) -> Option<u32>
    ensures { result ≡ moved_group mark store.now.objects o v }
{
    match v {
        Value::Obj(e) => group_for(mark, store.owner_of(o), store.owner_of(e)),
        _ => None,
    }
}
