// What objects are is logged before they change.
ghost use Rattle.std.specs.Prelude.{◌≡◌, true, OnOk};
ghost use Rattle.ss_store_rules.specs.Reads.{object_at};
ghost use Rattle.ss_journal.specs.Undo.{IsHeaderOf};
ghost use Rattle.ss_journal.specs.Saved.{HasMore, has_header, has_content};

use crate::changes::{OldContent, OldHeader};
use crate::journal::Journal;
use ss_store::{Before, Store};
use std::alloc::AllocError;

/// What the object is now, beside its class, its fields and its elements.
pub fn header_at(store: &Store, q: u32) -> OldHeader
    ensures position { result.position ≡ q }
    ensures header { IsHeaderOf result (object_at store.now.objects q) }
{
    OldHeader {
        position: q,
        level: store.level(q),
        committed: store.committed(q),
        owner: store.owner(q),
        ready: store.is_ready(q),
    }
}

impl Journal {
    /// Logs what the object is, beside its fields and elements, where it isn't new and not logged. An error is want of memory.
    pub fn save_header(&mut self, store: &Store, q: u32) -> Result<(), AllocError>
        ensures more { HasMore store.now.objects self.old self.new }
        ensures saved { OnOk result (has_header self.new q ≡ true) }
    {
        if q as usize >= self.count() || self.is_header_logged(q) {
            return Ok(());
        }
        self.log_header(header_at(store, q))
    }

    /// Logs the fields and elements of the object, where it isn't new and they aren't logged. An error is want of memory.
    pub fn save_content(&mut self, store: &Store, q: u32) -> Result<(), AllocError>
        ensures more { HasMore store.now.objects self.old self.new }
        ensures saved { OnOk result (has_content self.new q ≡ true) }
    {
        if q as usize >= self.count() || self.is_content_logged(q) {
            return Ok(());
        }
        let fields = store.copy_fields(q)?;
        let elements = store.copy_elements(q)?;
        self.log_content(OldContent {
            position: q,
            fields,
            elements,
        })
    }
}
