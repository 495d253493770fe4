// The store at the entry of a body.
ghost use Rattle.std.specs.Prelude.{◌≡◌, slice_get, unwrap_or};
ghost use Rattle.ss_store_rules.specs.Store.{slot_value};
ghost use Rattle.ss_store_rules.specs.Reads.{no_object, object_at};
ghost use Rattle.ss_journal.specs.Undo.{IsHeaderOf};

use ss_core::{ClassId, FieldId};
use ss_journal::{Journal, OldHeader, header_at};
use ss_store::{Before, NO_CLASS, Slot, Store, owner_of_pair, slot_value};
use ss_store_rules::{Owner, Value};
use std::marker::Model;

/// The content of the first slot of the field; null where there is none.
fn field_of(fields: &[Slot], f: FieldId) -> Value
    ensures { result ≡ unwrap_or (slot_value fields.now f.0) Value.Null }
{
    slot_value(fields, f).unwrap_or(Value::Null)
}

/// The element of this index; null where there is none.
fn element_of(elements: &[Value], i: u32) -> Value
    ensures { result ≡ unwrap_or (slice_get elements.now i) Value.Null }
{
    elements.get(i as usize).copied().unwrap_or(Value::Null)
}

/// What stands where no object is.
fn nothing(o: u32) -> OldHeader
    ensures { IsHeaderOf result no_object }
{
    OldHeader {
        position: o,
        level: ClassId(0),
        committed: false,
        owner: (0, NO_CLASS),
        ready: false,
    }
}

/// The store at the entry of the running body: that of now, with what was logged put back.
#[derive(Drop)]
pub(crate) struct Entry<'a> {
    pub(crate) store: &'a Store,
    pub(crate) journal: &'a Journal,
}

impl<'a> Model for Entry<'a> {
    ghost use Rattle.std.specs.Prelude.{List};
    ghost use Rattle.ss_store_rules.specs.Store.{Object};
    ghost use Rattle.ss_journal.specs.Undo.{entries_of};
    ghost use Rattle.ss_machine_stores.specs.Shapes.{entry_of};

    ghost Value = { List Object };

    ghost view = { λ e. entry_of (entries_of e.journal.now e.store.now.objects) };
}

impl<'a> Before for Entry<'a> {
    ghost told = { λ s. s };

    fn field(&self, o: u32, f: FieldId) -> Value {
        if !self.allocated(o) {
            return Value::Null;
        }
        match self.journal.old_content(o) {
            Some(old) => field_of(&old.fields, f),
            None => self.store.field(o, f),
        }
    }

    fn element(&self, a: u32, i: u32) -> Value {
        if !self.allocated(a) {
            return Value::Null;
        }
        match self.journal.old_content(a) {
            Some(old) => element_of(&old.elements, i),
            None => self.store.element(a, i),
        }
    }

    fn level(&self, o: u32) -> ClassId {
        self.header(o).level
    }

    fn committed(&self, o: u32) -> bool {
        self.header(o).committed
    }

    fn owner(&self, o: u32) -> (u32, u16) {
        self.header(o).owner
    }

    fn allocated(&self, o: u32) -> bool {
        (o as usize) < self.journal.count() && self.store.allocated(o)
    }
}

impl<'a> Entry<'a> {
    pub(crate) fn owner_of(&self, o: u32) -> Owner
        ensures { result ≡ (object_at self.now o).owner }
    {
        owner_of_pair(self.header(o).owner)
    }

    /// What the object was, beside its class, its fields and its elements.
    fn header(&self, o: u32) -> OldHeader
        ensures { IsHeaderOf result (object_at self.now o) }
    {
        if !self.allocated(o) {
            return nothing(o);
        }
        match self.journal.old_header(o) {
            Some(old) => old,
            None => header_at(self.store, o),
        }
    }
}
