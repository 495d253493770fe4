// Changes of the store of a run.
ghost use Rattle.std.specs.Prelude.{◌≡◌, ◌≤◌, ◌<ℤ◌, ◌↔◌, pos, length, Ok, Err, IfOk, OnOk, OnErr};
ghost use Rattle.ss_core.specs.View.{classes};
ghost use Rattle.ss_core.specs.Chain.{most_classes, IsWithinLimits};
ghost use Rattle.ss_store_rules.specs.Changes.{unpack_of, pack_of, write_of, write_element_of, new_object_of, new_array_of, ready_of};
ghost use Rattle.ss_store_rules.specs.Admissible.{invariants_hold};
ghost use Rattle.ss_machine_stores.specs.Stops.{IsMade};

use crate::stop::{ChangeStop, answer_of};
use crate::stores::Stores;
use ss_core::{ClassId, Core, FieldId};
use ss_machine_saves::{drop_all_full, list, log_content, log_level, log_write, mark_of};
use ss_store::NewStop;
use ss_store_rules::Value;
use std::alloc::AllocError;

impl Stores {
    /// The object goes to the level above `t`, and what it owns at `t` is no longer committed. Refused with the first check
    /// that fails: Null, UnpackLevel, UnpackCommitted. After a refusal or want of memory all is as before.
    pub fn unpack(&mut self, c: &Core, o: Value, t: ClassId) -> Result<(), ChangeStop>
        ensures change { IsMade self.old.now self.new.now result (unpack_of (classes c.now.classes) self.old.now o t.0) }
        ensures entries { self.new.entries ≡ self.old.entries }
    {
        log_level(&mut self.journal, &mut self.unfull, &self.store, o, t)?;
        answer_of(self.store.unpack(c, o, t))
    }

    /// The object goes to the level `t`, and what it owns at `t` is committed. Refused with the first check that fails: Null,
    /// PackLevel, Invariant, PackOwned. After a refusal or want of memory all is as before.
    pub fn pack(&mut self, c: &Core, o: Value, t: ClassId) -> Result<(), ChangeStop>
        requires { length (classes c.now.classes) ≤ most_classes }
        ensures change { IsMade self.old.now self.new.now result (pack_of (classes c.now.classes) (invariants_hold (classes c.now.classes)) self.old.now o t.0) }
        ensures entries { self.new.entries ≡ self.old.entries }
    {
        log_level(&mut self.journal, &mut self.unfull, &self.store, o, t)?;
        let changed = self.store.pack(c, o, t);
        drop_all_full(&mut self.unfull, &self.store);
        answer_of(changed)
    }

    /// The field gets the value, after the owners that its mark asks for. Refused with the first check that fails: Null,
    /// WriteLevel, RepOwner, PeerOwner. After a refusal or want of memory all is as before.
    pub fn write(&mut self, c: &Core, o: Value, f: FieldId, v: Value) -> Result<(), ChangeStop>
        requires { length (classes c.now.classes) ≤ most_classes }
        ensures change { IsMade self.old.now self.new.now result (write_of (classes c.now.classes) self.old.now o f.0 v) }
        ensures entries { self.new.entries ≡ self.old.entries }
    {
        let mark = mark_of(&c.classes, f);
        log_write(&mut self.journal, &self.store, mark, o, v)?;
        answer_of(self.store.write(c, o, f, v))
    }

    /// The element gets the value. Refused with the first check that fails: Null, Index, WriteCommitted. After a refusal or
    /// want of memory all is as before.
    pub fn write_element(&mut self, a: Value, i: i32, v: Value) -> Result<(), ChangeStop>
        ensures change { IsMade self.old.now self.new.now result (write_element_of self.old.now a i v) }
        ensures entries { self.new.entries ≡ self.old.entries }
    {
        log_content(&mut self.journal, &self.store, a)?;
        answer_of(self.store.write_element(a, i, v))
    }

    /// The object is ready from now on. An error is want of memory, and all is as before.
    pub fn set_ready(&mut self, c: &Core, o: u32) -> Result<(), AllocError>
        ensures change { OnOk result (self.new.now ≡ ready_of self.old.now o) }
        ensures entries { self.new.entries ≡ self.old.entries }
        ensures kept { OnErr result (self.new ≡ self.old) }
    {
        self.journal.save_header(&self.store, o)?;
        self.store.set_ready(c, o);
        Ok(())
    }

    /// A new object of the class, with the defaults of its fields, at the level `object` and in a group of its own. An error is
    /// want of memory; a store of 2^32 - 1 objects has no number for one more.
    pub fn new_object(&mut self, c: &Core, t: ClassId) -> Result<u32, AllocError>
        requires { IsWithinLimits (classes c.now.classes) }
        ensures position { IfOk result (λ o. o ≡ length self.old.now) }
        ensures added { OnOk result (self.new.now ≡ new_object_of (classes c.now.classes) self.old.now t.0) }
        ensures entries { self.new.entries ≡ self.old.entries }
        ensures kept { OnErr result (self.new ≡ self.old) }
    {
        let count = self.store.count();
        if count >= u32::MAX as usize {
            return Err(AllocError);
        }
        list(&mut self.unfull, Value::Obj(count as u32))?;
        self.store.new_object(&c.classes, t)
    }

    /// A new array of `n` elements, which have their defaults. NegativeLength comes exactly where `n` is below 0; a store of
    /// 2^32 - 1 objects has no number for one more.
    pub fn new_array(&mut self, t: ClassId, n: i32) -> Result<u32, NewStop>
        ensures position { IfOk result (λ a. a ≡ length self.old.now) }
        ensures added { OnOk result (new_array_of self.old.now t.0 n ≡ Ok self.new.now) }
        ensures negative { (result ≡ Err NewStop.NegativeLength) ↔ (n <ℤ pos 0) }
        ensures entries { self.new.entries ≡ self.old.entries }
        ensures kept { OnErr result (self.new ≡ self.old) }
    {
        if n < 0 {
            return Err(NewStop::NegativeLength);
        }
        if self.store.count() >= u32::MAX as usize {
            return Err(NewStop::Memory);
        }
        self.store.new_array(t, n)
    }
}
