// The changes of a store: each exactly as defined, and each keeps a good store good.
ghost use Rattle.std.specs.Prelude.{◌≡◌, ◌≢◌, ◌≤◌, ◌+◌, ◌-◌, ◌^◌, ◌<◌, ◌<ℤ◌, ◌↔◌, List, Some, Ok, Err, true, false, pos, length, slice_get, IfOk, OnOk, OnErr};
ghost use Rattle.ss_core.specs.Tree.{ClassTree};
ghost use Rattle.ss_core.specs.View.{classes};
ghost use Rattle.ss_core.specs.Chain.{is_declared, most_classes, IsWithinLimits};
ghost use Rattle.ss_store_rules.specs.Store.{Object};
ghost use Rattle.ss_store_rules.specs.Changes.{is_array, field_class, IsChange, unpack_of, pack_of, capture_of, join_of, write_of, write_element_of, new_object_of, new_array_of, ready_of};
ghost use Rattle.ss_store_rules.specs.Good.{IsReady};
ghost use Rattle.ss_store_rules.specs.Admissible.{invariants_hold};
ghost use Rattle.ss_store_rules.specs.Keeps.{Keeps, IsOf, MayStandIn, IsElement, IsUnpacked, HasItsFields};
ghost use Rattle.ss_store.specs.Shapes.{no_class};

use crate::making::NewStop;
use crate::store::Store;
use ss_core::{ClassId, Classes, Core, FieldId};
use ss_store_rules::{Refused, Value};
use std::alloc::AllocError;

impl Store {
    /// The object goes to the level above `t`, and what it owns at `t` is no longer committed (JOT 2004). Refused with the first
    /// check that fails: Null, UnpackLevel, UnpackCommitted.
    pub fn unpack(&mut self, c: &Core, o: Value, t: ClassId) -> Result<(), Refused>
        ensures change { IsChange self.old.objects self.new.objects result (unpack_of (classes c.now.classes) self.old.objects o t.0) }
        ensures spare { self.new.spare ≡ self.old.spare }
        ensures good { is_declared (classes c.now.classes) t.0 ≡ true → Keeps (classes c.now.classes) self.old.objects self.new.objects }
    {
        self.unpack_exactly(c, o, t)
    }

    /// The object goes to the level `t`, and what it owns at `t` is committed (JOT 2004). Refused with the first check that
    /// fails: Null, PackLevel, Invariant, PackOwned.
    pub fn pack(&mut self, c: &Core, o: Value, t: ClassId) -> Result<(), Refused>
        requires { length (classes c.now.classes) ≤ most_classes }
        ensures change { IsChange self.old.objects self.new.objects result (pack_of (classes c.now.classes) (invariants_hold (classes c.now.classes)) self.old.objects o t.0) }
        ensures spare { self.new.spare ≡ self.old.spare }
        ensures good { is_declared (classes c.now.classes) t.0 ≡ true → IsOf (classes c.now.classes) self.old.objects o t.0 → Keeps (classes c.now.classes) self.old.objects self.new.objects }
    {
        self.pack_exactly(c, o, t)
    }

    /// Each member of the group of the object at `e` gets the pair of the object at `o` and the class (ECOOP 2004). Refused with
    /// RepOwner.
    pub fn capture(&mut self, o: u32, t: ClassId, e: u32) -> Result<(), Refused>
        requires { t.0 ≢ no_class }
        ensures change { IsChange self.old.objects self.new.objects result (capture_of self.old.objects o t.0 e) }
        ensures spare { self.new.spare ≡ self.old.spare }
        ensures good { (cs : List ClassTree) (x : Object) → IsUnpacked cs self.old.objects o t.0 x → Keeps cs self.old.objects self.new.objects }
    {
        self.capture_exactly(o, t, e)
    }

    /// The objects at `o` and `e` get one owner (ECOOP 2004). Refused with PeerOwner.
    pub fn join_peer(&mut self, o: u32, e: u32) -> Result<(), Refused>
        ensures change { IsChange self.old.objects self.new.objects result (join_of self.old.objects o e) }
        ensures spare { self.new.spare ≡ self.old.spare }
        ensures good { (cs : List ClassTree) (x : Object) → slice_get self.old.objects o ≡ Some x → x.committed ≡ false → Keeps cs self.old.objects self.new.objects }
    {
        self.join_peer_exactly(o, e)
    }

    /// The field gets the value, after the owners that its mark asks for. Refused with the first check that fails: Null,
    /// WriteLevel, RepOwner, PeerOwner.
    pub fn write(&mut self, c: &Core, o: Value, f: FieldId, v: Value) -> Result<(), Refused>
        requires { length (classes c.now.classes) ≤ most_classes }
        ensures change { IsChange self.old.objects self.new.objects result (write_of (classes c.now.classes) self.old.objects o f.0 v) }
        ensures spare { self.new.spare ≡ self.old.spare }
        ensures good { IsOf (classes c.now.classes) self.old.objects o (field_class (classes c.now.classes) f.0) → MayStandIn (classes c.now.classes) self.old.objects f.0 v → Keeps (classes c.now.classes) self.old.objects self.new.objects }
    {
        self.write_exactly(c, o, f, v)
    }

    /// The element gets the value. Refused with the first check that fails: Null, Index, WriteCommitted.
    pub fn write_element(&mut self, a: Value, i: i32, v: Value) -> Result<(), Refused>
        ensures change { IsChange self.old.objects self.new.objects result (write_element_of self.old.objects a i v) }
        ensures spare { self.new.spare ≡ self.old.spare }
        ensures good { (cs : List ClassTree) → IsElement cs self.old.objects a v → IsReady self.old.objects v → Keeps cs self.old.objects self.new.objects }
    {
        self.write_element_exactly(a, i, v)
    }

    /// The object is ready from now on (OOPSLA 2003).
    pub fn set_ready(&mut self, c: &Core, o: u32)
        ensures change { self.new.objects ≡ ready_of self.old.objects o }
        ensures spare { self.new.spare ≡ self.old.spare }
        ensures good { HasItsFields (classes c.now.classes) self.old.objects o → Keeps (classes c.now.classes) self.old.objects self.new.objects }
    {
        self.set_ready_exactly(c, o)
    }

    /// A new object of the class, with the defaults of its fields, at the level `object` and in a group of its own. An error is
    /// want of memory; it doesn't come where there is spare room.
    pub fn new_object(&mut self, k: &Classes, c: ClassId) -> Result<u32, AllocError>
        requires few { length self.old.objects + 1 < 2 ^ 32 }
        requires limits { IsWithinLimits (classes k.now) }
        ensures position { IfOk result (λ o. o ≡ length self.old.objects) }
        ensures added { OnOk result (self.new.objects ≡ new_object_of (classes k.now) self.old.objects c.0) }
        ensures kept { OnErr result (self.new ≡ self.old) }
        ensures room { OnErr result (self.old.spare ≡ 0) }
        ensures spare { self.new.spare ≡ self.old.spare - 1 }
        ensures good { is_declared (classes k.now) c.0 ≡ true → Keeps (classes k.now) self.old.objects self.new.objects }
    {
        self.new_object_exactly(k, c)
    }

    /// A new array of `n` elements, which have their defaults. NegativeLength comes exactly where `n` is below 0.
    pub fn new_array(&mut self, c: ClassId, n: i32) -> Result<u32, NewStop>
        requires { length self.old.objects + 1 < 2 ^ 32 }
        ensures position { IfOk result (λ a. a ≡ length self.old.objects) }
        ensures added { OnOk result (new_array_of self.old.objects c.0 n ≡ Ok self.new.objects) }
        ensures negative { (result ≡ Err NewStop.NegativeLength) ↔ (n <ℤ pos 0) }
        ensures kept { OnErr result (self.new.objects ≡ self.old.objects) }
        ensures spare { self.new.spare ≡ self.old.spare }
        ensures good { (cs : List ClassTree) → is_array cs c.0 ≡ true → Keeps cs self.old.objects self.new.objects }
    {
        self.new_array_exactly(c, n)
    }
}
