// New objects, and room for them.
ghost use Rattle.std.specs.Prelude.{◌≡◌, ◌+◌, ◌^◌, ◌<◌, ◌<ℤ◌, ◌↔◌, ℕ, pos, length, replicate, IfOk, OnOk, OnErr};
ghost use Rattle.std.specs.List.{All};
ghost use Rattle.ss_core.specs.View.{classes};
ghost use Rattle.ss_core.specs.Chain.{IsWithinLimits, most_fields};
ghost use Rattle.ss_store_rules.specs.Store.{default_value};
ghost use Rattle.ss_store_rules.specs.Changes.{element_type, new_array, new_array_of, new_object_of};
ghost use Rattle.ss_store.specs.declared.making.NewStop.TheVariants.{Memory};
ghost use Rattle.ss_store.specs.Room.{IsRoomy};

use crate::fields::push_fields;
use crate::object::{Object, Slot};
use crate::store::Store;
use ss_core::{ClassId, Classes, MOST_FIELDS, Ty};
use ss_store_rules::{Owner, Value};
use std::alloc::{AllocError, Global};

/// Why no array is made.
#[derive(Clone, Copy, Debug, PartialEq, Eq)]
pub enum NewStop {
    NegativeLength,
    Memory,
}

impl From<AllocError> for NewStop {
    ghost from_gives = { λ _ stop. stop ≡ Memory };

    fn from(_error: AllocError) -> NewStop {
        NewStop::Memory
    }
}

/// What a new element of an array of the class is.
fn default_element(t: ClassId) -> Value
    ensures { result ≡ default_value (element_type t.0) }
{
    match t.element_type() {
        Ty::Int => Value::Int(0),
        Ty::Bool => Value::Bool(false),
        Ty::Null | Ty::Ref { .. } => Value::Null,
    }
}

fn new_elements(alloc: Global, t: ClassId, n: usize) -> Result<Vec<Value>, AllocError>
    ensures { IfOk result (λ v. v.items ≡ replicate n (default_value (element_type t.0))) }
{
    let mut elements = Vec::new(alloc);
    elements.resize(n, default_element(t))?;
    Ok(elements)
}

/// Lists of slots, each with room for the fields of every object.
fn new_spare(alloc: Global, n: usize) -> Result<Vec<Vec<Slot>>, AllocError>
    ensures count { IfOk result (λ v. length v.items ≡ n) }
    ensures roomy { IfOk result (λ v. All IsRoomy v.items) }
{
    let mut spare = Vec::with_capacity(alloc, n)?;
    for _i in 0..n {
        spare.push(Vec::with_capacity(alloc, MOST_FIELDS)?)?;
    }
    Ok(spare)
}

impl Store {
    ghost use Rattle.std.specs.Prelude.{◌++◌, ◌∷◌, [], ◌-◌, ◌≤◌};

    /// Makes room for `n` new objects, which then come without want of memory. An error is want of memory here, and the room
    /// stays as it was.
    pub fn reserve(&mut self, n: usize) -> Result<(), AllocError>
        ensures objects { self.new.objects ≡ self.old.objects }
        ensures room { OnOk result (n ≤ self.new.spare) }
        ensures more { self.old.spare ≤ self.new.spare }
        ensures kept { OnErr result (self.new.spare ≡ self.old.spare) }
    {
        let alloc = *self.objects.allocator();
        let missing = n.saturating_sub(self.spare.len());
        let mut more = new_spare(alloc, missing)?;
        self.objects.reserve(self.spare.len() + missing)?;
        self.spare.append(&mut more)?;
        Ok(())
    }

    /// A new object of the class, with the defaults of its fields.
    pub(crate) fn new_object_exactly(&mut self, k: &Classes, c: ClassId) -> Result<u32, AllocError>
        requires few { length self.old.objects + 1 < 2 ^ 32 }
        requires limits { IsWithinLimits (classes k.now) }
        ensures position { IfOk result (λ o. o ≡ length self.old.objects) }
        ensures added { OnOk result (self.new.objects ≡ new_object_of (classes k.now) self.old.objects c.0) }
        ensures kept { OnErr result (self.new ≡ self.old) }
        ensures room { OnErr result (self.old.spare ≡ 0) }
        ensures spare { self.new.spare ≡ self.old.spare - 1 }
    {
        let position = self.objects.len() as u32;
        let alloc = *self.objects.allocator();
        let mut fields = self.spare.pop().unwrap_or(Vec::new(alloc));
        push_fields(&mut fields, k, c)?;
        self.objects.push(Object {
            class: c,
            fields,
            elements: Vec::new(alloc),
            level: ClassId(0),
            committed: false,
            owner: Owner::Group(position),
            ready: false,
        })?;
        self.lists.add_holder();
        Ok(position)
    }

    fn add_array(&mut self, t: ClassId, n: usize) -> Result<u32, AllocError>
        requires few { length self.old.objects + 1 < 2 ^ 32 }
        requires short { n < 2 ^ 31 }
        ensures position { IfOk result (λ a. a ≡ length self.old.objects) }
        ensures added { OnOk result (self.new.objects ≡ self.old.objects ++ new_array t.0 n (length self.old.objects) ∷ []) }
        ensures kept { OnErr result (self.new.objects ≡ self.old.objects) }
        ensures spare { self.new.spare ≡ self.old.spare }
    {
        let a = self.objects.len() as u32;
        let alloc = *self.objects.allocator();
        let elements = new_elements(alloc, t, n)?;
        self.objects.reserve(self.spare.len() + 1)?;
        self.objects.push(Object {
            class: t,
            fields: Vec::new(alloc),
            elements,
            level: t,
            committed: false,
            owner: Owner::Group(a),
            ready: true,
        })?;
        self.lists.add_holder();
        Ok(a)
    }

    /// A new array of `n` elements, which have their defaults.
    pub(crate) fn new_array_exactly(&mut self, c: ClassId, n: i32) -> Result<u32, NewStop>
        requires { length self.old.objects + 1 < 2 ^ 32 }
        ensures position { IfOk result (λ a. a ≡ length self.old.objects) }
        ensures added { OnOk result (new_array_of self.old.objects c.0 n ≡ Ok self.new.objects) }
        ensures negative { (result ≡ Err NewStop.NegativeLength) ↔ (n <ℤ pos 0) }
        ensures kept { OnErr result (self.new.objects ≡ self.old.objects) }
        ensures spare { self.new.spare ≡ self.old.spare }
    {
        if n < 0 {
            return Err(NewStop::NegativeLength);
        }
        let a = self.add_array(c, n as usize)?;
        Ok(a)
    }
}
