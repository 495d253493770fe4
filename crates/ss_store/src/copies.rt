// Copies of a store.
ghost use Rattle.std.specs.Prelude.{◌≡◌, IfOk};
ghost use Rattle.ss_store_rules.specs.Reads.{object_at};

use crate::object::{Object, Slot};
use crate::store::Store;
use ss_store_lists::Lists;
use ss_store_rules::Value;
use std::alloc::{AllocError, Global};

fn copy_slots(alloc: Global, slots: &[Slot]) -> Result<Vec<Slot>, AllocError>
    ensures { IfOk result (λ v. v.items ≡ slots.now) }
{
    let mut copies = Vec::with_capacity(alloc, slots.len())?;
    for slot in slots {
        copies.push(Slot {
            field: slot.field,
            value: slot.value,
        })?;
    }
    Ok(copies)
}

fn copy_object(alloc: Global, x: &Object) -> Result<Object, AllocError>
    ensures { IfOk result (λ y. y ≡ x.now) }
{
    let fields = copy_slots(alloc, &x.fields)?;
    let elements = Vec::from_slice(alloc, &x.elements)?;
    Ok(Object {
        class: x.class,
        fields,
        elements,
        level: x.level,
        committed: x.committed,
        owner: x.owner,
        ready: x.ready,
    })
}

fn copy_objects(alloc: Global, objects: &[Object]) -> Result<Vec<Object>, AllocError>
    ensures { IfOk result (λ v. v.items ≡ objects.now) }
{
    let mut copies = Vec::with_capacity(alloc, objects.len())?;
    for x in objects {
        copies.push(copy_object(alloc, x)?)?;
    }
    Ok(copies)
}

impl Store {
    /// A store with equal contents, and no room for more. An error is want of memory.
    pub fn copy(&self) -> Result<Store, AllocError>
        ensures { IfOk result (λ s. s ≡ record { objects = self.now.objects; spare = 0 }) }
    {
        let alloc = *self.objects.allocator();
        let objects = copy_objects(alloc, &self.objects)?;
        Ok(Store {
            objects,
            spare: Vec::new(alloc),
            lists: Lists::none(alloc),
        })
    }

    /// A copy of the fields of the object. An error is want of memory.
    pub fn copy_fields(&self, o: u32) -> Result<Vec<Slot>, AllocError>
        ensures { IfOk result (λ v. v.items ≡ (object_at self.now.objects o).fields) }
    {
        copy_slots(*self.objects.allocator(), self.fields_of(o))
    }

    /// A copy of the elements of the array. An error is want of memory.
    pub fn copy_elements(&self, a: u32) -> Result<Vec<Value>, AllocError>
        ensures { IfOk result (λ v. v.items ≡ (object_at self.now.objects a).elements) }
    {
        Vec::from_slice(*self.objects.allocator(), self.elements_of(a))
    }
}
