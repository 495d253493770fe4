// Writes of fields and of elements.
ghost use Rattle.std.specs.Prelude.{◌≡◌, ◌≢◌, ◌<◌, ◌≤◌, length, ℕ, List, Option};
ghost use Rattle.ss_core.specs.View.{classes};
ghost use Rattle.ss_core.specs.Chain.{most_classes};
ghost use Rattle.ss_store_rules.specs.Changes.{IsChange, changed, field_class, field_mark, with_content, with_field, written, with_owners, write_of, element_written, write_element_of};
ghost use Rattle.ss_store.specs.Shapes.{no_class};
ghost use Rattle.ss_store.specs.Listed.{AreListed};

use crate::object::{Object, Slot};
use crate::owners::{capture, join_peer};
use crate::refused::refuse;
use crate::store::Store;
use ss_core::{ClassId, Classes, Core, FieldId, Kind, Mark};
use ss_store_lists::Lists;
use ss_store_rules::{Refused, Value};

impl Slot {
    fn write(&mut self, f: FieldId, v: Value)
        ensures { self.new ≡ with_content f.0 v self.old }
    {
        if self.field == f {
            self.value = v;
        }
    }
}

fn write_slots(fields: &mut [Slot], f: FieldId, v: Value)
    ensures { fields.new ≡ with_field fields.old f.0 v }
{
    for slot in fields.iter_mut() {
        slot.write(f, v);
    }
}

impl Object {
    ghost use Rattle.std.specs.Prelude.{slice_set};
    ghost use Rattle.ss_store_rules.specs.Changes.{with_field};

    fn write(&mut self, f: FieldId, v: Value)
        ensures { self.new ≡ record self.old { fields = with_field self.old.fields f.0 v } }
    {
        write_slots(&mut self.fields, f, v);
    }

    fn write_element(&mut self, i: usize, v: Value)
        ensures { self.new ≡ record self.old { elements = slice_set self.old.elements i v } }
    {
        if i < self.elements.len() {
            self.elements[i] = v;
        }
    }
}

fn write_element_at(objects: &mut [Object], a: u32, i: usize, v: Value)
    requires { a < length objects.old }
    ensures change { objects.new ≡ changed (element_written a i v) objects.old }
    ensures listed { (l : Option (List (List ℕ))) → AreListed objects.old l → AreListed objects.new l }
{
    let x = &mut objects[a as usize];
    x.write_element(i, v);
}

fn write_element(objects: &mut [Object], a: Value, i: i32, v: Value) -> Result<(), Refused>
    ensures change { IsChange objects.old objects.new result (write_element_of objects.old a i v) }
    ensures listed { (l : Option (List (List ℕ))) → AreListed objects.old l → AreListed objects.new l }
{
    let Value::Obj(a) = a else {
        return refuse(Kind::Null);
    };
    let Some(x) = objects.get(a as usize) else {
        return refuse(Kind::Null);
    };
    if i < 0 {
        return refuse(Kind::Index);
    }
    let i = i as usize;
    if x.elements.len() <= i {
        return refuse(Kind::Index);
    }
    if x.committed {
        return refuse(Kind::WriteCommitted);
    }
    write_element_at(objects, a, i, v);
    Ok(())
}

/// The class that declares the field, and the field's mark.
fn declaration(k: &Classes, f: FieldId) -> (ClassId, Mark)
    requires { length (classes k.now) ≤ most_classes }
    ensures class { result.0.0 ≡ field_class (classes k.now) f.0 }
    ensures mark { result.1 ≡ field_mark (classes k.now) f.0 }
    ensures told { result.0.0 ≢ no_class }
{
    match k.field(f) {
        Some((t, field)) => (t, field.mark),
        None => (ClassId(0), Mark::Plain),
    }
}

/// What the mark asks of the owners, where the object at `o` comes to refer to the value.
fn own(
    objects: &mut [Object],
    lists: &mut Lists,
    mark: Mark,
    o: u32,
    t: ClassId,
    v: Value,
) -> Result<(), Refused>
    requires told { t.0 ≢ no_class }
    requires listed { AreListed objects.old lists.old }
    ensures change { IsChange objects.old objects.new result (with_owners mark objects.old o t.0 v) }
    ensures listed { AreListed objects.new lists.new }
{
    let Value::Obj(e) = v else {
        return Ok(());
    };
    match mark {
        Mark::Plain => Ok(()),
        Mark::Rep => capture(objects, lists, o, t, e),
        Mark::Peer => join_peer(objects, lists, o, e),
    }
}

fn write_field_at(objects: &mut [Object], o: u32, f: FieldId, v: Value)
    requires { o < length objects.old }
    ensures change { objects.new ≡ changed (written o f.0 v) objects.old }
    ensures listed { (l : Option (List (List ℕ))) → AreListed objects.old l → AreListed objects.new l }
{
    let x = &mut objects[o as usize];
    x.write(f, v);
}

fn write(
    objects: &mut [Object],
    lists: &mut Lists,
    k: &Classes,
    o: Value,
    f: FieldId,
    v: Value,
) -> Result<(), Refused>
    requires few { length (classes k.now) ≤ most_classes }
    requires listed { AreListed objects.old lists.old }
    ensures change { IsChange objects.old objects.new result (write_of (classes k.now) objects.old o f.0 v) }
    ensures listed { AreListed objects.new lists.new }
{
    let Value::Obj(o) = o else {
        return refuse(Kind::Null);
    };
    let Some(x) = objects.get(o as usize) else {
        return refuse(Kind::Null);
    };
    let (t, mark) = declaration(k, f);
    if k.is_level(x.level, t) {
        return refuse(Kind::WriteLevel);
    }
    own(objects, lists, mark, o, t, v)?;
    write_field_at(objects, o, f, v);
    Ok(())
}

impl Store {
    /// The field gets the value, after the owners that its mark asks for.
    pub(crate) fn write_exactly(
        &mut self,
        c: &Core,
        o: Value,
        f: FieldId,
        v: Value,
    ) -> Result<(), Refused>
        requires { length (classes c.now.classes) ≤ most_classes }
        ensures change { IsChange self.old.objects self.new.objects result (write_of (classes c.now.classes) self.old.objects o f.0 v) }
        ensures spare { self.new.spare ≡ self.old.spare }
    {
        write(&mut self.objects, &mut self.lists, &c.classes, o, f, v)
    }

    /// The element gets the value.
    pub(crate) fn write_element_exactly(
        &mut self,
        a: Value,
        i: i32,
        v: Value,
    ) -> Result<(), Refused>
        ensures change { IsChange self.old.objects self.new.objects result (write_element_of self.old.objects a i v) }
        ensures spare { self.new.spare ≡ self.old.spare }
    {
        write_element(&mut self.objects, a, i, v)
    }
}
