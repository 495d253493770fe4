// Objects become ready (OOPSLA 2003).
ghost use Rattle.std.specs.Prelude.{◌≡◌, ℕ, List, true, Option};
ghost use Rattle.ss_store_rules.specs.Changes.{ready_of};
ghost use Rattle.ss_store.specs.Listed.{AreListed};

use crate::object::Object;
use crate::store::Store;
use ss_core::Core;

impl Object {
    fn become_ready(&mut self)
        ensures { self.new ≡ record self.old { ready = true } }
    {
        self.ready = true;
    }
}

fn set_ready(objects: &mut [Object], o: u32)
    ensures change { objects.new ≡ ready_of objects.old o }
    ensures listed { (l : Option (List (List ℕ))) → AreListed objects.old l → AreListed objects.new l }
{
    let o = o as usize;
    if o < objects.len() {
        let x = &mut objects[o];
        x.become_ready();
    }
}

impl Store {
    /// The object is ready from now on.
    pub(crate) fn set_ready_exactly(&mut self, c: &Core, o: u32)
        ensures change { self.new.objects ≡ ready_of self.old.objects o }
        ensures spare { self.new.spare ≡ self.old.spare }
    {
        let _ = c;
        set_ready(&mut self.objects, o);
    }
}
