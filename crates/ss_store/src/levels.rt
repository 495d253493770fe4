// Levels: unpack and pack (JOT 2004).
ghost use Rattle.std.specs.Prelude.{◌≡◌, ◌≤◌, length};
ghost use Rattle.ss_core.specs.View.{classes};
ghost use Rattle.ss_core.specs.Chain.{most_classes};
ghost use Rattle.ss_store_rules.specs.Admissible.{invariants_hold};
ghost use Rattle.std.specs.List.{list_all};
ghost use Rattle.ss_store_rules.specs.Changes.{IsChange, changed, unpacked, unpack_of, repacked, may_be_committed, pack_of};
ghost use Rattle.ss_store.specs.Listed.{AreListed, holds_at};

use crate::effects::{Effect, undergo};
use crate::object::Object;
use crate::owners::is_pair;
use crate::refused::refuse;
use crate::store::Store;
use ss_core::{ClassId, Classes, Core, Kind};
use ss_store_lists::Lists;
use ss_store_rules::{Refused, Value};

impl Object {
    /// Whether the object isn't owned by the one at `o` at `t`, or is at its full level and not committed.
    fn may_be_committed(&self, o: u32, t: ClassId) -> bool
        ensures { result ≡ may_be_committed o t.0 self.now }
    {
        !is_pair(self.owner, o, t) || self.level == self.class && !self.committed
    }
}

fn unpack_all(objects: &mut [Object], lists: &Lists, k: &Classes, o: u32, t: ClassId)
    requires { AreListed objects.old lists.now }
    ensures { objects.new ≡ changed (unpacked (classes k.now) o t.0) objects.old }
{
    undergo(
        objects,
        lists,
        Effect::Unpack {
            object: o,
            class: t,
            above: k.above(t),
        },
    );
}

fn pack_all(objects: &mut [Object], lists: &Lists, o: u32, t: ClassId)
    requires { AreListed objects.old lists.now }
    ensures { objects.new ≡ changed (repacked o t.0) objects.old }
{
    undergo(
        objects,
        lists,
        Effect::Pack {
            object: o,
            class: t,
        },
    );
}

fn unpack(
    objects: &mut [Object],
    lists: &Lists,
    k: &Classes,
    o: Value,
    t: ClassId,
) -> Result<(), Refused>
    requires listed { AreListed objects.old lists.now }
    ensures change { IsChange objects.old objects.new result (unpack_of (classes k.now) objects.old o t.0) }
    ensures listed { AreListed objects.new lists.now }
{
    let Value::Obj(o) = o else {
        return refuse(Kind::Null);
    };
    let Some(x) = objects.get(o as usize) else {
        return refuse(Kind::Null);
    };
    if x.level != t {
        return refuse(Kind::UnpackLevel);
    }
    if x.committed {
        return refuse(Kind::UnpackCommitted);
    }
    unpack_all(objects, lists, k, o, t);
    Ok(())
}

fn may_be_committed_at(objects: &[Object], o: u32, t: ClassId, q: u32) -> bool
    ensures { result ≡ holds_at (may_be_committed o t.0) objects.now q }
{
    match objects.get(q as usize) {
        Some(x) => x.may_be_committed(o, t),
        None => true,
    }
}

fn may_be_committed_among(objects: &[Object], o: u32, t: ClassId, positions: &[u32]) -> bool
    ensures { result ≡ list_all (holds_at (may_be_committed o t.0) objects.now) positions.now }
{
    positions
        .iter()
        .all(|q| may_be_committed_at(objects, o, t, *q))
}

/// Whether all that the object at `o` owns at `t` is at its full level and not committed.
fn may_commit(objects: &[Object], lists: &Lists, o: u32, t: ClassId) -> bool
    requires { AreListed objects.now lists.now }
    ensures { result ≡ list_all (may_be_committed o t.0) objects.now }
{
    match lists.held(o) {
        Some(positions) => {
            may_be_committed_at(objects, o, t, o)
                && may_be_committed_among(objects, o, t, positions)
        }
        None => objects.iter().all(|x| x.may_be_committed(o, t)),
    }
}

/// `holds` says whether the invariants of `t` hold of the object.
fn pack(
    objects: &mut [Object],
    lists: &Lists,
    k: &Classes,
    o: Value,
    t: ClassId,
    holds: bool,
) -> Result<(), Refused>
    requires listed { AreListed objects.old lists.now }
    ensures change { IsChange objects.old objects.new result (pack_of (classes k.now) (λ _ _ _. holds) objects.old o t.0) }
    ensures listed { AreListed objects.new lists.now }
{
    let Value::Obj(o) = o else {
        return refuse(Kind::Null);
    };
    let Some(x) = objects.get(o as usize) else {
        return refuse(Kind::Null);
    };
    if x.level != k.above(t) {
        return refuse(Kind::PackLevel);
    }
    if !holds {
        return refuse(Kind::Invariant);
    }
    if !may_commit(objects, lists, o, t) {
        return refuse(Kind::PackOwned);
    }
    pack_all(objects, lists, o, t);
    Ok(())
}

impl Store {
    /// The object goes to the level `t`, and what it owns at `t` is committed, where its invariants at `t` hold.
    pub(crate) fn pack_exactly(&mut self, c: &Core, o: Value, t: ClassId) -> Result<(), Refused>
        requires { length (classes c.now.classes) ≤ most_classes }
        ensures change { IsChange self.old.objects self.new.objects result (pack_of (classes c.now.classes) (invariants_hold (classes c.now.classes)) self.old.objects o t.0) }
        ensures spare { self.new.spare ≡ self.old.spare }
    {
        let holds = self.invariants_hold(c, o, t);
        self.pack_with(c, o, t, holds)
    }

    /// `holds` says whether the invariants of `t` hold of the object.
    fn pack_with(&mut self, c: &Core, o: Value, t: ClassId, holds: bool) -> Result<(), Refused>
        ensures change { IsChange self.old.objects self.new.objects result (pack_of (classes c.now.classes) (λ _ _ _. holds) self.old.objects o t.0) }
        ensures spare { self.new.spare ≡ self.old.spare }
    {
        pack(&mut self.objects, &self.lists, &c.classes, o, t, holds)
    }

    /// The object goes to the level above `t`, and what it owns at `t` is no longer committed.
    pub(crate) fn unpack_exactly(&mut self, c: &Core, o: Value, t: ClassId) -> Result<(), Refused>
        ensures change { IsChange self.old.objects self.new.objects result (unpack_of (classes c.now.classes) self.old.objects o t.0) }
        ensures spare { self.new.spare ≡ self.old.spare }
    {
        unpack(&mut self.objects, &self.lists, &c.classes, o, t)
    }
}
