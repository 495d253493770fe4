// Owners: a whole group gets one.
ghost use Rattle.std.specs.Prelude.{◌≡◌, ◌≢◌};
ghost use Rattle.ss_core.specs.View.{classes};
ghost use Rattle.ss_store_rules.specs.Reads.{is_group, is_pair, is_pair_upto, is_in_group, same_owner};
ghost use Rattle.ss_store_rules.specs.Changes.{IsChange, changed, regrouped, capture_of, join_of};
ghost use Rattle.ss_store.specs.Shapes.{no_class, HasClass};
ghost use Rattle.ss_store.specs.Listed.{AreListed};

use crate::effects::{Effect, undergo};
use crate::listed::refile;
use crate::object::Object;
use crate::refused::refuse;
use crate::store::Store;
use ss_core::{ClassId, Classes, Kind};
use ss_store_lists::Lists;
use ss_store_rules::{Owner, Refused};

/// Whether the owner is a group.
pub fn is_group(owner: Owner) -> bool
    ensures { result ≡ is_group owner }
{
    match owner {
        Owner::Group(_) => true,
        Owner::Owned(_, _) => false,
    }
}

/// Whether the owner is the pair of the object at `o` and the class.
pub(crate) fn is_pair(owner: Owner, o: u32, t: ClassId) -> bool
    ensures { result ≡ is_pair o t.0 owner }
{
    match owner {
        Owner::Owned(p, u) => p == o && u == t,
        Owner::Group(_) => false,
    }
}

/// Whether it is a pair of this object and this class or one above it.
pub fn is_pair_upto(table: &Classes, o: u32, t: ClassId, owner: Owner) -> bool
    ensures { result ≡ is_pair_upto (classes table.now) o t.0 owner }
{
    match owner {
        Owner::Group(_) => false,
        Owner::Owned(q, u) => q == o && table.is_subclass(t, u),
    }
}

/// Whether the object is a member of the group.
pub(crate) fn is_in_group(owner: Owner, g: u32) -> bool
    ensures { result ≡ is_in_group g owner }
{
    match owner {
        Owner::Group(h) => h == g,
        Owner::Owned(_, _) => false,
    }
}

/// Whether two owners are equal.
pub fn same_owner(v: Owner, w: Owner) -> bool
    ensures { result ≡ same_owner v w }
{
    match (v, w) {
        (Owner::Group(g), Owner::Group(h)) => g == h,
        (Owner::Owned(o, t), Owner::Owned(p, u)) => o == p && t == u,
        _ => false,
    }
}

/// Each member of the group gets the owner.
fn regroup(objects: &mut [Object], lists: &mut Lists, g: u32, owner: Owner)
    requires told { HasClass owner }
    requires listed { AreListed objects.old lists.old }
    ensures change { objects.new ≡ changed (regrouped g owner) objects.old }
    ensures listed { AreListed objects.new lists.new }
{
    undergo(objects, lists, Effect::Regroup { group: g, owner });
    refile(objects, lists, g);
}

pub(crate) fn capture(
    objects: &mut [Object],
    lists: &mut Lists,
    o: u32,
    t: ClassId,
    e: u32,
) -> Result<(), Refused>
    requires told { t.0 ≢ no_class }
    requires listed { AreListed objects.old lists.old }
    ensures change { IsChange objects.old objects.new result (capture_of objects.old o t.0 e) }
    ensures listed { AreListed objects.new lists.new }
{
    let Some(y) = objects.get(e as usize) else {
        return refuse(Kind::Null);
    };
    let owner = y.owner;
    if let Owner::Group(g) = owner {
        regroup(objects, lists, g, Owner::Owned(o, t));
        return Ok(());
    }
    if is_pair(owner, o, t) {
        Ok(())
    } else {
        refuse(Kind::RepOwner)
    }
}

pub(crate) fn join_peer(
    objects: &mut [Object],
    lists: &mut Lists,
    o: u32,
    e: u32,
) -> Result<(), Refused>
    requires listed { AreListed objects.old lists.old }
    ensures change { IsChange objects.old objects.new result (join_of objects.old o e) }
    ensures listed { AreListed objects.new lists.new }
{
    let Some(x) = objects.get(o as usize) else {
        return refuse(Kind::Null);
    };
    let Some(y) = objects.get(e as usize) else {
        return refuse(Kind::Null);
    };
    let (owner, other, committed) = (x.owner, y.owner, y.committed);
    if same_owner(owner, other) {
        return Ok(());
    }
    if let Owner::Group(g) = other {
        regroup(objects, lists, g, owner);
        return Ok(());
    }
    match owner {
        Owner::Group(g) if !committed => {
            regroup(objects, lists, g, other);
            Ok(())
        }
        _ => refuse(Kind::PeerOwner),
    }
}

impl Store {
    /// The group of the object at `e` gets the pair of the object at `o` and the class.
    pub(crate) fn capture_exactly(&mut self, o: u32, t: ClassId, e: u32) -> Result<(), Refused>
        requires { t.0 ≢ no_class }
        ensures change { IsChange self.old.objects self.new.objects result (capture_of self.old.objects o t.0 e) }
        ensures spare { self.new.spare ≡ self.old.spare }
    {
        capture(&mut self.objects, &mut self.lists, o, t, e)
    }

    /// The objects at `o` and `e` get one owner.
    pub(crate) fn join_peer_exactly(&mut self, o: u32, e: u32) -> Result<(), Refused>
        ensures change { IsChange self.old.objects self.new.objects result (join_of self.old.objects o e) }
        ensures spare { self.new.spare ≡ self.old.spare }
    {
        join_peer(&mut self.objects, &mut self.lists, o, e)
    }
}
