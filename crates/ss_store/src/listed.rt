// The lists of a store after changes.
ghost use Rattle.std.specs.Prelude.{◌≡◌, true, Some, slice_get};
ghost use Rattle.ss_store_rules.specs.Store as model;
ghost use Rattle.ss_store_lists.specs.Listing.{is_held, HasMore};
ghost use Rattle.ss_store.specs.Listed.{holder, AreListed, AreFiledBut, IsMoved};

use crate::object::Object;
use ss_store_lists::Lists;
use ss_store_rules::Owner;

/// The position of the object that holds what has this owner.
fn holder(owner: Owner) -> u32
    ensures { result ≡ holder owner }
{
    match owner {
        Owner::Group(g) => g,
        Owner::Owned(o, _) => o,
    }
}

/// Lists the object at the position by what holds it.
fn file(objects: &[Object], lists: &mut Lists, q: u32)
    ensures more { HasMore lists.old lists.new }
    ensures filed { (x : model.Object) → slice_get objects.now q ≡ Some x → is_held lists.new (holder x.owner) q ≡ true }
{
    if let Some(x) = objects.get(q as usize) {
        lists.add_held(holder(x.owner), q);
    }
}

/// Lists these objects by what holds them.
fn file_all(objects: &[Object], lists: &mut Lists, positions: &[u32])
    requires { AreFiledBut objects.now lists.old positions.now }
    ensures { AreListed objects.now lists.new }
{
    for q in positions {
        file(objects, lists, *q);
    }
}

/// Lists what the object at `g` holds anew by what holds it now.
pub(crate) fn refile(objects: &[Object], lists: &mut Lists, g: u32)
    requires { IsMoved objects.now lists.old g }
    ensures { AreListed objects.now lists.new }
{
    let members = lists.take_held(g);
    file(objects, lists, g);
    file_all(objects, lists, &members);
}
