// Changes of many objects at once.
ghost use Rattle.std.specs.Prelude.{◌≡◌, ◌∷◌, []};
ghost use Rattle.ss_store_rules.specs.Changes.{changed};
ghost use Rattle.ss_store.specs.Effects.{effect, among, reach, IsTold};
ghost use Rattle.ss_store.specs.Listed.{AreListed};

use crate::object::Object;
use crate::owners::{is_in_group, is_pair};
use ss_core::ClassId;
use ss_store_lists::Lists;
use ss_store_rules::Owner;

/// What is done with each object that it concerns.
#[derive(Clone, Copy)]
pub(crate) enum Effect {
    /// The object at a position goes to the level above, and what it owns at the class is no longer committed.
    Unpack {
        object: u32,
        class: ClassId,
        above: ClassId,
    },
    /// The object at a position goes to the level, and what it owns at the class is committed.
    Pack {
        object: u32,
        class: ClassId,
    },
    /// Each member of the group gets the owner.
    Regroup {
        group: u32,
        owner: Owner,
    },
}

impl Effect {
    /// The object that holds all others that it concerns.
    fn reach(self) -> u32
        ensures { result ≡ reach self }
    {
        match self {
            Effect::Unpack { object, .. } => object,
            Effect::Pack { object, .. } => object,
            Effect::Regroup { group, .. } => group,
        }
    }
}

impl Object {
    /// The object at `q` after the effect.
    fn undergo(&mut self, e: Effect, q: usize)
        requires { IsTold e }
        ensures { self.new ≡ effect e q self.old }
    {
        match e {
            Effect::Unpack {
                object,
                class,
                above,
            } => {
                if is_pair(self.owner, object, class) {
                    self.committed = false;
                }
                if q == object as usize {
                    self.level = above;
                }
            }
            Effect::Pack { object, class } => {
                if is_pair(self.owner, object, class) {
                    self.committed = true;
                }
                if q == object as usize {
                    self.level = class;
                }
            }
            Effect::Regroup { group, owner } => {
                if is_in_group(self.owner, group) {
                    self.owner = owner;
                }
            }
        }
    }
}

/// The effect on the object at one position.
fn undergo_at(objects: &mut [Object], e: Effect, q: u32)
    requires { IsTold e }
    ensures { objects.new ≡ changed (among (q ∷ []) (effect e)) objects.old }
{
    let q = q as usize;
    if q < objects.len() {
        let x = &mut objects[q];
        x.undergo(e, q);
    }
}

/// The effect on the objects at these positions.
fn undergo_among(objects: &mut [Object], e: Effect, positions: &[u32])
    requires { IsTold e }
    ensures { objects.new ≡ changed (among positions.now (effect e)) objects.old }
{
    for q in positions {
        undergo_at(objects, e, *q);
    }
}

/// The effect on every object.
fn undergo_each(objects: &mut [Object], e: Effect)
    requires { IsTold e }
    ensures { objects.new ≡ changed (effect e) objects.old }
{
    for (i, x) in objects.iter_mut().enumerate() {
        x.undergo(e, i);
    }
}

/// The effect on all objects, of which only those are looked at that it may concern.
pub(crate) fn undergo(objects: &mut [Object], lists: &Lists, e: Effect)
    requires told { IsTold e }
    requires listed { AreListed objects.old lists.now }
    ensures { objects.new ≡ changed (effect e) objects.old }
{
    let holder = e.reach();
    match lists.held(holder) {
        Some(positions) => {
            undergo_at(objects, e, holder);
            undergo_among(objects, e, positions);
        }
        None => undergo_each(objects, e),
    }
}
