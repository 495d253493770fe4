// The context in which an expression has its value.
ghost use Rattle.std.specs.Prelude.{◌≡◌, ◌<◌, ◌^◌, length};
ghost use Rattle.ss_store_rules.specs.Values.{class_at, length_at, state_at, local_value, is_readable};
ghost use Rattle.ss_store_rules.specs.Reads.{field_read, element_read};
ghost use Rattle.ss_store.specs.Shapes as shapes;
ghost use Rattle.ss_store.specs.Contexts.{setting_of};

use crate::before::Before;
use crate::names::Names;
use crate::object::NO_CLASS;
use crate::store::Store;
use ss_core::{ClassId, Classes, FieldId};
use ss_store_rules::{Owner, Value};

/// The context of an expression: the classes, the store now and at entry, the values of the names, and whether it is inside `old`.
#[derive(Drop)]
pub(crate) struct Context<'a, B> {
    pub(crate) classes: &'a Classes,
    pub(crate) store: &'a Store,
    pub(crate) entry: &'a B,
    pub(crate) names: &'a Names<'a>,
    pub(crate) inside_old: bool,
}

/// The owner that a pair of numbers means: a group beside `NO_CLASS`, or an object and a class.
pub fn owner_of_pair(pair: (u32, u16)) -> Owner
    ensures { result ≡ shapes.owner_of_pair pair }
{
    let (number, class) = pair;
    if class == NO_CLASS {
        Owner::Group(number)
    } else {
        Owner::Owned(number, ClassId(class))
    }
}

impl<'a, B: Before> Context<'a, B> {
    pub(crate) fn local(&self, x: usize) -> Value
        ensures { result ≡ local_value (setting_of B.told self.now) x }
    {
        self.names.value(x)
    }

    pub(crate) fn class(&self, o: u32) -> ClassId
        ensures { result.0 ≡ class_at (setting_of B.told self.now) o }
    {
        self.store.class_of(o)
    }

    pub(crate) fn length(&self, a: u32) -> u32
        ensures count { result ≡ length_at (setting_of B.told self.now) a }
        ensures short { result < 2 ^ 31 }
    {
        self.store.length_of(a)
    }

    /// Whether the state of the object may be read: inside `old` it has to be allocated at entry.
    pub(crate) fn is_readable(&self, o: u32) -> bool
        ensures { result ≡ is_readable (setting_of B.told self.now) o }
    {
        !self.inside_old || self.entry.allocated(o)
    }

    pub(crate) fn field(&self, o: u32, f: FieldId) -> Value
        ensures { result ≡ field_read (state_at (setting_of B.told self.now) o) f.0 }
    {
        if self.inside_old {
            self.entry.field(o, f)
        } else {
            self.store.field(o, f)
        }
    }

    pub(crate) fn element(&self, a: u32, i: u32) -> Value
        ensures { result ≡ element_read (state_at (setting_of B.told self.now) a) i }
    {
        if self.inside_old {
            self.entry.element(a, i)
        } else {
            self.store.element(a, i)
        }
    }

    pub(crate) fn level(&self, o: u32) -> ClassId
        ensures { result.0 ≡ (state_at (setting_of B.told self.now) o).level }
    {
        if self.inside_old {
            self.entry.level(o)
        } else {
            self.store.level(o)
        }
    }

    pub(crate) fn committed(&self, o: u32) -> bool
        ensures { result ≡ (state_at (setting_of B.told self.now) o).committed }
    {
        if self.inside_old {
            self.entry.committed(o)
        } else {
            self.store.committed(o)
        }
    }

    pub(crate) fn owner(&self, o: u32) -> Owner
        ensures { result ≡ (state_at (setting_of B.told self.now) o).owner }
    {
        if self.inside_old {
            owner_of_pair(self.entry.owner(o))
        } else {
            owner_of_pair(self.store.owner(o))
        }
    }
}
