// The class chain: which class stands above another, and which classes are below one.

ghost use Rattle.std.specs.Prelude.{◌≡◌, ◌≤◌, length, map, option_map, slice_get};
ghost use Rattle.ss_core.specs.View.{classes, class_of, entry_of, field_of};

use crate::class::{Class, Classes, Entry, Field};
use crate::class_kind::ClassKind;
use crate::names::{ClassId, FieldId};

/// How many levels a class has at most: itself and 63 above it.
pub const MOST_LEVELS: u8 = 64;

/// How many classes stand at most between a class and `object`, itself counted.
pub const MOST_ABOVE: usize = 63;

/// How many classes a program declares at most.
pub const MOST_CLASSES: usize = 4096;

/// How many fields an object has at most.
pub const MOST_FIELDS: usize = 1024;

impl Class {
    ghost use Rattle.std.specs.Prelude.{◌==◌};
    ghost use Rattle.std.specs.List.{list_any};

    /// Whether `t` stands beside the class.
    fn is_beside(&self, t: ClassId) -> bool
        ensures { result ≡ list_any (λ u. u == t.0) (class_of self.now).also }
    {
        self.also
            .iter()
            .map(|beside| beside.0)
            .any(|beside| beside == t.0)
    }
}

impl Classes {
    ghost use Rattle.ss_core.specs.Chain.{declared, table, above, level_above, counts_as, sub, below, in_class, all_fields, most_classes};

    /// The declared class of this number.
    pub fn declared(&self, t: ClassId) -> Option<&Class>
        ensures { option_map (λ c. class_of c.now) result ≡ declared (classes self.now) t.0 }
    {
        match t.kind() {
            ClassKind::Declared(place) => self.list.get(place),
            _ => None,
        }
    }

    /// The table of methods of the class. One that isn't declared has none.
    pub fn table(&self, t: ClassId) -> &[Entry]
        ensures { map entry_of result.now ≡ table (classes self.now) t.0 }
    {
        match self.declared(t) {
            Some(class) => class.table.as_slice(),
            None => &[],
        }
    }

    /// The class above: `object` where the class isn't declared.
    pub fn above(&self, t: ClassId) -> ClassId
        ensures { result.0 ≡ above (classes self.now) t.0 }
    {
        match self.declared(t) {
            Some(class) => class.above,
            None => ClassId(0),
        }
    }

    /// The class above, which `object` alone has not.
    pub fn level_above(&self, t: ClassId) -> Option<ClassId>
        ensures { option_map (λ c. c.0) result ≡ level_above (classes self.now) t.0 }
    {
        if t.0 == 0 { None } else { Some(self.above(t)) }
    }

    /// Whether `t` is this level, or stands beside it.
    pub fn counts_as(&self, t: ClassId, level: ClassId) -> bool
        ensures { result ≡ counts_as (classes self.now) t.0 level.0 }
    {
        if level == t {
            return true;
        }
        match self.declared(level) {
            Some(class) => class.is_beside(t),
            None => false,
        }
    }

    /// Whether `c` is `t` or below it.
    pub fn is_subclass(&self, c: ClassId, t: ClassId) -> bool
        ensures { result ≡ sub (classes self.now) c.0 t.0 }
    {
        let mut level = c;
        for _i in 0..MOST_LEVELS {
            if self.counts_as(t, level) {
                return true;
            }
            match self.level_above(level) {
                Some(above) => level = above,
                None => return false,
            }
        }
        false
    }

    /// Whether `t` is one of the levels of `c`: the class itself, the one above it, and so on to `object`.
    pub fn is_level(&self, c: ClassId, t: ClassId) -> bool
        ensures { result ≡ below (classes self.now) c.0 t.0 }
    {
        let mut reached = c;
        for _i in 0..MOST_LEVELS {
            if reached == t {
                return true;
            }
            match self.level_above(reached) {
                Some(above) => reached = above,
                None => return false,
            }
        }
        false
    }

    /// The field of this number, with the class that declares it.
    pub fn field(&self, f: FieldId) -> Option<(ClassId, &Field)>
        requires { length (classes self.now) ≤ most_classes }
        ensures { option_map (λ p. in_class p.0.0 (field_of p.1.now)) result
            ≡ slice_get (all_fields (classes self.now)) f.0 }
    {
        let mut number = 4u16;
        let mut left = f.0 as usize;
        for class in &self.list {
            let declared = class.fields.len();
            if left < declared {
                return Some((ClassId(number), &class.fields[left]));
            }
            left -= declared;
            number += 2;
        }
        None
    }
}
