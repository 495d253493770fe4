// The fields of the `this` of a constructor that have their values.

ghost use Rattle.std.specs.Prelude.{◌≡◌, ◌≤◌, ◌<◌, ◌&&◌, ◌||◌, length, true, not, ◌==◌, if◌then◌else◌, IfOk, is_some, slice_get};
ghost use Rattle.ss_core.specs.Chain.{all_fields, below, most_classes};
ghost use Rattle.ss_core.specs.View.{classes};
ghost use Rattle.ss_store_rules.specs.Changes.{field_class};
ghost use Rattle.ss_vcgen_known.specs.Views.{fields_of};

use ss_core::{ClassId, Classes, FieldId};
use ss_vcgen_types::field_class;
use std::alloc::{AllocError, Global};

/// A set of fields: for each number below the length of the list, whether it is in the set, and whether all others are.
#[derive(Drop)]
pub struct Fields {
    pub list: Vec<bool>,
    pub beyond: bool,
}

pub(crate) fn larger(a: usize, b: usize) -> usize
    ensures first { a ≤ result }
    ensures second { b ≤ result }
{
    if a < b { b } else { a }
}

fn or(a: bool, b: bool) -> bool
    ensures { result ≡ (a || b) }
{
    a || b
}

fn and(a: bool, b: bool) -> bool
    ensures { result ≡ (a && b) }
{
    a && b
}

impl Fields {
    // All fields, or none.
    #[tactic(auto, using(crate::proofs::Listing::at_none))]
    pub(crate) fn new(alloc: Global, all: bool) -> Fields
        ensures { fields_of result ≡ (λ f. all) }
    {
        Fields {
            list: Vec::new(alloc),
            beyond: all,
        }
    }

    // Whether the field is in the set.
    #[tactic(auto, using(crate::proofs::Listing::at_past), unfolding(crate::specs::Sets::at))]
    pub(crate) fn has(&self, field: usize) -> bool
        ensures { result ≡ fields_of self.now field }
    {
        if field < self.list.len() {
            self.list[field]
        } else {
            self.beyond
        }
    }

    pub(crate) fn copy(&self) -> Result<Fields, AllocError>
        ensures { IfOk result (λ s. fields_of s ≡ fields_of self.now) }
    {
        let list = self.list.clone()?;
        Ok(Fields {
            list,
            beyond: self.beyond,
        })
    }

    // The fields of both, or of either.
    pub(crate) fn either(&self, alloc: Global, other: &Fields) -> Result<Fields, AllocError>
        ensures { IfOk result (λ s. fields_of s ≡ (λ f. fields_of self.now f || fields_of other.now f)) }
    {
        let mut list = Vec::new(alloc);
        let beyond = or(self.beyond, other.beyond);
        for field in 0..larger(self.list.len(), other.list.len()) {
            list.push(or(self.has(field), other.has(field)))?;
        }
        Ok(Fields { list, beyond })
    }

    pub(crate) fn both(&self, alloc: Global, other: &Fields) -> Result<Fields, AllocError>
        ensures { IfOk result (λ s. fields_of s ≡ (λ f. fields_of self.now f && fields_of other.now f)) }
    {
        let mut list = Vec::new(alloc);
        let beyond = and(self.beyond, other.beyond);
        for field in 0..larger(self.list.len(), other.list.len()) {
            list.push(and(self.has(field), other.has(field)))?;
        }
        Ok(Fields { list, beyond })
    }

    // Makes the list longer, until the field stands in it.
    fn reach(&mut self, field: usize) -> Result<(), AllocError>
        ensures same { IfOk result (λ u. fields_of self.new ≡ fields_of self.old) }
        ensures long { IfOk result (λ u. field < length self.new.list.items) }
    {
        while self.list.len() <= field {
            self.list.push(self.beyond)?;
        }
        Ok(())
    }

    // Puts the field into the set.
    #[tactic(auto, using(crate::proofs::Listing::at_set))]
    pub(crate) fn put(&mut self, field: usize) -> Result<(), AllocError>
        ensures { IfOk result (λ u. fields_of self.new ≡ (λ f. if field == f then true else fields_of self.old f)) }
    {
        self.reach(field)?;
        self.list[field] = true;
        Ok(())
    }

    // The fields that a class above this one declares. A number of no field counts as a field of `object`.
    pub(crate) fn above(alloc: Global, list: &Classes, class: ClassId) -> Result<Fields, AllocError>
        requires { length (classes list.now) ≤ most_classes }
        ensures { IfOk result (λ s. fields_of s ≡ (λ f. below (classes list.now) class.0 (field_class (classes list.now) f) && not (field_class (classes list.now) f == class.0))) }
    {
        let mut found = Vec::new(alloc);
        for f in 0..u32::MAX {
            if !is_field(list, FieldId(f)) {
                let beyond = stands_above(list, class, ClassId(0));
                return Ok(Fields {
                    list: found,
                    beyond,
                });
            }
            let declaring = field_class(list, FieldId(f));
            let stands = stands_above(list, class, declaring);
            found.push(stands)?;
        }
        Err(AllocError)
    }
}

// The number is that of a field.
fn is_field(list: &Classes, field: FieldId) -> bool
    requires { length (classes list.now) ≤ most_classes }
    ensures { result ≡ is_some (slice_get (all_fields (classes list.now)) field.0) }
{
    match list.field(field) {
        Some(_) => true,
        None => false,
    }
}

// The other class stands above.
fn stands_above(list: &Classes, class: ClassId, other: ClassId) -> bool
    ensures { result ≡ (below (classes list.now) class.0 other.0 && not (other.0 == class.0)) }
{
    list.is_level(class, other) && other != class
}
