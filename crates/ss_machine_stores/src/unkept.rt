// Locations that the frame condition doesn't keep.
ghost use Rattle.std.specs.Prelude.{◌≡◌, ◌<◌, ◌^◌, length, flat_map, IfOk};
ghost use Rattle.std.specs.List.{list_all, list_any};
ghost use Rattle.ss_store_rules.specs.Reads.{object_at, element_read, same_value};
ghost use Rattle.ss_machine_rules.specs.Frame as frame;
ghost use Rattle.ss_machine_stores.specs.Spans.{span_of, keeps, headers_keep, contents_keep, all_keep, IsKnown};
ghost use Rattle.ss_machine_stores.specs.Firsts.{first};

use crate::span::Span;
use crate::terms::{any_names_elements, any_names_field, any_names_level};
use ss_core::FieldId;
use ss_journal::OldContent;
use ss_machine_rules::Location;
use ss_store::{Before, Slot, same_owner, same_value};
use ss_store_rules::Value;
use std::alloc::AllocError;

/// The location, unless it is kept.
fn unless(kept: bool, at: Location) -> Option<Location>
    ensures { result ≡ first (frame.unless kept at) }
{
    if kept { None } else { Some(at) }
}

fn refers_to(o: u32, value: Value) -> bool
    ensures { result ≡ frame.refers_to o value }
{
    match value {
        Value::Obj(q) => q == o,
        _ => false,
    }
}

impl<'a> Span<'a> {
    fn names_field(&self, o: u32, f: FieldId) -> bool
        requires { IsKnown self.now }
        ensures { result ≡ list_any (frame.names_field (span_of self.now).classes o f.0) (frame.all_named (span_of self.now)) }
    {
        any_names_field(self.classes, &self.named, o, f)
    }

    fn names_elements(&self, o: u32) -> bool
        requires { IsKnown self.now }
        ensures { result ≡ list_any (frame.names_elements o) (frame.all_named (span_of self.now)) }
    {
        any_names_elements(&self.named, o)
    }

    fn names_level(&self, o: u32) -> bool
        requires { IsKnown self.now }
        ensures { result ≡ list_any (frame.names_level o) (frame.all_named (span_of self.now)) }
    {
        any_names_level(&self.named, o)
    }

    /// Whether it is the object of an enclosing expose.
    fn is_outside(&self, o: u32) -> bool
        ensures { result ≡ frame.is_outside (span_of self.now) o }
    {
        self.outside.iter().any(|v| refers_to(o, *v))
    }

    fn unkept_field(&self, o: u32, slot: &Slot) -> Option<Location>
        requires { IsKnown self.now }
        ensures { result ≡ first (frame.unkept_field (span_of self.now) o slot.now) }
    {
        let f = slot.field();
        let kept = same_value(slot.value(), self.before.field(o, f)) || self.names_field(o, f);
        unless(kept, Location::Field(o, f))
    }

    fn unkept_slots(&self, o: u32, fields: &[Slot]) -> Option<Location>
        requires { IsKnown self.now }
        ensures { result ≡ first (flat_map (frame.unkept_field (span_of self.now) o) fields.now) }
    {
        for slot in fields {
            match self.unkept_field(o, slot) {
                Some(at) => return Some(at),
                None => {}
            }
        }
        None
    }

    fn unkept_fields(&self, o: u32) -> Option<Location>
        requires { IsKnown self.now }
        ensures { result ≡ first (flat_map (frame.unkept_field (span_of self.now) o) (object_at (span_of self.now).now o).fields) }
    {
        self.unkept_slots(o, self.store.fields_of(o))
    }

    fn unkept_element(&self, o: u32, i: u32, v: Value) -> Option<Location>
        ensures { result ≡ first (frame.unless (same_value v (element_read (object_at (span_of self.now).entry o) i)) (Location.Element o i)) }
    {
        unless(
            same_value(v, self.before.element(o, i)),
            Location::Element(o, i),
        )
    }

    fn unkept_among(&self, o: u32, elements: &[Value]) -> Option<Location>
        requires known { IsKnown self.now }
        requires short { length elements.now < 2 ^ 31 }
        ensures { result ≡ first (frame.unkept_elements_from (span_of self.now) o 0 elements.now) }
    {
        for (i, v) in elements.iter().enumerate() {
            match self.unkept_element(o, i as u32, *v) {
                Some(at) => return Some(at),
                None => {}
            }
        }
        None
    }

    fn unkept_elements(&self, o: u32) -> Option<Location>
        requires { IsKnown self.now }
        ensures { result ≡ first (frame.unkept_elements (span_of self.now) o (object_at (span_of self.now).now o).elements) }
    {
        if self.names_elements(o) {
            return None;
        }
        self.unkept_among(o, self.store.elements_of(o))
    }

    fn unkept_level(&self, o: u32) -> Option<Location>
        requires { IsKnown self.now }
        ensures { result ≡ first (frame.unkept_level (span_of self.now) o (object_at (span_of self.now).now o)) }
    {
        let kept = self.store.level(o) == self.before.level(o)
            || self.names_level(o)
            || self.is_outside(o);
        unless(kept, Location::Level(o))
    }

    fn unkept_committed(&self, o: u32) -> Option<Location>
        ensures { result ≡ first (frame.unkept_committed (span_of self.now) o (object_at (span_of self.now).now o)) }
    {
        unless(
            self.store.committed(o) == self.before.committed(o),
            Location::Committed(o),
        )
    }

    fn unkept_owner(&self, o: u32) -> Option<Location>
        ensures { result ≡ first (frame.unkept_owner (span_of self.now) o (object_at (span_of self.now).now o)) }
    {
        let kept = same_owner(self.store.owner_of(o), self.before.owner_of(o));
        unless(kept, Location::OwnerOf(o))
    }

    /// Of an object that was there and isn't free.
    fn unkept_of_old(&self, o: u32) -> Option<Location>
        requires { IsKnown self.now }
        ensures { result ≡ first (frame.unkept_of_old (span_of self.now) o (object_at (span_of self.now).now o)) }
    {
        self.unkept_fields(o)
            .or(self.unkept_elements(o))
            .or(self.unkept_level(o))
            .or(self.unkept_committed(o))
            .or(self.unkept_owner(o))
    }

    /// A new or a free object is at its full level.
    fn unkept_of_new(&self, o: u32) -> Option<Location>
        ensures { result ≡ first (frame.unkept_of_new (span_of self.now) o (object_at (span_of self.now).now o)) }
    {
        unless(
            self.store.is_full(o) || self.is_outside(o),
            Location::Level(o),
        )
    }

    fn unkept_at(&self, o: u32) -> Option<Location>
        requires { IsKnown self.now }
        ensures { result ≡ first (frame.unkept_at (span_of self.now) o (object_at (span_of self.now).now o)) }
    {
        if self.is_old(o) {
            self.unkept_of_old(o)
        } else {
            self.unkept_of_new(o)
        }
    }

    fn keeps(&self, o: u32) -> bool
        requires { IsKnown self.now }
        ensures { result ≡ keeps (span_of self.now) o }
    {
        self.unkept_at(o).is_none()
    }

    fn headers_keep(&self) -> bool
        requires { IsKnown self.now }
        ensures { result ≡ headers_keep (span_of self.now) self.now.journal.now }
    {
        self.journal
            .headers()
            .iter()
            .all(|h| self.keeps(h.position))
    }

    fn these_keep(&self, contents: &[OldContent]) -> bool
        requires { IsKnown self.now }
        ensures { result ≡ list_all (λ o. keeps (span_of self.now) o.position) contents.now }
    {
        for content in contents {
            if !self.keeps(content.position) {
                return false;
            }
        }
        true
    }

    fn contents_keep(&self) -> bool
        requires { IsKnown self.now }
        ensures { result ≡ contents_keep (span_of self.now) self.now.journal.now }
    {
        self.these_keep(self.journal.contents())
    }

    fn listed_keep(&self) -> bool
        requires { IsKnown self.now }
        ensures { result ≡ list_all (keeps (span_of self.now)) self.now.unfull.now }
    {
        self.unfull.iter().all(|o| self.keeps(*o))
    }

    /// Whether each object keeps the frame condition that changed since the entry, or that isn't at its full level.
    fn all_keep(&self) -> bool
        requires { IsKnown self.now }
        ensures { result ≡ all_keep (span_of self.now) self.now.journal.now self.now.unfull.now }
    {
        self.headers_keep() && self.contents_keep() && self.listed_keep()
    }

    /// Of the objects, of which there are `n`.
    fn unkept_below(&self, n: u32) -> Option<Location>
        requires known { IsKnown self.now }
        requires count { length (span_of self.now).now ≡ n }
        ensures { result ≡ first (frame.unkept (span_of self.now)) }
    {
        for o in 0..n {
            match self.unkept_at(o) {
                Some(at) => return Some(at),
                None => {}
            }
        }
        None
    }

    /// The first location that isn't kept. A store with too many objects for a number answers want of memory.
    pub(crate) fn first_unkept(&self) -> Result<Option<Location>, AllocError>
        requires { IsKnown self.now }
        ensures { IfOk result (λ l. l ≡ first (frame.unkept (span_of self.now))) }
    {
        if self.all_keep() {
            return Ok(None);
        }
        let n = u32::try_from(self.store.count()).map_err(|_| AllocError)?;
        Ok(self.unkept_below(n))
    }
}
