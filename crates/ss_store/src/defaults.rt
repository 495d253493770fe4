// Conditions of default contracts.
ghost use Rattle.std.specs.Prelude.{◌≡◌, ◌≤◌, length, slice_get};
ghost use Rattle.std.specs.List.{list_all};
ghost use Rattle.ss_core.specs.View.{classes, default_tree};
ghost use Rattle.ss_core.specs.Chain.{all_fields, most_classes};
ghost use Rattle.ss_store_rules.specs.Store as model;
ghost use Rattle.ss_store_rules.specs.Values as values;
ghost use Rattle.ss_store_rules.specs.Reads as reads;
ghost use Rattle.ss_store.specs.Contexts.{setting_of};
ghost use Rattle.ss_store.specs.Listed.{AreListed, holds_at};
ghost use Rattle.ss_store.specs.Full.{is_full_among, holder_of};

use crate::arithmetic::same_value;
use crate::before::Before;
use crate::context::Context;
use crate::object::{Object, Slot};
use crate::owners::{is_group, is_in_group, is_pair_upto};
use crate::store::Store;
use ss_core::{ClassId, Classes, DefaultCondition, Ty};
use ss_store_lists::Lists;
use ss_store_rules::{Owner, Value};

// What a new field of the type has.
pub(crate) fn default_value(ty: Ty) -> Value
    ensures { result ≡ model.default_value ty }
{
    match ty {
        Ty::Int => Value::Int(0),
        Ty::Bool => Value::Bool(false),
        Ty::Null => Value::Null,
        Ty::Ref { .. } => Value::Null,
    }
}

// Whether the field is at its default, where this class or one above it declares it.
fn is_default_upto(table: &Classes, t: ClassId, slot: &Slot) -> bool
    requires { length (classes table.now) ≤ most_classes }
    ensures { result ≡ reads.is_default_upto (classes table.now) t.0 (slice_get (all_fields (classes table.now)) slot.now.field) slot.now.content }
{
    match table.field(slot.field) {
        Some((class, field)) => !table.is_subclass(t, class)
            || same_value(slot.value, default_value(field.ty)),
        None => true,
    }
}

// Whether each of these fields is at its default, where this class or one above it declares it.
fn are_default_upto(table: &Classes, t: ClassId, slots: &[Slot]) -> bool
    requires { length (classes table.now) ≤ most_classes }
    ensures { result ≡ reads.are_default_upto (classes table.now) t.0 slots.now }
{
    for slot in slots {
        if !is_default_upto(table, t, slot) {
            return false;
        }
    }
    true
}

impl Object {
    // Whether it is at its full level.
    pub(crate) fn is_full(&self) -> bool
        ensures { result ≡ reads.is_full self.now }
    {
        self.level == self.class
    }
}

/// Objects by their owner.
#[derive(Clone, Copy)]
enum Those<'a> {
    /// What this object owns at the class or one above it.
    OwnedUpto(&'a Classes, u32, ClassId),
    /// The members of the group.
    Members(u32),
}

// Whether the object isn't one of those, or is at its full level.
fn is_full_among(x: &Object, those: Those<'_>) -> bool
    ensures { result ≡ is_full_among those.entry x.now }
{
    let is_one = match those {
        Those::OwnedUpto(table, o, t) => is_pair_upto(table, o, t, x.owner),
        Those::Members(g) => is_in_group(x.owner, g),
    };
    !is_one || x.is_full()
}

fn is_full_at(objects: &[Object], those: Those<'_>, q: u32) -> bool
    ensures { result ≡ holds_at (is_full_among those.entry) objects.now q }
{
    match objects.get(q as usize) {
        Some(x) => is_full_among(x, those),
        None => true,
    }
}

fn are_full_at(objects: &[Object], those: Those<'_>, positions: &[u32]) -> bool
    ensures { result ≡ list_all (holds_at (is_full_among those.entry) objects.now) positions.now }
{
    positions.iter().all(|q| is_full_at(objects, those, *q))
}

// The object that holds them.
fn holder_of(those: Those<'_>) -> u32
    ensures { result ≡ holder_of those.entry }
{
    match those {
        Those::OwnedUpto(_, o, _) => o,
        Those::Members(g) => g,
    }
}

// Whether each of those objects is at its full level.
fn are_full(objects: &[Object], lists: &Lists, those: Those<'_>) -> bool
    requires { AreListed objects.now lists.now }
    ensures { result ≡ list_all (is_full_among those.entry) objects.now }
{
    let o = holder_of(those);
    match lists.held(o) {
        Some(positions) => {
            is_full_at(objects, those, o) && are_full_at(objects, those, positions)
        }
        None => objects.iter().all(|x| is_full_among(x, those)),
    }
}

impl Store {
    /// Whether the object is at its full level.
    pub fn is_full(&self, o: u32) -> bool
        ensures { result ≡ reads.is_full (reads.object_at self.now.objects o) }
    {
        match self.object(o) {
            Some(x) => x.is_full(),
            None => true,
        }
    }

    /// The owner of the object.
    pub fn owner_of(&self, o: u32) -> Owner
        ensures { result ≡ (reads.object_at self.now.objects o).owner }
    {
        match self.object(o) {
            Some(x) => x.owner,
            None => Owner::Group(0),
        }
    }

    fn at_defaults(&self, table: &Classes, t: ClassId, o: u32) -> bool
        requires { length (classes table.now) ≤ most_classes }
        ensures { result ≡ reads.at_defaults (classes table.now) t.0 (reads.object_at self.now.objects o) }
    {
        match self.object(o) {
            Some(x) => are_default_upto(table, t, &x.fields),
            None => true,
        }
    }

    fn owned_are_full(&self, table: &Classes, o: u32, t: ClassId) -> bool
        ensures { result ≡ reads.owned_are_full (classes table.now) self.now.objects o t.0 }
    {
        are_full(&self.objects, &self.lists, Those::OwnedUpto(table, o, t))
    }

    fn members_are_full(&self, g: u32) -> bool
        ensures { result ≡ reads.members_are_full self.now.objects g }
    {
        are_full(&self.objects, &self.lists, Those::Members(g))
    }
}

// The local of which a condition speaks.
fn subject(condition: DefaultCondition) -> usize
    ensures { result ≡ values.subject (default_tree condition) }
{
    match condition {
        DefaultCondition::ConsistentArgument(x) => x,
        DefaultCondition::FullArgument(x) => x,
        DefaultCondition::Captured { argument, .. } => argument,
        _ => 0,
    }
}

impl<'a, B: Before> Context<'a, B> {
    fn is_this_in(&self, g: u32) -> bool
        ensures { result ≡ values.is_this_in (setting_of B.told self.now) g }
    {
        match self.local(0) {
            Value::Obj(o) => is_in_group(self.store.owner_of(o), g),
            _ => false,
        }
    }

    fn may_be_captured(&self, apart: bool, owner: Owner) -> bool
        ensures { result ≡ values.may_be_captured (setting_of B.told self.now) apart owner }
    {
        match owner {
            Owner::Group(g) => self.store.members_are_full(g) && !(apart && self.is_this_in(g)),
            Owner::Owned(_, _) => false,
        }
    }

    fn is_met_by(&self, condition: DefaultCondition, o: u32) -> bool
        requires { length (classes self.now.classes.now) ≤ most_classes }
        ensures { result ≡ values.is_met_by (setting_of B.told self.now) (default_tree condition) o }
    {
        match condition {
            DefaultCondition::AtLevel(t) => self.store.level(o) == t && !self.store.committed(o),
            DefaultCondition::Unpacked => self.store.level(o) == ClassId(0),
            DefaultCondition::Unowned => is_group(self.store.owner_of(o)),
            DefaultCondition::Defaults(t) => self.store.at_defaults(self.classes, t, o),
            DefaultCondition::OwnedFull(t) => self.store.owned_are_full(self.classes, o, t),
            DefaultCondition::Full => self.store.is_full(o),
            DefaultCondition::ConsistentArgument(_) => self.store.is_full(o)
                && !self.store.committed(o),
            DefaultCondition::FullArgument(_) => self.store.is_full(o),
            DefaultCondition::Captured {
                apart_from_this,
                ..
            } => { self.may_be_captured(apart_from_this, self.store.owner_of(o)) }
        }
    }

    /// Whether a condition of a default contract holds.
    pub(crate) fn default_holds(&self, condition: DefaultCondition) -> bool
        requires { length (classes self.now.classes.now) ≤ most_classes }
        ensures { result ≡ values.default_holds (setting_of B.told self.now) (default_tree condition) }
    {
        match self.local(subject(condition)) {
            Value::Obj(o) => self.is_met_by(condition, o),
            _ => true,
        }
    }
}
