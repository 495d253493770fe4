// The stores of a run.
ghost use Rattle.std.specs.Prelude.{◌≡◌, ◌<◌, ◌≤◌, ◌^◌, ◌∷◌, [], length, map, IfOk, OnOk, OnErr};
ghost use Rattle.ss_core.specs.View as view;
ghost use Rattle.ss_core.specs.View.{classes, expr};
ghost use Rattle.ss_core.specs.Chain.{most_classes};
ghost use Rattle.ss_store_rules.specs.Reads.{object_at};
ghost use Rattle.ss_store_rules.specs.Values.{value_of, setting};
ghost use Rattle.ss_store_rules.specs.Admitted.{first_store};
ghost use Rattle.ss_machine_rules.specs.Steps.{all_hold};
ghost use Rattle.ss_machine_rules.specs.Frame as frame;
ghost use Rattle.ss_machine_stores.specs.Shapes.{entry_of, rest_of};
ghost use Rattle.ss_machine_stores.specs.Firsts.{first};
ghost use Rattle.ss_machine_stores.specs.Spans.{span_between, span_of, IsKnown};

use crate::entry::Entry;
use crate::named::{all_named, captured_values};
use crate::span::Span;
use ss_core::{Body, ClassId, Core, Expr};
use ss_journal::Journal;
use ss_machine_rules::Location;
use ss_store::{Before, Store, first_store};
use ss_store_rules::{Undefined, Value};
use std::alloc::{AllocError, Global};
use std::marker::Model;

/// The store now, and the stores as they were at the entries of the frames. What entering and leaving a body costs depends on what it
/// changed and on what isn't at its full level, and not on how many objects there are.
#[derive(Drop)]
pub struct Stores {
    pub(crate) store: Store,
    /// What objects were that changed since the entries.
    pub(crate) journal: Journal,
    /// Among these are the positions of the objects that aren't at their full level.
    pub(crate) unfull: Vec<u32>,
}

impl Model for Stores {
    ghost use Rattle.ss_journal.specs.Undo.{entries_of};
    ghost use Rattle.ss_machine_stores.specs.Shapes.{Timeline};
    ghost use Rattle.ss_machine_saves.specs.Whole.{AreWhole};

    ghost Value = { Timeline };

    ghost view = { λ s. record { now = s.store.objects; entries = entries_of s.journal s.store.objects } };

    ghost invariant = { λ s. AreWhole s.store.objects s.journal s.unfull.items };
}

impl Stores {
    /// The input as the only object, and the entry of Main. An error is want of memory.
    pub fn start(alloc: Global, input: &[i32]) -> Result<Stores, AllocError>
        requires { length input.now < 2 ^ 31 }
        ensures { IfOk result (λ s. s ≡ record { now = first_store input.now; entries = first_store input.now ∷ [] }) }
    {
        let mut journal = Journal::new(alloc);
        let store = first_store(alloc, input)?;
        journal.enter(store.count())?;
        Ok(Stores {
            store,
            journal,
            unfull: Vec::new(alloc),
        })
    }

    /// A body is entered: the store as it is now is that of its entry. After want of memory all is as before.
    pub fn enter(&mut self) -> Result<(), AllocError>
        ensures entered { OnOk result (self.new ≡ record { now = self.old.now; entries = self.old.now ∷ self.old.entries }) }
        ensures kept { OnErr result (self.new ≡ self.old) }
    {
        self.journal.enter(self.store.count())
    }

    /// The running body is left.
    pub fn leave(&mut self)
        ensures { self.new ≡ record { now = self.old.now; entries = rest_of self.old.entries } }
    {
        self.journal.leave();
        self.journal.trim();
    }

    /// The store at the entry of the running body.
    fn entry(&self) -> Entry<'_>
        ensures { result ≡ entry_of self.now.entries }
    {
        Entry {
            store: &self.store,
            journal: &self.journal,
        }
    }

    /// The value of an expression of the running body, or the first cause why it has none.
    pub fn eval(&self, c: &Core, e: &Expr, locals: &[Value]) -> Result<Value, Undefined>
        requires { length (classes c.now.classes) ≤ most_classes }
        ensures { result ≡ value_of (expr e.now) (setting (classes c.now.classes) self.now.now (entry_of self.now.entries) locals.now) }
    {
        self.store.eval(c, &self.entry(), e, locals)
    }

    /// Whether each condition holds in the running body.
    pub fn all_hold(&self, c: &Core, es: &[Expr], locals: &[Value]) -> bool
        requires { length (classes c.now.classes) ≤ most_classes }
        ensures { result ≡ all_hold (map expr es.now) (setting (classes c.now.classes) self.now.now (entry_of self.now.entries) locals.now) }
    {
        self.store.all_hold(c, &self.entry(), es, locals)
    }

    /// Whether each condition holds where a body is about to be entered.
    pub fn all_hold_at_entry(&self, c: &Core, es: &[Expr], locals: &[Value]) -> bool
        requires { length (classes c.now.classes) ≤ most_classes }
        ensures { result ≡ all_hold (map expr es.now) (setting (classes c.now.classes) self.now.now self.now.now locals.now) }
    {
        self.store.all_hold(c, &self.store, es, locals)
    }

    /// The class of the object.
    pub fn class_of(&self, o: u32) -> ClassId
        ensures { result.0 ≡ (object_at self.now.now o).class }
    {
        self.store.class_of(o)
    }

    /// The level of the object.
    pub fn level_of(&self, o: u32) -> ClassId
        ensures { result.0 ≡ (object_at self.now.now o).level }
    {
        self.store.level(o)
    }

    /// What the frame condition of the running body speaks of.
    fn span<'a>(
        &'a self,
        c: &'a Core,
        body: &'a Body,
        locals: &'a [Value],
        outside: &'a [Value],
    ) -> Result<Span<'a>, AllocError>
        requires { length (classes c.now.classes) ≤ most_classes }
        ensures spoken { IfOk result (λ s. span_of s ≡ span_between c.entry.now.classes body.entry.now locals.entry.now (entry_of self.entry.now.entries) self.entry.now.now outside.entry.now) }
        ensures known { IfOk result (λ s. IsKnown s) }
    {
        let alloc = *self.unfull.allocator();
        let before = self.entry();
        let named = all_named(alloc, c, &self.store, &before, &body.named, locals)?;
        let captured = captured_values(alloc, body, locals)?;
        Ok(Span {
            classes: &c.classes,
            body,
            locals,
            before,
            store: &self.store,
            journal: &self.journal,
            unfull: &self.unfull,
            outside,
            named,
            captured,
        })
    }

    /// The first location that the frame condition doesn't keep between the entry of the running body and now. An error is want
    /// of memory.
    pub fn first_unkept(
        &self,
        c: &Core,
        body: &Body,
        locals: &[Value],
        outside: &[Value],
    ) -> Result<Option<Location>, AllocError>
        requires { length (classes c.now.classes) ≤ most_classes }
        ensures { IfOk result (λ l. l ≡ first (frame.unkept (record { classes = classes c.now.classes; body = view.body body.now; locals = locals.now; entry = entry_of self.now.entries; now = self.now.now; outside = outside.now }))) }
    {
        self.span(c, body, locals, outside)?.first_unkept()
    }

    /// Whether the frame condition holds between the entry of the running body and now. An error is want of memory.
    pub fn is_kept(
        &self,
        c: &Core,
        body: &Body,
        locals: &[Value],
        outside: &[Value],
    ) -> Result<bool, AllocError>
        requires { length (classes c.now.classes) ≤ most_classes }
        ensures { IfOk result (λ b. b ≡ frame.is_kept (record { classes = classes c.now.classes; body = view.body body.now; locals = locals.now; entry = entry_of self.now.entries; now = self.now.now; outside = outside.now })) }
    {
        Ok(self.first_unkept(c, body, locals, outside)?.is_none())
    }
}
