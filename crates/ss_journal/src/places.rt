// Where the entries of objects are.
ghost use Rattle.std.specs.Prelude.{◌≡◌, ◌<◌, ◌-◌, ◌++◌, ◌∷◌, [], List, ℕ, length, get_or, take, drop, is_some, OnOk, OnErr};
ghost use Rattle.ss_journal.specs.Places.{newest, place_of};

use std::alloc::{AllocError, Global};
use std::marker::Model;

/// The positions of the objects that entries are of, in order, linked so that no look passes entries of other objects.
#[derive(Drop)]
pub(crate) struct Places {
    positions: Vec<u32>,
    /// For each entry one more than the place of the one before of the same object, and 0 where there is none.
    earlier: Vec<usize>,
    /// For each object one more than the place of its last entry, and 0 where there is none.
    last: Vec<usize>,
}

impl Model for Places {
    ghost use Rattle.std.specs.Prelude.{List, ℕ};
    ghost use Rattle.ss_journal.specs.Places.{AreLinked};

    ghost Value = { List ℕ };

    ghost view = { λ p. p.positions.items };

    ghost invariant = { λ p. AreLinked p.positions.items p.earlier.items p.last.items };
}

/// There is room at `q`.
fn make_room(last: &mut Vec<usize>, q: usize) -> Result<(), AllocError>
    requires { q < usize.MAX }
    ensures same { (p : ℕ) → get_or last.new.items p 0 ≡ get_or last.old.items p 0 }
    ensures room { OnOk result (q < length last.new.items) }
{
    if q >= last.len() {
        last.resize(q + 1, 0)?;
    }
    Ok(())
}

impl Places {
    /// No entries.
    pub(crate) fn new(alloc: Global) -> Places
        ensures { result ≡ [] }
    {
        Places {
            positions: Vec::new(alloc),
            earlier: Vec::new(alloc),
            last: Vec::new(alloc),
        }
    }

    /// One more than the place of the object's last entry, and 0 where there is none.
    fn last(&self, q: u32) -> usize
        ensures { result ≡ newest self.now q (length self.now) }
    {
        self.last.get(q as usize).copied().unwrap_or(0)
    }

    /// One more entry, of this object. An error is want of memory.
    pub(crate) fn push(&mut self, q: u32) -> Result<(), AllocError>
        ensures pushed { OnOk result (self.new ≡ self.old ++ q ∷ []) }
        ensures kept { OnErr result (self.new ≡ self.old) }
    {
        let before = self.last(q);
        let object = q as usize;
        make_room(&mut self.last, object)?;
        self.positions.push(q)?;
        if let Err(error) = self.earlier.push(before) {
            let _ = self.positions.pop();
            return Err(error.into());
        }
        self.last[object] = self.positions.len();
        Ok(())
    }

    /// The last entry goes.
    pub(crate) fn pop(&mut self)
        ensures { self.new ≡ take (length self.old - 1) self.old }
    {
        let Some(q) = self.positions.pop() else {
            return;
        };
        let Some(before) = self.earlier.pop() else {
            return;
        };
        self.last[q as usize] = before;
    }

    /// Whether the object has an entry, where those before `from` don't count.
    pub(crate) fn has(&self, from: usize, q: u32) -> bool
        ensures { result ≡ is_some (place_of (drop from self.now) q) }
    {
        self.last(q) > from
    }

    /// Whether the object of the last entry has an earlier one, where those before `from` don't count.
    pub(crate) fn repeats(&self, from: usize) -> bool
        ensures { (before : List ℕ) (q : ℕ) → self.now ≡ before ++ q ∷ [] → result ≡ is_some (place_of (drop from before) q) }
    {
        match self.earlier.last() {
            Some(place) => *place > from,
            None => false,
        }
    }

    /// How many entries there are between `from` and the first of the object, where those before `from` don't count.
    pub(crate) fn first(&self, from: usize, q: u32) -> Option<usize>
        ensures { result ≡ place_of (drop from self.now) q }
    {
        let mut found = None;
        let mut place = self.last(q);
        while place > from {
            found = Some(place - 1 - from);
            place = self.earlier[place - 1];
        }
        found
    }
}
