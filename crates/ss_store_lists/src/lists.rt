// Positions of objects by the object that holds them.
ghost use Rattle.std.specs.Prelude.{◌≡◌, ◌≢◌, ℕ, true, None, IfSome};
ghost use Rattle.ss_store_lists.specs.Listing.{is_listed, is_held, held_by, lists, HasMore, HasMoreHeld, IsTaken};

use std::alloc::Global;
use std::marker::Model;
use std::mem;

/// The positions of the objects that each object holds: it owns them, or they are in its group. There may be others among
/// them. Where memory was wanting the lists are given up, and then every position counts as listed.
#[derive(Drop)]
pub struct Lists {
    held: Vec<Vec<u32>>,
    is_whole: bool,
}

impl Model for Lists {
    ghost use Rattle.std.specs.Prelude.{ℕ, List, Option};
    ghost use Rattle.ss_store_lists.specs.Listing.{lists, listing};

    ghost Value = { Option (List (List ℕ)) };

    ghost view = { λ l. listing l.is_whole (lists l.held.items) };
}

// Pushes a position to the list at `k`, where there is one and memory for it.
fn push_at(held: &mut [Vec<u32>], k: u32, q: u32) -> bool
    ensures listed { result ≡ true → is_listed (held_by (lists held.new) k) q ≡ true }
    ensures more { HasMoreHeld (lists held.old) (lists held.new) }
{
    let k = k as usize;
    if k >= held.len() {
        return false;
    }
    match held[k].push(q) {
        Ok(()) => true,
        Err(_) => false,
    }
}

// Takes the list at `k`, and leaves an empty one.
fn take_at(alloc: Global, held: &mut [Vec<u32>], k: u32) -> Vec<u32>
    ensures taken { result.items ≡ held_by (lists held.old) k }
    ensures others { (h : ℕ) → h ≢ k → held_by (lists held.new) h ≡ held_by (lists held.old) h }
{
    let k = k as usize;
    if k < held.len() {
        mem::replace(&mut held[k], Vec::new(alloc))
    } else {
        Vec::new(alloc)
    }
}

impl Lists {
    /// Lists of nothing.
    pub fn new(alloc: Global) -> Lists {
        Lists {
            held: Vec::new(alloc),
            is_whole: true,
        }
    }

    /// Lists that were given up.
    pub fn none(alloc: Global) -> Lists
        ensures { result ≡ None }
    {
        Lists {
            held: Vec::new(alloc),
            is_whole: false,
        }
    }

    /// The object at `k` holds the one at `q`. An object that holds itself needs no list.
    pub fn add_held(&mut self, k: u32, q: u32)
        ensures listed { is_held self.new k q ≡ true }
        ensures more { HasMore self.old self.new }
    {
        if k == q {
            return;
        }
        if !push_at(&mut self.held, k, q) {
            self.is_whole = false;
        }
    }

    /// Another object may hold some.
    pub fn add_holder(&mut self)
        ensures more { HasMore self.old self.new }
    {
        let alloc = *self.held.allocator();
        if self.held.push(Vec::new(alloc)).is_err() {
            self.is_whole = false;
        }
    }

    /// Takes out those that the object at `k` holds beside itself.
    pub fn take_held(&mut self, k: u32) -> Vec<u32>
        ensures others { (h q : ℕ) → h ≢ k → is_held self.old h q ≡ true → is_held self.new h q ≡ true }
        ensures taken { (q : ℕ) → is_held self.old k q ≡ true → IsTaken self.new k result.items q }
    {
        let alloc = *self.held.allocator();
        take_at(alloc, &mut self.held, k)
    }

    /// Those that the object at `k` holds beside itself, where there is a list.
    pub fn held(&self, k: u32) -> Option<&[u32]>
        ensures { IfSome result (λ ps. (q : ℕ) → is_held self.now k q ≡ true → q ≢ k → is_listed ps.now q ≡ true) }
    {
        if !self.is_whole {
            return None;
        }
        match self.held.get(k as usize) {
            Some(list) => Some(list),
            None => None,
        }
    }
}
