// A table of keys with a value each, in which the last ones can be taken back.

use crate::question::NONE;
use std::alloc::{AllocError, Global};
use std::mem;

/// A key of three numbers, its value, and the entry before it in its list.
#[derive(Clone, Copy)]
struct Entry {
    first: usize,
    second: usize,
    third: usize,
    value: usize,
    list: usize,
    before: usize,
}

/// The keys. There are at least as many lists as keys.
#[derive(Drop)]
pub struct Keys {
    lists: Vec<usize>,
    entries: Vec<Entry>,
}

// How many lists there are at first.
const LISTS: usize = 1024;

// The list of a key, of so many, a power of 2.
fn list_of(first: usize, second: usize, third: usize, lists: usize) -> usize {
    let mixed = first
        .wrapping_mul(0x9E3779B1)
        .wrapping_add(second.wrapping_mul(0x85EBCA77))
        .wrapping_add(third.wrapping_mul(0xC2B2AE3D));
    (mixed / 8192) & lists.saturating_sub(1)
}

impl Keys {
    /// No key.
    pub fn new(alloc: Global) -> Self {
        Keys {
            lists: Vec::new(alloc),
            entries: Vec::new(alloc),
        }
    }

    /// How many keys there are.
    pub fn len(&self) -> usize {
        self.entries.len()
    }

    /// The value of a key, or NONE.
    pub fn value(&self, first: usize, second: usize, third: usize) -> usize {
        let list = list_of(first, second, third, self.lists.len());
        let mut at = match self.lists.get(list) {
            Some(last) => *last,
            None => NONE,
        };
        for _ in 0..self.entries.len() {
            let Some(entry) = self.entries.get(at) else {
                return NONE;
            };
            if entry.first == first && entry.second == second && entry.third == third {
                return entry.value;
            }
            at = entry.before;
        }
        NONE
    }

    /// One more key.
    pub fn add(
        &mut self,
        first: usize,
        second: usize,
        third: usize,
        value: usize,
    ) -> Result<(), AllocError> {
        let at = self.entries.len();
        self.entries.push(Entry {
            first,
            second,
            third,
            value,
            list: 0,
            before: NONE,
        })?;
        if at < self.lists.len() {
            self.link(at);
            return Ok(());
        }
        self.grow()
    }

    // Twice as many lists.
    fn grow(&mut self) -> Result<(), AllocError> {
        let count = self.lists.len().saturating_mul(2).max(LISTS);
        self.lists.truncate(0);
        for _ in 0..count {
            self.lists.push(NONE)?;
        }
        for at in 0..self.entries.len() {
            self.link(at);
        }
        Ok(())
    }

    // The entry at a place is the last one of its list.
    fn link(&mut self, at: usize) {
        let Some(entry) = self.entries.get(at).copied() else {
            return;
        };
        let list = list_of(entry.first, entry.second, entry.third, self.lists.len());
        let Some(last) = self.lists.get_mut(list) else {
            return;
        };
        let before = mem::replace(last, at);
        if let Some(place) = self.entries.get_mut(at) {
            place.list = list;
            place.before = before;
        }
    }

    /// Whether the key is new. It is added where it is.
    pub fn is_new(
        &mut self,
        first: usize,
        second: usize,
        third: usize,
    ) -> Result<bool, AllocError> {
        if self.value(first, second, third) != NONE {
            return Ok(false);
        }
        self.add(first, second, third, 1)?;
        Ok(true)
    }

    /// Takes back all but the first keys.
    pub fn undo(&mut self, to: usize) {
        for _ in to..self.entries.len() {
            let Some(entry) = self.entries.pop() else {
                return;
            };
            if let Some(last) = self.lists.get_mut(entry.list) {
                *last = entry.before;
            }
        }
    }
}
