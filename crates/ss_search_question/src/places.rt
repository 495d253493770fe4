// Where what is kept of numbers stands.

use crate::question::NONE;
use std::alloc::{AllocError, Global};

// In place of a place: nothing is kept of the number.
const ABSENT: u32 = u32::MAX;

/// Of each number from 0 on, where what is kept of it stands. A place takes 4 bytes.
#[derive(Drop)]
pub struct Places {
    places: Vec<u32>,
}

impl Places {
    /// No number.
    pub fn new(alloc: Global) -> Self {
        Places {
            places: Vec::new(alloc),
        }
    }

    /// How many numbers there are.
    pub fn len(&self) -> usize {
        self.places.len()
    }

    /// There are at least so many numbers. Nothing is kept of those that are new.
    pub fn grow(&mut self, count: usize) -> Result<(), AllocError> {
        for _ in self.places.len()..count {
            self.places.push(ABSENT)?;
        }
        Ok(())
    }

    /// Where what is kept of a number stands, or NONE.
    pub fn place(&self, number: usize) -> usize {
        match self.places.get(number) {
            Some(place) if *place != ABSENT => *place as usize,
            _ => NONE,
        }
    }

    /// What is kept of a number that there is stands here from now on. An error is want of memory.
    pub fn put(&mut self, number: usize, at: usize) -> Result<(), AllocError> {
        let at = u32::try_from(at).map_err(|_| AllocError)?;
        if let Some(place) = self.places.get_mut(number) {
            *place = at;
        }
        Ok(())
    }

    /// Nothing is kept of a number any more.
    pub fn clear(&mut self, number: usize) {
        if let Some(place) = self.places.get_mut(number) {
            *place = ABSENT;
        }
    }
}
