// How a row is told as weighted sums of facts: one for the row, and one for each row on the way that was divided.

use crate::rows::{Origin, Part, Rows, Source, is_same};
use std::alloc::{AllocError, Global};

impl Rows {
    /// Finds the rows that a row comes from.
    pub fn find_needed(&mut self, row: usize) -> Result<(), AllocError> {
        self.needed.truncate(0);
        for place in 0..row.saturating_add(1) {
            self.needed.push(place == row)?;
        }
        for place in (0..row.saturating_add(1)).rev() {
            if self.is_needed(place) {
                if let Origin::Rows { first, second, .. } = self.row(place).origin {
                    self.set_needed(first);
                    self.set_needed(second);
                }
            }
        }
        Ok(())
    }

    fn is_needed(&self, place: usize) -> bool {
        match self.needed.get(place) {
            Some(needed) => *needed,
            None => false,
        }
    }

    fn set_needed(&mut self, place: usize) {
        if let Some(needed) = self.needed.get_mut(place) {
            *needed = true;
        }
    }

    /// Whether a row is a sum of its own on the way to another.
    pub fn is_step(&self, place: usize, to: usize) -> bool {
        place == to || self.is_needed(place) && self.row(place).divisor != 1
    }

    /// What a row was divided by.
    pub fn divisor(&self, place: usize) -> i64 {
        self.row(place).divisor
    }

    /// The fact that says what a row says.
    pub fn fact(&self, place: usize) -> usize {
        self.row(place).fact
    }

    /// This fact says what a row says.
    pub fn set_fact(&mut self, place: usize, fact: usize) {
        if let Some(row) = self.rows.get_mut(place) {
            row.fact = fact;
        }
    }

    /// The parts whose sum, divided, a row is; nothing where a weight is too large.
    pub fn parts_of(&mut self, alloc: Global, row: usize) -> Result<Option<Vec<Part>>, AllocError> {
        let told = self.row(row);
        let sign = if told.is_equation && told.bound > 0 {
            -1
        } else {
            1
        };
        self.weights.truncate(0);
        for place in 0..row.saturating_add(1) {
            self.weights.push(if place == row { sign } else { 0 })?;
        }
        self.fits = true;
        let mut parts = Vec::new(alloc);
        for place in (0..row.saturating_add(1)).rev() {
            let weight = self.weight(place);
            if weight != 0 {
                self.tell(place, weight, place == row, &mut parts)?;
            }
        }
        Ok(if self.fits { Some(parts) } else { None })
    }

    fn weight(&self, place: usize) -> i64 {
        match self.weights.get(place) {
            Some(weight) => *weight,
            None => 0,
        }
    }

    // Adds what a row stands for, so many times.
    fn tell(
        &mut self,
        place: usize,
        weight: i64,
        is_last: bool,
        parts: &mut Vec<Part>,
    ) -> Result<(), AllocError> {
        let row = self.row(place);
        if row.divisor != 1 && !is_last {
            return self.add_to(parts, Source::Row(place), 1, weight);
        }
        match row.origin {
            Origin::Parts(from, to) => {
                for at in from..to {
                    if let Some(part) = self.parts.get(at).copied() {
                        self.add_to(parts, part.source, part.weight, weight)?;
                    }
                }
            }
            Origin::Rows {
                first,
                first_weight,
                second,
                second_weight,
            } => {
                self.add_weight(first, first_weight, weight);
                self.add_weight(second, second_weight, weight);
            }
        }
        Ok(())
    }

    fn add_weight(&mut self, place: usize, factor: i64, weight: i64) {
        let sum = match factor.checked_mul(weight) {
            Some(product) => product.checked_add(self.weight(place)),
            None => None,
        };
        match (sum, self.weights.get_mut(place)) {
            (Some(sum), Some(target)) => *target = sum,
            _ => self.fits = false,
        }
    }

    // Adds a part, to the one of this source where there is one.
    fn add_to(
        &mut self,
        parts: &mut Vec<Part>,
        source: Source,
        factor: i64,
        weight: i64,
    ) -> Result<(), AllocError> {
        let Some(product) = factor.checked_mul(weight) else {
            self.fits = false;
            return Ok(());
        };
        for part in parts.iter_mut() {
            if is_same(part.source, source) {
                match part.weight.checked_add(product) {
                    Some(sum) => part.weight = sum,
                    None => self.fits = false,
                }
                return Ok(());
            }
        }
        parts.push(Part {
            source,
            weight: product,
        })?;
        Ok(())
    }
}
