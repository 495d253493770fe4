// Equations, by which an unknown is replaced in the other rows.

use crate::rows::{NONE, Rows, small};
use std::alloc::AllocError;

impl Rows {
    // Replaces an unknown by each equation in which one has the coefficient 1 or -1, and reads the others as two rows. A
    // contradiction, or NONE.
    pub(crate) fn use_equations(&mut self) -> Result<usize, AllocError> {
        for _ in 0..self.rows.len() {
            let (equation, unknown) = self.next_equation()?;
            if equation == NONE {
                break;
            }
            let found = self.replace_all(equation, unknown)?;
            if found != NONE {
                return Ok(found);
            }
        }
        self.open_equations()
    }

    // An equation with such an unknown, one that stands in the fewest rows, or NONE.
    fn next_equation(&mut self) -> Result<(usize, usize), AllocError> {
        self.count_all()?;
        let mut best = (NONE, NONE);
        let mut least = u64::MAX;
        for place in 0..self.rows.len() {
            let row = self.row(place);
            if !row.is_live || !row.is_equation {
                continue;
            }
            for at in row.from..row.to {
                let entry = self.entry(at);
                let cost = self.standing(entry.unknown);
                if (entry.factor == 1 || entry.factor == -1) && cost < least {
                    least = cost;
                    best = (place, entry.unknown);
                }
            }
        }
        Ok(best)
    }

    // In how many rows an unknown stands.
    fn standing(&self, unknown: usize) -> u64 {
        match self.counts.get(unknown) {
            Some(count) => count.above.saturating_add(count.below),
            None => 0,
        }
    }

    fn replace_all(&mut self, equation: usize, unknown: usize) -> Result<usize, AllocError> {
        self.retire(equation);
        let count = self.rows.len();
        for place in 0..count {
            if self.replace(place, equation, unknown)? {
                return Ok(self.rows.len().saturating_sub(1));
            }
        }
        Ok(NONE)
    }

    // Replaces an unknown in a row. Whether that comes to a contradiction.
    fn replace(
        &mut self,
        place: usize,
        equation: usize,
        unknown: usize,
    ) -> Result<bool, AllocError> {
        let row = self.row(place);
        let factor = self.factor_in(row, unknown);
        if !row.is_live || factor == 0 {
            return Ok(false);
        }
        let one = self.factor_in(self.row(equation), unknown);
        self.retire(place);
        match factor.checked_mul(one) {
            Some(product) => {
                let weight = small(product.saturating_neg());
                self.combine((place, 1), (equation, weight), row.is_equation)
            }
            None => Ok(false),
        }
    }

    fn open_equations(&mut self) -> Result<usize, AllocError> {
        let count = self.rows.len();
        for place in 0..count {
            let row = self.row(place);
            if row.is_live && row.is_equation {
                self.retire(place);
                if self.combine((place, 1), (place, 0), false)?
                    || self.combine((place, -1), (place, 0), false)?
                {
                    return Ok(self.rows.len().saturating_sub(1));
                }
            }
        }
        Ok(NONE)
    }
}
