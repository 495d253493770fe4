// Inequalities over whole numbers, and sums of them in which unknowns fall away.

use std::alloc::{AllocError, Global};

/// No row, no fact.
pub const NONE: usize = usize::MAX;

/// An unknown with its coefficient.
#[derive(Clone, Copy)]
pub(crate) struct Entry {
    pub(crate) unknown: usize,
    pub(crate) factor: i128,
}

/// What a row is a sum of: a range of the parts, or two rows with weights.
#[derive(Clone, Copy)]
pub(crate) enum Origin {
    Parts(usize, usize),
    Rows {
        first: usize,
        first_weight: i64,
        second: usize,
        second_weight: i64,
    },
}

/// The sum of a range of entries is at most the bound, or is the bound. It was divided, and where a fact says it, this is the fact.
#[derive(Clone, Copy)]
pub(crate) struct Row {
    pub(crate) from: usize,
    pub(crate) to: usize,
    pub(crate) bound: i128,
    pub(crate) origin: Origin,
    pub(crate) divisor: i64,
    pub(crate) fact: usize,
    pub(crate) is_equation: bool,
    pub(crate) is_live: bool,
}

/// A fact; or that two terms are equal; or what a row says.
#[derive(Clone, Copy)]
pub enum Source {
    Fact(usize),
    Equal(usize, usize),
    Row(usize),
}

/// A part of a sum, with its weight.
#[derive(Clone, Copy)]
pub struct Part {
    pub source: Source,
    pub weight: i64,
}

/// In how many rows an unknown has a coefficient above and below 0, and whether these are all 1 and -1.
#[derive(Clone, Copy)]
pub(crate) struct Count {
    pub(crate) above: u64,
    pub(crate) below: u64,
    is_above_one: bool,
    is_below_one: bool,
}

/// The rows. A row that is being made stands at the end of the entries.
#[derive(Drop)]
pub struct Rows {
    pub(crate) rows: Vec<Row>,
    entries: Vec<Entry>,
    pub(crate) parts: Vec<Part>,
    terms: Vec<usize>,
    pub(crate) counts: Vec<Count>,
    pub(crate) needed: Vec<bool>,
    pub(crate) weights: Vec<i64>,
    begun: usize,
    begun_parts: usize,
    limit: usize,
    bound: i128,
    pub(crate) fits: bool,
}

// How many rows there may be, and how many of them by sums in which an unknown falls away.
const MOST: usize = 1_000;

const MOST_SUMS: usize = 400;

fn divisor_of(a: i128, b: i128) -> i128 {
    let (mut x, mut y) = (a, b);
    for _ in 0..200 {
        if y == 0 {
            break;
        }
        let rest = x.checked_rem(y).unwrap_or(0);
        x = y;
        y = rest;
    }
    x
}

// A number in 64 bits, or 0.
pub(crate) fn small(number: i128) -> i64 {
    if number >= -9_000_000_000_000_000_000 && number <= 9_000_000_000_000_000_000 {
        number as i64
    } else {
        0
    }
}

const NO_COUNT: Count = Count {
    above: 0,
    below: 0,
    is_above_one: true,
    is_below_one: true,
};

fn empty_row() -> Row {
    Row {
        from: 0,
        to: 0,
        bound: 0,
        origin: Origin::Parts(0, 0),
        divisor: 1,
        fact: NONE,
        is_equation: false,
        is_live: false,
    }
}

// Whether two parts have one source.
pub(crate) fn is_same(a: Source, b: Source) -> bool {
    match (a, b) {
        (Source::Fact(x), Source::Fact(y)) => x == y,
        (Source::Equal(x, to_x), Source::Equal(y, to_y)) => x == y && to_x == to_y,
        (Source::Row(x), Source::Row(y)) => x == y,
        _ => false,
    }
}

impl Rows {
    /// No row.
    pub fn new(alloc: Global) -> Self {
        Rows {
            rows: Vec::new(alloc),
            entries: Vec::new(alloc),
            parts: Vec::new(alloc),
            terms: Vec::new(alloc),
            counts: Vec::new(alloc),
            needed: Vec::new(alloc),
            weights: Vec::new(alloc),
            begun: 0,
            begun_parts: 0,
            limit: MOST,
            bound: 0,
            fits: true,
        }
    }

    /// Forgets all rows.
    pub fn clear(&mut self) {
        self.rows.truncate(0);
        self.entries.truncate(0);
        self.parts.truncate(0);
        self.terms.truncate(0);
        self.limit = MOST;
    }

    pub(crate) fn row(&self, place: usize) -> Row {
        match self.rows.get(place) {
            Some(row) => *row,
            None => empty_row(),
        }
    }

    pub(crate) fn entry(&self, place: usize) -> Entry {
        match self.entries.get(place) {
            Some(entry) => *entry,
            None => Entry {
                unknown: NONE,
                factor: 0,
            },
        }
    }

    /// Begins a row: 0 is at most 0.
    pub fn begin(&mut self) {
        self.begun = self.entries.len();
        self.begun_parts = self.parts.len();
        self.bound = 0;
        self.fits = true;
    }

    /// The row can't be made.
    pub fn spoil(&mut self) {
        self.fits = false;
    }

    // The number of the unknown that a term is.
    fn unknown_of(&mut self, term: usize) -> Result<usize, AllocError> {
        for (place, known) in self.terms.iter().enumerate() {
            if *known == term {
                return Ok(place);
            }
        }
        self.terms.push(term)?;
        Ok(self.terms.len().saturating_sub(1))
    }

    /// Adds so many times a term to the row.
    pub fn add(&mut self, term: usize, factor: i128) -> Result<(), AllocError> {
        let unknown = self.unknown_of(term)?;
        self.add_unknown(unknown, factor)
    }

    fn add_unknown(&mut self, unknown: usize, factor: i128) -> Result<(), AllocError> {
        for place in self.begun..self.entries.len() {
            let entry = self.entry(place);
            if entry.unknown == unknown {
                self.set_factor(place, entry.factor.checked_add(factor));
                return Ok(());
            }
        }
        self.entries.push(Entry { unknown, factor })?;
        Ok(())
    }

    fn set_factor(&mut self, place: usize, factor: Option<i128>) {
        let Some(factor) = factor else {
            self.fits = false;
            return;
        };
        if let Some(entry) = self.entries.get_mut(place) {
            entry.factor = factor;
        }
    }

    /// Takes a number from the bound, since it is added on the left.
    pub fn add_number(&mut self, number: i128) {
        match self.bound.checked_sub(number) {
            Some(bound) => self.bound = bound,
            None => self.fits = false,
        }
    }

    /// The row is a sum in which this stands.
    pub fn add_part(&mut self, source: Source, weight: i128) -> Result<(), AllocError> {
        let weight = small(weight);
        self.fits = self.fits && weight != 0;
        self.parts.push(Part { source, weight })?;
        Ok(())
    }

    /// Whether what was added to the row comes to 0.
    pub fn is_zero(&self) -> bool {
        for place in self.begun..self.entries.len() {
            if self.entry(place).factor != 0 {
                return false;
            }
        }
        self.fits && self.bound == 0
    }

    /// Ends a row of parts.
    pub fn end(&mut self, is_equation: bool) -> Result<(), AllocError> {
        let origin = Origin::Parts(self.begun_parts, self.parts.len());
        let _ = self.finish(origin, is_equation)?;
        Ok(())
    }

    // Ends a row, without the entries that are 0 and divided where that is possible. Whether it is a contradiction.
    fn finish(&mut self, origin: Origin, is_equation: bool) -> Result<bool, AllocError> {
        self.drop_zeros();
        let is_empty = self.entries.len() <= self.begun;
        let divisor = if is_equation { 1 } else { self.divide() };
        if !self.fits || self.rows.len() >= self.limit || self.is_idle(is_empty, is_equation) {
            self.entries.truncate(self.begun);
            return Ok(false);
        }
        self.rows.push(Row {
            from: self.begun,
            to: self.entries.len(),
            bound: self.bound,
            origin,
            divisor,
            fact: NONE,
            is_equation,
            is_live: true,
        })?;
        Ok(is_empty)
    }

    // Whether the row says nothing that isn't known.
    fn is_idle(&self, is_empty: bool, is_equation: bool) -> bool {
        if is_equation {
            return is_empty && self.bound == 0;
        }
        if is_empty {
            return self.bound >= 0;
        }
        for row in &self.rows {
            if row.is_live
                && !row.is_equation
                && row.bound <= self.bound
                && self.has_entries(*row)
            {
                return true;
            }
        }
        false
    }

    // Whether a row has the entries of the one that is being made.
    fn has_entries(&self, row: Row) -> bool {
        if row.to.saturating_sub(row.from) != self.entries.len().saturating_sub(self.begun) {
            return false;
        }
        for place in self.begun..self.entries.len() {
            let entry = self.entry(place);
            if self.factor_in(row, entry.unknown) != entry.factor {
                return false;
            }
        }
        true
    }

    fn drop_zeros(&mut self) {
        let mut kept = self.begun;
        for place in self.begun..self.entries.len() {
            let entry = self.entry(place);
            if entry.factor != 0 {
                if let Some(target) = self.entries.get_mut(kept) {
                    *target = entry;
                }
                kept = kept.saturating_add(1);
            }
        }
        self.entries.truncate(kept);
    }

    // Divides the row by what divides all its coefficients. Gives the divisor.
    fn divide(&mut self) -> i64 {
        let mut divisor = 0i128;
        for place in self.begun..self.entries.len() {
            divisor = divisor_of(self.entry(place).factor.saturating_abs(), divisor);
        }
        if divisor <= 1 {
            return 1;
        }
        let small = small(divisor);
        self.fits = self.fits && small != 0;
        for place in self.begun..self.entries.len() {
            let factor = self.entry(place).factor.checked_div(divisor);
            self.set_factor(place, factor);
        }
        match self.bound.checked_div_euclid(divisor) {
            Some(bound) => self.bound = bound,
            None => self.fits = false,
        }
        small
    }

    pub(crate) fn factor_in(&self, row: Row, unknown: usize) -> i128 {
        for place in row.from..row.to {
            let entry = self.entry(place);
            if entry.unknown == unknown {
                return entry.factor;
            }
        }
        0
    }

    /// Lets unknowns fall away until there is a contradiction: its row, or NONE.
    pub fn refute(&mut self) -> Result<usize, AllocError> {
        for place in 0..self.rows.len() {
            let row = self.row(place);
            if row.from == row.to {
                return Ok(place);
            }
        }
        let found = self.use_equations()?;
        if found != NONE {
            return Ok(found);
        }
        self.limit = MOST.min(self.rows.len().saturating_add(MOST_SUMS));
        for _ in 0..MOST {
            let unknown = self.best_unknown()?;
            if unknown == NONE {
                break;
            }
            let found = self.eliminate(unknown)?;
            if found != NONE {
                return Ok(found);
            }
        }
        Ok(NONE)
    }

    // Counts in which live rows each unknown stands.
    pub(crate) fn count_all(&mut self) -> Result<(), AllocError> {
        self.counts.truncate(0);
        for _ in 0..self.terms.len() {
            self.counts.push(NO_COUNT)?;
        }
        for place in 0..self.rows.len() {
            let row = self.row(place);
            if row.is_live {
                for at in row.from..row.to {
                    self.count(self.entry(at));
                }
            }
        }
        Ok(())
    }

    fn count(&mut self, entry: Entry) {
        let Some(count) = self.counts.get_mut(entry.unknown) else {
            return;
        };
        if entry.factor > 0 {
            count.above = count.above.saturating_add(1);
            count.is_above_one = count.is_above_one && entry.factor == 1;
        } else {
            count.below = count.below.saturating_add(1);
            count.is_below_one = count.is_below_one && entry.factor == -1;
        }
    }

    // The unknown that costs least: first those whose coefficients of one sign are all 1 or -1.
    fn best_unknown(&mut self) -> Result<usize, AllocError> {
        self.count_all()?;
        let mut best = NONE;
        let mut least = u64::MAX;
        for (place, count) in self.counts.iter().enumerate() {
            let cost = cost_of(*count);
            if cost < least {
                least = cost;
                best = place;
            }
        }
        Ok(best)
    }

    // Sums each row in which an unknown is positive with each in which it is negative. A contradiction, or NONE.
    fn eliminate(&mut self, unknown: usize) -> Result<usize, AllocError> {
        let count = self.rows.len();
        for place in 0..count {
            let row = self.row(place);
            if row.is_live && self.factor_in(row, unknown) > 0 {
                let found = self.sum_all(unknown, place, count)?;
                if found != NONE {
                    return Ok(found);
                }
            }
        }
        for place in 0..count {
            if self.factor_in(self.row(place), unknown) != 0 {
                self.retire(place);
            }
        }
        Ok(NONE)
    }

    fn sum_all(&mut self, unknown: usize, first: usize, count: usize) -> Result<usize, AllocError> {
        for second in 0..count {
            let row = self.row(second);
            if row.is_live
                && self.rows.len() < self.limit
                && self.factor_in(row, unknown) < 0
                && self.sum(unknown, first, second)?
            {
                return Ok(self.rows.len().saturating_sub(1));
            }
        }
        Ok(NONE)
    }

    pub(crate) fn retire(&mut self, place: usize) {
        if let Some(row) = self.rows.get_mut(place) {
            row.is_live = false;
        }
    }

    // The sum of two rows in which an unknown falls away. Whether it is a contradiction.
    fn sum(&mut self, unknown: usize, first: usize, second: usize) -> Result<bool, AllocError> {
        let (a, b) = (self.row(first), self.row(second));
        let up = self.factor_in(a, unknown).saturating_abs();
        let down = self.factor_in(b, unknown).saturating_abs();
        let common = divisor_of(up, down);
        let first_weight = small(down.checked_div(common).unwrap_or(0));
        let second_weight = small(up.checked_div(common).unwrap_or(0));
        if first_weight == 0 || second_weight == 0 {
            return Ok(false);
        }
        self.combine((first, first_weight), (second, second_weight), false)
    }

    // The sum of two rows with weights, or of one where the second weight is 0. Whether it is a contradiction.
    pub(crate) fn combine(
        &mut self,
        a: (usize, i64),
        b: (usize, i64),
        is_equation: bool,
    ) -> Result<bool, AllocError> {
        self.begin();
        self.add_row(self.row(a.0), a.1)?;
        self.add_row(self.row(b.0), b.1)?;
        self.finish(
            Origin::Rows {
                first: a.0,
                first_weight: a.1,
                second: b.0,
                second_weight: b.1,
            },
            is_equation,
        )
    }

    fn add_row(&mut self, row: Row, weight: i64) -> Result<(), AllocError> {
        let weight = weight as i128;
        match row.bound.checked_mul(weight) {
            Some(number) => self.add_number(number.saturating_neg()),
            None => self.fits = false,
        }
        for place in row.from..row.to {
            let entry = self.entry(place);
            match entry.factor.checked_mul(weight) {
                Some(factor) => self.add_unknown(entry.unknown, factor)?,
                None => self.fits = false,
            }
        }
        Ok(())
    }
}

// What it costs to let an unknown fall away. One that stands in no row isn't taken.
fn cost_of(count: Count) -> u64 {
    if count.above == 0 && count.below == 0 {
        return u64::MAX;
    }
    let cost = count.above.saturating_mul(count.below);
    if count.is_above_one || count.is_below_one {
        cost
    } else {
        cost.saturating_add(1_000_000)
    }
}
