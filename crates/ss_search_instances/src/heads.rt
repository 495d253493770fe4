// The reads by which a `forall` is asked for an instance.

use ss_search_question::{
    ALLOCATED, AND, BOUND, COMMITTED, CONSTANT, ELEMENT, EXISTS, FIELD, FORALL, Head, Keys, LEVEL,
    LITERAL, NONE, OR, OWNER, READY, argument, arguments_of, body_of, bound_count, first_of,
    is_closed, kind_of, node_head, of_pair, of_term, pair_of, part_at, part_count, term_argument,
    term_head,
};
use ss_terms::Bank;
use std::alloc::{AllocError, Global};

/// A read of a kind over a store, at an object or array and an index; these are bound names or closed terms. Beside it stand the
/// `forall` of which it is a head, and the next head of this kind, with this number, over this store.
#[derive(Clone, Copy)]
pub struct Pattern {
    pub kind: usize,
    pub number: usize,
    pub store: usize,
    pub object: usize,
    pub index: usize,
    pub forall: usize,
    pub next: usize,
}

/// The heads of each `forall` that was asked for: those of one stand together, those of one kind, number and store are linked.
#[derive(Drop)]
pub struct Heads {
    alloc: Global,
    ranges: Vec<(usize, usize)>,
    patterns: Vec<Pattern>,
    // Where the range of a `forall` stands, and the first and the last head of a kind, with a number, over a store. Of the `and` of a
    // `forall`: in which part each read over the newest store stands, and this store.
    places: Keys,
    // The reads that were found. Where those of the parts of an `and` were, the last one first, how many had been found before each turn.
    found: Vec<Pattern>,
    ends: Vec<usize>,
    formulas: Vec<usize>,
    nodes: Vec<usize>,
}

// The keys of the range of a `forall`, of first heads and of last ones. The kind of a head is added.
const RANGE: usize = 1000;

const FIRST: usize = 2000;

const LAST: usize = 3000;

// The keys of the parts of an `and` in which reads stand, and of their store. The kind of a read is added.
const PLACE: usize = 4000;

const STORE: usize = 5000;

impl Heads {
    /// None.
    pub fn new(alloc: Global) -> Self {
        Heads {
            alloc,
            ranges: Vec::new(alloc),
            patterns: Vec::new(alloc),
            places: Keys::new(alloc),
            found: Vec::new(alloc),
            ends: Vec::new(alloc),
            formulas: Vec::new(alloc),
            nodes: Vec::new(alloc),
        }
    }

    /// Forgets all heads.
    pub fn forget(&mut self) {
        self.ranges.truncate(0);
        self.patterns.truncate(0);
        self.places.undo(0);
    }

    /// How many ranges, heads and keys there are.
    pub fn mark(&self) -> (usize, usize, usize) {
        (self.ranges.len(), self.patterns.len(), self.places.len())
    }

    /// Forgets all but so many ranges, heads and keys.
    pub fn cut(&mut self, mark: (usize, usize, usize)) {
        let (ranges, patterns, places) = mark;
        self.ranges.truncate(ranges);
        self.places.undo(places);
        for _ in patterns..self.patterns.len() {
            if let Some(pattern) = self.patterns.pop() {
                self.unlink(pattern);
            }
        }
    }

    // The last head that is left of the kind, the number and the store of one that is gone has none after it.
    fn unlink(&mut self, gone: Pattern) {
        let last = LAST.saturating_add(gone.kind);
        let before = self.places.value(last, gone.number, gone.store);
        if let Some(other) = self.patterns.get_mut(before) {
            other.next = NONE;
        }
    }

    /// How many heads there are.
    pub fn len(&self) -> usize {
        self.patterns.len()
    }

    /// Where the heads of a `forall` stand.
    pub fn range(&self, forall: usize) -> (usize, usize) {
        match self
            .ranges
            .get(self.places.value(RANGE, pair_of(forall), 0))
        {
            Some(range) => *range,
            None => (0, 0),
        }
    }

    /// The head at a place.
    pub fn pattern(&self, place: usize) -> Pattern {
        match self.patterns.get(place) {
            Some(pattern) => *pattern,
            None => Pattern {
                kind: BOUND,
                number: 0,
                store: NONE,
                object: NONE,
                index: NONE,
                forall: NONE,
                next: NONE,
            },
        }
    }

    /// The place of the first head of a kind, with a number, over a store, or NONE.
    pub fn first(&self, head: Head, store: usize) -> usize {
        self.places
            .value(FIRST.saturating_add(head.kind), head.number, store)
    }

    /// The place of the first part of a `forall`'s `and` in which a read with this head stands, or NONE.
    pub fn place(&self, head: Head, whole: usize) -> usize {
        self.places
            .value(PLACE.saturating_add(head.kind), head.number, whole)
    }

    /// The newest store that is read in a `forall`'s `and`, or NONE.
    pub fn store(&self, whole: usize) -> usize {
        self.places.value(STORE, whole, 0)
    }

    /// Finds the heads of a `forall`, once.
    pub fn make(&mut self, bank: &Bank, forall: usize) -> Result<(), AllocError> {
        let pair = pair_of(forall);
        if self.places.value(RANGE, pair, 0) != NONE {
            return Ok(());
        }
        let from = self.patterns.len();
        self.find(bank, forall)?;
        self.places.add(RANGE, pair, 0, self.ranges.len())?;
        self.ranges.push((from, self.patterns.len()))?;
        Ok(())
    }

    fn find(&mut self, bank: &Bank, forall: usize) -> Result<(), AllocError> {
        let names = bound_count(bank, forall);
        let body = body_of(bank, forall);
        let last = if kind_of(bank, body) == OR {
            part_at(bank, body, part_count(bank, body).saturating_sub(1))
        } else {
            body
        };
        self.found.truncate(0);
        if kind_of(bank, last) == AND {
            self.collect_parts(bank, last, names)?;
            self.collect_conditions(bank, body, names)?;
            return self.keep_parts(bank, forall, last);
        }
        self.collect(bank, body, names)?;
        let newest = self.newest(bank);
        let count = self.found.len();
        self.keep(forall, newest, (0, count))
    }

    // Finds the reads in each part of an `and`, the last one first.
    fn collect_parts(&mut self, bank: &Bank, whole: usize, names: usize) -> Result<(), AllocError> {
        let count = part_count(bank, whole);
        self.ends.truncate(0);
        self.ends.push(0)?;
        for turn in 0..count {
            let place = count.saturating_sub(turn.saturating_add(1));
            self.collect(bank, part_at(bank, whole, place), names)?;
            self.ends.push(self.found.len())?;
        }
        Ok(())
    }

    // Finds the reads in the parts of an `or` but the last one, from the end. A formula that is no `or` has none.
    fn collect_conditions(
        &mut self,
        bank: &Bank,
        body: usize,
        names: usize,
    ) -> Result<(), AllocError> {
        if kind_of(bank, body) != OR {
            return Ok(());
        }
        let count = part_count(bank, body).saturating_sub(1);
        for turn in 0..count {
            let place = count.saturating_sub(turn.saturating_add(1));
            self.collect(bank, part_at(bank, body, place), names)?;
        }
        Ok(())
    }

    // Keeps the heads in each part of a `forall`'s `and`, and notes where they stand.
    fn keep_parts(&mut self, bank: &Bank, forall: usize, whole: usize) -> Result<(), AllocError> {
        let newest = self.newest(bank);
        let count = part_count(bank, whole);
        if self.store(whole) == NONE {
            self.places.add(STORE, whole, 0, newest)?;
        }
        for place in 0..count {
            let turn = count.saturating_sub(place.saturating_add(1));
            let range = (self.end(turn), self.end(turn.saturating_add(1)));
            self.note((whole, newest), place, range)?;
            self.keep(forall, newest, range)?;
        }
        Ok(())
    }

    // How many reads had been found before a turn.
    fn end(&self, turn: usize) -> usize {
        match self.ends.get(turn) {
            Some(end) => *end,
            None => 0,
        }
    }

    // Finds the reads in a formula that have each bound name as an argument.
    fn collect(&mut self, bank: &Bank, formula: usize, names: usize) -> Result<(), AllocError> {
        self.formulas.truncate(0);
        self.formulas.push(formula)?;
        for _ in 0..u64::MAX {
            let Some(next) = self.formulas.pop() else {
                break;
            };
            let kind = kind_of(bank, next);
            if kind == LITERAL {
                self.collect_nodes(bank, of_pair(pair_of(next)), names)?;
            } else if kind == AND || kind == OR {
                for place in 0..part_count(bank, next) {
                    self.formulas.push(part_at(bank, next, place))?;
                }
            } else if kind == FORALL || kind == EXISTS {
                self.formulas.push(body_of(bank, next))?;
            }
        }
        Ok(())
    }

    fn collect_nodes(&mut self, bank: &Bank, node: usize, names: usize) -> Result<(), AllocError> {
        self.nodes.truncate(0);
        self.nodes.push(node)?;
        for _ in 0..u64::MAX {
            let Some(next) = self.nodes.pop() else {
                break;
            };
            self.collect_node(bank, next, names)?;
            for argument in arguments_of(bank, next) {
                if !is_closed(bank, argument.0) {
                    self.nodes.push(of_term(argument.0))?;
                }
            }
        }
        Ok(())
    }

    fn collect_node(&mut self, bank: &Bank, node: usize, names: usize) -> Result<(), AllocError> {
        let head = node_head(bank, node);
        if !is_read(head.kind) {
            return Ok(());
        }
        let pattern = Pattern {
            kind: head.kind,
            number: head.number,
            store: argument(bank, node, 0),
            object: argument(bank, node, 1),
            index: argument(bank, node, 2),
            forall: NONE,
            next: NONE,
        };
        if is_closed(bank, pattern.store) && covers(bank, pattern, names) {
            self.found.push(pattern)?;
        }
        Ok(())
    }

    // The reads over the newest store between two places of what was found stand in this part of an `and`.
    fn note(
        &mut self,
        read: (usize, usize),
        part: usize,
        range: (usize, usize),
    ) -> Result<(), AllocError> {
        let (whole, newest) = read;
        for at in range.0..range.1 {
            let Some(pattern) = self.found.get(at).copied() else {
                break;
            };
            let kind = PLACE.saturating_add(pattern.kind);
            if pattern.store == newest && self.places.value(kind, pattern.number, whole) == NONE {
                self.places.add(kind, pattern.number, whole, part)?;
            }
        }
        Ok(())
    }

    // The newest store of the reads that were found.
    fn newest(&self, bank: &Bank) -> usize {
        let mut newest = NONE;
        let mut highest = (0usize, 0usize);
        for pattern in &self.found {
            if pattern.store == newest {
                continue;
            }
            let found = rank(bank, pattern.store);
            if newest == NONE || is_higher(found, highest) {
                newest = pattern.store;
                highest = found;
            }
        }
        newest
    }

    // Keeps the reads over the newest store between two places of what was found as heads of a `forall`. Where others are left,
    // `alloc` and `own` go.
    fn keep(
        &mut self,
        forall: usize,
        newest: usize,
        range: (usize, usize),
    ) -> Result<(), AllocError> {
        let most = self.most_telling(newest, range);
        for place in range.0..range.1 {
            let Some(mut pattern) = self.found.get(place).copied() else {
                break;
            };
            if pattern.store == newest && telling(pattern.kind) >= most {
                pattern.forall = forall;
                self.add(pattern)?;
            }
        }
        Ok(())
    }

    // One more head, after those of its kind, number and store.
    fn add(&mut self, pattern: Pattern) -> Result<(), AllocError> {
        let at = self.patterns.len();
        let (number, store) = (pattern.number, pattern.store);
        let last = LAST.saturating_add(pattern.kind);
        let before = self.places.value(last, number, store);
        match self.patterns.get_mut(before) {
            Some(other) => other.next = at,
            None => {
                let first = FIRST.saturating_add(pattern.kind);
                self.places.add(first, number, store, at)?;
            }
        }
        self.places.add(last, number, store, at)?;
        self.patterns.push(pattern)?;
        Ok(())
    }

    fn most_telling(&self, newest: usize, range: (usize, usize)) -> usize {
        let mut most = 0;
        for place in range.0..range.1 {
            let Some(pattern) = self.found.get(place) else {
                break;
            };
            if pattern.store == newest && telling(pattern.kind) > most {
                most = telling(pattern.kind);
            }
        }
        most
    }

    /// The allocator.
    pub fn allocator(&self) -> Global {
        self.alloc
    }
}

fn telling(kind: usize) -> usize {
    if kind == ALLOCATED {
        0
    } else if kind == OWNER {
        1
    } else {
        2
    }
}

/// Whether this is the kind of a read at an object or array.
pub fn is_read(kind: usize) -> bool {
    kind == FIELD
        || kind == ELEMENT
        || kind == LEVEL
        || kind == OWNER
        || kind == ALLOCATED
        || kind == COMMITTED
        || kind == READY
}

// Whether a term is the bound name of this number.
fn is_name(bank: &Bank, term: usize, number: usize) -> bool {
    let head = term_head(bank, term);
    head.kind == BOUND && head.number == number && term != NONE
}

// Whether each bound name stands at a place of its own, and nothing else that is bound does.
fn covers(bank: &Bank, pattern: Pattern, names: usize) -> bool {
    let at_object = is_name(bank, pattern.object, 0) || is_name(bank, pattern.object, 1);
    let at_index = is_name(bank, pattern.index, 0) || is_name(bank, pattern.index, 1);
    let is_element = pattern.kind == ELEMENT;
    if !at_object && !is_closed(bank, pattern.object) {
        return false;
    }
    if is_element && !at_index && !is_closed(bank, pattern.index) {
        return false;
    }
    let found = (if at_object { 1 } else { 0 }) + (if is_element && at_index { 1 } else { 0 });
    found == names && !(found == 2 && pattern.object == pattern.index)
}

// The constant that a store is made from, and how many changes there are.
fn rank(bank: &Bank, store: usize) -> (usize, usize) {
    let mut at = store;
    for depth in 0..u64::MAX {
        let head = term_head(bank, at);
        if head.kind == CONSTANT || head.kind == BOUND {
            return (head.number, depth as usize);
        }
        at = term_argument(bank, at, 0);
    }
    (0, 0)
}

// Whether a store of the first rank is newer than one of the second.
fn is_higher(a: (usize, usize), b: (usize, usize)) -> bool {
    a.0 > b.0 || (a.0 == b.0 && a.1 > b.1)
}

/// Whether a store is newer than another one.
pub fn is_newer(bank: &Bank, store: usize, other: usize) -> bool {
    is_higher(rank(bank, store), rank(bank, other))
}

/// The pair of an atom as a formula.
pub fn atom_of(pair: usize) -> usize {
    first_of(pair)
}
