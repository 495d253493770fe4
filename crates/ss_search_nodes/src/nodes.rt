// What the formulas inside the known `or`s come to, counted from their atoms up.
//
// A formula and its negation are one pair with one node. It speaks of the first of the two: an atom, an `and` or a `forall`.

use ss_search_classes::{Classes, Why};
use ss_search_question::{
    AND, EQUAL, FORALL, LITERAL, NONE, OR, Places, first_of, is_delayed, is_first, kind_of,
    pair_argument, pair_head, pair_of, part_at, part_count, second_of,
};
use ss_terms::Bank;
use std::alloc::{AllocError, Global};

/// Why a node has its value.
#[derive(Clone, Copy)]
pub enum Ground {
    Atom(Why),
    /// The part at this place is false, of an `and`; or each part is true.
    Part(usize),
    All,
    /// This fact says so, of a quantified formula.
    Known(usize),
}

/// Of a pair: whether it is looked at, and what its first formula comes to and why. Also how many parts it has and how many of
/// them are true, and the last of the nodes that it is a part of. Also the facts by which its first and its second formula are
/// known, and whether a part of its `or` was made known.
#[derive(Clone, Copy)]
struct Node {
    is_open: bool,
    value: Option<bool>,
    ground: Ground,
    length: usize,
    count: usize,
    parents: usize,
    first: usize,
    second: usize,
    is_taken: bool,
}

/// A place at which a pair is a part: of which pair, whether as its first formula, at which place there, and the one before.
#[derive(Clone, Copy)]
struct Parent {
    pair: usize,
    is_first: bool,
    place: usize,
    before: usize,
}

/// A value that a node will have.
#[derive(Clone, Copy)]
struct Coming {
    pair: usize,
    value: bool,
    ground: Ground,
}

/// What has to be taken back.
#[derive(Clone, Copy)]
enum Change {
    There(usize),
    Open(usize),
    Value(usize),
    Count(usize),
    Parent(usize),
    First(usize),
    Second(usize),
    Taken(usize),
    Left(usize),
}

/// How many parts an `and` or `or` has at most that isn't long.
pub const LONG: usize = 16;

/// The nodes of the pairs of which something is known or was asked, and where that of each pair stands, or NONE.
#[derive(Drop)]
pub struct Nodes {
    places: Places,
    nodes: Vec<Node>,
    parents: Vec<Parent>,
    trail: Vec<Change>,
    coming: Vec<Coming>,
    units: Vec<usize>,
    waiting: Vec<usize>,
    // The long pairs inside others that aren't looked at, and whether there are to be none.
    left: Vec<usize>,
    is_thorough: bool,
}

fn empty_node() -> Node {
    Node {
        is_open: false,
        value: None,
        ground: Ground::All,
        length: 0,
        count: 0,
        parents: NONE,
        first: NONE,
        second: NONE,
        is_taken: false,
    }
}

impl Nodes {
    /// No node.
    pub fn new(alloc: Global) -> Self {
        Nodes {
            places: Places::new(alloc),
            nodes: Vec::new(alloc),
            parents: Vec::new(alloc),
            trail: Vec::new(alloc),
            coming: Vec::new(alloc),
            units: Vec::new(alloc),
            waiting: Vec::new(alloc),
            left: Vec::new(alloc),
            is_thorough: false,
        }
    }

    /// Each pair of the bank that is new, with nothing known of it.
    pub fn grow(&mut self, bank: &Bank) -> Result<(), AllocError> {
        self.places.grow(bank.formula_count() / 2)?;
        Ok(())
    }

    // Where the node of a pair stands, or NONE.
    fn place(&self, pair: usize) -> usize {
        self.places.place(pair)
    }

    fn node(&self, pair: usize) -> Option<&Node> {
        self.nodes.get(self.place(pair))
    }

    // The pair has a node from now on.
    fn enter(&mut self, pair: usize) -> Result<(), AllocError> {
        if self.place(pair) != NONE || pair >= self.places.len() {
            return Ok(());
        }
        let at = self.nodes.len();
        self.places.put(pair, at)?;
        self.nodes.push(empty_node())?;
        self.trail.push(Change::There(pair))?;
        Ok(())
    }

    // The pair, whose node is the last one, has none any more.
    fn leave(&mut self, pair: usize) {
        let _ = self.nodes.pop();
        self.places.clear(pair);
    }

    /// How many changes stand.
    pub fn mark(&self) -> usize {
        self.trail.len()
    }

    /// Takes back all but the first changes.
    pub fn undo(&mut self, to: usize) {
        for _ in to..self.trail.len() {
            let Some(change) = self.trail.pop() else {
                break;
            };
            self.take_back(change);
        }
    }

    fn take_back(&mut self, change: Change) {
        match change {
            Change::There(pair) => self.leave(pair),
            Change::Left(_) => {
                let _ = self.left.pop();
            }
            Change::Parent(pair) => self.drop_parent(pair),
            _ => {
                let at = self.place(pair_in(change));
                if let Some(node) = self.nodes.get_mut(at) {
                    clear(node, change);
                }
            }
        }
    }

    fn drop_parent(&mut self, pair: usize) {
        let Some(parent) = self.parents.pop() else {
            return;
        };
        let at = self.place(pair);
        if let Some(node) = self.nodes.get_mut(at) {
            node.parents = parent.before;
        }
    }

    /// Nothing is to be done any more.
    pub fn drop_pending(&mut self) {
        self.coming.truncate(0);
        self.units.truncate(0);
        self.waiting.truncate(0);
    }

    /// What a formula comes to.
    pub fn value(&self, f: usize) -> Option<bool> {
        let value = self.node(pair_of(f))?.value?;
        Some(value == is_first(f))
    }

    /// Why a pair has its value.
    pub fn ground(&self, pair: usize) -> Option<Ground> {
        let node = self.node(pair)?;
        match node.value {
            Some(_) => Some(node.ground),
            None => None,
        }
    }

    /// Whether a pair is looked at.
    pub fn is_open(&self, pair: usize) -> bool {
        match self.node(pair) {
            Some(node) => node.is_open,
            None => false,
        }
    }

    /// The fact by which a formula is known, or NONE.
    pub fn held(&self, f: usize) -> usize {
        match self.node(pair_of(f)) {
            Some(node) => { if is_first(f) { node.first } else { node.second } }
            None => NONE,
        }
    }

    /// A formula is known by a fact.
    pub fn hold(&mut self, f: usize, fact: usize) -> Result<(), AllocError> {
        let pair = pair_of(f);
        self.enter(pair)?;
        let at = self.place(pair);
        if let Some(node) = self.nodes.get_mut(at) {
            if is_first(f) {
                node.first = fact;
            } else {
                node.second = fact;
            }
        }
        self.trail.push(if is_first(f) {
            Change::First(pair)
        } else {
            Change::Second(pair)
        })?;
        Ok(())
    }

    /// Whether a part of an `or` was made known.
    pub fn is_taken(&self, or: usize) -> bool {
        match self.node(pair_of(or)) {
            Some(node) => node.is_taken,
            None => false,
        }
    }

    /// Whether there is nothing to do for an `or`: it is true, or one of its parts was made known.
    pub fn is_settled(&self, or: usize) -> bool {
        match self.node(pair_of(or)) {
            Some(node) => node.is_taken || node.value == Some(false),
            None => false,
        }
    }

    /// Whether at most one part of the `or` of a pair isn't refuted.
    pub fn is_unit(&self, pair: usize) -> bool {
        match self.node(pair) {
            Some(node) => node.count.saturating_add(1) >= node.length,
            None => true,
        }
    }

    /// How many parts of an `or` aren't refuted.
    pub fn open_count(&self, or: usize) -> usize {
        match self.node(pair_of(or)) {
            Some(node) => node.length.saturating_sub(node.count),
            None => 0,
        }
    }

    /// A part of the `or` of a pair was made known.
    pub fn take(&mut self, pair: usize) -> Result<(), AllocError> {
        self.enter(pair)?;
        let at = self.place(pair);
        if let Some(node) = self.nodes.get_mut(at) {
            node.is_taken = true;
        }
        self.trail.push(Change::Taken(pair))?;
        Ok(())
    }

    /// The next pair whose `or` may have one part left.
    pub fn next_unit(&mut self) -> Option<usize> {
        self.units.pop()
    }

    /// An `or` is known by a fact. It is looked at from now on.
    pub fn reach(
        &mut self,
        bank: &Bank,
        classes: &mut Classes,
        or: usize,
        fact: usize,
    ) -> Result<(), AllocError> {
        self.hold(or, fact)?;
        self.units.push(pair_of(or))?;
        self.open_all(bank, classes, pair_of(or))
    }

    /// A quantified formula is known by a fact.
    pub fn know(&mut self, f: usize, fact: usize) -> Result<(), AllocError> {
        self.hold(f, fact)?;
        self.come(pair_of(f), is_first(f), Ground::Known(fact))
    }

    /// From now on long pairs are looked at wherever they stand.
    pub fn look_at_all(&mut self) {
        self.is_thorough = true;
    }

    /// Whether long pairs are looked at wherever they stand.
    pub fn is_thorough(&self) -> bool {
        self.is_thorough
    }

    /// Looks at a pair and at all pairs inside it, but for delayed and long ones and what is inside them.
    pub fn open_all(
        &mut self,
        bank: &Bank,
        classes: &mut Classes,
        pair: usize,
    ) -> Result<(), AllocError> {
        self.waiting.push(pair)?;
        for _ in 0..u64::MAX {
            let Some(next) = self.waiting.pop() else {
                break;
            };
            if next >= self.places.len() || self.is_open(next) {
                continue;
            }
            let formula = first_of(next);
            if kind_of(bank, formula) == LITERAL {
                self.open(bank, classes, next)?;
                continue;
            }
            if is_delayed(bank, formula) {
                continue;
            }
            if next == pair || self.is_thorough || part_count(bank, formula) <= LONG {
                self.open(bank, classes, next)?;
            } else {
                self.left.push(next)?;
                self.trail.push(Change::Left(next))?;
            }
        }
        Ok(())
    }

    /// Looks at the long pairs that were left. Whether there were such.
    pub fn open_left(&mut self, bank: &Bank, classes: &mut Classes) -> Result<bool, AllocError> {
        let mut has_opened = false;
        for place in 0..self.left.len() {
            let Some(pair) = self.left.get(place).copied() else {
                break;
            };
            if !self.is_open(pair) {
                self.open_all(bank, classes, pair)?;
                has_opened = true;
            }
        }
        Ok(has_opened)
    }

    fn open(&mut self, bank: &Bank, classes: &mut Classes, pair: usize) -> Result<(), AllocError> {
        self.enter(pair)?;
        self.trail.push(Change::Open(pair))?;
        let at = self.place(pair);
        if let Some(node) = self.nodes.get_mut(at) {
            node.is_open = true;
            node.count = 0;
            node.length = 0;
        }
        let kind = kind_of(bank, first_of(pair));
        if kind == LITERAL {
            self.open_atom(bank, classes, pair)
        } else if kind == AND {
            self.open_parts(bank, pair)
        } else {
            Ok(())
        }
    }

    fn open_atom(
        &mut self,
        bank: &Bank,
        classes: &mut Classes,
        pair: usize,
    ) -> Result<(), AllocError> {
        if pair_head(bank, pair).kind == EQUAL {
            classes.watch(
                bank,
                pair,
                pair_argument(bank, pair, 0),
                pair_argument(bank, pair, 1),
            )
        } else {
            classes.watch_mark(bank, pair)
        }
    }

    fn open_parts(&mut self, bank: &Bank, pair: usize) -> Result<(), AllocError> {
        let length = part_count(bank, first_of(pair));
        let at = self.place(pair);
        if let Some(node) = self.nodes.get_mut(at) {
            node.length = length;
        }
        if length == 0 {
            self.come(pair, true, Ground::All)?;
        }
        for place in 0..length {
            let part = part_at(bank, first_of(pair), place);
            self.add_parent(
                pair_of(part),
                Parent {
                    pair,
                    is_first: is_first(part),
                    place,
                    before: NONE,
                },
            )?;
        }
        Ok(())
    }

    // The pair is a part at this place. Where it has a value, that counts at once.
    fn add_parent(&mut self, pair: usize, mut parent: Parent) -> Result<(), AllocError> {
        self.enter(pair)?;
        let at = self.parents.len();
        let mut known = None;
        let place = self.place(pair);
        if let Some(node) = self.nodes.get_mut(place) {
            parent.before = node.parents;
            node.parents = at;
            known = node.value;
        }
        self.parents.push(parent)?;
        self.trail.push(Change::Parent(pair))?;
        self.waiting.push(pair)?;
        match known {
            Some(value) => self.count(parent, value),
            None => Ok(()),
        }
    }

    /// A node will have this value.
    pub fn come(&mut self, pair: usize, value: bool, ground: Ground) -> Result<(), AllocError> {
        self.coming.push(Coming {
            pair,
            value,
            ground,
        })?;
        Ok(())
    }

    /// Gives each node its value that will have one, and counts it where it is a part.
    pub fn spread(&mut self) -> Result<(), AllocError> {
        for _ in 0..u64::MAX {
            let Some(coming) = self.coming.pop() else {
                break;
            };
            self.give(coming)?;
        }
        Ok(())
    }

    // Gives a node its value, where it has none.
    fn give(&mut self, coming: Coming) -> Result<(), AllocError> {
        self.enter(coming.pair)?;
        let at = self.place(coming.pair);
        let Some(node) = self.nodes.get_mut(at) else {
            return Ok(());
        };
        if node.value.is_some() {
            return Ok(());
        }
        node.value = Some(coming.value);
        node.ground = coming.ground;
        let parents = node.parents;
        self.trail.push(Change::Value(coming.pair))?;
        self.count_all(parents, coming.value)
    }

    fn count_all(&mut self, last: usize, value: bool) -> Result<(), AllocError> {
        let mut at = last;
        for _ in 0..self.parents.len() {
            let Some(parent) = self.parents.get(at).copied() else {
                break;
            };
            at = parent.before;
            self.count(parent, value)?;
        }
        Ok(())
    }

    // Counts a part whose pair has this value.
    fn count(&mut self, parent: Parent, value: bool) -> Result<(), AllocError> {
        if value != parent.is_first {
            return self.come(parent.pair, false, Ground::Part(parent.place));
        }
        let at = self.place(parent.pair);
        let Some(node) = self.nodes.get_mut(at) else {
            return Ok(());
        };
        let count = node.count.saturating_add(1);
        node.count = count;
        let length = node.length;
        let is_known = node.second != NONE;
        self.trail.push(Change::Count(parent.pair))?;
        if is_known && count.saturating_add(1) >= length {
            self.units.push(parent.pair)?;
        }
        if count >= length {
            self.come(parent.pair, true, Ground::All)
        } else {
            Ok(())
        }
    }

    /// The place of the first part of an `and` or `or` that comes to nothing yet, from a place on. NONE where there is none.
    pub fn first_open(&self, bank: &Bank, f: usize, from: usize) -> usize {
        for place in from..part_count(bank, f) {
            if self.value(part_at(bank, f, place)).is_none() {
                return place;
            }
        }
        NONE
    }

    /// The place of the only part of an `or` that isn't refuted, where that comes to nothing yet, or NONE.
    pub fn only_open(&self, bank: &Bank, or: usize) -> usize {
        let mut found = NONE;
        for place in 0..part_count(bank, or) {
            let value = self.value(part_at(bank, or, place));
            if value == Some(false) {
                continue;
            }
            if value == Some(true) || found != NONE {
                return NONE;
            }
            found = place;
        }
        found
    }

    /// The place of the first part of an `or` that is true, or NONE.
    pub fn first_true(&self, bank: &Bank, or: usize) -> usize {
        for place in 0..part_count(bank, or) {
            if self.value(part_at(bank, or, place)) == Some(true) {
                return place;
            }
        }
        NONE
    }

    /// Whether a part of an `or` is known by a fact.
    pub fn has_held_part(&self, bank: &Bank, or: usize) -> bool {
        for place in 0..part_count(bank, or) {
            let part = part_at(bank, or, place);
            if self.held(part) != NONE && self.value(part) != Some(false) {
                return true;
            }
        }
        false
    }

    /// Whether a formula is an open literal, quantified formula, or has an open part.
    pub fn is_undecided(&self, f: usize) -> bool {
        self.value(f).is_none()
    }
}

/// Whether a formula is an `or`, or quantified: such as are held by facts.
pub fn is_held_kind(kind: usize) -> bool {
    kind == OR || kind >= FORALL
}

/// The `or` of a pair.
pub fn or_of(pair: usize) -> usize {
    second_of(pair)
}

// Takes back what a change made of a node.
fn clear(node: &mut Node, change: Change) {
    match change {
        Change::Open(_) => node.is_open = false,
        Change::Value(_) => node.value = None,
        Change::Count(_) => node.count = node.count.saturating_sub(1),
        Change::First(_) => node.first = NONE,
        Change::Second(_) => node.second = NONE,
        Change::Taken(_) => node.is_taken = false,
        _ => {}
    }
}

fn pair_in(change: Change) -> usize {
    match change {
        Change::There(pair) => pair,
        Change::Open(pair) => pair,
        Change::Value(pair) => pair,
        Change::Count(pair) => pair,
        Change::Parent(pair) => pair,
        Change::First(pair) => pair,
        Change::Second(pair) => pair,
        Change::Taken(pair) => pair,
        Change::Left(pair) => pair,
    }
}
