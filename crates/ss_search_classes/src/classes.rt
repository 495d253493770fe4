// Which nodes are equal, by equalities and by congruence, with the facts that say so. Everything can be taken back.

use ss_search_question::{
    ADD, BOUND, Head, MULTIPLY, NONE, Places, USED, arguments_of, first_of, is_read, is_term,
    is_value, is_whole, mark_of, node_head, of_pair, of_term, same_head,
};
use ss_terms::Bank;
use std::alloc::{AllocError, Global};
use std::mem;

/// In place of a fact: two nodes have one head and equal arguments.
pub const CONGRUENT: usize = NONE - 1;

/// What is kept of a node: its head, its class, and the next member of it in a ring. Also one step of the equalities that joined
/// the class. Also the literal that it is by a fact that joined no class, with that fact. Also the last use, atom and inequality
/// in which the term stands. What is kept of a class stands at the node that it is named by. That is its weight, how many
/// members it has, and how it stood when they were last asked for. Also how many inequalities they stand in, its literal, and
/// the marks of the kinds of its terms and of their use.
#[derive(Clone, Copy)]
struct Node {
    head: Head,
    class: usize,
    next: usize,
    to: usize,
    fact: usize,
    value: usize,
    value_fact: usize,
    uses: usize,
    atoms: usize,
    aparts: usize,
    weight: usize,
    members: usize,
    swept: usize,
    apart_count: usize,
    literal: usize,
    kinds: usize,
}

/// An entry of a node's list: a number, the other side and whether this is the left one, and the entry before it. In a list of
/// signatures the other side is the signature, in a list of uses it is the node itself.
#[derive(Clone, Copy)]
struct Entry {
    number: usize,
    other: usize,
    is_left: bool,
    before: usize,
}

/// What a class weighs, how many members it has, and how many inequalities they stand in. Also its literal, and the marks of the
/// kinds of its terms.
#[derive(Clone, Copy)]
struct Load {
    weight: usize,
    members: usize,
    aparts: usize,
    literal: usize,
    kinds: usize,
}

/// A merge that stands, with the literal and the kinds of the upper class before it.
#[derive(Clone, Copy)]
struct Merge {
    lower: usize,
    upper: usize,
    literal: usize,
    kinds: usize,
    linked: usize,
    to: usize,
    fact: usize,
}

/// A merge that is to be made.
#[derive(Clone, Copy)]
struct Pending {
    left: usize,
    right: usize,
    fact: usize,
}

/// What has to be taken back. With a node go its uses of others and its first signature.
#[derive(Clone, Copy)]
enum Change {
    Merge(Merge),
    Value(usize),
    There(usize),
    Atom(usize),
    Apart(usize),
    Sign,
}

/// One equality of a path, by a fact or by congruence.
#[derive(Clone, Copy)]
pub struct Step {
    pub from: usize,
    pub to: usize,
    pub fact: usize,
}

/// Two nodes of one class that can't be equal: two literals, or the sides of an inequality. Or an `or` of which each part is
/// refuted, or a fact and its negation.
#[derive(Clone, Copy)]
pub enum Conflict {
    Literals(usize, usize),
    Apart(usize),
    Parts(usize),
    Facts(usize, usize),
}

/// Why an atom has its value: its sides are in one class, or in the classes of these literals, or differ by the fact. With the
/// fact stands whether it names the sides the other way round. Or the atom is in the class of this literal itself.
#[derive(Clone, Copy)]
pub enum Why {
    Equal,
    Literals(usize, usize),
    Apart(usize, bool),
    Marked(usize),
}

/// The atom of this pair got a value.
#[derive(Clone, Copy)]
pub struct Event {
    pub pair: usize,
    pub value: bool,
    pub why: Why,
}

// How many lists of signatures there are at first.
const LISTS: usize = 1024;

// How many links are gone from a node to one that is a literal by a fact.
const MOST_LINKS: usize = 16;

/// The classes of equal nodes. A node that is there has its place among those that are kept; else its place is NONE.
#[derive(Drop)]
pub struct Classes {
    places: Places,
    nodes: Vec<Node>,
    uses: Vec<Entry>,
    atoms: Vec<Entry>,
    aparts: Vec<Entry>,
    signs: Vec<Entry>,
    lists: Vec<usize>,
    trail: Vec<Change>,
    events: Vec<Event>,
    moved: Vec<usize>,
    waiting: Vec<usize>,
    pending: Vec<Pending>,
    number_merges: usize,
    shifts: usize,
    // The sums, differences and products that are there.
    sums: Vec<usize>,
    yes: usize,
    no: usize,
}

fn empty_node(number: usize, head: Head) -> Node {
    Node {
        head,
        class: number,
        next: number,
        to: NONE,
        fact: NONE,
        value: NONE,
        value_fact: NONE,
        uses: NONE,
        atoms: NONE,
        aparts: NONE,
        weight: 1,
        members: 1,
        swept: NONE,
        apart_count: 0,
        literal: NONE,
        kinds: 0,
    }
}

impl Classes {
    /// No node. The terms `true` and `false` are these.
    pub fn new(alloc: Global, yes: usize, no: usize) -> Self {
        Classes {
            places: Places::new(alloc),
            nodes: Vec::new(alloc),
            uses: Vec::new(alloc),
            atoms: Vec::new(alloc),
            aparts: Vec::new(alloc),
            signs: Vec::new(alloc),
            lists: Vec::new(alloc),
            trail: Vec::new(alloc),
            events: Vec::new(alloc),
            moved: Vec::new(alloc),
            waiting: Vec::new(alloc),
            pending: Vec::new(alloc),
            number_merges: 0,
            shifts: 0,
            sums: Vec::new(alloc),
            yes: of_term(yes),
            no: of_term(no),
        }
    }

    fn place(&self, number: usize) -> usize {
        self.places.place(number)
    }

    fn node(&self, number: usize) -> Option<&Node> {
        self.nodes.get(self.place(number))
    }

    // What is kept of the class that is named by a node.
    fn load_of(&self, class: usize) -> Load {
        match self.node(class) {
            Some(node) => Load {
                weight: node.weight,
                members: node.members,
                aparts: node.apart_count,
                literal: node.literal,
                kinds: node.kinds,
            },
            None => Load {
                weight: 1,
                members: 1,
                aparts: 0,
                literal: NONE,
                kinds: 0,
            },
        }
    }

    // A node that isn't there is kept from now on.
    fn keep(&mut self, number: usize, node: Node) -> Result<(), AllocError> {
        self.places.grow(number.saturating_add(1))?;
        let at = self.nodes.len();
        self.places.put(number, at)?;
        self.nodes.push(node)?;
        self.trail.push(Change::There(number))?;
        Ok(())
    }

    // The node that was kept last isn't there any more, nor what came with it.
    fn leave(&mut self, number: usize) {
        if self.last_signed() == number {
            self.drop_sign();
        }
        self.drop_uses(number);
        let _ = self.nodes.pop();
        if is_term(number) && self.sums.last().copied() == Some(number / 2) {
            let _ = self.sums.pop();
        }
        self.places.clear(number);
    }

    /// The node of `true`.
    pub fn yes(&self) -> usize {
        self.yes
    }

    /// The node of `false`.
    pub fn no(&self) -> usize {
        self.no
    }

    /// How many merges of whole numbers there were.
    pub fn number_merges(&self) -> usize {
        self.number_merges
    }

    /// How many merges there were of classes with an argument of a node, an owner, or a reference that is allocated next.
    pub fn shifts(&self) -> usize {
        self.shifts
    }

    /// How many changes stand.
    pub fn mark(&self) -> usize {
        self.trail.len()
    }

    /// Whether a node is there.
    pub fn is_there(&self, number: usize) -> bool {
        self.place(number) != NONE
    }

    /// The name of a node's class.
    pub fn class(&self, number: usize) -> usize {
        match self.node(number) {
            Some(node) => node.class,
            None => number,
        }
    }

    /// The literal of a node's class, or NONE.
    pub fn literal(&self, number: usize) -> usize {
        match self.node(self.class(number)) {
            Some(node) => node.literal,
            None => NONE,
        }
    }

    /// How many members a node's class has.
    pub fn members(&self, number: usize) -> usize {
        match self.node(self.class(number)) {
            Some(node) => node.members,
            None => 1,
        }
    }

    /// Whether a term of a kind may be in a node's class. Changes of stores count as one kind.
    pub fn has_kind(&self, number: usize, kind: usize) -> bool {
        match self.node(self.class(number)) {
            Some(node) => node.kinds & mark_of(kind) != 0,
            None => true,
        }
    }

    /// The kind of a node that is there.
    pub fn kind(&self, number: usize) -> usize {
        match self.node(number) {
            Some(node) => node.head.kind,
            None => BOUND,
        }
    }

    // The head of a node, which needn't be there.
    fn head(&self, bank: &Bank, number: usize) -> Head {
        match self.node(number) {
            Some(node) => node.head,
            None => node_head(bank, number),
        }
    }

    /// A member of the class of a node that is there. It is of a kind of terms, and from the node on so many others of that kind
    /// come before it. NONE where there is none.
    pub fn member(&self, number: usize, kind: usize, before: usize) -> usize {
        let mut at = number;
        let mut left = before;
        for _ in 0..self.nodes.len() {
            let Some(node) = self.node(at) else {
                break;
            };
            if node.head.kind == kind {
                if left == 0 {
                    return at;
                }
                left = left.saturating_sub(1);
            }
            at = node.next;
            if at == number {
                break;
            }
        }
        NONE
    }

    /// Whether a node's class has no literal, and has not as many members, beyond a base, as when this was asked last.
    pub fn sweep(&mut self, number: usize, base: usize) -> bool {
        let at = self.place(self.class(number));
        let Some(node) = self.nodes.get_mut(at) else {
            return false;
        };
        if node.literal != NONE {
            return false;
        }
        let stamp = node.members.wrapping_add(base);
        let has_moved = node.swept != stamp;
        node.swept = stamp;
        has_moved
    }

    /// The sum, difference or product at a place among those that are there, or NONE.
    pub fn sum(&self, place: usize) -> usize {
        match self.sums.get(place) {
            Some(term) => *term,
            None => NONE,
        }
    }

    /// The next member of a node's class.
    pub fn next(&self, number: usize) -> usize {
        match self.node(number) {
            Some(node) => node.next,
            None => number,
        }
    }

    /// How many nodes are there.
    pub fn len(&self) -> usize {
        self.nodes.len()
    }

    /// Whether two nodes are known to be equal.
    pub fn are_equal(&self, x: usize, y: usize) -> bool {
        self.class(x) == self.class(y)
    }

    /// The last use of a node itself.
    pub fn last_use(&self, number: usize) -> usize {
        match self.node(number) {
            Some(node) => node.uses,
            None => NONE,
        }
    }

    // The last atom in which a node itself stands.
    fn last_atom(&self, number: usize) -> usize {
        match self.node(number) {
            Some(node) => node.atoms,
            None => NONE,
        }
    }

    // The last inequality in which a node itself stands.
    fn last_apart(&self, number: usize) -> usize {
        match self.node(number) {
            Some(node) => node.aparts,
            None => NONE,
        }
    }

    // To which node its link leads, or NONE.
    fn linked(&self, number: usize) -> usize {
        match self.node(number) {
            Some(node) => node.to,
            None => NONE,
        }
    }

    /// The node of a use, and the use before it.
    pub fn use_at(&self, place: usize) -> (usize, usize) {
        match self.uses.get(place) {
            Some(entry) => (entry.number, entry.before),
            None => (NONE, NONE),
        }
    }

    /// The next thing that follows and wasn't told yet.
    pub fn next_event(&mut self) -> Option<Event> {
        self.events.pop()
    }

    /// Whether there is nothing that has to be told or merged.
    pub fn is_settled(&self) -> bool {
        self.pending.is_empty() && self.events.is_empty()
    }

    /// Nothing is to be told or merged any more.
    pub fn drop_pending(&mut self) {
        self.events.truncate(0);
        self.pending.truncate(0);
        self.waiting.truncate(0);
    }

    // One more entry of a node, which counts for its class: so many inequalities, and this mark.
    fn load(&mut self, number: usize, aparts: usize, mark: usize) {
        let at = self.place(self.class(number));
        if let Some(node) = self.nodes.get_mut(at) {
            node.kinds |= mark;
            node.weight = node.weight.saturating_add(1);
            node.apart_count = node.apart_count.saturating_add(aparts);
        }
    }

    fn unload(&mut self, number: usize, aparts: usize) {
        let at = self.place(self.class(number));
        if let Some(node) = self.nodes.get_mut(at) {
            node.weight = node.weight.saturating_sub(1);
            node.apart_count = node.apart_count.saturating_sub(aparts);
        }
    }

    /// A node is there from now on, with its arguments.
    pub fn add(&mut self, bank: &Bank, number: usize) -> Result<(), AllocError> {
        if self.is_there(number) {
            return Ok(());
        }
        if self.missing_argument(bank, number) == NONE {
            return self.enter(bank, number);
        }
        let from = self.waiting.len();
        self.waiting.push(number)?;
        for _ in 0..u64::MAX {
            let place = self.waiting.len();
            if place <= from {
                break;
            }
            let Some(last) = self.waiting.get(place.saturating_sub(1)).copied() else {
                break;
            };
            if self.is_there(last) {
                let _ = self.waiting.pop();
                continue;
            }
            let missing = self.missing_argument(bank, last);
            if missing == NONE {
                let _ = self.waiting.pop();
                self.enter(bank, last)?;
            } else {
                self.waiting.push(missing)?;
            }
        }
        Ok(())
    }

    fn missing_argument(&self, bank: &Bank, number: usize) -> usize {
        for argument in arguments_of(bank, number) {
            let node = of_term(argument.0);
            if !self.is_there(node) && node < CONGRUENT {
                return node;
            }
        }
        NONE
    }

    fn enter(&mut self, bank: &Bank, number: usize) -> Result<(), AllocError> {
        let head = node_head(bank, number);
        let kind = head.kind;
        let mut node = empty_node(number, head);
        if is_term(number) && is_value(bank, number / 2) {
            node.literal = number;
        }
        if is_term(number) {
            node.kinds = mark_of(kind);
        }
        self.keep(number, node)?;
        if kind >= ADD && kind <= MULTIPLY {
            self.sums.push(number / 2)?;
        }
        let arguments = arguments_of(bank, number);
        for argument in arguments {
            self.add_use(of_term(argument.0), number)?;
        }
        if !arguments.is_empty() {
            let _ = self.sign(bank, number)?;
        }
        Ok(())
    }

    fn add_use(&mut self, number: usize, user: usize) -> Result<(), AllocError> {
        let at = self.uses.len();
        let mut before = NONE;
        let place = self.place(number);
        if let Some(node) = self.nodes.get_mut(place) {
            before = node.uses;
            node.uses = at;
        }
        self.uses.push(Entry {
            number: user,
            other: number,
            is_left: true,
            before,
        })?;
        self.load(number, 0, USED);
        Ok(())
    }

    // One number for the head of a node and the classes of its arguments.
    fn signature(&self, bank: &Bank, number: usize) -> usize {
        let found = self.head(bank, number);
        let mut mixed = found
            .kind
            .wrapping_mul(0x9E3779B1)
            .wrapping_add(found.number.wrapping_mul(0x85EBCA77));
        for argument in arguments_of(bank, number) {
            let class = self.class(of_term(argument.0));
            mixed = mixed
                .wrapping_mul(31)
                .wrapping_add(class.wrapping_mul(0xC2B2AE3D));
        }
        mixed
    }

    // The list of a signature. There are at least as many lists as signatures, a power of 2.
    fn list_of(&self, signature: usize) -> usize {
        (signature / 4096) & self.lists.len().saturating_sub(1)
    }

    /// Whether two nodes have one head and equal arguments.
    pub fn are_congruent(&self, bank: &Bank, x: usize, y: usize) -> bool {
        let (left, right) = (arguments_of(bank, x), arguments_of(bank, y));
        if left.len() != right.len() || !same_head(self.head(bank, x), self.head(bank, y)) {
            return false;
        }
        for place in 0..left.len() {
            let (Some(a), Some(b)) = (left.get(place), right.get(place)) else {
                return false;
            };
            if self.class(of_term(a.0)) != self.class(of_term(b.0)) {
                return false;
            }
        }
        true
    }

    fn find_congruent(&self, bank: &Bank, signature: usize, number: usize) -> usize {
        let mut at = match self.lists.get(self.list_of(signature)) {
            Some(last) => *last,
            None => NONE,
        };
        for _ in 0..self.signs.len() {
            let Some(entry) = self.signs.get(at) else {
                return NONE;
            };
            if entry.other == signature
                && entry.number != number
                && self.are_congruent(bank, entry.number, number)
            {
                return entry.number;
            }
            at = entry.before;
        }
        NONE
    }

    /// A node that is there and congruent to one that needn't be, or NONE.
    pub fn congruent_to(&self, bank: &Bank, number: usize) -> usize {
        self.find_congruent(bank, self.signature(bank, number), number)
    }

    // A node that is congruent to no other gets its signature. Whether it did.
    fn sign(&mut self, bank: &Bank, number: usize) -> Result<bool, AllocError> {
        let signature = self.signature(bank, number);
        let found = self.find_congruent(bank, signature, number);
        if found != NONE {
            self.expect(number, found)?;
            return Ok(false);
        }
        let at = self.signs.len();
        self.signs.push(new_entry(number, signature, true))?;
        if at < self.lists.len() {
            self.list_sign(at);
        } else {
            self.grow_lists()?;
        }
        Ok(true)
    }

    // The node of the last signature, or NONE.
    fn last_signed(&self) -> usize {
        match self.signs.last() {
            Some(entry) => entry.number,
            None => NONE,
        }
    }

    // Twice as many lists.
    fn grow_lists(&mut self) -> Result<(), AllocError> {
        let count = self.lists.len().saturating_mul(2).max(LISTS);
        self.lists.truncate(0);
        for _ in 0..count {
            self.lists.push(NONE)?;
        }
        for at in 0..self.signs.len() {
            self.list_sign(at);
        }
        Ok(())
    }

    // The signature at a place is the last one of its list.
    fn list_sign(&mut self, at: usize) {
        let Some(entry) = self.signs.get(at).copied() else {
            return;
        };
        let list = self.list_of(entry.other);
        let Some(last) = self.lists.get_mut(list) else {
            return;
        };
        let before = mem::replace(last, at);
        if let Some(place) = self.signs.get_mut(at) {
            place.before = before;
        }
    }

    fn expect(&mut self, left: usize, right: usize) -> Result<(), AllocError> {
        if self.class(left) == self.class(right) {
            return Ok(());
        }
        self.pending.push(Pending {
            left,
            right,
            fact: CONGRUENT,
        })?;
        Ok(())
    }

    /// The atom of this pair, an equality, is watched. Tells its value, where it has one.
    pub fn watch(
        &mut self,
        bank: &Bank,
        pair: usize,
        left: usize,
        right: usize,
    ) -> Result<(), AllocError> {
        self.add(bank, of_term(left))?;
        self.add(bank, of_term(right))?;
        self.add_atom_at(of_term(left), new_entry(pair, of_term(right), true))?;
        self.add_atom_at(of_term(right), new_entry(pair, of_term(left), false))?;
        self.tell_relation(pair, of_term(left), of_term(right))
    }

    /// The atom of this pair, not an equality, is watched. Tells its value, where it has one.
    pub fn watch_mark(&mut self, bank: &Bank, pair: usize) -> Result<(), AllocError> {
        let node = of_pair(pair);
        self.add(bank, node)?;
        self.tell_mark(node)
    }

    // Tells the value of an atom that is no equality.
    fn tell_mark(&mut self, node: usize) -> Result<(), AllocError> {
        if is_term(node) {
            return Ok(());
        }
        let literal = self.literal(node);
        if literal == NONE {
            return Ok(());
        }
        self.events.push(Event {
            pair: node / 2,
            value: literal == self.yes,
            why: Why::Marked(literal),
        })?;
        Ok(())
    }

    fn tell_relation(&mut self, pair: usize, left: usize, right: usize) -> Result<(), AllocError> {
        let Some(why) = self.relation(left, right) else {
            return Ok(());
        };
        let value = matches!(&why, Why::Equal);
        self.events.push(Event { pair, value, why })?;
        Ok(())
    }

    fn add_atom_at(&mut self, number: usize, mut entry: Entry) -> Result<(), AllocError> {
        let at = self.atoms.len();
        let place = self.place(number);
        if let Some(node) = self.nodes.get_mut(place) {
            entry.before = node.atoms;
            node.atoms = at;
        }
        self.atoms.push(entry)?;
        self.trail.push(Change::Atom(number))?;
        self.load(number, 0, 0);
        Ok(())
    }

    fn add_apart_at(&mut self, number: usize, mut entry: Entry) -> Result<(), AllocError> {
        let at = self.aparts.len();
        let place = self.place(number);
        if let Some(node) = self.nodes.get_mut(place) {
            entry.before = node.aparts;
            node.aparts = at;
        }
        self.aparts.push(entry)?;
        self.trail.push(Change::Apart(number))?;
        self.load(number, 1, 0);
        Ok(())
    }

    /// How two nodes stand to each other, where that is known.
    pub fn relation(&self, left: usize, right: usize) -> Option<Why> {
        let (a, b) = (self.class(left), self.class(right));
        if a == b {
            return Some(Why::Equal);
        }
        let (first, second) = (self.load_of(a), self.load_of(b));
        if first.literal != NONE && second.literal != NONE {
            return Some(Why::Literals(first.literal, second.literal));
        }
        if first.aparts == 0 || second.aparts == 0 {
            return None;
        }
        self.find_apart(a, b, first.weight <= second.weight)
    }

    // The inequality of two classes, looked for at the lighter one.
    fn find_apart(&self, a: usize, b: usize, is_at_left: bool) -> Option<Why> {
        let (from, to) = if is_at_left { (a, b) } else { (b, a) };
        let mut at = from;
        for _ in 0..self.nodes.len() {
            if let Some(entry) = self.apart_to(at, to) {
                return Some(Why::Apart(entry.number, entry.is_left != is_at_left));
            }
            at = self.next(at);
            if at == from {
                break;
            }
        }
        None
    }

    // An inequality at a node whose other side is in a class.
    fn apart_to(&self, number: usize, class: usize) -> Option<Entry> {
        let mut at = self.last_apart(number);
        for _ in 0..self.aparts.len() {
            let entry = self.aparts.get(at)?;
            if self.class(entry.other) == class {
                return Some(*entry);
            }
            at = entry.before;
        }
        None
    }

    // Adds the members of a class to those that are looked at.
    fn gather(&mut self, class: usize) -> Result<(), AllocError> {
        let mut at = class;
        for _ in 0..self.nodes.len() {
            self.moved.push(at)?;
            at = self.next(at);
            if at == class {
                break;
            }
        }
        Ok(())
    }

    /// Two nodes are equal, by the fact with this number.
    pub fn merge(
        &mut self,
        bank: &Bank,
        x: usize,
        y: usize,
        fact: usize,
    ) -> Result<Option<Conflict>, AllocError> {
        self.pending.push(Pending {
            left: x,
            right: y,
            fact,
        })?;
        self.settle(bank)
    }

    /// Makes the merges that wait.
    pub fn settle(&mut self, bank: &Bank) -> Result<Option<Conflict>, AllocError> {
        for _ in 0..u64::MAX {
            let Some(pending) = self.pending.pop() else {
                break;
            };
            if let Some(conflict) = self.merge_one(bank, pending)? {
                self.pending.truncate(0);
                return Ok(Some(conflict));
            }
        }
        Ok(None)
    }

    // Whether a class weighs at most what another one does.
    fn is_lighter(&self, a: usize, b: usize) -> bool {
        self.load_of(a).weight <= self.load_of(b).weight
    }

    fn merge_one(&mut self, bank: &Bank, pending: Pending) -> Result<Option<Conflict>, AllocError> {
        let (a, b) = (self.class(pending.left), self.class(pending.right));
        if a == b {
            self.keep_value(pending)?;
            return Ok(None);
        }
        let (first, second) = (self.load_of(a), self.load_of(b));
        let (merge, below) = if first.weight <= second.weight {
            (merge_of(pending, (a, b), second), first)
        } else {
            (merge_of(turned(pending), (b, a), first), second)
        };
        self.count_merge(bank, pending.left, first.kinds | second.kinds);
        let moving = below.literal;
        self.moved.truncate(0);
        self.gather(merge.lower)?;
        let count = self.moved.len();
        if moving != NONE && merge.literal == NONE {
            self.gather(merge.upper)?;
        }
        self.join(merge, below)?;
        if moving != NONE && merge.literal != NONE {
            return Ok(Some(Conflict::Literals(moving, merge.literal)));
        }
        self.sign_moved(bank, count)?;
        self.look_at_moved()
    }

    // One more merge, of classes with these marks, for this node.
    fn count_merge(&mut self, bank: &Bank, number: usize, kinds: usize) {
        if is_term(number) && is_whole(bank, number / 2) {
            self.number_merges = self.number_merges.saturating_add(1);
        }
        if is_read(kinds) {
            self.shifts = self.shifts.saturating_add(1);
        }
    }

    // A fact that a node is the literal of its class, where that was known without it: paths to the literal are shorter by it.
    fn keep_value(&mut self, pending: Pending) -> Result<(), AllocError> {
        let literal = self.literal(pending.left);
        let number = if pending.right == literal {
            pending.left
        } else {
            pending.right
        };
        let is_of_literal = pending.left == literal || pending.right == literal;
        let at = self.place(number);
        let Some(node) = self.nodes.get_mut(at) else {
            return Ok(());
        };
        if pending.fact == CONGRUENT || !is_of_literal || node.value != NONE {
            return Ok(());
        }
        node.value = literal;
        node.value_fact = pending.fact;
        self.trail.push(Change::Value(number))?;
        Ok(())
    }

    // Makes a merge, of whose lower class this is kept.
    fn join(&mut self, merge: Merge, below: Load) -> Result<(), AllocError> {
        self.trail.push(Change::Merge(merge))?;
        self.turn(merge.linked);
        self.set_link(merge.linked, merge.to, merge.fact);
        self.name_members(merge.lower, merge.upper);
        let at = self.place(merge.upper);
        if let Some(node) = self.nodes.get_mut(at) {
            node.weight = node.weight.saturating_add(below.weight);
            node.members = node.members.saturating_add(below.members);
            node.apart_count = node.apart_count.saturating_add(below.aparts);
            node.kinds |= below.kinds;
            if node.literal == NONE {
                node.literal = below.literal;
            }
        }
        self.swap_next(merge.lower, merge.upper);
        Ok(())
    }

    fn set_link(&mut self, number: usize, to: usize, fact: usize) {
        let at = self.place(number);
        if let Some(node) = self.nodes.get_mut(at) {
            node.to = to;
            node.fact = fact;
        }
    }

    // Each node of the ring of a class is put into the class of this name.
    fn name_members(&mut self, ring: usize, class: usize) {
        let mut at = ring;
        for _ in 0..self.nodes.len() {
            let place = self.place(at);
            let Some(node) = self.nodes.get_mut(place) else {
                return;
            };
            node.class = class;
            at = node.next;
            if at == ring {
                return;
            }
        }
    }

    // Joins two rings, or takes them apart.
    fn swap_next(&mut self, a: usize, b: usize) {
        let (first, second) = (self.next(a), self.next(b));
        self.set_next(a, second);
        self.set_next(b, first);
    }

    fn set_next(&mut self, number: usize, next: usize) {
        let at = self.place(number);
        if let Some(node) = self.nodes.get_mut(at) {
            node.next = next;
        }
    }

    // Turns the links between a node and the root of its tree of links round, so that the node is the root.
    fn turn(&mut self, number: usize) {
        let mut at = number;
        let (mut to, mut fact) = (NONE, NONE);
        for _ in 0..self.nodes.len() {
            let place = self.place(at);
            let Some(node) = self.nodes.get_mut(place) else {
                return;
            };
            let next = mem::replace(&mut node.to, to);
            let old = mem::replace(&mut node.fact, fact);
            if next == NONE {
                return;
            }
            to = at;
            fact = old;
            at = next;
        }
    }

    // Finds the uses of the first moved nodes that are congruent now.
    fn sign_moved(&mut self, bank: &Bank, count: usize) -> Result<(), AllocError> {
        for place in 0..count {
            let Some(number) = self.moved.get(place).copied() else {
                break;
            };
            self.sign_uses(bank, number)?;
        }
        Ok(())
    }

    fn sign_uses(&mut self, bank: &Bank, number: usize) -> Result<(), AllocError> {
        let mut at = self.last_use(number);
        for _ in 0..self.uses.len() {
            let Some(entry) = self.uses.get(at).copied() else {
                break;
            };
            if self.sign(bank, entry.number)? {
                self.trail.push(Change::Sign)?;
            }
            at = entry.before;
        }
        Ok(())
    }

    fn look_at_moved(&mut self) -> Result<Option<Conflict>, AllocError> {
        for place in 0..self.moved.len() {
            let Some(number) = self.moved.get(place).copied() else {
                break;
            };
            if let Some(conflict) = self.look_at_aparts(number) {
                return Ok(Some(conflict));
            }
            self.look_at_atoms(number)?;
            self.tell_mark(number)?;
        }
        Ok(None)
    }

    // Tells the atoms at a node that have a value.
    fn look_at_atoms(&mut self, number: usize) -> Result<(), AllocError> {
        let mut at = self.last_atom(number);
        for _ in 0..self.atoms.len() {
            let Some(entry) = self.atoms.get(at).copied() else {
                break;
            };
            at = entry.before;
            let (left, right) = in_order(number, entry);
            self.tell_relation(entry.number, left, right)?;
        }
        Ok(())
    }

    // Finds an inequality at a node that can't hold.
    fn look_at_aparts(&self, number: usize) -> Option<Conflict> {
        let mut at = self.last_apart(number);
        for _ in 0..self.aparts.len() {
            let entry = self.aparts.get(at)?;
            at = entry.before;
            if self.class(number) == self.class(entry.other) {
                return Some(Conflict::Apart(entry.number));
            }
        }
        None
    }

    /// Two nodes differ, by the fact with this number.
    pub fn separate(
        &mut self,
        left: usize,
        right: usize,
        fact: usize,
    ) -> Result<Option<Conflict>, AllocError> {
        match self.relation(left, right) {
            Some(Why::Equal) => return Ok(Some(Conflict::Apart(fact))),
            Some(_) => {}
            None => {
                self.add_apart_at(left, new_entry(fact, right, true))?;
                self.add_apart_at(right, new_entry(fact, left, false))?;
            }
        }
        if self.is_lighter(self.class(left), self.class(right)) {
            self.tell_class(left)?;
        } else {
            self.tell_class(right)?;
        }
        Ok(None)
    }

    // Tells the atoms of a class.
    fn tell_class(&mut self, number: usize) -> Result<(), AllocError> {
        let mut at = number;
        for _ in 0..self.nodes.len() {
            self.look_at_atoms(at)?;
            at = self.next(at);
            if at == number {
                break;
            }
        }
        Ok(())
    }

    /// Takes back all but the first changes.
    pub fn undo(&mut self, to: usize) {
        for _ in to..self.trail.len() {
            match self.trail.pop() {
                Some(Change::Merge(merge)) => self.take_back(merge),
                Some(Change::Value(number)) => self.drop_value(number),
                Some(Change::There(number)) => self.leave(number),
                Some(Change::Atom(number)) => self.drop_atom(number),
                Some(Change::Apart(number)) => self.drop_apart(number),
                Some(Change::Sign) => self.drop_sign(),
                None => break,
            }
        }
    }

    fn drop_value(&mut self, number: usize) {
        let at = self.place(number);
        if let Some(node) = self.nodes.get_mut(at) {
            node.value = NONE;
            node.value_fact = NONE;
        }
    }

    fn drop_sign(&mut self) {
        let Some(entry) = self.signs.pop() else {
            return;
        };
        let list = self.list_of(entry.other);
        if let Some(last) = self.lists.get_mut(list) {
            *last = entry.before;
        }
    }

    // Takes back the last uses that are uses by this node.
    fn drop_uses(&mut self, user: usize) {
        for _ in 0..self.uses.len() {
            let Some(entry) = self.uses.last().copied() else {
                return;
            };
            if entry.number != user {
                return;
            }
            let _ = self.uses.pop();
            self.unload(entry.other, 0);
            let at = self.place(entry.other);
            if let Some(node) = self.nodes.get_mut(at) {
                node.uses = entry.before;
            }
        }
    }

    fn drop_atom(&mut self, number: usize) {
        self.unload(number, 0);
        let Some(entry) = self.atoms.pop() else {
            return;
        };
        let at = self.place(number);
        if let Some(node) = self.nodes.get_mut(at) {
            node.atoms = entry.before;
        }
    }

    fn drop_apart(&mut self, number: usize) {
        self.unload(number, 1);
        let Some(entry) = self.aparts.pop() else {
            return;
        };
        let at = self.place(number);
        if let Some(node) = self.nodes.get_mut(at) {
            node.aparts = entry.before;
        }
    }

    fn take_back(&mut self, merge: Merge) {
        self.swap_next(merge.lower, merge.upper);
        self.name_members(merge.lower, merge.lower);
        let below = self.load_of(merge.lower);
        let at = self.place(merge.upper);
        if let Some(node) = self.nodes.get_mut(at) {
            node.weight = node.weight.saturating_sub(below.weight);
            node.members = node.members.saturating_sub(below.members);
            node.apart_count = node.apart_count.saturating_sub(below.aparts);
            node.literal = merge.literal;
            node.kinds = merge.kinds;
        }
        self.cut(merge.linked, merge.to);
        self.cut(merge.to, merge.linked);
    }

    // Links are turned round, so the link of a merge stands at either of its two nodes.
    fn cut(&mut self, number: usize, to: usize) {
        if self.linked(number) == to {
            self.set_link(number, NONE, NONE);
        }
    }

    // The fact of a node's link, or NONE.
    fn link_fact(&self, number: usize) -> usize {
        match self.node(number) {
            Some(node) => node.fact,
            None => NONE,
        }
    }

    // The fact that a node is a literal, where it is kept, or NONE.
    fn value_fact(&self, number: usize) -> usize {
        match self.node(number) {
            Some(node) => node.value_fact,
            None => NONE,
        }
    }

    // How many links lead from a node to the root of its tree of links.
    fn depth(&self, number: usize) -> usize {
        let mut at = number;
        for depth in 0..self.nodes.len() {
            let to = self.linked(at);
            if to == NONE {
                return depth;
            }
            at = to;
        }
        0
    }

    // The node that so many links lead to.
    fn skip(&self, number: usize, links: usize) -> usize {
        let mut at = number;
        for _ in 0..links {
            at = self.linked(at);
        }
        at
    }

    // How many of the first links from a node lead to one that a fact older than another says is this literal.
    fn links_to_value(&self, number: usize, literal: usize, before: usize) -> Option<usize> {
        let mut at = number;
        for links in 0..MOST_LINKS {
            let node = self.node(at)?;
            if at == literal || node.to == literal {
                return None;
            }
            if node.value == literal && node.value_fact < before {
                return Some(links);
            }
            at = node.to;
        }
        None
    }

    /// Adds the steps on the path from one node to another of its class. The other may be a literal. Where a fact older than
    /// another one says of a node near the first that it is this literal, the path ends with that fact. Whether it does.
    pub fn path(
        &self,
        x: usize,
        y: usize,
        before: usize,
        steps: &mut Vec<Step>,
    ) -> Result<bool, AllocError> {
        let Some(links) = self.links_to_value(x, y, before) else {
            self.linked_path(x, y, steps)?;
            return Ok(false);
        };
        self.climb(x, links, steps)?;
        let last = self.skip(x, links);
        steps.push(Step {
            from: last,
            to: y,
            fact: self.value_fact(last),
        })?;
        Ok(true)
    }

    // The same by links alone.
    fn linked_path(&self, x: usize, y: usize, steps: &mut Vec<Step>) -> Result<(), AllocError> {
        let (up, down) = (self.depth(x), self.depth(y));
        let mut above = up.saturating_sub(down);
        let mut below = down.saturating_sub(up);
        let mut left = self.skip(x, above);
        let mut right = self.skip(y, below);
        for _ in 0..self.nodes.len() {
            if left == right {
                break;
            }
            left = self.linked(left);
            right = self.linked(right);
            above = above.saturating_add(1);
            below = below.saturating_add(1);
        }
        self.climb(x, above, steps)?;
        for place in 0..below {
            let node = self.skip(y, below.saturating_sub(place.saturating_add(1)));
            steps.push(Step {
                from: self.linked(node),
                to: node,
                fact: self.link_fact(node),
            })?;
        }
        Ok(())
    }

    fn climb(&self, number: usize, links: usize, steps: &mut Vec<Step>) -> Result<(), AllocError> {
        let mut at = number;
        for _ in 0..links {
            let to = self.linked(at);
            steps.push(Step {
                from: at,
                to,
                fact: self.link_fact(at),
            })?;
            at = to;
        }
        Ok(())
    }

    /// Whether the first formula of a pair holds, where that is known of an atom that needn't be there.
    pub fn mark_of(&self, bank: &Bank, pair: usize) -> Option<bool> {
        let _ = first_of(pair);
        let node = of_pair(pair);
        let found = if self.is_there(node) {
            node
        } else {
            self.congruent_to(bank, node)
        };
        if found == NONE {
            return None;
        }
        let literal = self.literal(found);
        if literal == NONE {
            None
        } else {
            Some(literal == self.yes)
        }
    }
}

// The merge of the first class into the second, of which this is kept: the left node is of the first.
fn merge_of(pending: Pending, classes: (usize, usize), above: Load) -> Merge {
    let (lower, upper) = classes;
    Merge {
        lower,
        upper,
        literal: above.literal,
        kinds: above.kinds,
        linked: pending.left,
        to: pending.right,
        fact: pending.fact,
    }
}

// The same merge with its sides the other way round.
fn turned(pending: Pending) -> Pending {
    Pending {
        left: pending.right,
        right: pending.left,
        fact: pending.fact,
    }
}

fn new_entry(number: usize, other: usize, is_left: bool) -> Entry {
    Entry {
        number,
        other,
        is_left,
        before: NONE,
    }
}

// The sides of an atom at a node.
fn in_order(number: usize, entry: Entry) -> (usize, usize) {
    if entry.is_left {
        (number, entry.other)
    } else {
        (entry.other, number)
    }
}
