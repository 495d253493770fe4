// What is to be made in the bank: instances, new constants, and terms and atoms that are asked for.

use ss_search_facts::{GoodName, RuleKind};
use ss_search_question::NONE;

/// What is wanted.
#[derive(Clone, Copy)]
pub enum Wanted {
    /// The instance of a rule.
    Rule(RuleKind),
    /// The instance of a rule on a store that is good by a fact.
    Good(GoodName, usize, usize),
    /// The body of a `forall` that is known by a fact; the long `and` at its end may be delayed.
    Inst(usize, usize),
    /// The same, with nothing delayed.
    Whole(usize, usize),
    /// The part of a delayed `and` at a place.
    Piece(usize, usize),
    /// New constants for an `exists` that is known by a fact.
    Choose(usize, usize),
    /// The owner of an object in a store.
    Owner,
    /// The level of an object in a store.
    Level,
    /// That a store has an object.
    Allocated,
    /// That an owner is a group.
    Group,
    /// That two whole numbers are equal, or one is below the other. The latter is tried at once.
    Same,
}

/// What is wanted, and its arguments: the number of a sentence first, then terms, then the number of a field or a class. NONE
/// stands where there is none.
#[derive(Clone, Copy)]
pub struct Request {
    pub wanted: Wanted,
    pub sentence: usize,
    pub first: usize,
    pub second: usize,
    pub third: usize,
    pub field: usize,
    pub class: usize,
}

/// What is wanted at these terms.
pub fn new_request(wanted: Wanted, first: usize, second: usize, third: usize) -> Request {
    Request {
        wanted,
        sentence: NONE,
        first,
        second,
        third,
        field: NONE,
        class: NONE,
    }
}

impl Request {
    /// The same sentence by its number.
    pub fn numbered(self, sentence: usize) -> Self {
        Request {
            wanted: self.wanted,
            sentence,
            first: self.first,
            second: self.second,
            third: self.third,
            field: self.field,
            class: self.class,
        }
    }

    /// The same with the number of a field last.
    pub fn of_field(self, field: usize) -> Self {
        Request {
            wanted: self.wanted,
            sentence: self.sentence,
            first: self.first,
            second: self.second,
            third: self.third,
            field,
            class: self.class,
        }
    }

    /// The same with a class last.
    pub fn of_class(self, class: usize) -> Self {
        Request {
            wanted: self.wanted,
            sentence: self.sentence,
            first: self.first,
            second: self.second,
            third: self.third,
            field: self.field,
            class,
        }
    }
}
