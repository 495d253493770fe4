// Facts: what is known, each with the reason that makes it known.

use ss_search_question::{
    EQUAL, LITERAL, NONE, first_of, is_first, kind_of, pair_argument, pair_head, pair_of,
};
use ss_terms::Bank;
use std::alloc::{AllocError, Global};

/// What a fact says: a formula of the bank, or that two terms are equal.
#[derive(Clone, Copy)]
pub enum Said {
    Formula(usize),
    Equal(usize, usize),
}

/// A rule that is true in every structure.
#[derive(Clone, Copy)]
pub enum RuleKind {
    Read,
    Fresh,
    Class,
    Split,
    Apart,
    Quorem,
    Bool,
}

/// A rule on good stores.
#[derive(Clone, Copy)]
pub enum GoodName {
    Full,
    Owned,
    Marks,
    Typed,
    Ready,
    Invariants,
}

/// Numbers in the paths, from a place to another.
#[derive(Clone, Copy)]
pub struct Range {
    pub from: usize,
    pub to: usize,
}

/// Why a fact is known. Other facts that it names are older.
#[derive(Clone, Copy)]
pub enum Reason {
    /// The premise with this number.
    Premise(usize),
    /// The denied goal.
    Denied,
    /// Of a fact that is an `and`, the part at this place.
    Part(usize, usize),
    /// Of a fact that is an `or`, the part at this place; every other part is refuted.
    Unit(usize, usize),
    /// A case of a split or a trial that is open, or was.
    Case,
    /// A part that is refuted at once.
    Own,
    /// The other case is closed by this block, which stands on the hypotheses in the paths.
    Cut(usize, Range),
    /// Equalities that lead from one term to the other.
    Chain(Range),
    /// One function at equal arguments.
    Cong(Range),
    /// A literal with equal arguments.
    Swap(usize, Range),
    /// The body of a `forall` at terms.
    Inst(usize, Range),
    /// There is nothing of the kind that this `exists` says, or these constants are such.
    Choose(usize, Range),
    /// A rule at terms.
    Rule(RuleKind, Range),
    /// A rule on the store of a `good`, at terms.
    Good(GoodName, usize, Range),
    /// The sum of facts with weights from a place on, divided by a number.
    Sum(i64, Range, usize),
}

/// A fact; what it comes from: 0 premises, 1 instances, 2 the goal and cases; when it was last found to be needed; and, while
/// lines are written, the block that it is written in, the next fact there, and its number among what is known.
#[derive(Clone, Copy)]
pub struct Fact {
    pub said: Said,
    pub reason: Reason,
    pub origin: usize,
    pub seen: u64,
    pub block: usize,
    pub next: usize,
    pub known: usize,
}

/// The facts of an obligation, by number. Taking back a case doesn't take back its facts, since proofs name them.
#[derive(Drop)]
pub struct Facts {
    facts: Vec<Fact>,
    paths: Vec<usize>,
    /// The weights of sums.
    pub weights: Vec<i64>,
}

impl Facts {
    /// Nothing is known.
    pub fn new(alloc: Global) -> Self {
        Facts {
            facts: Vec::new(alloc),
            paths: Vec::new(alloc),
            weights: Vec::new(alloc),
        }
    }

    /// How many facts there are.
    pub fn len(&self) -> usize {
        self.facts.len()
    }

    /// How many numbers the paths have.
    pub fn paths_len(&self) -> usize {
        self.paths.len()
    }

    /// Forgets all but the first facts and numbers of paths.
    pub fn forget(&mut self, facts: usize, paths: usize) {
        self.facts.truncate(facts);
        self.paths.truncate(paths);
    }

    /// The fact with this number.
    pub fn fact(&self, number: usize) -> Option<Fact> {
        self.facts.get(number).copied()
    }

    /// The same, to be marked.
    pub fn fact_mut(&mut self, number: usize) -> Option<&mut Fact> {
        self.facts.get_mut(number)
    }

    /// A number of a path, or NONE.
    pub fn path_at(&self, place: usize) -> usize {
        match self.paths.get(place) {
            Some(number) => *number,
            None => NONE,
        }
    }

    /// Puts numbers after the paths. Gives where they stand.
    pub fn keep(&mut self, numbers: &[usize]) -> Result<Range, AllocError> {
        let from = self.paths.len();
        for number in numbers {
            self.paths.push(*number)?;
        }
        Ok(Range {
            from,
            to: self.paths.len(),
        })
    }

    /// One more fact. Gives its number.
    pub fn add(&mut self, said: Said, reason: Reason, origin: usize) -> Result<usize, AllocError> {
        let number = self.facts.len();
        self.facts.push(Fact {
            said,
            reason,
            origin,
            seen: 0,
            block: NONE,
            next: NONE,
            known: NONE,
        })?;
        Ok(number)
    }

    /// The formula of a fact that is one of the bank, or NONE.
    pub fn formula(&self, number: usize) -> usize {
        match self.fact(number) {
            Some(fact) => match fact.said {
                Said::Formula(f) => f,
                Said::Equal(_, _) => NONE,
            },
            None => NONE,
        }
    }

    /// Where a fact comes from.
    pub fn origin(&self, number: usize) -> usize {
        match self.fact(number) {
            Some(fact) => fact.origin,
            None => 0,
        }
    }

    /// The sides of a fact that is an equality or an inequality.
    pub fn sides(&self, bank: &Bank, number: usize) -> (usize, usize) {
        match self.fact(number) {
            Some(fact) => match fact.said {
                Said::Equal(x, y) => (x, y),
                Said::Formula(f) => sides_of(bank, f),
            },
            None => (NONE, NONE),
        }
    }

    /// Whether a fact is the equality of these terms, in this order.
    pub fn says_equal(&self, bank: &Bank, number: usize, x: usize, y: usize) -> bool {
        match self.fact(number) {
            Some(fact) => match fact.said {
                Said::Equal(a, b) => a == x && b == y,
                Said::Formula(f) => {
                    let (a, b) = sides_of(bank, f);
                    is_first(f) && a == x && b == y
                }
            },
            None => false,
        }
    }
}

fn sides_of(bank: &Bank, f: usize) -> (usize, usize) {
    let pair = pair_of(f);
    if kind_of(bank, first_of(pair)) == LITERAL && pair_head(bank, pair).kind == EQUAL {
        (pair_argument(bank, pair, 0), pair_argument(bank, pair, 1))
    } else {
        (NONE, NONE)
    }
}
