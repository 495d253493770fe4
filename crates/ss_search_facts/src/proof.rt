// The proof that a search makes: blocks of cases, and which hypotheses the newest block stands on.

use crate::facts::{Facts, Range, Reason};
use ss_search_question::NONE;
use std::alloc::{AllocError, Global};
use std::collections::BinaryHeap;

/// How a block ends: with nothing yet, with a clash of two facts, with the cases of a fact that is an `or`, or with the two
/// cases of an atom.
#[derive(Clone, Copy)]
pub enum End {
    Nothing,
    Clash(usize, usize),
    Split(usize),
    Cut(usize),
}

/// A case, or the whole: the fact that is its own, how it ends, its first and last case and how many there are, and the next
/// case of the block that it stands in, and that block; where lines are written, the range of blocks inside it, the first fact
/// that is written in it, and how many facts are known at its end.
#[derive(Clone, Copy)]
pub struct Block {
    pub own: usize,
    pub end: End,
    pub first: usize,
    last: usize,
    pub cases: usize,
    pub next: usize,
    pub above: usize,
    pub enter: usize,
    pub leave: usize,
    pub facts: usize,
    pub known: usize,
}

/// The blocks that were made, and the hypotheses that the newest one stands on, the newest first.
#[derive(Drop)]
pub struct Proof {
    blocks: Vec<Block>,
    hypotheses: BinaryHeap<usize>,
    waiting: Vec<usize>,
    time: u64,
}

fn empty_block() -> Block {
    Block {
        own: NONE,
        end: End::Nothing,
        first: NONE,
        last: NONE,
        cases: 0,
        next: NONE,
        above: NONE,
        enter: NONE,
        leave: NONE,
        facts: NONE,
        known: 0,
    }
}

impl Proof {
    /// No block.
    pub fn new(alloc: Global) -> Self {
        Proof {
            blocks: Vec::new(alloc),
            hypotheses: BinaryHeap::new(alloc),
            waiting: Vec::new(alloc),
            time: 0,
        }
    }

    /// How many blocks there are.
    pub fn len(&self) -> usize {
        self.blocks.len()
    }

    /// The block with this number.
    pub fn block(&self, number: usize) -> Block {
        match self.blocks.get(number) {
            Some(block) => *block,
            None => empty_block(),
        }
    }

    /// A block becomes this one.
    pub fn put(&mut self, number: usize, block: Block) {
        if let Some(place) = self.blocks.get_mut(number) {
            *place = block;
        }
    }

    /// Forgets all blocks, and what they stand on.
    pub fn forget(&mut self) {
        self.blocks.truncate(0);
        for _ in 0..self.hypotheses.len() {
            let _ = self.hypotheses.pop();
        }
    }

    /// A proof of another conflict begins, which stands on nothing yet.
    pub fn begin(&mut self) {
        self.time = self.time.saturating_add(1);
    }

    /// One more block. Gives its number.
    pub fn open(&mut self, end: End) -> Result<usize, AllocError> {
        let number = self.blocks.len();
        let mut block = empty_block();
        block.end = end;
        self.blocks.push(block)?;
        Ok(number)
    }

    /// The block ends like this.
    pub fn end(&mut self, number: usize, end: End) {
        let mut block = self.block(number);
        block.end = end;
        self.put(number, block);
    }

    /// This fact is a block's own.
    pub fn own(&mut self, number: usize, own: usize) {
        let mut block = self.block(number);
        block.own = own;
        self.put(number, block);
    }

    /// A block is the next case of another one, and this fact is its own.
    pub fn attach(&mut self, above: usize, case: usize, own: usize) {
        let mut whole = self.block(above);
        let mut block = self.block(case);
        block.own = own;
        block.above = above;
        self.put(case, block);
        if whole.first == NONE {
            whole.first = case;
        } else {
            let mut last = self.block(whole.last);
            last.next = case;
            self.put(whole.last, last);
        }
        whole.last = case;
        whole.cases = whole.cases.saturating_add(1);
        self.put(above, whole);
    }

    /// The block after a block, in the order of the text, inside a root. NONE at the end.
    pub fn after(&self, number: usize, root: usize) -> usize {
        let mut at = number;
        let mut next = self.block(at).first;
        for _ in 0..self.blocks.len() {
            if next != NONE || at == root || at == NONE {
                break;
            }
            let inner = self.block(at);
            next = inner.next;
            at = inner.above;
        }
        next
    }

    /// The newest hypothesis that the newest block stands on.
    pub fn newest(&self) -> Option<usize> {
        self.hypotheses.peek().copied()
    }

    /// The block doesn't stand on this newest hypothesis any more.
    pub fn discharge(&mut self, fact: usize) {
        for _ in 0..self.hypotheses.len() {
            if self.newest() != Some(fact) {
                break;
            }
            let _ = self.hypotheses.pop();
        }
    }

    /// Hands over all hypotheses, so that the next block stands on nothing.
    pub fn hand_over(&mut self, handed: &mut Vec<usize>) -> Result<(), AllocError> {
        for _ in 0..self.hypotheses.len() {
            let Some(fact) = self.hypotheses.pop() else {
                break;
            };
            handed.push(fact)?;
        }
        Ok(())
    }

    /// Takes back those that were handed over, but for the first ones.
    pub fn take_back(&mut self, handed: &mut Vec<usize>, to: usize) -> Result<(), AllocError> {
        for _ in to..handed.len() {
            let Some(fact) = handed.pop() else {
                break;
            };
            self.hypotheses.push(fact)?;
        }
        Ok(())
    }

    /// The block needs a fact, so it stands on the hypotheses that the fact stands on.
    pub fn need(&mut self, facts: &mut Facts, fact: usize) -> Result<(), AllocError> {
        self.waiting.push(fact)?;
        for _ in 0..u64::MAX {
            let Some(next) = self.waiting.pop() else {
                break;
            };
            if let Some(reason) = self.first_need(facts, next) {
                self.need_reason(facts, next, reason)?;
            }
        }
        Ok(())
    }

    /// The block stands on the hypotheses in a part of the paths.
    pub fn need_all(&mut self, facts: &mut Facts, range: Range) -> Result<(), AllocError> {
        for place in range.from..range.to {
            let fact = facts.path_at(place);
            self.hypotheses.push(fact)?;
        }
        Ok(())
    }

    // The reason of a fact that wasn't found to be needed yet.
    fn first_need(&self, facts: &mut Facts, fact: usize) -> Option<Reason> {
        let found = facts.fact_mut(fact)?;
        if found.seen == self.time {
            return None;
        }
        found.seen = self.time;
        Some(found.reason)
    }

    fn need_reason(
        &mut self,
        facts: &Facts,
        fact: usize,
        reason: Reason,
    ) -> Result<(), AllocError> {
        match reason {
            Reason::Premise(_) | Reason::Denied | Reason::Own => Ok(()),
            Reason::Rule(_, _) | Reason::Choose(_, _) => Ok(()),
            Reason::Part(whole, _) => self.wait_for(whole),
            Reason::Inst(whole, _) => self.wait_for(whole),
            Reason::Good(_, whole, _) => self.wait_for(whole),
            Reason::Chain(range) => self.need_path(facts, range),
            Reason::Cong(range) => self.need_path(facts, range),
            Reason::Sum(_, range, _) => self.need_path(facts, range),
            Reason::Swap(whole, range) => {
                self.wait_for(whole)?;
                self.need_path(facts, range)
            }
            Reason::Unit(_, _) | Reason::Case | Reason::Cut(_, _) => self.stand_on(fact),
        }
    }

    fn wait_for(&mut self, fact: usize) -> Result<(), AllocError> {
        self.waiting.push(fact)?;
        Ok(())
    }

    fn stand_on(&mut self, fact: usize) -> Result<(), AllocError> {
        self.hypotheses.push(fact)?;
        Ok(())
    }

    fn need_path(&mut self, facts: &Facts, range: Range) -> Result<(), AllocError> {
        for place in range.from..range.to {
            self.waiting.push(facts.path_at(place))?;
        }
        Ok(())
    }
}
