// A set as a list of truth values.

ghost use Rattle.std.specs.Prelude.{◌≡◌, ◌<◌, IfOk, OnOk, length, false, if◌then◌else◌};
ghost use Rattle.ss_paths.specs.Sets.{none, put, both, among};
ghost use Rattle.ss_bit_set.specs.Marked.{marked, with_all};

use std::alloc::{AllocError, Global};

/// A set of small numbers: for each number below the length of the list, whether it is in the set. No other number is.
#[derive(Drop)]
pub struct BitSet {
    pub list: Vec<bool>,
}

impl BitSet {
    /// The empty set.
    #[tactic(auto, using(crate::proofs::Lists::listed_nil))]
    pub fn new(alloc: Global) -> BitSet
        ensures { marked result ≡ none }
    {
        BitSet {
            list: Vec::new(alloc),
        }
    }

    /// The set of these numbers.
    pub fn of(alloc: Global, numbers: &[usize]) -> Result<BitSet, AllocError>
        ensures { IfOk result (λ m. marked m ≡ among numbers.now) }
    {
        let mut found = BitSet::new(alloc);
        found.put_all(numbers, true)?;
        Ok(found)
    }

    /// Whether the number is in the set.
    #[tactic(auto, using(crate::proofs::Lists::listed_past), unfolding(crate::specs::Marked::listed))]
    pub fn has(&self, number: usize) -> bool
        ensures { result ≡ marked self.now number }
    {
        if number < self.list.len() {
            self.list[number]
        } else {
            false
        }
    }

    /// Puts the number into the set, or takes it out.
    #[tactic(auto, using(crate::proofs::Lists::listed_put))]
    pub fn put(&mut self, number: usize, is_in: bool) -> Result<(), AllocError>
        ensures { IfOk result (λ u. marked self.new ≡ put number is_in (marked self.old)) }
    {
        self.reach(number)?;
        self.list[number] = is_in;
        Ok(())
    }

    // Makes the list longer, until the number stands in it.
    #[tactic(auto, using(crate::proofs::Lists::listed_more))]
    fn reach(&mut self, number: usize) -> Result<(), AllocError>
        ensures same { IfOk result (λ u. marked self.new ≡ marked self.old) }
        ensures long { IfOk result (λ u. number < length self.new.list.items) }
    {
        while self.list.len() <= number {
            self.list.push(false)?;
        }
        Ok(())
    }

    /// Puts each of the numbers into the set, or takes it out.
    pub fn put_all(&mut self, numbers: &[usize], is_in: bool) -> Result<(), AllocError>
        ensures { OnOk result (marked self.new ≡ with_all numbers.now is_in (marked self.old)) }
    {
        for number in numbers {
            self.put(*number, is_in)?;
        }
        Ok(())
    }

    /// A set of the same numbers.
    pub fn copy(&self) -> Result<BitSet, AllocError>
        ensures { IfOk result (λ m. marked m ≡ marked self.now) }
    {
        Ok(BitSet {
            list: self.list.clone()?,
        })
    }

    /// Keeps the numbers that are in the other set too.
    pub fn meet(&mut self, other: &BitSet)
        ensures { marked self.new ≡ both (marked self.old) (marked other.now) }
    {
        for number in 0..self.list.len() {
            self.narrow(number, other.has(number));
        }
    }

    // Takes the number out, where it isn't to be kept.
    #[tactic(auto, using(crate::proofs::Lists::listed_put))]
    fn narrow(&mut self, number: usize, keep: bool)
        requires { number < length self.now.list.items }
        ensures set { marked self.new ≡ (if keep then marked self.old else put number false (marked self.old)) }
        ensures long { length self.new.list.items ≡ length self.old.list.items }
    {
        if keep {
            return;
        }
        self.list[number] = false;
    }
}
