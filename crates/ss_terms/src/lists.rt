// Lists of numbers in forms. A short one stands in the form itself.

ghost use Rattle.std.specs.Prelude.{◌≡◌, [], ◌∷◌, ◌++◌, length, IfOk, OnOk, OnErr};

use crate::forms::{FormulaId, TermId};
use smallvec::SmallVec;
use std::alloc::{AllocError, Global};
use std::marker::Model;
use std::ops::DerefSlice;

/// The terms that a form names. Up to two take no memory of their own.
#[derive(PartialEq, Eq, Drop, Hash)]
pub struct Arguments {
    list: SmallVec<TermId, 2>,
}

impl Model for Arguments {
    ghost use Rattle.smallvec.specs.SmallVec.{SmallVec};
    ghost use Rattle.ss_terms.specs.declared.forms.TermId.{TermId};

    ghost Value = { SmallVec TermId };

    ghost view = { λ a. a.list };

    ghost inverse = { λ v. record { list = v } };
}

impl Arguments {
    /// No number.
    pub fn new(alloc: Global) -> Self
        ensures items { result.items ≡ [] }
    {
        Arguments {
            list: SmallVec::new(alloc),
        }
    }

    /// These numbers.
    pub fn from_slice(alloc: Global, numbers: &[TermId]) -> Result<Self, AllocError>
        ensures items { IfOk result (λ v. v.items ≡ numbers.now) }
    {
        let list = SmallVec::from_slice(alloc, numbers)?;
        Ok(Arguments { list })
    }

    /// How many they are.
    pub fn len(&self) -> usize
        ensures { result ≡ length self.now.items }
    {
        self.list.len()
    }

    /// One more, after the others. An error is want of memory; the others stay.
    pub fn push(&mut self, number: TermId) -> Result<(), AllocError>
        ensures items { OnOk result (self.new.items ≡ self.old.items ++ number ∷ []) }
        ensures same { OnErr result (self.new.items ≡ self.old.items) }
    {
        self.list.push(number)?;
        Ok(())
    }
}

impl DerefSlice for Arguments {
    type Elem = TermId;

    ghost deref_gives = { λ v xs. xs ≡ v.items };

    fn deref(&self) -> &[TermId]
        ensures value { result.now ≡ self.now.items }
    {
        self.list.as_slice()
    }
}

/// The formulas that a form names. Up to three take no memory of their own.
#[derive(PartialEq, Eq, Drop, Hash)]
pub struct Parts {
    list: SmallVec<FormulaId, 3>,
}

impl Model for Parts {
    ghost use Rattle.smallvec.specs.SmallVec.{SmallVec};
    ghost use Rattle.ss_terms.specs.declared.forms.FormulaId.{FormulaId};

    ghost Value = { SmallVec FormulaId };

    ghost view = { λ a. a.list };

    ghost inverse = { λ v. record { list = v } };
}

impl Parts {
    /// No number.
    pub fn new(alloc: Global) -> Self
        ensures items { result.items ≡ [] }
    {
        Parts {
            list: SmallVec::new(alloc),
        }
    }

    /// No number, with room for so many.
    pub fn with_capacity(alloc: Global, capacity: usize) -> Result<Self, AllocError>
        ensures items { IfOk result (λ v. v.items ≡ []) }
    {
        let list = SmallVec::with_capacity(alloc, capacity)?;
        Ok(Parts { list })
    }

    /// These numbers.
    pub fn from_slice(alloc: Global, numbers: &[FormulaId]) -> Result<Self, AllocError>
        ensures items { IfOk result (λ v. v.items ≡ numbers.now) }
    {
        let list = SmallVec::from_slice(alloc, numbers)?;
        Ok(Parts { list })
    }

    /// How many they are.
    pub fn len(&self) -> usize
        ensures { result ≡ length self.now.items }
    {
        self.list.len()
    }

    /// One more, after the others. An error is want of memory; the others stay.
    pub fn push(&mut self, number: FormulaId) -> Result<(), AllocError>
        ensures items { OnOk result (self.new.items ≡ self.old.items ++ number ∷ []) }
        ensures same { OnErr result (self.new.items ≡ self.old.items) }
    {
        self.list.push(number)?;
        Ok(())
    }
}

impl DerefSlice for Parts {
    type Elem = FormulaId;

    ghost deref_gives = { λ v xs. xs ≡ v.items };

    fn deref(&self) -> &[FormulaId]
        ensures value { result.now ≡ self.now.items }
    {
        self.list.as_slice()
    }
}
