// What a model says of terms, found by their numbers in the bank.

ghost use Rattle.std.specs.Prelude.{◌≡◌, ◌+◌, ◌<◌, length, get_or, slice_get, IfOk, OnOk};
ghost use Rattle.ss_logic.specs.Equal.{same_term};
ghost use Rattle.ss_logic_countermodels.specs.Refuting.{place_among};
ghost use Rattle.ss_terms.specs.Forms.{term_at, terms_at, HasTerm, HasTerms};
ghost use Rattle.ss_report_values.specs.Literals as spec;
ghost use Rattle.ss_report_values.specs.Index.{no_number, ArePlaces, AreValues, IsIndex};

use crate::literals::{Reading, Value, value_of};
use indexmap::IndexMap;
use ss_terms::{Bank, TermId};
use std::alloc::{AllocError, Global};

/// The places of terms in a list, by their numbers in the bank.
#[derive(Drop)]
pub(crate) struct Places {
    pub(crate) places: IndexMap<usize, usize>,
}

/// The first literal of each class that has one.
#[derive(Drop)]
pub(crate) struct Values {
    pub(crate) values: IndexMap<usize, Value>,
}

/// Places and literals. What is found by them is what a walk over all terms finds.
#[derive(Drop)]
pub struct Index {
    pub(crate) places: Places,
    pub(crate) values: Values,
}

impl Places {
    // The first place of each term.
    fn new(alloc: Global, bank: &Bank, terms: &[TermId]) -> Result<Self, AllocError>
        requires { HasTerms bank.now terms.now }
        ensures { IfOk result (λ p. ArePlaces bank.now terms.now 0 p) }
    {
        let map = IndexMap::new(alloc);
        let mut places = Places { places: map };
        let mut i = terms.len();
        while i > 0 {
            i -= 1;
            places.put(bank, terms, i)?;
        }
        Ok(places)
    }

    // The term at this place stands there first, whatever is known of those after it.
    fn put(&mut self, bank: &Bank, terms: &[TermId], i: usize) -> Result<(), AllocError>
        requires terms { HasTerms bank.now terms.now }
        requires place { i < length terms.now }
        requires places { ArePlaces bank.now terms.now (i + 1) self.old }
        ensures { OnOk result (ArePlaces bank.now terms.now i self.new) }
    {
        bank.numbers_are_apart();
        self.places.insert(terms[i].0, i)?;
        Ok(())
    }

    // Where a term stands first, or how many terms there are.
    fn place_of(&self, bank: &Bank, terms: &[TermId], t: TermId) -> usize
        requires places { ArePlaces bank.now terms.now 0 self.now }
        requires term { HasTerm bank.now t }
        ensures { result ≡ place_among (same_term (term_at bank.now t)) (terms_at bank.now terms.now) }
    {
        let _ = bank;
        match self.places.get(&t.0) {
            Some(place) => *place,
            None => terms.len(),
        }
    }
}

impl Values {
    // The first literal of each class.
    fn new(alloc: Global, bank: &Bank, reading: &Reading<'_>) -> Result<Self, AllocError>
        requires { HasTerms bank.now reading.now.terms.now }
        ensures { IfOk result (λ v. AreValues bank.now reading.now 0 v) }
    {
        let map = IndexMap::new(alloc);
        let mut values = Values { values: map };
        let mut i = reading.terms.len();
        while i > 0 {
            i -= 1;
            values.put(bank, reading, i)?;
        }
        Ok(values)
    }

    // A literal at this place is the first of its class, whatever is known of those after it.
    fn put(&mut self, bank: &Bank, reading: &Reading<'_>, i: usize) -> Result<(), AllocError>
        requires terms { HasTerms bank.now reading.now.terms.now }
        requires place { i < length reading.now.terms.now }
        requires values { AreValues bank.now reading.now (i + 1) self.old }
        ensures { OnOk result (AreValues bank.now reading.now i self.new) }
    {
        if i >= reading.classes.len() {
            return Ok(());
        }
        match value_of(bank, reading.terms[i]) {
            Some(value) => self.put_value(bank, reading, i, value),
            None => Ok(()),
        }
    }

    // This literal stands at this place.
    fn put_value(
        &mut self,
        bank: &Bank,
        reading: &Reading<'_>,
        i: usize,
        value: Value,
    ) -> Result<(), AllocError>
        requires place { i < length reading.now.terms.now }
        requires class { i < length reading.now.classes.now }
        requires values { AreValues bank.now reading.now (i + 1) self.old }
        requires value { Some value ≡ spec.value_of (term_at bank.now (get_or reading.now.terms.now i no_number)) }
        ensures { OnOk result (AreValues bank.now reading.now i self.new) }
    {
        let _ = bank;
        self.values.insert(reading.classes[i], value)?;
        Ok(())
    }

    // The first literal of a class.
    fn value_in(&self, bank: &Bank, reading: &Reading<'_>, class: usize) -> Option<Value>
        requires { AreValues bank.now reading.now 0 self.now }
        ensures { result ≡ spec.value_in (terms_at bank.now reading.now.terms.now) reading.now.classes.now class }
    {
        let _ = bank;
        let _ = reading;
        self.values.get(&class).copied()
    }
}

// The class at a place.
fn class_at_place(classes: &[usize], place: usize) -> Option<usize>
    ensures { result ≡ slice_get classes.now place }
{
    classes.get(place).copied()
}

impl Index {
    /// The index of a reading. An error is want of memory.
    pub fn new(alloc: Global, bank: &Bank, reading: &Reading<'_>) -> Result<Self, AllocError>
        requires { HasTerms bank.now reading.now.terms.now }
        ensures { IfOk result (λ index. IsIndex bank.now reading.now index) }
    {
        let places = Places::new(alloc, bank, reading.terms)?;
        let values = Values::new(alloc, bank, reading)?;
        Ok(Index { places, values })
    }

    /// The class of a term; nothing where the term doesn't stand in the reading.
    pub fn class_of(&self, bank: &Bank, reading: &Reading<'_>, t: TermId) -> Option<usize>
        requires index { IsIndex bank.now reading.now self.now }
        requires term { HasTerm bank.now t }
        ensures { result ≡ spec.class_at (terms_at bank.now reading.now.terms.now) reading.now.classes.now (term_at bank.now t) }
    {
        let place = self.places.place_of(bank, reading.terms, t);
        class_at_place(reading.classes, place)
    }

    /// What a term is, where a literal stands in its class.
    pub fn value_at(&self, bank: &Bank, reading: &Reading<'_>, t: TermId) -> Option<Value>
        requires index { IsIndex bank.now reading.now self.now }
        requires term { HasTerm bank.now t }
        ensures { result ≡ spec.value_at (terms_at bank.now reading.now.terms.now) reading.now.classes.now (term_at bank.now t) }
    {
        match self.class_of(bank, reading, t) {
            Some(class) => self.values.value_in(bank, reading, class),
            None => None,
        }
    }
}
