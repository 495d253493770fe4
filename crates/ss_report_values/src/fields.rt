// What a model says of fields: their values in a store, by objects' classes.

ghost use Rattle.std.specs.Prelude.{◌≡◌, [], ◌∷◌, true, Some, IfOk, IfSome, OnOk};
ghost use Rattle.ss_logic.specs.Terms.{App, terms_from};
ghost use Rattle.ss_terms.specs.Forms.{symbol_of, term_at, terms_at, HasTerm, HasTerms};
ghost use Rattle.ss_report_values.specs.Literals as spec;
ghost use Rattle.ss_report_values.specs.Index.{IsIndex};
ghost use Rattle.ss_report_values.specs.Fields.{AreFieldValues, IsFieldOf, IsFieldValue, Stands};

use crate::index::Index;
use crate::literals::{Reading, Value};
use indexmap::IndexMap;
use ss_terms::{Bank, Symbol, Term, TermId};
use std::alloc::{AllocError, Global};

/// The value of a field, by its number, in the objects of a class.
#[derive(Clone, Copy, PartialEq, Eq, PartialOrd, Ord)]
pub(crate) struct FieldValue {
    pub(crate) object: usize,
    pub(crate) field: u32,
    pub(crate) value: Value,
}

/// A field, by its number, of an object in a store.
#[derive(Clone, Copy)]
pub(crate) struct FieldParts {
    pub(crate) field: u32,
    pub(crate) store: TermId,
    pub(crate) object: TermId,
}

// The field of these two terms, where there are so many.
fn parts_of(field: u32, ts: &[TermId]) -> Option<FieldParts>
    ensures { IfSome result (λ p. (p.field ≡ field) × (ts.now ≡ p.store ∷ p.object ∷ [])) }
{
    match ts {
        [store, object] => Some(FieldParts {
            field,
            store: *store,
            object: *object,
        }),
        _ => None,
    }
}

// What a term of this form reads, where it is a field.
fn parts_of_form(bank: &Bank, t: TermId, symbol: Symbol, ts: &[TermId]) -> Option<FieldParts>
    requires terms { HasTerms bank.now ts.now }
    requires form { term_at bank.now t ≡ App (symbol_of symbol) (terms_from (terms_at bank.now ts.now)) }
    ensures { IfSome result (λ p. IsFieldOf bank.now t p) }
{
    let _ = bank;
    let _ = t;
    match symbol {
        Symbol::Field(field) => parts_of(field, ts),
        _ => None,
    }
}

// What a term reads, where it is a field.
fn field_parts(bank: &Bank, t: TermId) -> Option<FieldParts>
    requires { HasTerm bank.now t }
    ensures { IfSome result (λ p. IsFieldOf bank.now t p) }
{
    match bank.term_node(t) {
        Term::App(symbol, arguments) => parts_of_form(bank, t, *symbol, arguments),
        Term::Bound(_) => None,
    }
}

impl Index {
    // Whether a term stands in this class.
    fn is_in(&self, bank: &Bank, reading: &Reading<'_>, t: TermId, class: usize) -> bool
        requires index { IsIndex bank.now reading.now self.now }
        requires term { HasTerm bank.now t }
        ensures { result ≡ true → spec.class_at (terms_at bank.now reading.now.terms.now) reading.now.classes.now (term_at bank.now t) ≡ Some class }
    {
        match self.class_of(bank, reading, t) {
            Some(found) => found == class,
            None => false,
        }
    }

    // The value of the field that a term reads, where the store is of this class.
    fn value_of_parts(
        &self,
        bank: &Bank,
        reading: &Reading<'_>,
        class: usize,
        t: TermId,
        parts: FieldParts,
    ) -> Option<FieldValue>
        requires index { IsIndex bank.now reading.now self.now }
        requires term { HasTerm bank.now t }
        requires stands { Stands bank.now reading.now t }
        requires parts { IsFieldOf bank.now t parts }
        ensures { IfSome result (λ x. IsFieldValue bank.now reading.now class x) }
    {
        if !self.is_in(bank, reading, parts.store, class) {
            return None;
        }
        let Some(object) = self.class_of(bank, reading, parts.object) else {
            return None;
        };
        match self.value_at(bank, reading, t) {
            Some(value) => Some(FieldValue {
                object,
                field: parts.field,
                value,
            }),
            None => None,
        }
    }

    // The value of a field, where a term reads one in a store of this class.
    fn field_value(
        &self,
        bank: &Bank,
        reading: &Reading<'_>,
        class: usize,
        t: TermId,
    ) -> Option<FieldValue>
        requires index { IsIndex bank.now reading.now self.now }
        requires term { HasTerm bank.now t }
        requires stands { Stands bank.now reading.now t }
        ensures { IfSome result (λ x. IsFieldValue bank.now reading.now class x) }
    {
        match field_parts(bank, t) {
            Some(parts) => self.value_of_parts(bank, reading, class, t, parts),
            None => None,
        }
    }

    // Adds it.
    fn add_field_value(
        &self,
        bank: &Bank,
        reading: &Reading<'_>,
        class: usize,
        t: TermId,
        found: &mut Vec<FieldValue>,
    ) -> Result<(), AllocError>
        requires index { IsIndex bank.now reading.now self.now }
        requires term { HasTerm bank.now t }
        requires stands { Stands bank.now reading.now t }
        requires found { AreFieldValues bank.now reading.now class found.old.items }
        ensures { OnOk result (AreFieldValues bank.now reading.now class found.new.items) }
    {
        let Some(value) = self.field_value(bank, reading, class, t) else {
            return Ok(());
        };
        found.push(value)?;
        Ok(())
    }

    /// The values of the fields that terms read in stores of this class. An error is want of memory.
    pub(crate) fn field_values(
        &self,
        alloc: Global,
        bank: &Bank,
        reading: &Reading<'_>,
        class: usize,
    ) -> Result<Vec<FieldValue>, AllocError>
        requires index { IsIndex bank.now reading.now self.now }
        requires terms { HasTerms bank.now reading.now.terms.now }
        ensures { IfOk result (λ v. AreFieldValues bank.now reading.now class v.items) }
    {
        let mut found = Vec::new(alloc);
        for t in reading.terms {
            self.add_field_value(bank, reading, class, *t, &mut found)?;
        }
        Ok(found)
    }
}

/// Fields with their values in one store, in the order of objects' classes and then of their numbers.
#[derive(Drop)]
pub(crate) struct Fields {
    list: Vec<FieldValue>,
    // Where those of a class begin.
    first: IndexMap<usize, usize>,
}

impl Fields {
    // These, in order.
    fn new(alloc: Global, mut list: Vec<FieldValue>) -> Result<Self, AllocError> {
        list.sort()?;
        let mut first = IndexMap::new(alloc);
        let mut i = list.len();
        while i > 0 {
            i -= 1;
            first.insert(list[i].object, i)?;
        }
        Ok(Fields { list, first })
    }

    /// Those in this store. An error is want of memory.
    pub(crate) fn at(
        alloc: Global,
        bank: &Bank,
        reading: &Reading<'_>,
        index: &Index,
        store: TermId,
    ) -> Result<Self, AllocError>
        requires index { IsIndex bank.now reading.now index.now }
        requires terms { HasTerms bank.now reading.now.terms.now }
    {
        let found = values_in(alloc, bank, reading, index, store)?;
        Fields::new(alloc, found)
    }

    /// Those of the objects of this class, and after them those of others.
    pub(crate) fn of(&self, object: usize) -> &[FieldValue] {
        match self.first.get(&object) {
            Some(place) => self.list.get(*place..).unwrap_or(&[]),
            None => &[],
        }
    }
}

// The fields in a store with their values; none where the store doesn't stand in the reading.
fn values_in(
    alloc: Global,
    bank: &Bank,
    reading: &Reading<'_>,
    index: &Index,
    store: TermId,
) -> Result<Vec<FieldValue>, AllocError>
    requires index { IsIndex bank.now reading.now index.now }
    requires terms { HasTerms bank.now reading.now.terms.now }
{
    if !bank.has_term(store) {
        return Ok(Vec::new(alloc));
    }
    match index.class_of(bank, reading, store) {
        Some(class) => index.field_values(alloc, bank, reading, class),
        None => Ok(Vec::new(alloc)),
    }
}
