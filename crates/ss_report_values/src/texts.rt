// Values of locals and of fields as a text.

ghost use Rattle.ss_core.specs.Chain.{IsWithinLimits};
ghost use Rattle.ss_core.specs.View as view;
ghost use Rattle.ss_terms.specs.Forms.{HasTerms};
ghost use Rattle.ss_report_values.specs.Index.{IsIndex};

use crate::fields::{FieldValue, Fields};
use crate::index::Index;
use crate::literals::{Reading, Value};
use crate::named::{Named, Position, named_locals};
use crate::telling::Telling;
use ss_core::{ClassId, Classes, Field, FieldId, MOST_LEVELS, Ty};
use ss_terms::Bank;
use std::alloc::{AllocError, Global};

// What a model says of the terms of a bank, found by their numbers.
#[derive(Clone, Copy)]
struct ModelContext<'a> {
    bank: &'a Bank,
    reading: &'a Reading<'a>,
    index: &'a Index,
}

// What the term of a local is, where the bank has it.
fn value_of(model: &ModelContext<'_>, local: &Named<'_>) -> Option<Value>
    requires { IsIndex model.now.bank.now model.now.reading.now model.now.index.now }
{
    if model.bank.has_term(local.term) {
        model.index.value_at(model.bank, model.reading, local.term)
    } else {
        None
    }
}

// The class of the object that a local refers to; nothing where its value is told.
fn object_of(model: &ModelContext<'_>, local: &Named<'_>) -> Option<usize>
    requires { IsIndex model.now.bank.now model.now.reading.now model.now.index.now }
{
    if value_of(model, local).is_some() {
        return None;
    }
    if model.bank.has_term(local.term) {
        model.index.class_of(model.bank, model.reading, local.term)
    } else {
        None
    }
}

// Whether one of the fields has this name.
fn has_field(fields: &[Field], name: &str) -> bool {
    for field in fields {
        if field.name.as_str() == name {
            return true;
        }
    }
    false
}

// Whether a class declares a field of this name.
fn declares(classes: &Classes, class: ClassId, name: &str) -> bool {
    match classes.declared(class) {
        Some(found) => has_field(&found.fields, name),
        None => false,
    }
}

// Whether the name of a field means in objects of a class the one that `declaring` has: the nearest class counts.
fn is_meant(classes: &Classes, class: ClassId, declaring: ClassId, name: &str) -> bool {
    let mut level = class;
    for _i in 0..MOST_LEVELS {
        if declares(classes, level, name) {
            return level == declaring;
        }
        match classes.level_above(level) {
            Some(above) => level = above,
            None => return false,
        }
    }
    false
}

// The name of a field, where objects of the type have it and mean it by the name.
fn field_name<'a>(classes: &'a Classes, ty: Ty, field: FieldId) -> Option<&'a str>
    requires { IsWithinLimits (view.classes classes.now) }
{
    let Ty::Ref { class, .. } = ty else {
        return None;
    };
    let (declaring, found) = classes.field(field)?;
    let name = found.name.as_str();
    if is_meant(classes, class, declaring, name) {
        Some(name)
    } else {
        None
    }
}

impl Telling {
    // Tells the locals that have a value.
    fn tell_locals(
        &mut self,
        model: &ModelContext<'_>,
        named: &[Named<'_>],
    ) -> Result<(), AllocError>
        requires { IsIndex model.now.bank.now model.now.reading.now model.now.index.now }
    {
        let mut rest = named;
        while let [first, others @ ..] = rest {
            if let Some(value) = value_of(model, first) {
                if first.is_told(others) {
                    self.tell(first.name, None, value)?;
                }
            }
            rest = others;
        }
        Ok(())
    }

    // Tells a field of an object, where it has a name there.
    fn tell_field(
        &mut self,
        classes: &Classes,
        local: &Named<'_>,
        value: &FieldValue,
    ) -> Result<(), AllocError>
        requires { IsWithinLimits (view.classes classes.now) }
    {
        match field_name(classes, local.ty, FieldId(value.field)) {
            Some(name) => self.tell(local.name, Some(name), value.value),
            None => Ok(()),
        }
    }

    // Tells the fields of the objects of a class, each once; those of others may stand after them.
    fn tell_fields(
        &mut self,
        classes: &Classes,
        local: &Named<'_>,
        object: usize,
        values: &[FieldValue],
    ) -> Result<(), AllocError>
        requires { IsWithinLimits (view.classes classes.now) }
    {
        let mut last = None;
        for value in values {
            if value.object != object {
                return Ok(());
            }
            if last != Some(value.field) {
                self.tell_field(classes, local, value)?;
            }
            last = Some(value.field);
        }
        Ok(())
    }

    // Tells the fields of the objects that locals refer to.
    fn tell_objects(
        &mut self,
        classes: &Classes,
        model: &ModelContext<'_>,
        fields: &Fields,
        named: &[Named<'_>],
    ) -> Result<(), AllocError>
        requires index { IsIndex model.now.bank.now model.now.reading.now model.now.index.now }
        requires limits { IsWithinLimits (view.classes classes.now) }
    {
        let mut rest = named;
        while let [first, others @ ..] = rest {
            if self.is_full() {
                return Ok(());
            }
            if let Some(object) = object_of(model, first) {
                let values = fields.of(object);
                if !values.is_empty() && first.is_told(others) {
                    self.tell_fields(classes, first, object, values)?;
                }
            }
            rest = others;
        }
        Ok(())
    }

    // Tells the locals, and then the fields of the objects to which they refer.
    fn tell_all(
        &mut self,
        model: &ModelContext<'_>,
        position: &Position<'_>,
    ) -> Result<(), AllocError>
        requires index { IsIndex model.now.bank.now model.now.reading.now model.now.index.now }
        requires terms { HasTerms model.now.bank.now model.now.reading.now.terms.now }
        requires limits { IsWithinLimits (view.classes position.now.core.now.classes) }
    {
        let named = named_locals(self.alloc, position)?;
        self.tell_locals(model, &named)?;
        let fields = Fields::at(
            self.alloc,
            model.bank,
            model.reading,
            model.index,
            position.store,
        )?;
        let classes = &position.core.classes;
        self.tell_objects(classes, model, &fields, &named)
    }
}

// The text of what is told.
fn told(
    alloc: Global,
    model: &ModelContext<'_>,
    position: &Position<'_>,
) -> Result<String, AllocError>
    requires index { IsIndex model.now.bank.now model.now.reading.now model.now.index.now }
    requires terms { HasTerms model.now.bank.now model.now.reading.now.terms.now }
    requires limits { IsWithinLimits (view.classes position.now.core.now.classes) }
{
    let mut telling = Telling::new(alloc);
    telling.tell_all(model, position)?;
    let Telling { text, .. } = telling;
    Ok(text)
}

/// The values that a model gives at a position, as `x = 3, b = True, p = null, this.n = 5`. They are those of locals for whose terms a
/// literal stands in the class, and after them those of fields. A field is told where a term reads it of an equal object in an equal
/// store, and a literal stands in that term's class. An error is want of memory.
pub fn values_text(
    alloc: Global,
    bank: &Bank,
    reading: &Reading<'_>,
    position: &Position<'_>,
) -> Result<String, AllocError>
    requires terms { HasTerms bank.now reading.now.terms.now }
    requires limits { IsWithinLimits (view.classes position.now.core.now.classes) }
{
    let index = Index::new(alloc, bank, reading)?;
    let model = ModelContext {
        bank,
        reading,
        index: &index,
    };
    told(alloc, &model, position)
}
