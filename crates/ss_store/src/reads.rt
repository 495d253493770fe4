// Reads of objects, and tests of their classes.
ghost use Rattle.std.specs.Prelude.{◌≡◌};
ghost use Rattle.ss_store_rules.specs.Values as values;
ghost use Rattle.ss_store_rules.specs.Reads.{as_int};
ghost use Rattle.ss_store.specs.Contexts.{setting_of};

use crate::arithmetic::{as_int, undefined};
use crate::before::Before;
use crate::context::Context;
use ss_core::{ClassId, FieldId, Kind, Place};
use ss_store_rules::{Undefined, Value};

// The object that the value refers to.
pub(crate) fn object_of(place: Place, value: Value) -> Result<u32, Undefined>
    ensures { result ≡ values.object_of place value }
{
    match value {
        Value::Obj(o) => Ok(o),
        _ => Err(undefined(place, Kind::Null)),
    }
}

impl<'a, B: Before> Context<'a, B> {
    /// The object that the value refers to, whose state may be read.
    pub(crate) fn readable_of(&self, place: Place, value: Value) -> Result<u32, Undefined>
        ensures { result ≡ values.readable_of (setting_of B.told self.now) place value }
    {
        let o = object_of(place, value)?;
        if self.is_readable(o) {
            Ok(o)
        } else {
            Err(undefined(place, Kind::Null))
        }
    }

    pub(crate) fn read_field(
        &self,
        place: Place,
        value: Value,
        f: FieldId,
    ) -> Result<Value, Undefined>
        ensures { result ≡ values.field_value (setting_of B.told self.now) place value f.0 }
    {
        let o = self.readable_of(place, value)?;
        Ok(self.field(o, f))
    }

    pub(crate) fn read_element(
        &self,
        place: Place,
        value: Value,
        index: Value,
    ) -> Result<Value, Undefined>
        ensures { result ≡ values.element_value (setting_of B.told self.now) place value (as_int index) }
    {
        let a = self.readable_of(place, value)?;
        match u32::try_from(as_int(index)) {
            Ok(i) if i < self.length(a) => Ok(self.element(a, i)),
            _ => Err(undefined(place, Kind::Index)),
        }
    }

    pub(crate) fn read_length(&self, place: Place, value: Value) -> Result<Value, Undefined>
        ensures { result ≡ values.length_value (setting_of B.told self.now) place value }
    {
        let a = object_of(place, value)?;
        Ok(Value::Int(self.length(a) as i32))
    }

    /// Whether it is an object of this class or one below it.
    pub(crate) fn is_of(&self, t: ClassId, value: Value) -> bool
        ensures { result ≡ values.is_of (setting_of B.told self.now) t.0 value }
    {
        match value {
            Value::Obj(o) => self.classes.is_subclass(self.class(o), t),
            _ => false,
        }
    }

    pub(crate) fn cast(
        &self,
        place: Place,
        t: ClassId,
        non_null: bool,
        value: Value,
    ) -> Result<Value, Undefined>
        ensures { result ≡ values.cast (setting_of B.told self.now) place t.0 non_null value }
    {
        match value {
            Value::Obj(o) => {
                if self.classes.is_subclass(self.class(o), t) {
                    Ok(value)
                } else {
                    Err(undefined(place, Kind::Cast))
                }
            }
            _ => {
                if non_null {
                    Err(undefined(place, Kind::Null))
                } else {
                    Ok(value)
                }
            }
        }
    }
}
