// State words.
ghost use Rattle.std.specs.Prelude.{◌≡◌};
ghost use Rattle.ss_core.specs.View.{word_tree, owners_tree};
ghost use Rattle.ss_store_rules.specs.Values as values;
ghost use Rattle.ss_store.specs.Contexts.{setting_of};

use crate::before::Before;
use crate::context::Context;
use crate::owners::{is_group, is_pair, same_owner};
use crate::reads::object_of;
use ss_core::{OwnerTest, Place, StateWord};
use ss_store_rules::{Undefined, Value};

impl<'a, B: Before> Context<'a, B> {
    fn word_object(&self, place: Place, word: StateWord, value: Value) -> Result<u32, Undefined>
        ensures { result ≡ values.word_object (setting_of B.told self.now) place (word_tree word) value }
    {
        match word {
            StateWord::New => object_of(place, value),
            _ => self.readable_of(place, value),
        }
    }

    fn word_holds(&self, word: StateWord, o: u32) -> bool
        ensures { result ≡ values.word_holds (setting_of B.told self.now) (word_tree word) o }
    {
        match word {
            StateWord::Consistent => self.level(o) == self.class(o) && !self.committed(o),
            StateWord::Committed => self.committed(o),
            StateWord::New => !self.entry.allocated(o),
            StateWord::Level(t) => self.level(o) == t,
            StateWord::Packed(t) => self.classes.is_subclass(self.level(o), t),
            StateWord::Unowned => is_group(self.owner(o)),
        }
    }

    pub(crate) fn word_value(
        &self,
        place: Place,
        word: StateWord,
        value: Value,
    ) -> Result<Value, Undefined>
        ensures { result ≡ values.word_value (setting_of B.told self.now) place (word_tree word) value }
    {
        let o = self.word_object(place, word, value)?;
        Ok(Value::Bool(self.word_holds(word, o)))
    }

    fn owners_hold(&self, test: OwnerTest, o: u32, q: u32) -> bool
        ensures { result ≡ values.owners_hold (setting_of B.told self.now) (owners_tree test) o q }
    {
        match test {
            OwnerTest::Same => same_owner(self.owner(o), self.owner(q)),
            OwnerTest::Is(t) => is_pair(self.owner(o), q, t),
        }
    }

    pub(crate) fn owners_value(
        &self,
        place: Place,
        test: OwnerTest,
        left: Value,
        right: Value,
    ) -> Result<Value, Undefined>
        ensures { result ≡ values.owners_value (setting_of B.told self.now) place (owners_tree test) left right }
    {
        let o = self.readable_of(place, left)?;
        let q = self.readable_of(place, right)?;
        Ok(Value::Bool(self.owners_hold(test, o, q)))
    }
}
