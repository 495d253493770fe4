// What a model gives to functions and atoms at classes of arguments.

ghost use Rattle.std.specs.Prelude.{◌≡◌, [], ◌∷◌, ◌++◌, true, Some, None, IfOk, OnOk};
ghost use Rattle.ss_search_models.specs.Keys.{key_of, given_to, Keeps};

use indexmap::IndexMap;
use ss_terms::{Predicate, Symbol, TermId};
use std::alloc::{AllocError, Global};
use std::marker::Model;

/// A function or an atom at these classes of its arguments, or the class of a value.
#[derive(PartialEq, Eq, Hash, Drop)]
pub(crate) enum Signature {
    Function(Symbol, Vec<usize>),
    Atom(Predicate, Vec<usize>),
    Value(usize),
}

/// The class of a function's terms, the truth value of an atom, or the value that stands in a class.
#[derive(Clone, Copy, PartialEq, Eq)]
pub(crate) enum Given {
    Class(usize),
    Truth(bool),
    Value(TermId),
}

/// What was given to signatures.
#[derive(Drop)]
pub(crate) struct Signatures {
    first: IndexMap<Signature, Given>,
}

impl Model for Signatures {
    ghost use Rattle.ss_search_models.specs.Keys.{Givens, givens_in};

    ghost Value = { Givens };

    ghost view = { λ s. givens_in s.first.entries };
}

impl Signatures {
    /// Nothing was given.
    pub(crate) fn new(alloc: Global) -> Self
        ensures { result ≡ [] }
    {
        Signatures {
            first: IndexMap::new(alloc),
        }
    }

    // What was given to the signature.
    fn find(&self, signature: &Signature) -> Option<Given>
        ensures { result ≡ given_to self.now (key_of signature.now) }
    {
        self.first.get(signature).copied()
    }

    // Gives to a signature that has nothing yet.
    fn insert(&mut self, signature: Signature, given: Given) -> Result<(), AllocError>
        requires { given_to self.old (key_of signature) ≡ None }
        ensures { OnOk result (self.new ≡ self.old ++ (key_of signature, given) ∷ []) }
    {
        self.first.insert(signature, given)?;
        Ok(())
    }

    /// Whether nothing else was given to the signature. An error is want of memory.
    pub(crate) fn agrees(&mut self, signature: Signature, given: Given) -> Result<bool, AllocError>
        ensures given { IfOk result (λ r. r ≡ true → given_to self.new (key_of signature) ≡ Some given) }
        ensures kept { OnOk result (Keeps self.old self.new) }
    {
        if let Some(first) = self.find(&signature) {
            return Ok(first == given);
        }
        self.insert(signature, given)?;
        Ok(true)
    }
}
