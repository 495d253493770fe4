// What was said of atoms at classes and of quantified formulas, and at which place.

ghost use Rattle.std.specs.Prelude.{◌≡◌, ◌∷◌, ◌++◌, [], not, Some, None, IfOk, OnOk, IfSome};
ghost use Rattle.ss_search_clashes.specs.Says.{key_of, said_of, IsSaid, IsStep};

use indexmap::IndexMap;
use ss_terms::Predicate;
use std::alloc::{AllocError, Global};
use std::marker::Model;

/// An atom at these classes of its arguments, a quantified formula by the number of its `forall`, or a class of values.
#[derive(PartialEq, Eq, Hash, Drop)]
pub(crate) enum Signature {
    Atom(Predicate, Vec<usize>),
    Quantified(usize),
    Value(usize),
}

/// Whether it holds, and the place where that was said.
#[derive(Clone, Copy, Drop)]
pub(crate) struct Said {
    pub(crate) place: usize,
    pub(crate) holds: bool,
}

/// What was said of signatures.
#[derive(Drop)]
pub(crate) struct Signatures {
    first: IndexMap<Signature, Said>,
}

impl Model for Signatures {
    ghost use Rattle.ss_search_clashes.specs.Says.{Sayings, sayings_in};

    ghost Value = { Sayings };

    ghost view = { λ s. sayings_in s.first.entries };
}

/// The place where the opposite was said.
pub(crate) fn opposite_place(first: Said, holds: bool) -> Option<usize>
    ensures none { result ≡ None → first ≡ record { place = first.place; holds = holds } }
    ensures some { IfSome result (λ i. first ≡ record { place = i; holds = not holds }) }
{
    if first.holds == holds {
        None
    } else {
        Some(first.place)
    }
}

impl Signatures {
    /// Nothing was said.
    pub(crate) fn new(alloc: Global) -> Self
        ensures { result ≡ [] }
    {
        Signatures {
            first: IndexMap::new(alloc),
        }
    }

    /// What was said of the signature.
    pub(crate) fn find(&self, signature: &Signature) -> Option<Said>
        ensures { result ≡ said_of self.now (key_of signature.now) }
    {
        self.first.get(signature).copied()
    }

    /// Says something of a signature of which nothing was said yet.
    pub(crate) fn insert(&mut self, signature: Signature, said: Said) -> Result<(), AllocError>
        requires { said_of self.old (key_of signature) ≡ None }
        ensures { OnOk result (self.new ≡ self.old ++ (key_of signature, said) ∷ []) }
    {
        self.first.insert(signature, said)?;
        Ok(())
    }

    /// Says something of a signature. The place where the opposite was said, where it was. An error is want of memory.
    pub(crate) fn say(
        &mut self,
        signature: Signature,
        said: Said,
    ) -> Result<Option<usize>, AllocError>
        ensures said { IfOk result (λ o. o ≡ None → IsSaid self.new (key_of signature) said.holds) }
        ensures step { OnOk result (IsStep self.old self.new (key_of signature) said) }
        ensures opposite { IfOk result (λ o. IfSome o (λ i. said_of self.old (key_of signature) ≡ Some (record { place = i; holds = not said.holds }))) }
    {
        if let Some(first) = self.find(&signature) {
            return Ok(opposite_place(first, said.holds));
        }
        self.insert(signature, said)?;
        Ok(None)
    }
}
