// Signatures: a function at names of classes, each with a term that has it. The last ones can be taken back.

ghost use Rattle.std.specs.Prelude.{◌≡◌, ℕ, ◌∷◌, ◌++◌, [], Some, None, length, take, slice_get, IfSome, OnOk, OnErr};
ghost use Rattle.ss_terms.specs.Forms.{term_shape};
ghost use Rattle.ss_equality_rules.specs.Names.{Has};
ghost use Rattle.ss_equality_rules.specs.Whole.{AreApart};

use indexmap::IndexMap;
use ss_terms::Term;
use std::alloc::{AllocError, Global};
use std::marker::Model;

#[derive(Drop)]
pub(crate) struct Signatures {
    entries: IndexMap<Term, usize>,
}

impl Model for Signatures {
    ghost use Rattle.std.specs.Prelude.{List, map};
    ghost use Rattle.ss_equality_rules.specs.Whole.{Signature, signature, AreApart};

    ghost Value = { List Signature };

    ghost view = { λ s. map signature s.entries.entries };

    ghost invariant = { λ s. AreApart (map signature s.entries.entries) };
}

impl Signatures {
    pub(crate) fn new(alloc: Global) -> Self
        ensures { result ≡ [] }
    {
        Signatures {
            entries: IndexMap::new(alloc),
        }
    }

    // How many there are. No signature stands twice.
    pub(crate) fn len(&self) -> usize
        ensures len { result ≡ length self.now }
        ensures apart { AreApart self.now }
    {
        self.entries.len()
    }

    // The term that has the signature.
    pub(crate) fn find(&self, key: &Term) -> Option<usize>
        ensures found { IfSome result (λ v. Has self.now (term_shape key.now, v)) }
        ensures absent { result ≡ None → (i v : ℕ) → slice_get self.now i ≡ Some (term_shape key.now, v) → ⊥ }
    {
        match self.entries.get(key) {
            Some(term) => Some(*term),
            None => None,
        }
    }

    // One more signature, which isn't there.
    pub(crate) fn add(&mut self, key: Term, term: usize) -> Result<(), AllocError>
        requires { (i v : ℕ) → slice_get self.old i ≡ Some (term_shape key, v) → ⊥ }
        ensures added { OnOk result (self.new ≡ self.old ++ (term_shape key, term) ∷ []) }
        ensures same { OnErr result (self.new ≡ self.old) }
    {
        self.entries.insert(key, term)?;
        Ok(())
    }

    // Takes back all but the first.
    pub(crate) fn truncate(&mut self, count: usize)
        ensures { self.new ≡ take count self.old }
    {
        self.entries.truncate(count);
    }
}
