// Nodes for terms. The first node stands for 0.

ghost use Rattle.std.specs.Prelude.{◌≡◌, ◌≤◌, [], length, Some, IfOk, OnOk};
ghost use Rattle.ss_terms.specs.Forms.{Forms, term_at, terms_at, HasTerm};
ghost use Rattle.ss_linear_rules.specs.Nodes as spec;
ghost use Rattle.ss_linear_network.specs.Made.{AreNodesOf, HasEnd, term_of};
ghost use Rattle.ss_terms.specs.Numbered.{HasTermOf};

use indexmap::IndexMap;
use ss_terms::{Bank, TermId};
use std::alloc::{AllocError, Global};

/// Terms, each with a node.
#[derive(Drop)]
pub struct Nodes {
    /// The terms. The node of each is 1 above its place; node 0 stands for 0.
    pub terms: Vec<TermId>,
    /// The place of each of these terms, by its number in the bank.
    pub places: IndexMap<usize, usize>,
}

impl Nodes {
    /// No term.
    pub(crate) fn new(alloc: Global) -> Self
        ensures terms { result.terms.items ≡ [] }
        ensures nodes { (b : Forms) → AreNodesOf b result }
    {
        let terms = Vec::new(alloc);
        let places = IndexMap::new(alloc);
        Nodes { terms, places }
    }

    /// The place of a term, or how many there are.
    pub(crate) fn place(&self, bank: &Bank, t: TermId) -> usize
        requires nodes { AreNodesOf bank.now self.now }
        requires term { HasTerm bank.now t }
        ensures place { result ≡ spec.place (terms_at bank.now self.now.terms.items) (term_at bank.now t) }
        ensures within { result ≤ length self.now.terms.items }
    {
        let _ = bank;
        match self.places.get(&t.0) {
            Some(place) => *place,
            None => self.terms.len(),
        }
    }

    // A node for a new term.
    fn add(&mut self, bank: &Bank, t: TermId) -> Result<usize, AllocError>
        requires nodes { AreNodesOf bank.now self.old }
        requires term { HasTerm bank.now t }
        requires unknown { spec.place (terms_at bank.now self.old.terms.items) (term_at bank.now t) ≡ length self.old.terms.items }
        ensures nodes { OnOk result (AreNodesOf bank.now self.new) }
        ensures end { IfOk result (λ n. HasEnd bank.now self.old.terms.items self.new.terms.items (Some (term_at bank.now t)) n) }
    {
        bank.numbers_are_apart();
        let at = self.terms.len();
        self.places.insert(t.0, at)?;
        self.terms.push(t)?;
        Ok(at + 1)
    }

    // The node of a term, which is added where it is new.
    fn node(&mut self, bank: &Bank, t: TermId) -> Result<usize, AllocError>
        requires nodes { AreNodesOf bank.now self.old }
        requires term { HasTerm bank.now t }
        ensures nodes { OnOk result (AreNodesOf bank.now self.new) }
        ensures end { IfOk result (λ n. HasEnd bank.now self.old.terms.items self.new.terms.items (Some (term_at bank.now t)) n) }
    {
        let at = self.place(bank, t);
        if at < self.terms.len() {
            Ok(at + 1)
        } else {
            self.add(bank, t)
        }
    }

    /// The node of a term, or the first one.
    pub(crate) fn end(&mut self, bank: &Bank, t: Option<TermId>) -> Result<usize, AllocError>
        requires nodes { AreNodesOf bank.now self.old }
        requires term { HasTermOf bank.now t }
        ensures nodes { OnOk result (AreNodesOf bank.now self.new) }
        ensures end { IfOk result (λ n. HasEnd bank.now self.old.terms.items self.new.terms.items (term_of bank.now t) n) }
    {
        match t {
            Some(t) => self.node(bank, t),
            None => Ok(0),
        }
    }
}
