// Which terms of a bank are equal, where merges can be taken back.

ghost use Rattle.std.specs.Prelude.{◌≡◌, ℕ, ◌<◌, ◌≤◌, ◌↔◌, ◌∷◌, ◌++◌, ◌⊎◌, [], Some, length, take, slice_get, option_map, IsTrue, IfOk, OnOk, OnErr};
ghost use Rattle.ss_terms.specs.Forms.{HasTerm};
ghost use Rattle.ss_equality_rules.specs.Equal.{IsEqual, with_reasons, AreFormsOf, AreClassesOf};
ghost use Rattle.ss_equality_rules.specs.Names.{name, IsLog};
ghost use Rattle.ss_equality_rules.specs.Whole.{AreCaused};

use crate::classes::Classes;
use crate::closing::{enter_all, settle, sign_first};
use crate::reasons::reasons;
use crate::signatures::Signatures;
use ss_equality_rules::{Join, Merge, Pending, Stand};
use ss_terms::{Bank, TermId};
use std::alloc::{AllocError, Global};
use std::marker::Model;

/// Which terms of a bank are equal, by the merges that stand and by congruence. The last merges can be taken back.
#[derive(Drop)]
pub struct Congruence {
    alloc: Global,
    classes: Classes,
    signatures: Signatures,
    stands: Vec<Stand>,
}

impl Model for Congruence {
    ghost use Rattle.ss_equality_rules.specs.Equal.{Equations};
    ghost use Rattle.ss_equality_rules.specs.Whole.{IsKept, merges_of};

    ghost Value = { Equations };

    ghost view = { λ c. record { terms = c.classes.forms; merges = merges_of c.stands.items } };

    ghost invariant = { λ c. IsKept c.classes.forms c.stands.items c.classes.log c.signatures };
}

// The merge with this number.
fn stand_at(stands: &[Stand], number: usize) -> Option<Stand>
    ensures { result ≡ slice_get stands.now number }
{
    match stands.get(number) {
        Some(stand) => Some(*stand),
        None => None,
    }
}

// The name of each term's class.
fn all_names(alloc: Global, classes: &Classes) -> Result<Vec<usize>, AllocError>
    ensures long { IfOk result (λ v. length v.items ≡ length classes.now.forms) }
    ensures names { IfOk result (λ v. (k : ℕ) → k < length classes.now.forms → slice_get v.items k ≡ Some (name classes.now.log k)) }
{
    let mut names = Vec::new(alloc);
    for term in 0..classes.term_count() {
        names.push(classes.name(term))?;
    }
    Ok(names)
}

impl Congruence {
    /// No merge. The terms are those of the bank at the first merge.
    pub fn new(alloc: Global) -> Self
        ensures { result ≡ record { terms = []; merges = [] } }
    {
        Congruence {
            alloc,
            classes: Classes::new(alloc),
            signatures: Signatures::new(alloc),
            stands: Vec::new(alloc),
        }
    }

    /// Two terms are equal from now on, and with them all that follows by congruence. The bank has exactly the terms that it
    /// had at the first merge. An error is want of memory; the merges stay then.
    pub fn merge(
        &mut self,
        bank: &Bank,
        x: TermId,
        y: TermId,
        because: usize,
    ) -> Result<(), AllocError>
        requires left { HasTerm bank.now x }
        requires right { HasTerm bank.now y }
        requires bank { (self.old ≡ record { terms = []; merges = [] }) ⊎ AreFormsOf bank.now self.old.terms }
        ensures merged { OnOk result (self.new.merges ≡ self.old.merges ++ record { left = x; right = y; because = because } ∷ []) }
        ensures stays { OnErr result (self.new.merges ≡ self.old.merges) }
        ensures terms { OnOk result (AreFormsOf bank.now self.new.terms) }
        ensures bank { (self.new ≡ record { terms = []; merges = [] }) ⊎ AreFormsOf bank.now self.new.terms }
    {
        self.ready(bank)?;
        self.add(Merge {
            left: x,
            right: y,
            because,
        })
    }

    /// Takes the terms of the bank, where there is none yet. An error is want of memory; nothing changes then.
    pub fn ready(&mut self, bank: &Bank) -> Result<(), AllocError>
        requires { (self.old ≡ record { terms = []; merges = [] }) ⊎ AreFormsOf bank.now self.old.terms }
        ensures merges { self.new.merges ≡ self.old.merges }
        ensures terms { OnOk result (AreFormsOf bank.now self.new.terms) }
        ensures same { OnErr result (self.new ≡ self.old) }
    {
        if self.classes.term_count() == 0 {
            self.begin(bank)
        } else {
            Ok(())
        }
    }

    // Takes the terms of the bank.
    fn begin(&mut self, bank: &Bank) -> Result<(), AllocError>
        requires { self.old.merges ≡ [] }
        ensures merges { self.new.merges ≡ self.old.merges }
        ensures terms { OnOk result (AreFormsOf bank.now self.new.terms) }
        ensures same { OnErr result (self.new ≡ self.old) }
    {
        let mut classes = Classes::new(self.alloc);
        enter_all(self.alloc, bank, &mut classes)?;
        let mut signatures = Signatures::new(self.alloc);
        sign_first(self.alloc, &mut classes, &mut signatures)?;
        self.classes = classes;
        self.signatures = signatures;
        Ok(())
    }

    // One more merge of terms that are there.
    fn add(&mut self, merge: Merge) -> Result<(), AllocError>
        requires left { merge.left.0 < length self.old.terms }
        requires right { merge.right.0 < length self.old.terms }
        ensures terms { self.new.terms ≡ self.old.terms }
        ensures merged { OnOk result (self.new.merges ≡ self.old.merges ++ merge ∷ []) }
        ensures stays { OnErr result (self.new.merges ≡ self.old.merges) }
    {
        let joins = self.classes.join_count();
        let signatures = self.signatures.len();
        let number = self.stands.len();
        self.stands.reserve(1)?;
        let mut pending = Vec::new(self.alloc);
        pending.push(Pending {
            left: merge.left.0,
            right: merge.right.0,
            why: Some(number),
        })?;
        match settle(
            self.alloc,
            &mut self.classes,
            &mut self.signatures,
            &mut pending,
        ) {
            Ok(()) => {
                self.stands.push_reserved(Stand {
                    merge,
                    joins,
                    signatures,
                });
                Ok(())
            }
            Err(refused) => {
                self.classes.undo(joins);
                self.signatures.truncate(signatures);
                Err(refused)
            }
        }
    }

    /// Whether two terms are equal.
    pub fn same(&self, x: TermId, y: TermId) -> bool
        ensures { IsTrue result ↔ IsEqual self.now.terms self.now.merges x.0 y.0 }
    {
        let _joins = self.classes.join_count();
        let _signatures = self.signatures.len();
        self.classes.name(x.0) == self.classes.name(y.0)
    }

    /// The class of each term, by a number. An error is want of memory.
    pub fn classes(&self) -> Result<Vec<usize>, AllocError>
        ensures long { IfOk result (λ v. length v.items ≡ length self.now.terms) }
        ensures same { IfOk result (λ v. AreClassesOf self.now.terms self.now.merges v.items) }
    {
        let _joins = self.classes.join_count();
        let _signatures = self.signatures.len();
        all_names(self.alloc, &self.classes)
    }

    /// Reasons of merges from which two equal terms are equal. An error is want of memory.
    pub fn explain(&self, x: TermId, y: TermId) -> Result<Vec<usize>, AllocError>
        requires { IsEqual self.now.terms self.now.merges x.0 y.0 }
        ensures { IfOk result (λ v. IsEqual self.now.terms (with_reasons v.items self.now.merges) x.0 y.0) }
    {
        let _joins = self.classes.join_count();
        let _signatures = self.signatures.len();
        reasons(self.alloc, &self.classes, &self.stands, x.0, y.0)
    }

    /// The joins by which classes became one, each with its cause. Equal terms have one name after them.
    pub fn joins(&self) -> &[Join]
        ensures caused { AreCaused self.now.terms self.now.merges result.now }
        ensures log { IsLog (length self.now.terms) result.now }
        ensures same { (x y : ℕ) → IsEqual self.now.terms self.now.merges x y → name result.now x ≡ name result.now y }
    {
        let _joins = self.classes.join_count();
        let _signatures = self.signatures.len();
        self.classes.joins()
    }

    /// The reason of a merge.
    pub fn because(&self, number: usize) -> usize
        requires { number < length self.now.merges }
        ensures { option_map (λ m. m.because) (slice_get self.now.merges number) ≡ Some result }
    {
        self.stands[number].merge.because
    }

    /// How many merges stand.
    pub fn mark(&self) -> usize
        ensures { result ≡ length self.now.merges }
    {
        self.stands.len()
    }

    /// Takes back all but the first merges. It takes no memory.
    pub fn undo(&mut self, to: usize)
        requires { to ≤ length self.old.merges }
        ensures { self.new ≡ record { terms = self.old.terms; merges = take to self.old.merges } }
    {
        if let Some(stand) = stand_at(&self.stands, to) {
            self.classes.undo(stand.joins);
            self.signatures.truncate(stand.signatures);
            self.stands.truncate(to);
        }
    }
}
