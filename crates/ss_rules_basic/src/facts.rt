// Literals of one or two terms.

ghost use Rattle.std.specs.Prelude.{◌≡◌, IfOk};
ghost use Rattle.ss_logic.specs.Shapes as shape;
ghost use Rattle.ss_terms.specs.Forms.{Forms, HasTerm, HasFormula, term_at, formula_at, IsGrown};
ghost use Rattle.ss_rules_basic.specs.Facts.{denied, fact_at, HasFact};

use ss_terms::{Bank, FormulaId, Predicate, TermId};
use std::alloc::AllocError;

/// An atom of one or two terms of a bank, or its negation.
#[derive(Clone, Copy)]
pub struct Fact {
    /// Whether the atom holds.
    pub holds: bool,
    /// What the atom says.
    pub predicate: Predicate,
    /// Of which term.
    pub left: TermId,
    /// And of which second one, where it takes two.
    pub right: Option<TermId>,
}

impl Fact {
    /// The two terms are equal.
    pub fn equal(left: TermId, right: TermId) -> Fact
        ensures says { (b : Forms) → fact_at b result ≡ shape.equal (term_at b left) (term_at b right) }
        ensures has { (b : Forms) → HasTerm b left → HasTerm b right → HasFact b result }
    {
        Fact {
            holds: true,
            predicate: Predicate::Equal,
            left,
            right: Some(right),
        }
    }

    /// The two terms differ.
    pub fn differ(left: TermId, right: TermId) -> Fact
        ensures says { (b : Forms) → fact_at b result ≡ shape.differ (term_at b left) (term_at b right) }
        ensures has { (b : Forms) → HasTerm b left → HasTerm b right → HasFact b result }
    {
        Fact {
            holds: false,
            predicate: Predicate::Equal,
            left,
            right: Some(right),
        }
    }

    /// The first number is at most the second.
    pub fn at_most(left: TermId, right: TermId) -> Fact
        ensures says { (b : Forms) → fact_at b result ≡ shape.at_most (term_at b left) (term_at b right) }
        ensures has { (b : Forms) → HasTerm b left → HasTerm b right → HasFact b result }
    {
        Fact {
            holds: true,
            predicate: Predicate::AtMost,
            left,
            right: Some(right),
        }
    }

    /// The first class counts as the second.
    pub fn sub(left: TermId, right: TermId) -> Fact
        ensures says { (b : Forms) → fact_at b result ≡ shape.sub_atom (term_at b left) (term_at b right) }
        ensures has { (b : Forms) → HasTerm b left → HasTerm b right → HasFact b result }
    {
        Fact {
            holds: true,
            predicate: Predicate::Sub,
            left,
            right: Some(right),
        }
    }

    /// The store has the object.
    pub fn allocated(left: TermId, right: TermId) -> Fact
        ensures says { (b : Forms) → fact_at b result ≡ shape.allocated (term_at b left) (term_at b right) }
        ensures has { (b : Forms) → HasTerm b left → HasTerm b right → HasFact b result }
    {
        Fact {
            holds: true,
            predicate: Predicate::Allocated,
            left,
            right: Some(right),
        }
    }

    /// The object is committed in the store.
    pub fn committed(left: TermId, right: TermId) -> Fact
        ensures says { (b : Forms) → fact_at b result ≡ shape.committed (term_at b left) (term_at b right) }
        ensures has { (b : Forms) → HasTerm b left → HasTerm b right → HasFact b result }
    {
        Fact {
            holds: true,
            predicate: Predicate::Committed,
            left,
            right: Some(right),
        }
    }

    /// The object is ready in the store.
    pub fn ready(left: TermId, right: TermId) -> Fact
        ensures says { (b : Forms) → fact_at b result ≡ shape.ready (term_at b left) (term_at b right) }
        ensures has { (b : Forms) → HasTerm b left → HasTerm b right → HasFact b result }
    {
        Fact {
            holds: true,
            predicate: Predicate::Ready,
            left,
            right: Some(right),
        }
    }

    /// The owner is a group.
    pub fn group(owner: TermId) -> Fact
        ensures says { (b : Forms) → fact_at b result ≡ shape.group (term_at b owner) }
        ensures has { (b : Forms) → HasTerm b owner → HasFact b result }
    {
        Fact {
            holds: true,
            predicate: Predicate::IsGroup,
            left: owner,
            right: None,
        }
    }

    /// The negation.
    #[tactic(auto, unfolding(crate::specs::Facts::denied))]
    pub fn negated(self) -> Fact
        ensures { result ≡ denied self }
    {
        Fact {
            holds: !self.holds,
            ..self
        }
    }

    // The number of the literal.
    pub(crate) fn make(self, b: &mut Bank) -> Result<FormulaId, AllocError>
        requires { HasFact b.old self }
        ensures at { IfOk result (λ f. HasFormula b.new f × (formula_at b.new f ≡ fact_at b.old self)) }
        ensures grown { IsGrown b.old b.new }
    {
        match self.right {
            None => b.atom(self.holds, self.predicate, &[self.left]),
            Some(right) => b.atom(self.holds, self.predicate, &[self.left, right]),
        }
    }
}
