// Clauses over planned terms, and the formula that says all of them.

ghost use Rattle.std.specs.Prelude.{◌≡◌, [], length, map, IfOk};
ghost use Rattle.ss_logic.specs.Shapes.{all_of};
ghost use Rattle.ss_terms.specs.Forms.{term_at, terms_at, formula_at, Forms, HasTerms, HasFormula, IsGrown};
ghost use Rattle.ss_rules_basic.specs.Facts.{sentence_at, HasSentences};
ghost use Rattle.ss_rules_basic.specs.Plans.{slot_value, planned, HasClauses, HasPlans, fact_of, premises_of, conclusion_of, clause_at};

use crate::plans::{Plan, Slot, make_terms};
use crate::{Fact, Sentence, make_all};
use ss_terms::{Bank, FormulaId, Predicate, TermId};
use std::alloc::{AllocError, Global};

/// An atom of planned terms, or its negation.
#[derive(Clone, Copy)]
pub enum Claim {
    /// The atom of two terms holds.
    Is(Predicate, Slot, Slot),
    /// It doesn't.
    Not(Predicate, Slot, Slot),
    /// The owner is a group.
    Group(Slot),
    /// It isn't.
    NoGroup(Slot),
}

/// A claim, where others hold.
#[derive(Clone, Copy)]
pub enum Clause {
    /// The claim alone.
    Fact(Claim),
    /// The last one, given one.
    If(Claim, Claim),
    /// The last one, given two.
    IfTwo(Claim, Claim, Claim),
    /// The last one, given three.
    IfThree(Claim, Claim, Claim, Claim),
    /// The last one, given four.
    IfFour(Claim, Claim, Claim, Claim, Claim),
}

impl Claim {
    // The literal, where the plans have these results.
    fn resolve(self, made: &[TermId]) -> Fact
        ensures { result ≡ fact_of made.now self }
    {
        let (holds, predicate, left, right) = match self {
            Claim::Is(predicate, x, y) => (true, predicate, x, Some(y.resolve(made))),
            Claim::Not(predicate, x, y) => (false, predicate, x, Some(y.resolve(made))),
            Claim::Group(x) => (true, Predicate::IsGroup, x, None),
            Claim::NoGroup(x) => (false, Predicate::IsGroup, x, None),
        };
        Fact {
            holds,
            predicate,
            left: left.resolve(made),
            right,
        }
    }
}

// The literals, where the plans have these results.
fn resolve_claims(alloc: Global, made: &[TermId], claims: &[Claim]) -> Result<Vec<Fact>, AllocError>
    ensures { IfOk result (λ v. v.items ≡ map (fact_of made.now) claims.now) }
{
    let mut facts = Vec::with_capacity(alloc, claims.len())?;
    for claim in claims {
        facts.push(claim.resolve(made))?;
    }
    Ok(facts)
}

// The sentence of these premises.
fn sentence(
    alloc: Global,
    made: &[TermId],
    premises: &[Claim],
    conclusion: Claim,
) -> Result<Sentence, AllocError>
    ensures premises { IfOk result (λ s. s.premises.items ≡ map (fact_of made.now) premises.now) }
    ensures conclusion { IfOk result (λ s. s.conclusion ≡ fact_of made.now conclusion) }
{
    let conclusion = conclusion.resolve(made);
    let premises = resolve_claims(alloc, made, premises)?;
    Ok(Sentence {
        premises,
        conclusion,
    })
}

impl Clause {
    // The sentence, where the plans have these results.
    fn resolve(self, alloc: Global, made: &[TermId]) -> Result<Sentence, AllocError>
        ensures premises { IfOk result (λ s. s.premises.items ≡ map (fact_of made.now) (premises_of self)) }
        ensures conclusion { IfOk result (λ s. s.conclusion ≡ fact_of made.now (conclusion_of self)) }
    {
        match self {
            Clause::Fact(c) => sentence(alloc, made, &[], c),
            Clause::If(p, c) => sentence(alloc, made, &[p], c),
            Clause::IfTwo(p, q, c) => sentence(alloc, made, &[p, q], c),
            Clause::IfThree(p, q, r, c) => sentence(alloc, made, &[p, q, r], c),
            Clause::IfFour(p, q, r, s, c) => sentence(alloc, made, &[p, q, r, s], c),
        }
    }
}

// The sentences, where the plans have these results.
fn resolve_all(
    alloc: Global,
    made: &[TermId],
    clauses: &[Clause],
) -> Result<Vec<Sentence>, AllocError>
    ensures has { IfOk result (λ v. (b : Forms) → HasTerms b made.now → HasClauses b (length made.now) clauses.now → HasSentences b v.items) }
    ensures says { IfOk result (λ v. (b : Forms) → HasTerms b made.now → HasClauses b (length made.now) clauses.now → map (sentence_at b) v.items ≡ map (clause_at (slot_value (term_at b) (terms_at b made.now))) clauses.now) }
{
    let mut sentences = Vec::with_capacity(alloc, clauses.len())?;
    for clause in clauses {
        let sentence = clause.resolve(alloc, made)?;
        sentences.push(sentence)?;
    }
    Ok(sentences)
}

/// All of the clauses, in the bank: the plans' terms are made first, in order. An error is want of memory; what the bank had
/// before stays.
pub fn fill(
    alloc: Global,
    b: &mut Bank,
    plans: &[Plan],
    clauses: &[Clause],
) -> Result<FormulaId, AllocError>
    requires plans { HasPlans b.old 0 plans.now }
    requires clauses { HasClauses b.old (length plans.now) clauses.now }
    ensures at { IfOk result (λ f. HasFormula b.new f × (formula_at b.new f ≡ all_of (map (clause_at (slot_value (term_at b.old) (planned (term_at b.old) [] plans.now))) clauses.now))) }
    ensures grown { IsGrown b.old b.new }
{
    let made = make_terms(alloc, b, plans)?;
    let sentences = resolve_all(alloc, &made, clauses)?;
    make_all(alloc, b, &sentences)
}
