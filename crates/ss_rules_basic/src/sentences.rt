// Literals that others imply, and all of several such.

ghost use Rattle.std.specs.Prelude.{◌≡◌, map, IfOk};
ghost use Rattle.ss_logic.specs.Shapes.{all_of};
ghost use Rattle.ss_terms.specs.Forms.{HasFormula, HasFormulas, formula_at, formulas_at, IsGrown};
ghost use Rattle.ss_rules_basic.specs.Facts.{denied_at, HasFacts, sentence_at, HasSentence, HasSentences};

use crate::facts::Fact;
use ss_terms::{Bank, Formula, FormulaId, Parts};
use std::alloc::{AllocError, Global};

/// A literal that holds where others do.
#[derive(Drop)]
pub struct Sentence {
    /// The others.
    pub premises: Vec<Fact>,
    /// The literal.
    pub conclusion: Fact,
}

/// All of the sentences, in the bank. An error is want of memory; what the bank had before stays.
pub fn make_all(
    alloc: Global,
    b: &mut Bank,
    sentences: &[Sentence],
) -> Result<FormulaId, AllocError>
    requires { HasSentences b.old sentences.now }
    ensures at { IfOk result (λ f. HasFormula b.new f × (formula_at b.new f ≡ all_of (map (sentence_at b.old) sentences.now))) }
    ensures grown { IsGrown b.old b.new }
{
    if let [one] = sentences {
        return one.make(alloc, b);
    }
    let made = made_of(alloc, b, sentences)?;
    b.and(&made)
}

// The numbers of the sentences.
fn made_of(
    alloc: Global,
    b: &mut Bank,
    sentences: &[Sentence],
) -> Result<Vec<FormulaId>, AllocError>
    requires { HasSentences b.old sentences.now }
    ensures there { IfOk result (λ v. HasFormulas b.new v.items) }
    ensures at { IfOk result (λ v. formulas_at b.new v.items ≡ map (sentence_at b.old) sentences.now) }
    ensures grown { IsGrown b.old b.new }
{
    let mut made = Vec::with_capacity(alloc, sentences.len())?;
    for sentence in sentences {
        let f = sentence.make(alloc, b)?;
        made.push(f)?;
    }
    Ok(made)
}

impl Sentence {
    // The number of the sentence.
    fn make(&self, alloc: Global, b: &mut Bank) -> Result<FormulaId, AllocError>
        requires { HasSentence b.old self.now }
        ensures at { IfOk result (λ f. HasFormula b.new f × (formula_at b.new f ≡ sentence_at b.old self.now)) }
        ensures grown { IsGrown b.old b.new }
    {
        if self.premises.is_empty() {
            return self.conclusion.make(b);
        }
        let mut parts = negations(alloc, b, &self.premises)?;
        let conclusion = self.conclusion.make(b)?;
        parts.push(conclusion)?;
        b.formula(Formula::Or(parts))
    }
}

// The numbers of the negations.
fn negations(alloc: Global, b: &mut Bank, facts: &[Fact]) -> Result<Parts, AllocError>
    requires { HasFacts b.old facts.now }
    ensures there { IfOk result (λ v. HasFormulas b.new v.items) }
    ensures at { IfOk result (λ v. formulas_at b.new v.items ≡ map (denied_at b.old) facts.now) }
    ensures grown { IsGrown b.old b.new }
{
    let mut made = Parts::with_capacity(alloc, facts.len() + 1)?;
    for fact in facts {
        let f = fact.negated().make(b)?;
        made.push(f)?;
    }
    Ok(made)
}
