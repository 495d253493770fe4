// Lines, and lines that form a derivation.

ghost use Rattle.std.specs.Prelude.{◌≡◌};

use ss_logic::{GoodRule, RuleName};
use ss_terms::{FormulaId, TermId};
use std::marker::Model;

/// Known facts with their weights, and the number by which their sum is divided.
#[derive(Drop)]
pub struct Sum {
    /// The number of each fact, and its weight.
    pub parts: Vec<(usize, i64)>,
    /// The divisor.
    pub divisor: i64,
}

/// A line of a derivation. The formulas that are known are numbered from 0 along the path to it.
#[derive(Drop)]
pub enum Line {
    /// The premise with this number is known.
    Premise {
        number: usize,
    },
    /// The negation of the goal is known.
    Denied,
    /// Of a known `and` this part is known.
    Part {
        of: usize,
        part: usize,
    },
    /// Opens a case for each part of a known `or`, which has so many.
    Split {
        of: usize,
        cases: usize,
    },
    /// Opens two cases: the formula, and its negation.
    Cut {
        formula: FormulaId,
    },
    /// The body of a known `forall` is known at these terms.
    Inst {
        of: usize,
        terms: Vec<TermId>,
    },
    /// Either there is nothing that this `exists` says, or these new constants are such.
    Choose {
        formula: FormulaId,
        constants: Vec<TermId>,
    },
    /// What a rule says of these terms.
    Rule {
        name: RuleName,
        arguments: Vec<TermId>,
    },
    /// What a rule on good stores says of the store of a known `good` and of these terms.
    Good {
        name: GoodRule,
        store: usize,
        arguments: Vec<TermId>,
    },
    /// What the rule on invariants says of the store of a known `good`, of an object and of a class.
    Invariants {
        store: usize,
        arguments: Vec<TermId>,
    },
    /// The two terms are equal, by known equalities that lead from the first to the second.
    Chain {
        left: TermId,
        right: TermId,
        path: Vec<usize>,
    },
    /// The two terms are equal, by known equalities of their arguments.
    Cong {
        left: TermId,
        right: TermId,
        equalities: Vec<usize>,
    },
    /// The literal, which is a known one with equal arguments, by known equalities.
    Swap {
        of: usize,
        formula: FormulaId,
        equalities: Vec<usize>,
    },
    /// The weighted sum of known facts, divided and rounded down.
    Sum(Sum),
    /// Closes the case: a known formula and its negation, or one literal that is false everywhere.
    Clash {
        left: usize,
        right: usize,
    },
    /// Goes on with the next case that waits.
    Case,
}

/// Lines that form a derivation: each case, the whole included, ends with a `clash`, or with the last case that its last `split` or
/// `cut` opens, and no line follows within it.
#[derive(Drop)]
pub struct Derivation {
    pub(crate) lines: Vec<Line>,
}

impl Model for Derivation {
    ghost use Rattle.std.specs.Prelude.{List};
    ghost use Rattle.ss_deriv.specs.declared.line.Line.{Line};
    ghost use Rattle.ss_deriv.specs.Shape.{IsShaped};

    ghost Value = { List Line };

    ghost view = { λ d. d.lines.items };

    ghost invariant = { λ d. IsShaped d.lines.items };
}

impl Derivation {
    /// The lines, in their order.
    pub fn lines(&self) -> &[Line]
        ensures { result.now ≡ self.now }
    {
        &self.lines
    }
}
