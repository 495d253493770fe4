// What is found of obligations.

use ss_deriv::Derivation;
use ss_logic_countermodels::Countermodel;

/// How far an obligation is searched.
#[derive(Clone, Copy, Debug, PartialEq, Eq)]
pub struct Options {
    /// The rounds of the ground form.
    pub rounds: u8,
    /// The most splits: of one attempt at a derivation, and for the ground form where none is found.
    pub splits: u64,
    /// The most formulas that the ground form may have.
    pub instances: u32,
}

/// What was found of one obligation.
#[derive(Drop)]
pub enum Found {
    /// Lines that derive it.
    Proved(Derivation),
    /// A model that refutes its ground form.
    Countered(Countermodel),
    /// For its ground form so many splits aren't enough.
    Spent { splits: u64 },
    /// Its ground form has more formulas than this.
    TooMany { limit: u32 },
    Memory,
}

/// A budget that ran out.
#[derive(Clone, Copy, Debug, PartialEq, Eq)]
pub enum Budget {
    /// For the ground form so many splits aren't enough.
    Splits(u64),
    /// The ground form has more formulas than this.
    Instances(u32),
}

/// An obligation, by its number, and a model that refutes its ground form.
#[derive(Drop)]
pub struct Countered {
    pub obligation: usize,
    pub model: Countermodel,
}

/// An obligation, by its number, that was neither proved nor refuted, since this ran out.
#[derive(Clone, Copy, Debug, PartialEq, Eq)]
pub struct Undecided {
    pub obligation: usize,
    pub cause: Budget,
}

/// What is found of the obligations of a program.
#[derive(Drop)]
pub enum Verdict {
    /// Each obligation has a derivation. These are they, over the bank of the obligations.
    Verified(Vec<Derivation>),
    /// A model refutes each of the first of these, of which there is one at least; for the second a budget wasn't enough. Every other one has a
    /// derivation.
    Unproved {
        countered: Vec<Countered>,
        undecided: Vec<Undecided>,
    },
    /// For these a budget wasn't enough, and every other one has a derivation.
    Undecided(Vec<Undecided>),
    Memory,
}
