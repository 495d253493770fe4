//! Tests of the proof side over its public calls. Of the instances of rules: each rule at arguments that fit it, with the sentence that
//! docs/OBLIGATIONS.md gives, and at others. Of the constants that a `choose` may take, and of the check of derivations, each line once and faulty
//! ones. Of ground forms that were counted by hand, of weighted sums that are contradictions, and of what the search finds.

#![tactic(auto)]

#[cfg(test)]
mod classes;
#[cfg(test)]
mod constants;
#[cfg(test)]
mod derivations;
#[cfg(test)]
mod derived;
#[cfg(test)]
mod grounds;
#[cfg(test)]
mod lines;
#[cfg(test)]
mod rows;
#[cfg(test)]
mod rules;
#[cfg(test)]
mod searches;
#[cfg(test)]
mod sums;
