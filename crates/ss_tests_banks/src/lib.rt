//! Tests of the class chain, of the bank and of the obligations, over their public calls.
//! And of equality by congruence: what follows from merges, what is left when they are taken back, the reasons, and 100,000 terms.
#![tactic(auto)]

#[cfg(test)]
mod banks;
#[cfg(test)]
mod classes;
#[cfg(test)]
mod many;
#[cfg(test)]
mod merges;
#[cfg(test)]
mod obligations;
#[cfg(test)]
mod part;
#[cfg(test)]
mod steps;
