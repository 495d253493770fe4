//! Tests over public calls of what no row of the suite shows: tokens and trees as they are read, class tables, and files and sinks in memory.
//! So are changes of a store, the values of expressions, and the inputs that a program admits.
//! They stand in a crate of their own, so that no reader and no store is proved a second time for them.

#![tactic(auto)]

#[cfg(test)]
mod bodies;
#[cfg(test)]
mod changes;
#[cfg(test)]
mod expressions;
#[cfg(test)]
mod inputs;
#[cfg(test)]
mod look_ups;
#[cfg(test)]
mod outside;
#[cfg(test)]
mod part;
#[cfg(test)]
mod programs;
#[cfg(test)]
mod tokens;
#[cfg(test)]
mod values;
