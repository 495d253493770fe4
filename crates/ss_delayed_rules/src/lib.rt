//! Construction: an object that others can see has its non-null fields.
#![tactic(auto)]
