//! What numbers stand for, where each form names only forms with smaller numbers, and where a form stands in a list.
#![tactic(auto)]
