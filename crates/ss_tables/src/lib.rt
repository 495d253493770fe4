//! Definitions of the class table of a program, of the scopes of its locals, and of the static types of its expressions, over the syntax trees.
//! They stand in `specs/`.
#![tactic(auto)]
