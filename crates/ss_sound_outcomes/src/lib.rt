//! Definitions: what has to be shown of the code of a body so that no check of a run fails in it.
#![tactic(auto)]
