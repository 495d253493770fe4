//! Definitions of what is known along the paths of a body, and of the fields that a constructor has assigned. They stand in `specs/`.
#![tactic(auto)]
