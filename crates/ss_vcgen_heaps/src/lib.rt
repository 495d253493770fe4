//! Definitions: the obligations of a core program over stores, for each body built from the front.
#![tactic(auto)]
