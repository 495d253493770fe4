//! The store of a run, with the stores as they were at the entries of its frames, and the frame condition between them.
#![tactic(auto)]

mod changes;
mod entry;
mod free;
mod named;
mod span;
mod stop;
mod stores;
mod terms;
mod unkept;

pub use stop::ChangeStop;
pub use stores::Stores;
