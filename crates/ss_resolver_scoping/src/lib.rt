//! The beginning of a path with what may stand after it, and the methods with which a program may begin.
#![tactic(auto)]

mod mains;
mod names;
mod prefix;
mod shapes;
mod sums;

pub use mains::{is_int, is_main};
pub use names::{is_listed, note_name};
pub use prefix::{
    Prefix, bare_place, has_member, is_inherited, prefix_asked, prefix_callee, prefix_receiver,
    prefix_value,
};
pub use shapes::bare_name;
pub use sums::plus;
