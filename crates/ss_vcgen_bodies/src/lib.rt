//! Parts of bodies, over a list of obligations under construction: the sides of a test, heads of loops, returns, calls and new objects.
#![tactic(auto)]

mod arguments;
mod calls;
mod frames;
mod heads;
mod levels;
mod lists;
mod objects;
mod renewal;
mod returns;
mod sides;
mod types;

pub use arguments::{element_sort, settle_call, settle_list};
pub use calls::{
    call_with, check_entry, entry_said, exit_said, frame_said, grown_said, keep, returned,
    type_said,
};
pub use frames::entries_said;
pub use heads::{check_head, enter_loop, is_never, leave_loop};
pub use objects::{construct, new_array};
pub use returns::return_with;
pub use sides::{enter_side, exit_spot};
pub use types::argument_types_said;
