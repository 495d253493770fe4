//! The messages on standard error: what is wrong, where, and the line of the source with a mark. Of what isn't proved they have the values that a
//! model gives to locals and fields.
#![tactic(auto)]

mod heard;
mod lines;
mod messages;
mod seen;
mod sentences;
mod texts;
mod verdict;

pub use heard::Heard;
pub use messages::{
    Unread, failed_message, refused_message, spent_message, stopped_message, unadmitted_message,
    unread_message, usage,
};
pub use seen::Seen;
pub use verdict::verdict_messages;
