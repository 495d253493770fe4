//! What is known along the code of a core program without a bank, and which expressions are never null.
#![tactic(auto)]

mod assigns;
mod body_context;
mod facts;
mod fields;
mod fronts;
mod known;
mod never_null;
mod sides;
mod tests;

pub use assigns::assigned;
pub use body_context::BodyContext;
pub use fields::Fields;
pub use fronts::FrontTold;
pub use known::Known;
pub use never_null::{
    chain_never_null, is_never_null, is_non_null_local, is_this_object, path_never_null,
};
pub use sides::Sides;
pub use tests::{Tests, knows};
