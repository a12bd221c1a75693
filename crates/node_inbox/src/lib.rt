//! What a node lets in: what packets hold and for what their sender is blocked, what its record gets, and what the votes of all views
//! get back from there.
#![tactic(auto)]

mod blocking;
mod packets;
mod recording;
mod recounting;

pub use blocking::blocks;
pub use packets::{Message, has_parent_below, message_in, vote_has_parent_below};
pub use recording::record;
pub use recounting::{recount_certificate, recount_vote};
