//! One view of the voter: which proposal it holds, which votes this member may cast in it, and when it
//! is given up.
#![tactic(auto, unfolding(crate::specs::Slot::Keeps, crate::specs::Round::Keeps))]

mod leader;
mod round;
mod slot;

pub use leader::Leader;
pub use round::Round;
pub use slot::{Change, Slot, Status};
pub use voter_history::{HandoffAbandonedReason, TimeoutReason, Token};
