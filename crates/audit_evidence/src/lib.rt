//! What reports testify to: which votes they hold, and which two votes contradict each other.
#![tactic(auto)]

mod contradiction;
mod held;
mod reports;

pub use contradiction::evidence_of;
pub use held::{HeldNullifies, HeldVotes};
pub use reports::{held_finalizes, held_notarizes, held_nullifies};
