//! What can happen to a voter, and what it knows by that.
#![tactic(auto)]

mod handoff_abandoned_reason;
mod sign;
mod timeout_reason;
mod token;

pub use handoff_abandoned_reason::HandoffAbandonedReason;
pub use sign::Sign;
pub use timeout_reason::TimeoutReason;
pub use token::Token;
