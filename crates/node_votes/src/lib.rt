//! The votes of all views that a member's node keeps.
#![tactic(auto)]

mod acceptance;
mod due;
mod laws;
mod refused;
mod rounds;

pub use acceptance::Acceptance;
pub use due::Due;
pub use laws::{kept_votes_came_up, silent_points_leave_votes};
pub use refused::refused_for;
