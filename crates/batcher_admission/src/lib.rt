//! What is answered to a vote that comes in, by what was accepted of its member before.
#![tactic(auto)]

mod admission;
mod contradiction;
mod copies;

pub use admission::{Admission, refusal, report};
pub use contradiction::are_against;
pub use copies::copied;
