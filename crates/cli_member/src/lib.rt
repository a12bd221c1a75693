//! A member's node by its settings: over one disk or two, which are looked at first and left as they are where they hold no record of this
//! member, and over streams.
#![tactic(auto)]

mod looking;
mod running;
mod words;

pub use looking::{half_for, look_for};
pub use running::{drive_member, member_over, pair_over};
pub use words::HELP;
