//! The file of a member's record: opened for a node, or left as it is with a word of why.
#![tactic(auto)]

mod opening;
mod telling;

pub use opening::{disk_at, hold_streams, record_at, second_path, written_into_either};
pub use telling::{left, unopened};
