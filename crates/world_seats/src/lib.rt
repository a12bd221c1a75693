//! The seats of `simplex_world`'s members: a node over a disk that is cut off, or over two, whatever its scheme, whoever leads.
#![tactic(auto)]

mod keeper;
mod medium;
mod turns;

pub use keeper::Keeper;
pub use medium::Medium;
pub use turns::Turns;
