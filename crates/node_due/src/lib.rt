//! What a node does of its own, until nothing is due.
#![tactic(auto)]

mod acting;
mod asking;
mod casting_votes;
mod constructing;
mod following;

pub use acting::settle;
