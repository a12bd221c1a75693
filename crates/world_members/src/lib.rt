//! The members of the worlds of `simplex_world`: how their nodes are set up, what a world asks of a node, how a member lies (what
//! it sends in place of what its node hands out), when it crashes or is dead, and when its host opens it again or rewrites its record.
#![tactic(auto)]

mod liar;
mod lying;
mod member;
mod parcel;
mod patience;
mod pestering;
mod seat;
mod setup;
mod upkeep;

pub use liar::Liar;
pub use member::{Member, Turn, member_of};
pub use parcel::{Handed, Lie, Parcel};
pub use seat::{Halt, Seat};
pub use setup::{config_of, rotation_of};
pub use upkeep::Upkeep;
