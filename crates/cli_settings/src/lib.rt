//! How a member is set up, as a value: what must be alike at all members of a committee, and what may differ. What can be wrong
//! with it, and what a node is made of by it.
#![tactic(auto)]

mod building;
mod checking;
mod fault;
mod setting;

pub use fault::SettingsFault;
pub use setting::{Committee, Conduct, Settings, Turns};
