//! What the worlds of `simplex_world` are told to be, by the lines of scenarios, and how a line of a run is written; what they are made
//! of beside their members: disks that are cut off, a network, the application, and the chain of what is final.
#![tactic(auto)]

mod broken;
mod chain;
mod disk;
mod network;
mod payloads;
mod refusal;
mod scenario;
mod teller;

pub use broken::Broken;
pub use chain::Chain;
pub use disk::{Fuse, NO_FUSE, TornDisk};
pub use network::{Arrival, Network, Packet};
pub use payloads::{Built, Ground, Payloads, genesis, number_of};
pub use refusal::Refusal;
pub use scenario::{Crash, Cut, Detail, Down, Scenario, Span, Times, Ways};
pub use teller::Teller;
