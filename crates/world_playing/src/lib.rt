//! The worlds of `simplex_world`, whatever the nodes of their members are: what comes next in one, what is done with what a node hands
//! out, how a world ends; the
//! lines of a run, the reports of its members, and what an audit finds in them.
#![tactic(auto)]

mod acting;
mod chronicle;
mod ending;
mod findings;
mod hearing;
mod latest;
mod playing;
mod reporting;
mod reports;
mod stage;
mod sums;
mod world;

pub use chronicle::Chronicle;
pub use findings::Findings;
pub use playing::play;
pub use reports::Reports;
pub use stage::Stage;
pub use sums::{Standing, Sums};
