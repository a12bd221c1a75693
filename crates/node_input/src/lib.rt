//! How a node refuses an event, or takes it.
#![tactic(auto)]

mod answering;
mod deciding;
mod hearing;
mod receiving;
mod refusing;
mod serving;
mod stepping;
mod taking_certificates;
mod telling;
mod verdicts;

pub use stepping::answer;
