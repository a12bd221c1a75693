//! What a node hands out, and what it sends to all.
#![tactic(auto)]

mod handing;
mod sending;

pub use handing::{block_all, hand_out, hand_out_final, own_plan, report_if, report_verdict};
pub use sending::{hand_vote_out, send_again, spelled, spelled_vote};
