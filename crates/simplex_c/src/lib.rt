//! The library for callers in C: questions about bytes, and a member's node, as functions over numbers, slices and structs of
//! numbers. `bindings/c/voumlis.h` declares them and says what a caller owes; nothing is asked of the numbers and bytes that are
//! passed.
#![tactic(auto)]

mod attesting;
mod decoding;
mod light;
mod node;
mod questions;
mod settings;
mod told_answers;
mod with_settings;

pub use attesting::voumlis_proved_attestations;
pub use light::{CertifiedNumbers, voumlis_proved_certifies, voumlis_proved_finalized_in};
pub use node::{
    voumlis_proved_node_close, voumlis_proved_node_open, voumlis_proved_node_open_pair,
    voumlis_proved_node_replies, voumlis_proved_node_requests, voumlis_proved_node_rewrite,
    voumlis_proved_node_step, voumlis_proved_node_views,
};
pub use questions::{voumlis_proved_audit, voumlis_proved_decode, voumlis_proved_first_refused};
pub use settings::SettingsNumbers;
pub use with_settings::{
    voumlis_proved_node_open_pair_with, voumlis_proved_node_open_with,
    voumlis_proved_settings_check,
};
