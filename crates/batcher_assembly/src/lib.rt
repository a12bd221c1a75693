//! Judging attestations of one statement, on their way to a certificate.
#![tactic(auto)]

mod judging;
mod kind;

pub use judging::{Judged, assemble_enough, is_listed, judge};
pub use kind::in_turn;
pub use types_terms::Kind;
