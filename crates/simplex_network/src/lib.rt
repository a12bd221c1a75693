//! A network of members: what they agree on, and whom nobody blames, whatever the others do.
#![tactic(auto)]

mod laws;
mod sentences;

pub use laws::{accountability, agreement};
pub use sentences::headline;
