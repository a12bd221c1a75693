//! The node of one member: how it opens over a record, and its steps.
#![tactic(auto)]

mod answering;
mod node;
mod opening;
mod rewriting;
mod stepping;

pub use node::Node;
pub use opening::MOST_OPTIMISTIC;
pub use simplex_network::{accountability, agreement, headline};
pub use simplex_record::{Owner, first_refused};
