//! Who attests in a message under the plain scheme, what stands there for it, and where.
#![tactic(auto)]

mod listing;
mod marking;
mod messages;

pub use listing::Mark;
pub use messages::attestations;
