//! The votes of one round, on their way to certificates.
#![tactic(auto, unfolding(crate::specs::Rounds::RoundKeeps))]

mod call;
mod round;
mod running;
mod votes;

pub use batcher_admission::Admission;
pub use batcher_verifier::{Batch, BatcherFault, Kind, Verifier, no_quorum_is_lost};
pub use call::{Answer, Call, Question};
pub use round::Round;
pub use running::run;
