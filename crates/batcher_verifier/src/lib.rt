//! The votes of one round that count for certificates.
#![tactic(auto, unfolding(crate::specs::Keeping::VerifierKeeps))]

mod batch;
mod batcher_fault;
mod certificate_kinds;
mod laws;
mod proposal_state;
mod verifier;
mod vote_round;

pub use batch::Batch;
pub use batcher_fault::BatcherFault;
pub use batcher_rows::kind_of;
pub use certificate_kinds::kind_of_certificate;
pub use laws::{
    batches_rest_on_accepted_votes, constructions_end, forwarding_changes_no_votes,
    lawful_histories_are_consistent, no_more_are_judged_than_came, no_quorum_is_lost,
    verdicts_on_attestations_are_right, votes_are_of_the_round, votes_count_once_more,
    votes_that_count_state_it, votes_that_count_were_accepted, what_is_due_has_no_certificate,
    what_is_new_may_be_added,
};
pub use types_terms::Kind;
pub use verifier::Verifier;
pub use vote_round::round_of;
