//! What the votes of all views are told of what the record has.

ghost use Rattle.std.specs.Prelude.{◌≡◌, Bool, OnOk};
ghost use Rattle.types_core.specs.Positions.{HasRoom};
ghost use Rattle.messages_certificates.specs.Artifact.{certificate_artifact};
ghost use Rattle.messages_certificates.specs.Certificate.{certificate_round};
ghost use Rattle.simplex_messages.specs.VoteParts.{vote_artifact};
ghost use Rattle.batcher_verifier.specs.declared.batcher_fault.BatcherFault.TheVariants as batcher_fault;
ghost use Rattle.node_votes.specs.KeepsVotes as accepting;
ghost use Rattle.node_votes.specs.KeepsVotes.{IsNewVote};
ghost use Rattle.simplex_member.specs.Point.{Found};
ghost use Rattle.node_inbox.specs.Recounting.{AtSome};

use batcher_verifier::BatcherFault;
use messages_certificates::Certificate;
use node_votes::Acceptance;
use simplex_messages::Vote;
use std::alloc::AllocError;
use types_core::{Digest, Scheme};

/// Tells the votes of all views of an own vote that the record has, and that is new to them: before what need not be kept behind it is
/// dropped.
///
/// # Errors
///
/// `AllocError` where memory ran out.
pub fn recount_vote<S: Scheme<D> + Drop, D: Digest>(
    acceptance: &mut Acceptance<S, D>,
    vote: Vote<S, D>,
) -> Result<(), AllocError>
    requires { AtSome S.Scheme D.PartialEq.eq acceptance.old (λ s h. IsNewVote S.Scheme s h vote) }
    ensures { OnOk result (accepting.AtEach S.Scheme D.PartialEq.eq acceptance.old (λ s h.
        (taken : Bool)
        → IsNewVote S.Scheme s h vote
        → accepting.KeepsAhead S.Scheme D.PartialEq.eq s acceptance.new h (Found (vote_artifact vote) taken))) }
{
    match acceptance.cast(vote) {
        Ok(_) => Ok(()),
        Err(fault) => Err(memory_alone(fault)),
    }
}

/// Tells the votes of all views of a certificate of the epoch that the record has.
///
/// # Errors
///
/// `AllocError` where memory ran out.
pub fn recount_certificate<S: Scheme<D> + Drop, D: Digest>(
    acceptance: &mut Acceptance<S, D>,
    certificate: &Certificate<S, D>,
) -> Result<(), AllocError>
    requires { AtSome S.Scheme D.PartialEq.eq acceptance.old (λ s h. (certificate_round certificate.now).epoch ≡ s.voter.epoch) }
    ensures { OnOk result (accepting.AtEach S.Scheme D.PartialEq.eq acceptance.old (λ s h.
        (taken : Bool)
        → HasRoom s.voter.length (certificate_round certificate.now).view
        → accepting.KeepsAhead S.Scheme D.PartialEq.eq s acceptance.new h (Found (certificate_artifact certificate.now) taken))) }
{
    match acceptance.record(certificate) {
        Ok(()) => Ok(()),
        Err(fault) => Err(memory_alone(fault)),
    }
}

/// Want of memory, where the votes of a view refuse what is recorded: they refuse it for nothing else.
fn memory_alone(fault: BatcherFault) -> AllocError
    requires { fault ≡ batcher_fault.Memory }
{
    match fault {
        BatcherFault::Memory => AllocError,
        BatcherFault::WrongRound | BatcherFault::OtherLeader | BatcherFault::Contradicts => {
            unreachable!()
        }
    }
}
