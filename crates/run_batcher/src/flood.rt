//! A flood of votes.

use simplex_batcher::{BatcherFault, Round};
use simplex_messages::{Nullify, ProposalVote, Vote};
use std::alloc::Global;
use test_words::{Committee, Say, Signing, Trouble, attest};
use types_core::{Participant, Proposal, Round as Position, Sha256Digest, Subject, View};

/// The votes that each member sends: two that go together, and three against these.
const EACH: [Sent; 5] = [
    Sent::Notarize(170),
    Sent::Notarize(187),
    Sent::Nullify,
    Sent::Finalize(170),
    Sent::Finalize(187),
];

/// A vote, with the byte that its payload is of.
#[derive(Clone, Copy)]
enum Sent {
    Notarize(u8),
    Nullify,
    Finalize(u8),
}

/// How many votes were accepted, how many blocked their sender, and of how many there was a report.
#[derive(Clone, Copy)]
struct Counts {
    accepted: u64,
    blocked: u64,
    reported: u64,
}

/// Each of so many members hands in its votes so many times, each vote signed well: `ACCEPTED BLOCKED REPORTED`.
pub(crate) fn pour<S: Committee>(
    round: &mut Round<S, Sha256Digest>,
    n: u32,
    times: u8,
    at: &Position,
    say: &mut Say,
) -> Result<(), Trouble> {
    let mut counts = Counts {
        accepted: 0,
        blocked: 0,
        reported: 0,
    };
    for _ in 0..times {
        for signer in 0..n {
            let signer = Participant::new(signer);
            pour_each(say.alloc, round, n, signer, at, &mut counts)?;
        }
    }
    say.number(counts.accepted)?;
    say.gap()?;
    say.number(counts.blocked)?;
    say.gap()?;
    say.number(counts.reported)
}

/// A member hands in its votes.
fn pour_each<S: Committee>(
    alloc: Global,
    round: &mut Round<S, Sha256Digest>,
    n: u32,
    signer: Participant,
    at: &Position,
    counts: &mut Counts,
) -> Result<(), Trouble> {
    for sent in EACH {
        let vote = vote_of::<S>(alloc, n, signer, *at, sent)?;
        let admission = match round.add_network(signer, vote) {
            Ok(admission) => admission,
            Err(BatcherFault::Memory) => return Err(Trouble::Memory),
            Err(_) => return Err(Trouble::Condition),
        };
        counts.accepted = counts.accepted.saturating_add(u64::from(admission.added));
        counts.blocked = counts.blocked.saturating_add(u64::from(admission.block));
        let is_reported = admission.report.is_some();
        counts.reported = counts.reported.saturating_add(u64::from(is_reported));
    }
    Ok(())
}

/// A member's vote of this round.
fn vote_of<S: Committee>(
    alloc: Global,
    n: u32,
    signer: Participant,
    at: Position,
    sent: Sent,
) -> Result<Vote<S, Sha256Digest>, Trouble> {
    match sent {
        Sent::Notarize(byte) => {
            let proposal = proposal_of(at, byte);
            let subject = Subject::Notarize(&proposal);
            let attestation = attest::<S>(alloc, n, signer, Signing::GOOD, &subject)?;
            Ok(Vote::Notarize(ProposalVote::new(proposal, attestation)))
        }
        Sent::Nullify => {
            let given_up = at;
            let subject = Subject::Nullify(given_up);
            let attestation = attest::<S>(alloc, n, signer, Signing::GOOD, &subject)?;
            Ok(Vote::Nullify(Nullify {
                round: at,
                attestation,
            }))
        }
        Sent::Finalize(byte) => {
            let proposal = proposal_of(at, byte);
            let subject = Subject::Finalize(&proposal);
            let attestation = attest::<S>(alloc, n, signer, Signing::GOOD, &subject)?;
            Ok(Vote::Finalize(ProposalVote::new(proposal, attestation)))
        }
    }
}

fn proposal_of(at: Position, byte: u8) -> Proposal<Sha256Digest> {
    Proposal::new(at, View::zero(), Sha256Digest::new([byte; 32]))
}
