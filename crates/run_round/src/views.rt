//! Calls on the round of a view, whatever its scheme: at one of them they would cost the prover several times as much.

use simplex_round::{Leader, Round};
use simplex_types::PlainKey;
use std::alloc::Global;
use std::rc::Rc;
use test_messages::{CertificateWords, SayCertificates};
use test_words::{Committee, Left, Say, Trouble, Words};
use types_core::{Duplicate, Participant, Proposal, Scheme, Sha256Digest, View};
use voter_history::{TimeoutReason, Token};

/// The reasons that the scripts name.
const REASONS: [TimeoutReason; 10] = [
    TimeoutReason::Retry,
    TimeoutReason::Inactivity,
    TimeoutReason::LeaderNullify,
    TimeoutReason::LeaderTimeout,
    TimeoutReason::CertificationTimeout,
    TimeoutReason::StallTimeout,
    TimeoutReason::MissingProposal,
    TimeoutReason::IgnoredProposal,
    TimeoutReason::InvalidProposal,
    TimeoutReason::FailedCertification,
];

/// A round, and the size of its committee.
#[derive(Drop)]
pub(crate) struct ViewRound<S: Scheme<Sha256Digest>> {
    n: u32,
    round: Round<S, Sha256Digest>,
}

/// Says when and why the view is given up, if it is.
fn say_timeout(next: Option<(u64, TimeoutReason)>, say: &mut Say) -> Result<(), Trouble> {
    match next {
        Some((moment, reason)) => {
            say.number(moment)?;
            say.gap()?;
            say.text(reason.as_str())
        }
        None => say.none(),
    }
}

impl<S: Committee + Scheme<Sha256Digest, PublicKey = PlainKey>> ViewRound<S> {
    /// `N ME EPOCH VIEW`.
    pub(crate) fn new(alloc: Global, words: &mut Words<'_>) -> Result<Self, Trouble> {
        let n = words.index()?;
        let me = words.optional_member()?;
        let at = words.round()?;
        words.end()?;
        let scheme = S::member_of(alloc, n, me, 0)?;
        let scheme = Rc::new(alloc, scheme)?;
        Ok(ViewRound {
            n,
            round: Round::new(scheme, at),
        })
    }

    /// Makes the call of this name.
    pub(crate) fn call(
        &mut self,
        name: &str,
        words: &mut Words<'_>,
        say: &mut Say,
    ) -> Result<(), Trouble> {
        match words.left() {
            Left::Nothing => self.tell(name, say),
            Left::Number(number) => self.call_on_number(name, number, say),
            Left::Others => self.call_on_proposals(name, words, say),
        }
    }

    /// The calls of a view, a moment or another number alone.
    fn call_on_number(&mut self, name: &str, number: u64, say: &mut Say) -> Result<(), Trouble> {
        match name {
            "request" => say.truth(self.round.request(View::new(number))),
            "is_requested" => say.truth(self.round.is_requested(View::new(number))),
            "elapsed_since_start" => say.optional(self.round.elapsed_since_start(number)),
            "elapsed_since_entry" => say.optional(self.round.elapsed_since_entry(number)),
            "mark_entered" => {
                self.round.mark_entered(number);
                say.ok()
            }
            "set_certify_handle" => {
                self.round.set_certify_handle(Token(number));
                say.ok()
            }
            _ => self.call_on_small_number(name, number, say),
        }
    }

    /// `certified T`, and the calls of a member alone.
    fn call_on_small_number(
        &mut self,
        name: &str,
        number: u64,
        say: &mut Say,
    ) -> Result<(), Trouble> {
        let Ok(index) = u32::try_from(number) else {
            return Err(Trouble::Unreadable);
        };
        match name {
            "set_leader" => {
                self.round.set_leader(Participant::new(index));
                say.ok()
            }
            "learn_leader" => say.truth(self.round.learn_leader(Participant::new(index))),
            "is_signer" => say.truth(self.round.is_signer(Participant::new(index))),
            "certified" if index < 2 => {
                self.round.certified(index == 1);
                say.ok()
            }
            _ => Err(Trouble::Unreadable),
        }
    }

    fn call_on_proposals(
        &mut self,
        name: &str,
        words: &mut Words<'_>,
        say: &mut Say,
    ) -> Result<(), Trouble> {
        match name {
            "set_proposal" => say.truth(self.round.set_proposal(&last_proposal(words)?)),
            "add_recovered_proposal" => {
                say.key_or(self.round.add_recovered_proposal(&last_proposal(words)?))
            }
            "proposed" => self.proposed(words, say),
            "set_verifying" => self.set_verifying(words, say),
            _ => self.call_on_time(name, words, say),
        }
    }

    fn call_on_time(
        &mut self,
        name: &str,
        words: &mut Words<'_>,
        say: &mut Say,
    ) -> Result<(), Trouble> {
        match name {
            "set_deadlines" => self.set_deadlines(words, say),
            "next_timeout" => self.next_timeout(words, say),
            "latch_timeout" => {
                let _first = self.latched(words)?;
                say.ok()
            }
            "is_first_latch" => {
                let is_first = self.latched(words)?;
                say.truth(is_first)
            }
            _ => self.call_on_messages(name, words, say),
        }
    }

    fn call_on_messages(
        &mut self,
        name: &str,
        words: &mut Words<'_>,
        say: &mut Say,
    ) -> Result<(), Trouble> {
        match name {
            "replay" => self.replay(words, say),
            "add_notarization" => self.add_notarization(words, say),
            "add_nullification" => self.add_nullification(words, say),
            "add_finalization" => self.add_finalization(words, say),
            _ => Err(Trouble::Unreadable),
        }
    }

    fn proposed(&mut self, words: &mut Words<'_>, say: &mut Say) -> Result<(), Trouble> {
        let now = words.number()?;
        let proposal = last_proposal(words)?;
        say.truth(self.round.proposed(now, proposal))
    }

    fn set_verifying(&mut self, words: &mut Words<'_>, say: &mut Say) -> Result<(), Trouble> {
        let proposal = words.proposal()?;
        let parent_payload = words.payload()?;
        words.end()?;
        self.round.set_verifying(proposal, parent_payload);
        say.ok()
    }

    fn set_deadlines(&mut self, words: &mut Words<'_>, say: &mut Say) -> Result<(), Trouble> {
        let leader = words.number()?;
        let certification = words.number()?;
        let stall = words.optional()?;
        words.end()?;
        self.round.set_deadlines(leader, certification, stall);
        say.ok()
    }

    /// `NOW REASON`: whether that was the first reason.
    fn latched(&mut self, words: &mut Words<'_>) -> Result<bool, Trouble> {
        let now = words.number()?;
        let reason = reason_of(words.word())?;
        words.end()?;
        Ok(self.round.latch_timeout(now, reason))
    }

    fn next_timeout(&mut self, words: &mut Words<'_>, say: &mut Say) -> Result<(), Trouble> {
        let now = words.number()?;
        let retry_interval = words.number()?;
        let allow_latched = words.truth()?;
        words.end()?;
        let next = self.round.next_timeout(now, retry_interval, allow_latched);
        say_timeout(next, say)
    }

    fn replay(&mut self, words: &mut Words<'_>, say: &mut Say) -> Result<(), Trouble> {
        let artifact = words.artifact::<S>(say.alloc, self.n)?;
        words.end()?;
        self.round.replay(&artifact);
        say.ok()
    }

    fn add_notarization(&mut self, words: &mut Words<'_>, say: &mut Say) -> Result<(), Trouble> {
        kind(words, "notarization")?;
        let certificate = words.notarization::<S>(say.alloc, self.n)?;
        words.end()?;
        say_added(self.round.add_notarization(certificate), say)
    }

    fn add_nullification(&mut self, words: &mut Words<'_>, say: &mut Say) -> Result<(), Trouble> {
        kind(words, "nullification")?;
        let certificate = words.nullification::<S>(say.alloc, self.n)?;
        words.end()?;
        say.truth(self.round.add_nullification(certificate))
    }

    fn add_finalization(&mut self, words: &mut Words<'_>, say: &mut Say) -> Result<(), Trouble> {
        kind(words, "finalization")?;
        let certificate = words.finalization::<S>(say.alloc, self.n)?;
        words.end()?;
        say_added(self.round.add_finalization(certificate), say)
    }

    /// The calls without words.
    fn tell(&mut self, name: &str, say: &mut Say) -> Result<(), Trouble> {
        match name {
            "clear_proposal_request" => {
                self.round.clear_proposal_request();
                say.ok()
            }
            "clear_verifying" => {
                self.round.clear_verifying();
                say.ok()
            }
            "abort_certify" => {
                let _handle = self.round.abort_certify();
                say.ok()
            }
            "abort_certify_handle" => self.abort_certify_handle(say),
            "latched_timeout" => say_timeout(self.round.latched_timeout(), say),
            "request_verify" => say.truth(self.round.request_verify()),
            "verified" => say.truth(self.round.verified()),
            "try_propose" => say_leader(self.round.try_propose().as_ref(), say),
            _ => self.make_vote(name, say),
        }
    }

    /// The same as `abort_certify`, with the handle that it answers.
    fn abort_certify_handle(&mut self, say: &mut Say) -> Result<(), Trouble> {
        match self.round.abort_certify() {
            Some(Token(handle)) => say.number(handle),
            None => say.none(),
        }
    }

    fn make_vote(&mut self, name: &str, say: &mut Say) -> Result<(), Trouble> {
        match name {
            "construct_notarize" => say.proposal_or(self.round.construct_notarize()),
            "construct_finalize" => say.proposal_or(self.round.construct_finalize()),
            "construct_nullify" => match self.round.construct_nullify() {
                Some(is_retry) => say.truth(is_retry),
                None => say.none(),
            },
            _ => self.hand_out(name, say),
        }
    }

    fn hand_out(&mut self, name: &str, say: &mut Say) -> Result<(), Trouble> {
        match name {
            "broadcast_notarization" => {
                say.notarization_or(self.round.broadcast_notarization(say.alloc)?.as_ref())
            }
            "broadcast_nullification" => {
                say.nullification_or(self.round.broadcast_nullification(say.alloc)?.as_ref())
            }
            "broadcast_finalization" => {
                say.finalization_or(self.round.broadcast_finalization(say.alloc)?.as_ref())
            }
            _ => self.ask_of_proposal(name, say),
        }
    }

    fn ask_of_proposal(&self, name: &str, say: &mut Say) -> Result<(), Trouble> {
        match name {
            "proposal" => say.proposal_or(self.round.proposal()),
            "has_unequivocated_proposal" => say.truth(self.round.has_unequivocated_proposal()),
            "is_verified" => say.truth(self.round.is_verified()),
            "should_propose" => say.truth(self.round.should_propose()),
            "leader" => say_leader(self.round.leader(), say),
            "pending_verification" => self.pending_verification(say),
            "verifying" => self.verifying(say),
            _ => self.ask_of_verdict(name, say),
        }
    }

    fn ask_of_verdict(&self, name: &str, say: &mut Say) -> Result<(), Trouble> {
        match name {
            "pending_certification" => say.proposal_or(self.round.pending_certification()),
            "is_certified" => say.truth(self.round.is_certified()),
            "has_failed" => say.truth(self.round.has_failed()),
            "is_directly_notarized" => say.truth(self.round.is_directly_notarized()),
            "certified_proposal" => say.proposal_or(self.round.certified_proposal()),
            "certified_payload" => say.payload_or(self.round.certified_payload()),
            "certificate_ancestry_payload" => {
                say.payload_or(self.round.certificate_ancestry_payload())
            }
            _ => self.ask_of_votes(name, say),
        }
    }

    fn ask_of_votes(&self, name: &str, say: &mut Say) -> Result<(), Trouble> {
        match name {
            "can_construct_notarize" => say.truth(self.round.can_construct_notarize()),
            "can_construct_finalize" => say.truth(self.round.can_construct_finalize()),
            "broadcast_notarize" => say.truth(self.round.broadcast_notarize()),
            "broadcast_nullify" => say.truth(self.round.broadcast_nullify()),
            "broadcast_finalize" => say.truth(self.round.broadcast_finalize()),
            "is_entered" => say.truth(self.round.is_entered()),
            "stall_deadline" => say.optional(self.round.stall_deadline()),
            _ => self.ask_of_certificates(name, say),
        }
    }

    fn ask_of_certificates(&self, name: &str, say: &mut Say) -> Result<(), Trouble> {
        match name {
            "forwardable_proposal" => say.proposal_or(self.round.forwardable_proposal()),
            "notarization" => say.notarization_or(self.round.notarization()),
            "nullification" => say.nullification_or(self.round.nullification()),
            "finalization" => say.finalization_or(self.round.finalization()),
            _ => Err(Trouble::Unreadable),
        }
    }

    fn pending_verification(&self, say: &mut Say) -> Result<(), Trouble> {
        let Some((leader, proposal)) = self.round.pending_verification() else {
            return say.none();
        };
        say_leader(Some(&leader), say)?;
        say.gap()?;
        say.proposal(&proposal)
    }

    fn verifying(&self, say: &mut Say) -> Result<(), Trouble> {
        let Some((proposal, parent_payload)) = self.round.verifying() else {
            return say.none();
        };
        say.proposal(&proposal)?;
        say.gap()?;
        say.payload(&parent_payload)
    }
}

/// A proposal that ends the line.
fn last_proposal(words: &mut Words<'_>) -> Result<Proposal<Sha256Digest>, Trouble> {
    let proposal = words.proposal()?;
    words.end()?;
    Ok(proposal)
}

/// The word of a kind.
fn kind(words: &mut Words<'_>, kind: &str) -> Result<(), Trouble> {
    if words.word() == kind {
        return Ok(());
    }
    Err(Trouble::Unreadable)
}

/// The reason of this name.
fn reason_of(word: &str) -> Result<TimeoutReason, Trouble> {
    for reason in REASONS {
        if word == reason.as_str() {
            return Ok(reason);
        }
    }
    Err(Trouble::Unreadable)
}

/// `INDEX KEY` of a copy of the leader, or `-`.
fn say_leader(leader: Option<&Leader<PlainKey>>, say: &mut Say) -> Result<(), Trouble> {
    let Some(leader) = leader else {
        return say.none();
    };
    let leader = leader.duplicate(say.alloc)?;
    say.member(leader.idx)?;
    say.gap()?;
    say.key(&leader.key)
}

/// Whether the certificate was new, and the key of who is to be blamed for it.
fn say_added(answer: (bool, Option<PlainKey>), say: &mut Say) -> Result<(), Trouble> {
    say.truth(answer.0)?;
    say.gap()?;
    say.key_or(answer.1)
}
