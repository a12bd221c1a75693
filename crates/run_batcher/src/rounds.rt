//! Calls on a round.

use crate::answers::{kind_of, say_admission, say_batch, say_cast, say_fault};
use crate::flood::pour;
use crate::lists;
use simplex_batcher::Round;
use std::alloc::Global;
use std::rc::Rc;
use test_messages::{CertificateWords, MessageWords};
use test_words::{Committee, Say, Trouble, Words};
use types_core::Sha256Digest;

/// A round, and the size of its committee.
#[derive(Drop)]
pub(crate) struct Votes<S: Committee> {
    n: u32,
    round: Round<S, Sha256Digest>,
}

impl<S: Committee> Votes<S> {
    /// `N ME EPOCH VIEW MODE`.
    pub(crate) fn new(alloc: Global, words: &mut Words<'_>) -> Result<Self, Trouble> {
        let n = words.index()?;
        let me = words.optional_member()?;
        let at = words.round()?;
        let mode = words.word();
        words.end()?;
        let scheme = S::member_of(alloc, n, me, 0)?;
        let scheme = Rc::new(alloc, scheme)?;
        let round = match mode {
            "new" => Round::new(alloc, at, scheme, false),
            "track" => Round::new(alloc, at, scheme, true),
            "skipped" => Round::skipped(alloc, at, scheme),
            _ => return Err(Trouble::Unreadable),
        };
        Ok(Votes { n, round })
    }

    /// Makes the call of this name.
    pub(crate) fn call(
        &mut self,
        name: &str,
        words: &mut Words<'_>,
        say: &mut Say,
    ) -> Result<(), Trouble> {
        match name {
            "add_network" => self.add_network(words, say),
            "accept_vote" => self.accept_vote(words, say),
            "record_certificate" => self.record_certificate(words, say),
            "set_leader" => self.set_leader(words, say),
            "try_construct" => self.try_construct(words, say),
            "try_forward_proposal" => self.try_forward_proposal(words, say),
            "flood" => self.flood(words, say),
            "run" => lists::answer(&mut self.round, self.n, words, say),
            _ => self.ask(name, words, say),
        }
    }

    fn add_network(&mut self, words: &mut Words<'_>, say: &mut Say) -> Result<(), Trouble> {
        let sender = words.member()?;
        let vote = words.vote(say.alloc, self.n)?;
        words.end()?;
        match self.round.add_network(sender, vote) {
            Ok(admission) => say_admission(&admission, say),
            Err(fault) => say_fault(fault, say),
        }
    }

    fn accept_vote(&mut self, words: &mut Words<'_>, say: &mut Say) -> Result<(), Trouble> {
        let vote = words.vote(say.alloc, self.n)?;
        words.end()?;
        match self.round.accept_vote(vote) {
            Ok(report) => say_cast(&report, say),
            Err(fault) => say_fault(fault, say),
        }
    }

    fn record_certificate(&mut self, words: &mut Words<'_>, say: &mut Say) -> Result<(), Trouble> {
        let certificate = words.certificate(say.alloc, self.n)?;
        words.end()?;
        match self.round.record_certificate(&certificate) {
            Ok(selects) => say.truth(selects),
            Err(fault) => say_fault(fault, say),
        }
    }

    fn set_leader(&mut self, words: &mut Words<'_>, say: &mut Say) -> Result<(), Trouble> {
        let leader = words.member()?;
        words.end()?;
        match self.round.set_leader(leader) {
            Ok(()) => say.ok(),
            Err(fault) => say_fault(fault, say),
        }
    }

    fn try_construct(&mut self, words: &mut Words<'_>, say: &mut Say) -> Result<(), Trouble> {
        words.end()?;
        say_batch(&self.round.try_construct(say.alloc)?, say)
    }

    fn try_forward_proposal(
        &mut self,
        words: &mut Words<'_>,
        say: &mut Say,
    ) -> Result<(), Trouble> {
        let me = words.member()?;
        words.end()?;
        say.proposal_or(self.round.try_forward_proposal(me))
    }

    /// `flood TIMES EPOCH VIEW`: how many votes are accepted, blocked and reported of a flood of each member's.
    fn flood(&mut self, words: &mut Words<'_>, say: &mut Say) -> Result<(), Trouble> {
        let times = words.small()?;
        let at = words.round()?;
        words.end()?;
        pour(&mut self.round, self.n, times, &at, say)
    }

    /// The calls that change nothing.
    fn ask(&self, name: &str, words: &mut Words<'_>, say: &mut Say) -> Result<(), Trouble> {
        match name {
            "has_certificate" => self.has_certificate(words, say),
            "has_nullify" => self.has_nullify(words, say),
            "is_missing_voter" => self.is_missing_voter(words, say),
            "missing_voters" => self.missing_voters(words, say),
            "belongs" => self.belongs(words, say),
            "belongs_certificate" => self.belongs_certificate(words, say),
            _ => Err(Trouble::Unreadable),
        }
    }

    fn has_certificate(&self, words: &mut Words<'_>, say: &mut Say) -> Result<(), Trouble> {
        let kind = kind_of(words.word())?;
        words.end()?;
        say.truth(self.round.has_certificate(kind))
    }

    fn has_nullify(&self, words: &mut Words<'_>, say: &mut Say) -> Result<(), Trouble> {
        let signer = words.member()?;
        words.end()?;
        say.truth(self.round.has_nullify(signer))
    }

    fn is_missing_voter(&self, words: &mut Words<'_>, say: &mut Say) -> Result<(), Trouble> {
        let signer = words.member()?;
        let proposal = words.proposal()?;
        words.end()?;
        say.truth(self.round.is_missing_voter(&proposal, signer))
    }

    fn missing_voters(&self, words: &mut Words<'_>, say: &mut Say) -> Result<(), Trouble> {
        let proposal = words.proposal()?;
        words.end()?;
        say.members(&self.round.missing_voters(say.alloc, &proposal)?)
    }

    fn belongs(&self, words: &mut Words<'_>, say: &mut Say) -> Result<(), Trouble> {
        let vote = words.vote(say.alloc, self.n)?;
        words.end()?;
        say.truth(self.round.belongs(&vote))
    }

    fn belongs_certificate(&self, words: &mut Words<'_>, say: &mut Say) -> Result<(), Trouble> {
        let certificate = words.certificate(say.alloc, self.n)?;
        words.end()?;
        say.truth(self.round.belongs_certificate(&certificate))
    }
}
