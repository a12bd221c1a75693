//! Calls on the votes of a round that count for certificates.

use crate::answers::{say_batch, say_fault};
use simplex_batcher::Verifier;
use simplex_messages::Notarize;
use simplex_types::PlainScheme;
use std::alloc::Global;
use std::rc::Rc;
use test_messages::{CertificateWords, MessageWords};
use test_words::{Committee, Say, Trouble, Words};
use types_core::Sha256Digest;

/// A verifier, and the size of its committee.
#[derive(Drop)]
pub(crate) struct Desk {
    n: u32,
    verifier: Verifier<PlainScheme, Sha256Digest>,
}

impl Desk {
    /// `N NEEDED EPOCH VIEW`.
    pub(crate) fn new(alloc: Global, words: &mut Words<'_>) -> Result<Self, Trouble> {
        let n = words.index()?;
        let needed = words.index()?;
        let at = words.round()?;
        words.end()?;
        let scheme = PlainScheme::member_of(alloc, n, None, 0)?;
        let scheme = Rc::new(alloc, scheme)?;
        Ok(Desk {
            n,
            verifier: Verifier::new(alloc, at, scheme, needed),
        })
    }

    /// Makes the call of this name.
    pub(crate) fn call(
        &mut self,
        name: &str,
        words: &mut Words<'_>,
        say: &mut Say,
    ) -> Result<(), Trouble> {
        match name {
            "add" => self.add(words, say),
            "set_leader" => self.set_leader(words, say),
            _ => {
                words.end()?;
                self.construct(name, say)
            }
        }
    }

    /// `add VERIFIED VOTE`: whether it was added, one that is known to attest, or one that waits to be judged.
    fn add(&mut self, words: &mut Words<'_>, say: &mut Say) -> Result<(), Trouble> {
        let is_verified = words.truth()?;
        let vote = words.vote(say.alloc, self.n)?;
        words.end()?;
        let added = self.verifier.add(vote, is_verified)?;
        say.truth(added)
    }

    /// `set_leader I -`, or `set_leader I VOTE` with the leader's notarize.
    fn set_leader(&mut self, words: &mut Words<'_>, say: &mut Say) -> Result<(), Trouble> {
        let leader = words.member()?;
        let notarize: Option<Notarize<PlainScheme, Sha256Digest>> = match words.word() {
            "-" => None,
            "notarize" => Some(words.notarize(say.alloc, self.n)?),
            _ => return Err(Trouble::Unreadable),
        };
        words.end()?;
        match self.verifier.set_leader(leader, notarize.as_ref()) {
            Ok(()) => say.ok(),
            Err(fault) => say_fault(fault, say),
        }
    }

    fn construct(&mut self, name: &str, say: &mut Say) -> Result<(), Trouble> {
        let verifier = &mut self.verifier;
        match name {
            "try_construct_notarization" => {
                say_batch(&verifier.try_construct_notarization(say.alloc)?, say)
            }
            "try_construct_nullification" => {
                say_batch(&verifier.try_construct_nullification(say.alloc)?, say)
            }
            "try_construct_finalization" => {
                say_batch(&verifier.try_construct_finalization(say.alloc)?, say)
            }
            _ => self.ask(name, say),
        }
    }

    /// The calls that change nothing.
    fn ask(&self, name: &str, say: &mut Say) -> Result<(), Trouble> {
        match name {
            "leader" => match self.verifier.leader() {
                Some(leader) => say.member(leader),
                None => say.none(),
            },
            "proposal" => say.proposal_or(self.verifier.proposal().copied()),
            _ => Err(Trouble::Unreadable),
        }
    }
}
