//! What a voter learns.

use crate::reading::{kind, last_floor, last_payload, last_truth};
use crate::voter::Voter;
use crate::voter::knowing::{finalized, notarized};
use messages_certificates::{Artifact, Finalization, Notarization, Nullification};
use simplex_types::PlainKey;
use std::alloc::Global;
use test_messages::CertificateWords;
use test_words::{Committee, Say, Trouble, Words};
use types_core::{Scheme, Sha256Digest, View};
use types_terms::Elector;

/// Says whether a certificate is the first of its view, and whose proposal it took the place of.
fn added(say: &mut Say, added: (bool, Option<PlainKey>)) -> Result<(), Trouble> {
    let (is_first, leader) = added;
    say.truth(is_first)?;
    say.gap()?;
    say.key_or(leader)
}

/// `notarization ..` of a committee of so many, which ends the line.
fn notarization<S: Committee>(
    alloc: Global,
    words: &mut Words<'_>,
    participants: u32,
) -> Result<Notarization<S, Sha256Digest>, Trouble> {
    kind(words, "notarization")?;
    let certificate = words.notarization::<S>(alloc, participants)?;
    words.end()?;
    Ok(certificate)
}

/// `nullification ..` of a committee of so many, which ends the line.
fn nullification<S: Committee>(
    alloc: Global,
    words: &mut Words<'_>,
    participants: u32,
) -> Result<Nullification<S, Sha256Digest>, Trouble> {
    kind(words, "nullification")?;
    let certificate = words.nullification::<S>(alloc, participants)?;
    words.end()?;
    Ok(certificate)
}

/// `finalization ..` of a committee of so many, which ends the line.
fn finalization<S: Committee>(
    alloc: Global,
    words: &mut Words<'_>,
    participants: u32,
) -> Result<Finalization<S, Sha256Digest>, Trouble> {
    kind(words, "finalization")?;
    let certificate = words.finalization::<S>(alloc, participants)?;
    words.end()?;
    Ok(certificate)
}

/// An artifact of a committee of so many, which ends the line.
fn artifact<S: Committee>(
    alloc: Global,
    words: &mut Words<'_>,
    participants: u32,
) -> Result<Artifact<S, Sha256Digest>, Trouble> {
    let artifact = words.artifact::<S>(alloc, participants)?;
    words.end()?;
    Ok(artifact)
}

impl<S: Committee + Scheme<Sha256Digest, PublicKey = PlainKey>, L: Elector<S, Sha256Digest>> Voter<
    S,
    L,
> {
    /// What is learnt from others.
    pub fn learnt(
        &mut self,
        name: &str,
        words: &mut Words<'_>,
        say: &mut Say,
    ) -> Result<(), Trouble> {
        match name {
            "add_notarization" => self.add_notarization(words, say),
            "add_nullification" => self.add_nullification(words, say),
            "add_finalization" => self.add_finalization(words, say),
            "certified" => self.judged(words, say),
            "set_proposal" => self.forwarded(words, say),
            _ => self.kept_on(name, words, say),
        }
    }

    /// `notarization ..`.
    fn add_notarization(&mut self, words: &mut Words<'_>, say: &mut Say) -> Result<(), Trouble> {
        let certificate = notarization(say.alloc, words, self.participants)?;
        added(say, self.state.add_notarization(certificate)?)
    }

    /// `NOW nullification ..`.
    fn add_nullification(&mut self, words: &mut Words<'_>, say: &mut Say) -> Result<(), Trouble> {
        let now = words.number()?;
        let certificate = nullification(say.alloc, words, self.participants)?;
        say.truth(self.state.add_nullification(now, certificate)?)
    }

    /// `NOW finalization ..`.
    fn add_finalization(&mut self, words: &mut Words<'_>, say: &mut Say) -> Result<(), Trouble> {
        let now = words.number()?;
        let certificate = finalization(say.alloc, words, self.participants)?;
        added(say, self.state.add_finalization(now, certificate)?)
    }

    /// `NOW VIEW T`: a verdict.
    fn judged(&mut self, words: &mut Words<'_>, say: &mut Say) -> Result<(), Trouble> {
        let now = words.number()?;
        let view = words.view()?;
        let is_success = last_truth(words)?;
        notarized(say, self.state.certified(say.alloc, now, view, is_success)?)
    }

    /// `VIEW PROPOSAL`: what the view's leader proposes.
    fn forwarded(&mut self, words: &mut Words<'_>, say: &mut Say) -> Result<(), Trouble> {
        let view = words.view()?;
        let proposal = words.proposal()?;
        words.end()?;
        say.truth(self.state.set_proposal(view, &proposal)?)
    }

    /// What a voter starts from, and takes from its record.
    fn kept_on(&mut self, name: &str, words: &mut Words<'_>, say: &mut Say) -> Result<(), Trouble> {
        match name {
            "set_genesis" => {
                let now = words.number()?;
                self.state.set_genesis(now, last_payload(words)?)?;
                say.ok()
            }
            "set_floor" => self.floored(words, say),
            "replay" => self.replayed(words, say),
            _ => self.built(name, words, say),
        }
    }

    /// `NOW genesis K` or `NOW finalization ..`: a start.
    fn floored(&mut self, words: &mut Words<'_>, say: &mut Say) -> Result<(), Trouble> {
        let alloc = say.alloc;
        let now = words.number()?;
        let floor = last_floor(alloc, words, self.participants)?;
        finalized(say, self.state.set_floor(alloc, now, floor)?)
    }

    /// An artifact of the record.
    fn replayed(&mut self, words: &mut Words<'_>, say: &mut Say) -> Result<(), Trouble> {
        let artifact = artifact(say.alloc, words, self.participants)?;
        self.state.replay(&artifact)?;
        say.ok()
    }

    /// The views that a prune drops.
    pub(super) fn pruned(&mut self, say: &mut Say) -> Result<(), Trouble> {
        let views = self.state.prune(say.alloc)?;
        say_views(say, &views)
    }
}

/// Views with a comma between two, or `-`.
fn say_views(say: &mut Say, views: &[View]) -> Result<(), Trouble> {
    let Some((first, rest)) = views.split_first() else {
        return say.none();
    };
    say.view(*first)?;
    for view in rest {
        say.text(",")?;
        say.view(*view)?;
    }
    Ok(())
}
