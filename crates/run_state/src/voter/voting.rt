//! What a voter votes, and when it gives a view up.

use crate::reading::view_and_reason;
use crate::voter::Voter;
use messages_certificates::{Finalize, Notarize, Nullify};
use simplex_types::PlainKey;
use test_messages::SayCertificates;
use test_words::{Committee, Say, Trouble, Words};
use types_core::{Scheme, Sha256Digest, View};
use types_terms::Elector;
use voter_history::TimeoutReason;

/// Says a vote to notarize, where there is one.
fn notarize<S: Committee>(
    say: &mut Say,
    vote: Option<Notarize<S, Sha256Digest>>,
) -> Result<(), Trouble> {
    match vote {
        Some(vote) => say.notarize(&vote),
        None => say.none(),
    }
}

/// Says a vote to finalize, where there is one.
fn finalize<S: Committee>(
    say: &mut Say,
    vote: Option<Finalize<S, Sha256Digest>>,
) -> Result<(), Trouble> {
    match vote {
        Some(vote) => say.finalize(&vote),
        None => say.none(),
    }
}

/// Says whether a view was given up before, and the vote for that, where there is one.
fn nullify<S: Committee>(
    say: &mut Say,
    vote: Option<(bool, Nullify<S, Sha256Digest>)>,
) -> Result<(), Trouble> {
    match vote {
        Some((is_repetition, vote)) => {
            say.truth(is_repetition)?;
            say.gap()?;
            say.nullify(&vote)
        }
        None => say.none(),
    }
}

/// Says when and why the current view is given up, if it is.
pub(super) fn timeout(say: &mut Say, next: Option<(u64, TimeoutReason)>) -> Result<(), Trouble> {
    match next {
        Some((moment, reason)) => {
            say.number(moment)?;
            say.gap()?;
            say.text(reason.as_str())
        }
        None => say.none(),
    }
}

impl<S: Committee + Scheme<Sha256Digest, PublicKey = PlainKey>, L: Elector<S, Sha256Digest>> Voter<
    S,
    L,
> {
    /// What is voted in a view, and done with its proposal.
    pub fn voted(&mut self, name: &str, view: View, say: &mut Say) -> Result<(), Trouble> {
        match name {
            "construct_notarize" => notarize(say, self.state.construct_notarize(view)?),
            "construct_finalize" => finalize(say, self.state.construct_finalize(view)),
            "verified" => say.truth(self.state.verified(view)?),
            "release_proposal_request" => {
                self.state.release_proposal_request(view)?;
                say.ok()
            }
            _ => self.of_a_view(name, view, say),
        }
    }

    /// When a view is given up.
    pub fn given_up(
        &mut self,
        name: &str,
        words: &mut Words<'_>,
        say: &mut Say,
    ) -> Result<(), Trouble> {
        match name {
            "trigger_timeout" => {
                let _first = self.latched(words)?;
                say.ok()
            }
            "is_first_reason" => {
                let is_first = self.latched(words)?;
                say.truth(is_first)
            }
            "construct_nullify" => {
                let (view, reason) = view_and_reason(words)?;
                nullify(say, self.state.construct_nullify(view, reason)?)
            }
            "may_latch" => {
                let (view, reason) = view_and_reason(words)?;
                say.truth(self.state.may_latch(view, reason))
            }
            _ => self.seen(name, words, say),
        }
    }

    /// `NOW VIEW REASON`: why a view is given up, and whether that is the first reason.
    fn latched(&mut self, words: &mut Words<'_>) -> Result<bool, Trouble> {
        let now = words.number()?;
        let (view, reason) = view_and_reason(words)?;
        Ok(self.state.trigger_timeout(now, view, reason)?)
    }
}
