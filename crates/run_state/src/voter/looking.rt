//! What a voter asks its application, and others, about proposals.

use crate::reading::{two_numbers, view_and_reason};
use crate::voter::Voter;
use simplex_state::{CertificateFetch, Verify};
use simplex_types::PlainKey;
use test_words::{Committee, Say, Trouble, Words};
use types_core::{Proposal, Scheme, Sha256Digest, View};
use types_terms::Elector;
use voter_history::Token;

/// Says what is asked for, to judge the proposals of others.
pub(super) fn wanted(
    say: &mut Say,
    wanted: &Verify<Sha256Digest, PlainKey>,
) -> Result<(), Trouble> {
    match wanted {
        Verify::Ready(context, proposal) => {
            say.text("Ready ")?;
            say.context(context)?;
            say.gap()?;
            say.proposal(proposal)
        }
        Verify::Resolve {
            proposal,
            view,
            kind,
            target,
        } => {
            say.text("Resolve ")?;
            say.view(*proposal)?;
            say.gap()?;
            say.view(*view)?;
            say.gap()?;
            say.text(kind.as_str())?;
            say.gap()?;
            say.key(target)
        }
        Verify::Wait => say.text("Wait"),
    }
}

/// Says on which proposals verdicts are to be asked for.
fn ready(say: &mut Say, proposals: &[Proposal<Sha256Digest>]) -> Result<(), Trouble> {
    let Some((first, rest)) = proposals.split_first() else {
        return say.none();
    };
    say.proposal(first)?;
    for proposal in rest {
        say.text(" , ")?;
        say.proposal(proposal)?;
    }
    Ok(())
}

/// Says which notarization is to be asked for, and for whose verdict.
fn fetch(say: &mut Say, fetch: &CertificateFetch) -> Result<(), Trouble> {
    say.view(fetch.proposal)?;
    say.gap()?;
    say.view(fetch.view)
}

/// Says which notarizations are to be asked for.
fn fetches(say: &mut Say, fetches: &[CertificateFetch]) -> Result<(), Trouble> {
    let Some((first, rest)) = fetches.split_first() else {
        return say.none();
    };
    fetch(say, first)?;
    for next in rest {
        say.text(" , ")?;
        fetch(say, next)?;
    }
    Ok(())
}

impl<S: Committee + Scheme<Sha256Digest, PublicKey = PlainKey>, L: Elector<S, Sha256Digest>> Voter<
    S,
    L,
> {
    /// What is asked of proposals, and what is answered.
    pub fn looked_at(
        &mut self,
        name: &str,
        words: &mut Words<'_>,
        say: &mut Say,
    ) -> Result<(), Trouble> {
        match name {
            "verification_failed" => {
                let _first = self.failed(words)?;
                say.ok()
            }
            "is_first_failure" => {
                let is_first = self.failed(words)?;
                say.truth(is_first)
            }
            "set_certify_handle" => {
                let (view, handle) = two_numbers(words)?;
                self.state
                    .set_certify_handle(View::new(view), Token(handle))?;
                say.ok()
            }
            "try_verify_from" => {
                let (now, from) = two_numbers(words)?;
                wanted(say, &self.state.try_verify_from(now, View::new(from))?)
            }
            _ => self.given_up(name, words, say),
        }
    }

    /// `NOW VIEW REASON`: a proposal wasn't found good, and whether that is the first reason to give its view up.
    fn failed(&mut self, words: &mut Words<'_>) -> Result<bool, Trouble> {
        let now = words.number()?;
        let (view, reason) = view_and_reason(words)?;
        Ok(self.state.verification_failed(now, view, reason)?)
    }

    /// What is to be asked for verdicts.
    pub(super) fn candidates(&mut self, say: &mut Say) -> Result<(), Trouble> {
        let (proposals, certificates) = self.state.certify_candidates(say.alloc)?;
        say.text("ready ")?;
        ready(say, &proposals)?;
        say.text(" fetch ")?;
        fetches(say, &certificates)
    }
}
