//! Votes of any kind and reports, said.

use crate::saying_certificates::SayCertificates;
use simplex_messages::{Activity, ConflictingFinalize, ConflictingNotarize, NullifyFinalize, Vote};
use test_words::{Committee, Say, Trouble};
use types_core::Sha256Digest;

/// Votes of any kind and reports in the words of scripts.
pub trait SayMessages {
    /// A vote of any kind.
    fn vote<S: Committee>(&mut self, vote: &Vote<S, Sha256Digest>) -> Result<(), Trouble>;

    /// What a member reports, or `-`.
    fn report<S: Committee>(
        &mut self,
        report: &Option<Activity<S, Sha256Digest>>,
    ) -> Result<(), Trouble>;
}

impl SayMessages for Say {
    fn vote<S: Committee>(&mut self, vote: &Vote<S, Sha256Digest>) -> Result<(), Trouble> {
        match vote {
            Vote::Notarize(vote) => self.notarize(vote),
            Vote::Nullify(vote) => self.nullify(vote),
            Vote::Finalize(vote) => self.finalize(vote),
        }
    }

    fn report<S: Committee>(
        &mut self,
        report: &Option<Activity<S, Sha256Digest>>,
    ) -> Result<(), Trouble> {
        let Some(activity) = report else {
            return self.none();
        };
        match activity {
            Activity::Notarize(vote) => self.notarize(vote),
            Activity::Nullify(vote) => self.nullify(vote),
            Activity::Finalize(vote) => self.finalize(vote),
            Activity::ConflictingNotarize(votes) => conflicting_notarize(self, votes),
            Activity::ConflictingFinalize(votes) => conflicting_finalize(self, votes),
            Activity::NullifyFinalize(votes) => nullify_finalize(self, votes),
            _ => certified(self, activity),
        }
    }
}

fn conflicting_notarize<S: Committee>(
    say: &mut Say,
    votes: &ConflictingNotarize<S, Sha256Digest>,
) -> Result<(), Trouble> {
    say.text("conflicting-notarize ")?;
    say.notarize(votes.first())?;
    say.gap()?;
    say.notarize(votes.second())
}

fn conflicting_finalize<S: Committee>(
    say: &mut Say,
    votes: &ConflictingFinalize<S, Sha256Digest>,
) -> Result<(), Trouble> {
    say.text("conflicting-finalize ")?;
    say.finalize(votes.first())?;
    say.gap()?;
    say.finalize(votes.second())
}

fn nullify_finalize<S: Committee>(
    say: &mut Say,
    votes: &NullifyFinalize<S, Sha256Digest>,
) -> Result<(), Trouble> {
    say.text("nullify-finalize ")?;
    say.nullify(votes.nullify())?;
    say.gap()?;
    say.finalize(votes.finalize())
}

/// A report of a certificate.
fn certified<S: Committee>(
    say: &mut Say,
    activity: &Activity<S, Sha256Digest>,
) -> Result<(), Trouble> {
    match activity {
        Activity::Notarization(certificate) => say.notarization(certificate),
        Activity::Certification(certificate) => {
            say.text("certification ")?;
            say.notarization(certificate)
        }
        Activity::Nullification(certificate) => say.nullification(certificate),
        Activity::Finalization(certificate) => say.finalization(certificate),
        _ => say.none(),
    }
}
