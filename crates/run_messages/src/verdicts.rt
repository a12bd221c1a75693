//! Whose signatures are taken.

use crate::types::{
    Certificate, Finalization, Finalize, Notarization, Notarize, Nullification, Nullify,
    NullifyFinalize, Report, TwoFinalizes, TwoNotarizes, committee,
};
use simplex_messages::{
    ConflictingVotes, ProposalCertificate, ProposalKind, ProposalVote, verify_certificates,
};
use test_values as values;
use test_words::{Committee, Say, Trouble, Words};
use types_core::{Read, Sha256Digest};

/// `verify TYPE MEMBERS BYTES`.
pub fn verify<S: Committee>(words: &mut Words<'_>, say: &mut Say) -> Result<(), Trouble> {
    let kind = words.word();
    let scheme: S = committee(words, say)?;
    verify_by(kind, &scheme, words, say)
}

/// A message whose signatures a scheme takes or doesn't.
trait Judged<S>: Read + Drop {
    /// Whether it takes them.
    fn is_taken(&self, scheme: &S) -> bool;
}

impl<K: ProposalKind<Sha256Digest>, S: Committee> Judged<S> for ProposalVote<K, S, Sha256Digest> {
    fn is_taken(&self, scheme: &S) -> bool {
        self.verify(scheme)
    }
}

impl<K: ProposalKind<Sha256Digest>, S: Committee> Judged<S>
    for ProposalCertificate<K, S, Sha256Digest> {
    fn is_taken(&self, scheme: &S) -> bool {
        self.verify(scheme)
    }
}

impl<K: ProposalKind<Sha256Digest>, S: Committee> Judged<S>
    for ConflictingVotes<K, S, Sha256Digest> {
    fn is_taken(&self, scheme: &S) -> bool {
        self.verify(scheme)
    }
}

impl<S: Committee> Judged<S> for Nullify<S> {
    fn is_taken(&self, scheme: &S) -> bool {
        self.verify(scheme)
    }
}

impl<S: Committee> Judged<S> for Nullification<S> {
    fn is_taken(&self, scheme: &S) -> bool {
        self.verify(scheme)
    }
}

impl<S: Committee> Judged<S> for Certificate<S> {
    fn is_taken(&self, scheme: &S) -> bool {
        self.verify(scheme)
    }
}

impl<S: Committee> Judged<S> for NullifyFinalize<S> {
    fn is_taken(&self, scheme: &S) -> bool {
        self.verify(scheme)
    }
}

impl<S: Committee> Judged<S> for Report<S> {
    fn is_taken(&self, scheme: &S) -> bool {
        self.verify(scheme)
    }
}

/// Whether the scheme takes the message that the next word spells.
fn judge<T: Judged<S>, S: Committee>(
    scheme: &S,
    words: &mut Words<'_>,
    say: &mut Say,
) -> Result<(), Trouble> {
    let message: T = words.value(say.alloc, u32::MAX)?;
    say.truth(message.is_taken(scheme))
}

fn verify_by<S: Committee>(
    kind: &str,
    scheme: &S,
    words: &mut Words<'_>,
    say: &mut Say,
) -> Result<(), Trouble> {
    match kind {
        "notarize" => judge::<Notarize<S>, S>(scheme, words, say),
        "finalize" => judge::<Finalize<S>, S>(scheme, words, say),
        "notarization" => judge::<Notarization<S>, S>(scheme, words, say),
        "finalization" => judge::<Finalization<S>, S>(scheme, words, say),
        "two-notarizes" => judge::<TwoNotarizes<S>, S>(scheme, words, say),
        "two-finalizes" => judge::<TwoFinalizes<S>, S>(scheme, words, say),
        _ => verify_other(kind, scheme, words, say),
    }
}

/// The same of the types that are of no kind of vote for a proposal.
fn verify_other<S: Committee>(
    kind: &str,
    scheme: &S,
    words: &mut Words<'_>,
    say: &mut Say,
) -> Result<(), Trouble> {
    match kind {
        "nullify" => judge::<Nullify<S>, S>(scheme, words, say),
        "nullification" => judge::<Nullification<S>, S>(scheme, words, say),
        "certificate" => judge::<Certificate<S>, S>(scheme, words, say),
        "nullify-finalize" => judge::<NullifyFinalize<S>, S>(scheme, words, say),
        "report" => judge::<Report<S>, S>(scheme, words, say),
        _ => Err(Trouble::Unreadable),
    }
}

/// `verified REPORT`: whether it was verified before it was reported.
pub fn verified<S: Committee>(words: &mut Words<'_>, say: &mut Say) -> Result<(), Trouble> {
    let report: Report<S> = words.value(say.alloc, u32::MAX)?;
    say.truth(report.verified())
}

/// `certificates MEMBERS CERTIFICATE..`: whether each certifies.
pub fn certificates<S: Committee>(words: &mut Words<'_>, say: &mut Say) -> Result<(), Trouble> {
    let answers = certified::<S>(words, say)?;
    say.number(answers.len() as u64)?;
    for answer in &answers {
        say.gap()?;
        say.truth(*answer)?;
    }
    Ok(())
}

fn certified<S: Committee>(words: &mut Words<'_>, say: &Say) -> Result<Vec<bool>, Trouble> {
    let scheme: S = committee(words, say)?;
    let certificates = values::all::<Certificate<S>>(words, say.alloc)?;
    Ok(verify_certificates(say.alloc, &scheme, &certificates)?)
}
