//! Calls that the next word names the type of.

use crate::types::{
    Artifact, Certificate, Finalization, Finalize, Notarization, Notarize, Nullification, Nullify,
    NullifyFinalize, Report, TwoFinalizes, TwoNotarizes, Vote,
};
use simplex_messages::{
    ConflictingVotes, Finalizing, Notarizing, ProposalCertificate, ProposalKind, ProposalVote,
};
use std::hash::Hash;
use test_values as values;
use test_words::{Committee, Say, Trouble, Words};
use types_core::{
    Duplicate, EncodeSize, Epochable, MaxEncodeSize, Read, Sha256Digest, Viewable, Write,
};

/// A message of any type. A call at a type pays for each bound, so there is one.
trait Message: Read + EncodeSize + Epochable + Viewable + Duplicate + Eq + Hash + Drop {}

impl<K: ProposalKind<Sha256Digest>, S: Committee> Message for ProposalVote<K, S, Sha256Digest> {}

impl<K: ProposalKind<Sha256Digest>, S: Committee> Message
    for ProposalCertificate<K, S, Sha256Digest> {}

impl<K: ProposalKind<Sha256Digest>, S: Committee> Message
    for ConflictingVotes<K, S, Sha256Digest> {}

impl<S: Committee> Message for Nullify<S> {}

impl<S: Committee> Message for Nullification<S> {}

impl<S: Committee> Message for NullifyFinalize<S> {}

impl<S: Committee> Message for Vote<S> {}

impl<S: Committee> Message for Certificate<S> {}

impl<S: Committee> Message for Artifact<S> {}

impl<S: Committee> Message for Report<S> {}

/// What is asked of a message of any type.
fn of_message<T: Message>(name: &str, words: &mut Words<'_>, say: &mut Say) -> Result<(), Trouble> {
    match name {
        "read" => values::read::<T>(words, say),
        "cuts" => values::cuts::<T>(words, say),
        "changes" => values::changes::<T>(words, say),
        "belongs" => values::belongs::<T>(words, say),
        "distinct" => values::distinct::<T>(words, say),
        "equal" => values::equal::<T>(words, say),
        _ => Err(Trouble::Unreadable),
    }
}

/// The same of a vote for a proposal.
fn of_vote<K: ProposalKind<Sha256Digest>, S: Committee>(
    name: &str,
    words: &mut Words<'_>,
    say: &mut Say,
) -> Result<(), Trouble> {
    of_message::<ProposalVote<K, S, Sha256Digest>>(name, words, say)
}

/// The same of a certificate for a proposal.
fn of_certificate<K: ProposalKind<Sha256Digest>, S: Committee>(
    name: &str,
    words: &mut Words<'_>,
    say: &mut Say,
) -> Result<(), Trouble> {
    of_message::<ProposalCertificate<K, S, Sha256Digest>>(name, words, say)
}

/// The same of two votes for proposals.
fn of_conflict<K: ProposalKind<Sha256Digest>, S: Committee>(
    name: &str,
    words: &mut Words<'_>,
    say: &mut Say,
) -> Result<(), Trouble> {
    of_message::<ConflictingVotes<K, S, Sha256Digest>>(name, words, say)
}

/// `read`, `cuts`, `changes`, `belongs`, `distinct` and `equal`, of the type that the next word names.
pub fn value<S: Committee>(
    name: &str,
    words: &mut Words<'_>,
    say: &mut Say,
) -> Result<(), Trouble> {
    match words.word() {
        "notarize" => of_vote::<Notarizing, S>(name, words, say),
        "finalize" => of_vote::<Finalizing, S>(name, words, say),
        "notarization" => of_certificate::<Notarizing, S>(name, words, say),
        "finalization" => of_certificate::<Finalizing, S>(name, words, say),
        "two-notarizes" => of_conflict::<Notarizing, S>(name, words, say),
        "two-finalizes" => of_conflict::<Finalizing, S>(name, words, say),
        kind => other_value::<S>(kind, name, words, say),
    }
}

/// The same of the types that are of no kind of vote for a proposal.
fn other_value<S: Committee>(
    kind: &str,
    name: &str,
    words: &mut Words<'_>,
    say: &mut Say,
) -> Result<(), Trouble> {
    match kind {
        "nullify" => of_message::<Nullify<S>>(name, words, say),
        "nullification" => of_message::<Nullification<S>>(name, words, say),
        "nullify-finalize" => of_message::<NullifyFinalize<S>>(name, words, say),
        "vote" => of_message::<Vote<S>>(name, words, say),
        "certificate" => of_message::<Certificate<S>>(name, words, say),
        "artifact" => of_message::<Artifact<S>>(name, words, say),
        "report" => of_message::<Report<S>>(name, words, say),
        _ => Err(Trouble::Unreadable),
    }
}

/// `signer TYPE BYTES`.
pub fn signer<S: Committee>(words: &mut Words<'_>, say: &mut Say) -> Result<(), Trouble> {
    match words.word() {
        "notarize" => values::signer::<Notarize<S>>(words, say),
        "nullify" => values::signer::<Nullify<S>>(words, say),
        "finalize" => values::signer::<Finalize<S>>(words, say),
        "vote" => values::signer::<Vote<S>>(words, say),
        "two-notarizes" => values::signer::<TwoNotarizes<S>>(words, say),
        "two-finalizes" => values::signer::<TwoFinalizes<S>>(words, say),
        "nullify-finalize" => values::signer::<NullifyFinalize<S>>(words, say),
        _ => Err(Trouble::Unreadable),
    }
}

/// `most TYPE`: the most bytes of a spelling. Of a certificate the committee's size stands behind it.
pub fn most<S: Committee>(words: &mut Words<'_>, say: &mut Say) -> Result<(), Trouble> {
    let most = match words.word() {
        "notarize" => Notarize::<S>::max_encode_size(),
        "nullify" => Nullify::<S>::max_encode_size(),
        "finalize" => Finalize::<S>::max_encode_size(),
        "vote" => Vote::<S>::max_encode_size(),
        "two-notarizes" => TwoNotarizes::<S>::max_encode_size(),
        "two-finalizes" => TwoFinalizes::<S>::max_encode_size(),
        "nullify-finalize" => NullifyFinalize::<S>::max_encode_size(),
        kind => most_of_certificate::<S>(kind, words)?,
    };
    say.number(most as u64)
}

fn most_of_certificate<S: Committee>(kind: &str, words: &mut Words<'_>) -> Result<usize, Trouble> {
    let participants = words.index()?;
    match kind {
        "notarization" => Ok(Notarization::<S>::max_encode_size(participants)),
        "nullification" => Ok(Nullification::<S>::max_encode_size(participants)),
        "finalization" => Ok(Finalization::<S>::max_encode_size(participants)),
        "certificate" => Ok(Certificate::<S>::max_encode_size(participants)),
        _ => Err(Trouble::Unreadable),
    }
}

/// `within BOUND ARTIFACT`.
pub fn is_within<S: Committee>(words: &mut Words<'_>, say: &mut Say) -> Result<(), Trouble> {
    let bound = words.index()?;
    let artifact: Artifact<S> = words.value(say.alloc, u32::MAX)?;
    say.truth(artifact.is_within(bound))
}

/// Says what the value becomes that the next word spells.
fn say_become<T: Read + Drop, U: From<T> + Write + Drop>(
    words: &mut Words<'_>,
    say: &mut Say,
) -> Result<(), Trouble> {
    let value: T = words.value(say.alloc, u32::MAX)?;
    say.value(&U::from(value))
}

/// `becomes vote BYTES`, `becomes certificate BYTES`: the artifact that it becomes.
pub fn becomes<S: Committee>(words: &mut Words<'_>, say: &mut Say) -> Result<(), Trouble> {
    match words.word() {
        "vote" => say_become::<Vote<S>, Artifact<S>>(words, say),
        "certificate" => say_become::<Certificate<S>, Artifact<S>>(words, say),
        _ => Err(Trouble::Unreadable),
    }
}

/// `reports vote BYTES`, `reports certificate BYTES`: the report of it.
pub fn reports<S: Committee>(words: &mut Words<'_>, say: &mut Say) -> Result<(), Trouble> {
    match words.word() {
        "vote" => say_become::<Vote<S>, Report<S>>(words, say),
        "certificate" => say_become::<Certificate<S>, Report<S>>(words, say),
        _ => Err(Trouble::Unreadable),
    }
}

/// `certification EPOCH VIEW TRUTH`: the artifact.
pub fn certification<S: Committee>(words: &mut Words<'_>, say: &mut Say) -> Result<(), Trouble> {
    let round = words.round()?;
    let artifact = Artifact::<S>::Certification(round, words.truth()?);
    say.value(&artifact)
}
