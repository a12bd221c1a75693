//! Two votes that contradict each other.

use crate::types::{Finalize, Nullify, NullifyFinalize};
use simplex_messages::{ConflictingVotes, Finalizing, Notarizing, ProposalKind, ProposalVote};
use std::alloc::Global;
use test_words::{Committee, Say, Trouble, Words};
use types_core::{Read, Round, Sha256Digest, Write};

/// The values that the next two words spell.
fn two<T: Read + Drop, U: Read + Drop>(
    words: &mut Words<'_>,
    alloc: Global,
) -> Result<(T, U), Trouble> {
    let first = words.value(alloc, u32::MAX)?;
    let second = words.value(alloc, u32::MAX)?;
    Ok((first, second))
}

/// Says evidence, its votes and its round.
fn say_evidence<E: Write, T: Write, U: Write>(
    evidence: &E,
    first: &T,
    second: &U,
    round: &Round,
    say: &mut Say,
) -> Result<(), Trouble> {
    say.value(evidence)?;
    say.gap()?;
    say.value(first)?;
    say.gap()?;
    say.value(second)?;
    say.gap()?;
    say.round(round)
}

/// `contradict KIND VOTE VOTE`: whether the first contradicts the second.
pub fn contradict<S: Committee>(words: &mut Words<'_>, say: &mut Say) -> Result<(), Trouble> {
    match words.word() {
        "notarize" => contradict_of::<Notarizing, S>(words, say),
        "finalize" => contradict_of::<Finalizing, S>(words, say),
        _ => Err(Trouble::Unreadable),
    }
}

fn contradict_of<K: ProposalKind<Sha256Digest>, S: Committee>(
    words: &mut Words<'_>,
    say: &mut Say,
) -> Result<(), Trouble> {
    let (first, second): (ProposalVote<K, S, Sha256Digest>, _) = two(words, say.alloc)?;
    say.truth(first.contradicts(&second))
}

/// `conflict KIND VOTE VOTE`: the evidence, its votes and its round.
pub fn conflict<S: Committee>(words: &mut Words<'_>, say: &mut Say) -> Result<(), Trouble> {
    match words.word() {
        "notarize" => conflict_of::<Notarizing, S>(words, say),
        "finalize" => conflict_of::<Finalizing, S>(words, say),
        _ => Err(Trouble::Unreadable),
    }
}

fn conflict_of<K: ProposalKind<Sha256Digest>, S: Committee>(
    words: &mut Words<'_>,
    say: &mut Say,
) -> Result<(), Trouble> {
    let (first, second): (ProposalVote<K, S, Sha256Digest>, _) = two(words, say.alloc)?;
    if !first.contradicts(&second) {
        return Err(Trouble::Condition);
    }
    let evidence = ConflictingVotes::new(first, second);
    say_evidence(
        &evidence,
        evidence.first(),
        evidence.second(),
        &evidence.round(),
        say,
    )
}

/// `beside NULLIFY FINALIZE`: whether the first contradicts the second.
pub fn beside<S: Committee>(words: &mut Words<'_>, say: &mut Say) -> Result<(), Trouble> {
    let (nullify, finalize) = two::<Nullify<S>, Finalize<S>>(words, say.alloc)?;
    say.truth(nullify.stands_beside(&finalize))
}

/// `nullify_finalize NULLIFY FINALIZE`: the evidence, its votes and its round.
pub fn nullify_finalize<S: Committee>(words: &mut Words<'_>, say: &mut Say) -> Result<(), Trouble> {
    let (nullify, finalize) = two::<Nullify<S>, Finalize<S>>(words, say.alloc)?;
    if !nullify.stands_beside(&finalize) {
        return Err(Trouble::Condition);
    }
    let evidence = NullifyFinalize::new(nullify, finalize);
    say_evidence(
        &evidence,
        evidence.nullify(),
        evidence.finalize(),
        &evidence.round(),
        say,
    )
}
