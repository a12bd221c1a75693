//! The salted scheme.
//!
//! `salted N ME COUNTER SUBJECT ASKED`: of the committee of N as member ME sees it, or nobody where it is `-`, whose next
//! signature has this counter. SUBJECT is `notarize PROPOSAL`, `finalize PROPOSAL` or `nullify EPOCH VIEW`, ASKED one of
//!
//! - `sign TIMES`: the attestations of so many calls, one behind the other, `-` without a key
//! - `sign_with NAMED`: that of the counter that is named, and behind it that of a call of `sign`
//! - `verify HEX`: whether the attestation verifies
//! - `certifies HEX`: whether the list of attestations certifies the subject
//! - `failing HEX`: which signers of these attestations, one behind the other, failed
//! - `assemble HEX`: the list that `optimistic_assemble` makes of them, or `-`
//!
//! `seat N ME` is answered by the committee's size, the member and whether the scheme is batchable, `key N INDEX` by the
//! index that the member's key has, `assemble N HEX` by the list of the attestations, or by `insufficient` with how many
//! are needed and given, `signature HEX` by the signature that was read, its size, the greatest size of any, whether a
//! duplicate is equal, and how many bytes are left, or by why none was read, `taken HEX` by the signature that is taken
//! off the bytes, or `-`, and how many are left.

use crate::bytes::bytes_of;
use simplex_types::{
    AttestationList, SaltedScheme, SaltedSignature, signatures_of_two_counters_differ,
};
use std::alloc::Global;
use test_words::{Committee, Say, Trouble, Words};
use types_core::{
    AssemblyError, Attestation, Duplicate, EncodeSize, MaxEncodeSize, Read, Scheme, Sha256Digest,
    Signature, Subject, Write, are_of_distinct_members,
};

/// `salted N ME COUNTER SUBJECT ASKED`.
pub(crate) fn ask(words: &mut Words<'_>, say: &mut Say) -> Result<(), Trouble> {
    let members = words.index()?;
    let me = words.optional_member()?;
    let counter = words.number()?;
    let scheme = SaltedScheme::member_of(say.alloc, members, me, counter)?;
    match words.word() {
        "notarize" => {
            let proposal = words.proposal()?;
            ask_of(&scheme, &Subject::Notarize(&proposal), words, say)
        }
        "finalize" => {
            let proposal = words.proposal()?;
            ask_of(&scheme, &Subject::Finalize(&proposal), words, say)
        }
        "nullify" => {
            let round = words.round()?;
            ask_of(&scheme, &Subject::Nullify(round), words, say)
        }
        _ => Err(Trouble::Unreadable),
    }
}

/// What is asked of the scheme about the subject.
fn ask_of(
    scheme: &SaltedScheme,
    subject: &Subject<'_, Sha256Digest>,
    words: &mut Words<'_>,
    say: &mut Say,
) -> Result<(), Trouble> {
    match words.word() {
        "sign" => sign(scheme, subject, words, say),
        "sign_with" => sign_with(scheme, subject, words, say),
        "verify" => verify(scheme, subject, words, say),
        "certifies" => certifies(scheme, subject, words, say),
        "failing" => failing(scheme, subject, words, say),
        "assemble" => assemble_at_once(scheme, subject, words, say),
        _ => Err(Trouble::Unreadable),
    }
}

fn sign(
    scheme: &SaltedScheme,
    subject: &Subject<'_, Sha256Digest>,
    words: &mut Words<'_>,
    say: &mut Say,
) -> Result<(), Trouble> {
    let times = words.index()?;
    words.end()?;
    let mut bytes = Vec::new(say.alloc);
    for _ in 0..times {
        push_signed(scheme, subject, &mut bytes)?;
    }
    say.bytes(&bytes)
}

/// Appends what the scheme signs next, if it has a key.
fn push_signed(
    scheme: &SaltedScheme,
    subject: &Subject<'_, Sha256Digest>,
    bytes: &mut Vec<u8>,
) -> Result<(), Trouble> {
    if let Some(attestation) = scheme.sign(subject) {
        attestation.write(bytes)?;
    }
    Ok(())
}

fn sign_with(
    scheme: &SaltedScheme,
    subject: &Subject<'_, Sha256Digest>,
    words: &mut Words<'_>,
    say: &mut Say,
) -> Result<(), Trouble> {
    let named = words.number()?;
    words.end()?;
    let mut bytes = Vec::new(say.alloc);
    if let Some(attestation) = scheme.sign_with(named, subject) {
        attestation.write(&mut bytes)?;
    }
    push_signed(scheme, subject, &mut bytes)?;
    say.bytes(&bytes)
}

fn verify(
    scheme: &SaltedScheme,
    subject: &Subject<'_, Sha256Digest>,
    words: &mut Words<'_>,
    say: &mut Say,
) -> Result<(), Trouble> {
    let attestation: Attestation<SaltedSignature> = words.value(say.alloc, u32::MAX)?;
    words.end()?;
    say.truth(scheme.verify_attestation(subject, &attestation))
}

fn certifies(
    scheme: &SaltedScheme,
    subject: &Subject<'_, Sha256Digest>,
    words: &mut Words<'_>,
    say: &mut Say,
) -> Result<(), Trouble> {
    let certificate: AttestationList<SaltedSignature> = words.value(say.alloc, u32::MAX)?;
    words.end()?;
    say.truth(scheme.verify_certificate(subject, &certificate))
}

/// Attestations, one behind the other.
fn attestations(
    words: &mut Words<'_>,
    alloc: Global,
) -> Result<Vec<Attestation<SaltedSignature>>, Trouble> {
    let bytes = bytes_of(words, alloc)?;
    words.end()?;
    let mut rest = bytes.as_slice();
    let mut attestations = Vec::new(alloc);
    for _ in 0..bytes.len() {
        if rest.is_empty() {
            break;
        }
        match Attestation::read_cfg(alloc, &mut rest, u32::MAX) {
            Ok(attestation) => attestations.push(attestation)?,
            Err(_) => return Err(Trouble::Unreadable),
        }
    }
    Ok(attestations)
}

fn failing(
    scheme: &SaltedScheme,
    subject: &Subject<'_, Sha256Digest>,
    words: &mut Words<'_>,
    say: &mut Say,
) -> Result<(), Trouble> {
    let given = attestations(words, say.alloc)?;
    let failing = scheme.verify_attestations(say.alloc, subject, &given)?;
    say.members(&failing)
}

fn assemble_at_once(
    scheme: &SaltedScheme,
    subject: &Subject<'_, Sha256Digest>,
    words: &mut Words<'_>,
    say: &mut Say,
) -> Result<(), Trouble> {
    let given = attestations(words, say.alloc)?;
    match scheme.optimistic_assemble(say.alloc, subject, &given)? {
        Some(list) => say.value(&list),
        None => say.none(),
    }
}

/// `seat N ME`.
pub(crate) fn seat(words: &mut Words<'_>, say: &mut Say) -> Result<(), Trouble> {
    let members = words.index()?;
    let me = words.optional_member()?;
    words.end()?;
    let scheme = SaltedScheme::member_of(say.alloc, members, me, 0)?;
    say.number(u64::from(Scheme::<Sha256Digest>::participants(&scheme)))?;
    say.gap()?;
    match Scheme::<Sha256Digest>::me(&scheme) {
        Some(me) => say.member(me)?,
        None => say.none()?,
    }
    say.gap()?;
    say.truth(Scheme::<Sha256Digest>::is_batchable(&scheme))
}

/// `key N INDEX`.
pub(crate) fn key(words: &mut Words<'_>, say: &mut Say) -> Result<(), Trouble> {
    let members = words.index()?;
    let member = words.member()?;
    words.end()?;
    let scheme = SaltedScheme::member_of(say.alloc, members, None, 0)?;
    say.key_or(Scheme::<Sha256Digest>::key(&scheme, member))
}

/// `assemble N HEX`.
pub(crate) fn assemble(words: &mut Words<'_>, say: &mut Say) -> Result<(), Trouble> {
    let members = words.index()?;
    let given = attestations(words, say.alloc)?;
    let scheme = SaltedScheme::member_of(say.alloc, members, None, 0)?;
    let members = Scheme::<Sha256Digest>::participants(&scheme);
    if !are_of_distinct_members(say.alloc, members, &given)? {
        return Err(Trouble::Condition);
    }
    match Scheme::<Sha256Digest>::assemble(&scheme, say.alloc, &given) {
        Ok(list) => say.value(&list),
        Err(AssemblyError::InsufficientAttestations(needed, count)) => {
            say.text("insufficient ")?;
            say.number(u64::from(needed))?;
            say.gap()?;
            say.number(u64::from(count))
        }
        Err(AssemblyError::Memory) => Err(Trouble::Memory),
    }
}

/// `signature HEX`.
pub(crate) fn signature(words: &mut Words<'_>, say: &mut Say) -> Result<(), Trouble> {
    let bytes = bytes_of(words, say.alloc)?;
    words.end()?;
    let mut rest = bytes.as_slice();
    match SaltedSignature::read_cfg(say.alloc, &mut rest, 4) {
        Ok(signature) => {
            say.value(&signature)?;
            say.gap()?;
            say_sizes(&signature, say)?;
            say.gap()?;
            say.number(rest.len() as u64)
        }
        Err(error) => say.fault(error),
    }
}

/// The size, the greatest size, and whether a duplicate is equal.
fn say_sizes(signature: &SaltedSignature, say: &mut Say) -> Result<(), Trouble> {
    say.number(signature.encode_size() as u64)?;
    say.gap()?;
    say.number(SaltedSignature::max_encode_size() as u64)?;
    say.gap()?;
    let copy = signature.duplicate(say.alloc)?;
    say.truth(copy == *signature)
}

/// `taken HEX`.
pub(crate) fn taken(words: &mut Words<'_>, say: &mut Say) -> Result<(), Trouble> {
    let bytes = bytes_of(words, say.alloc)?;
    words.end()?;
    let mut rest = bytes.as_slice();
    match SaltedSignature::take(&mut rest, 4) {
        Some(signature) => say.value(&signature)?,
        None => say.none()?,
    }
    say.gap()?;
    say.number(rest.len() as u64)
}

/// The law of salted signatures.
pub(crate) fn laws() {
    signatures_of_two_counters_differ::<Sha256Digest>();
}
