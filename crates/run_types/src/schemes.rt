//! Committees: what they sign, take and assemble.

use crate::subjects::Stated;
use simplex_types::PlainScheme;
use test_schemes::OneByOne;
use test_values as values;
use test_words::{Committee, Say, Trouble, Words};
use types_core::{
    AssemblyError, Attestation, Listing, Participant, Sha256Digest, Subject,
    are_of_distinct_members,
};

/// `scheme KIND MEMBERS ME CALL ..`, where KIND is `plain` or `serial`, and ME is `-` for nobody of it.
pub fn scheme(words: &mut Words<'_>, say: &mut Say) -> Result<(), Trouble> {
    match words.word() {
        "plain" => {
            let scheme = plain(words, say)?;
            ask(&scheme, words, say)
        }
        "serial" => {
            let plain = plain(words, say)?;
            ask(&OneByOne { plain }, words, say)
        }
        _ => Err(Trouble::Unreadable),
    }
}

/// The committee of so many as the next word says, seen by the member of the word behind it.
fn plain(words: &mut Words<'_>, say: &Say) -> Result<PlainScheme, Trouble> {
    let members = words.index()?;
    let me = words.optional_member()?;
    PlainScheme::member_of(say.alloc, members, me, 0)
}

/// What is asked of the committee.
fn ask<S: Listing<Sha256Digest>>(
    scheme: &S,
    words: &mut Words<'_>,
    say: &mut Say,
) -> Result<(), Trouble> {
    match words.word() {
        "shown" => shown(scheme, say),
        "key" => key(scheme, words, say),
        "sign" => sign(scheme, words, say),
        "verify" => verify(scheme, words, say),
        "verify_certificate" => verify_certificate(scheme, words, say),
        "assemble" => assemble(scheme, words, say),
        name => ask_at_once(name, scheme, words, say),
    }
}

/// What is asked of many attestations of one subject at once.
fn ask_at_once<S: Listing<Sha256Digest>>(
    name: &str,
    scheme: &S,
    words: &mut Words<'_>,
    say: &mut Say,
) -> Result<(), Trouble> {
    match name {
        "failing" => failing(scheme, words, say),
        "optimistic" => optimistic(scheme, words, say),
        _ => Err(Trouble::Unreadable),
    }
}

/// `shown`: how many members, who sees it, and whether it is batchable.
fn shown<S: Listing<Sha256Digest>>(scheme: &S, say: &mut Say) -> Result<(), Trouble> {
    say.number(u64::from(scheme.participants()))?;
    say.gap()?;
    say_me(scheme.me(), say)?;
    say.gap()?;
    say.truth(scheme.is_batchable())
}

/// Who sees the committee.
fn say_me(me: Option<Participant>, say: &mut Say) -> Result<(), Trouble> {
    match me {
        Some(me) => say.member(me),
        None => say.none(),
    }
}

/// `key INDEX`.
fn key<S: Listing<Sha256Digest>>(
    scheme: &S,
    words: &mut Words<'_>,
    say: &mut Say,
) -> Result<(), Trouble> {
    match scheme.key(words.member()?) {
        Some(key) => say.value(&key),
        None => say.none(),
    }
}

/// `sign SUBJECT`.
fn sign<S: Listing<Sha256Digest>>(
    scheme: &S,
    words: &mut Words<'_>,
    say: &mut Say,
) -> Result<(), Trouble> {
    let stated = Stated::read(words)?;
    match scheme.sign(&stated.subject()) {
        Some(attestation) => say.value(&attestation),
        None => say.none(),
    }
}

/// `verify SUBJECT ATTESTATION`.
fn verify<S: Listing<Sha256Digest>>(
    scheme: &S,
    words: &mut Words<'_>,
    say: &mut Say,
) -> Result<(), Trouble> {
    let stated = Stated::read(words)?;
    let attestation: Attestation<S::Signature> = words.value(say.alloc, u32::MAX)?;
    say.truth(scheme.verify_attestation(&stated.subject(), &attestation))
}

/// `verify_certificate SUBJECT LIST`.
fn verify_certificate<S: Listing<Sha256Digest>>(
    scheme: &S,
    words: &mut Words<'_>,
    say: &mut Say,
) -> Result<(), Trouble> {
    let stated = Stated::read(words)?;
    let certificate: S::Certificate = words.value(say.alloc, u32::MAX)?;
    say.truth(scheme.verify_certificate(&stated.subject(), &certificate))
}

/// `assemble ATTESTATION..`: the certificate, or why there is none.
fn assemble<S: Listing<Sha256Digest>>(
    scheme: &S,
    words: &mut Words<'_>,
    say: &mut Say,
) -> Result<(), Trouble> {
    let given = values::all::<Attestation<S::Signature>>(words, say.alloc)?;
    if !are_of_distinct_members(say.alloc, scheme.participants(), &given)? {
        return Err(Trouble::Condition);
    }
    match scheme.assemble(say.alloc, &given) {
        Ok(certificate) => say.value(&certificate),
        Err(error) => say_refused(error, say),
    }
}

/// Why there is no certificate.
fn say_refused(error: AssemblyError, say: &mut Say) -> Result<(), Trouble> {
    match error {
        AssemblyError::Memory => Err(Trouble::Memory),
        error => say.text(&format!(in say.alloc; "{error}")?),
    }
}

/// `failing SUBJECT ATTESTATION..`: in whose names one fails.
fn failing<S: Listing<Sha256Digest>>(
    scheme: &S,
    words: &mut Words<'_>,
    say: &mut Say,
) -> Result<(), Trouble> {
    let stated = Stated::read(words)?;
    let given = values::all::<Attestation<S::Signature>>(words, say.alloc)?;
    let failing = scheme.verify_attestations(say.alloc, &stated.subject(), &given)?;
    say_members(&failing, say)
}

/// How many members they are, and which.
fn say_members(members: &[Participant], say: &mut Say) -> Result<(), Trouble> {
    say.number(members.len() as u64)?;
    for member in members {
        say.gap()?;
        say.member(*member)?;
    }
    Ok(())
}

/// `optimistic SUBJECT ATTESTATION..`: the certificate, and whether it certifies.
fn optimistic<S: Listing<Sha256Digest>>(
    scheme: &S,
    words: &mut Words<'_>,
    say: &mut Say,
) -> Result<(), Trouble> {
    let stated = Stated::read(words)?;
    let given = values::all::<Attestation<S::Signature>>(words, say.alloc)?;
    let subject = stated.subject();
    match scheme.optimistic_assemble(say.alloc, &subject, &given)? {
        Some(certificate) => say_checked(scheme, &subject, &certificate, say),
        None => say.none(),
    }
}

/// The certificate, and whether it certifies.
fn say_checked<S: Listing<Sha256Digest>>(
    scheme: &S,
    subject: &Subject<'_, Sha256Digest>,
    certificate: &S::Certificate,
    say: &mut Say,
) -> Result<(), Trouble> {
    say.value(certificate)?;
    say.gap()?;
    say.truth(scheme.verify_certificate(subject, certificate))
}
