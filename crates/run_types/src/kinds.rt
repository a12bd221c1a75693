//! Calls that the next word names the type of.

use simplex_types::{AttestationList, PlainKey, PlainSignature};
use std::hash::Hash;
use test_values as values;
use test_words::{Say, Trouble, Words};
use types_core::{
    Aggregate, Attestation, Context, Digest as _, Duplicate, EncodeSize, Epoch, MaxEncodeSize,
    Participant, Proposal, Read, Round, Sha256Digest, View,
};

type PlainContext = Context<Sha256Digest, PlainKey>;

type PlainAttestation = Attestation<PlainSignature>;

type PlainList = AttestationList<PlainSignature>;

/// What is asked of a number or a truth value.
fn of_number<T: Read + EncodeSize + Drop>(
    name: &str,
    words: &mut Words<'_>,
    say: &mut Say,
) -> Result<(), Trouble> {
    match name {
        "read" => values::read::<T>(words, say),
        "cuts" => values::cuts::<T>(words, say),
        _ => Err(Trouble::Unreadable),
    }
}

/// What is asked of any other value.
fn of_value<T: Read + EncodeSize + Duplicate + Eq + Hash + Drop>(
    name: &str,
    words: &mut Words<'_>,
    say: &mut Say,
) -> Result<(), Trouble> {
    match name {
        "read" => values::read::<T>(words, say),
        "cuts" => values::cuts::<T>(words, say),
        "distinct" => values::distinct::<T>(words, say),
        "equal" => values::equal::<T>(words, say),
        _ => Err(Trouble::Unreadable),
    }
}

/// `read`, `cuts`, `distinct` and `equal`, of the type that the next word names.
pub fn value(name: &str, words: &mut Words<'_>, say: &mut Say) -> Result<(), Trouble> {
    match words.word() {
        "view" => of_number::<View>(name, words, say),
        "epoch" => of_number::<Epoch>(name, words, say),
        "truth" => of_number::<bool>(name, words, say),
        "member" => of_value::<Participant>(name, words, say),
        "round" => of_value::<Round>(name, words, say),
        "digest" => of_value::<Sha256Digest>(name, words, say),
        kind => longer_value(kind, name, words, say),
    }
}

fn longer_value(
    kind: &str,
    name: &str,
    words: &mut Words<'_>,
    say: &mut Say,
) -> Result<(), Trouble> {
    match kind {
        "proposal" => of_value::<Proposal<Sha256Digest>>(name, words, say),
        "context" => of_value::<PlainContext>(name, words, say),
        "key" => of_value::<PlainKey>(name, words, say),
        "signature" => of_value::<PlainSignature>(name, words, say),
        "attestation" => of_value::<PlainAttestation>(name, words, say),
        "list" => of_value::<PlainList>(name, words, say),
        _ => Err(Trouble::Unreadable),
    }
}

/// `order TYPE BYTES BYTES`.
pub fn order(words: &mut Words<'_>, say: &mut Say) -> Result<(), Trouble> {
    match words.word() {
        "round" => values::order::<Round>(words, say),
        "proposal" => values::order::<Proposal<Sha256Digest>>(words, say),
        "digest" => values::order::<Sha256Digest>(words, say),
        _ => Err(Trouble::Unreadable),
    }
}

/// `belongs TYPE BYTES`: to which epoch and view, or to which signer.
pub fn belongs(words: &mut Words<'_>, say: &mut Say) -> Result<(), Trouble> {
    match words.word() {
        "round" => values::belongs::<Round>(words, say),
        "proposal" => values::belongs::<Proposal<Sha256Digest>>(words, say),
        "context" => values::belongs::<PlainContext>(words, say),
        "attestation" => values::signer::<PlainAttestation>(words, say),
        _ => Err(Trouble::Unreadable),
    }
}

/// `most TYPE`: the most bytes of a spelling. Of a list the committee's size stands behind it.
pub fn most(words: &mut Words<'_>, say: &mut Say) -> Result<(), Trouble> {
    match words.word() {
        "view" => say.number(View::max_encode_size() as u64),
        "member" => say.number(Participant::max_encode_size() as u64),
        "round" => say.number(Round::max_encode_size() as u64),
        "proposal" => say.number(Proposal::<Sha256Digest>::max_encode_size() as u64),
        "context" => say.number(PlainContext::max_encode_size() as u64),
        "attestation" => say.number(PlainAttestation::max_encode_size() as u64),
        "list" => say.number(PlainList::max_encode_size(words.index()?) as u64),
        _ => Err(Trouble::Unreadable),
    }
}

/// `digest BYTES`: what it prints as, and its bytes.
pub fn digest(words: &mut Words<'_>, say: &mut Say) -> Result<(), Trouble> {
    let digest: Sha256Digest = words.value(say.alloc, u32::MAX)?;
    say.text(&format!(in say.alloc; "{digest}")?)?;
    say.gap()?;
    say.bytes(digest.as_bytes())
}
