//! What is signed.

use sha2::{Digest as _, Sha256};
use simplex_types::hash_signed;
use test_words::{Say, Trouble, Words};
use types_core::{
    Epochable, Namespace, Participant, Proposal, Round, Sha256Digest, Subject, Viewable,
};

/// What a vote is on, owned.
#[derive(Clone, Copy)]
pub enum Stated {
    Notarize(Proposal<Sha256Digest>),
    Nullify(Round),
    Finalize(Proposal<Sha256Digest>),
}

impl Stated {
    /// What the next words name: `notarize PROPOSAL`, `nullify ROUND` or `finalize PROPOSAL`.
    pub fn read(words: &mut Words<'_>) -> Result<Self, Trouble> {
        match words.word() {
            "notarize" => Ok(Stated::Notarize(words.proposal()?)),
            "nullify" => Ok(Stated::Nullify(words.round()?)),
            "finalize" => Ok(Stated::Finalize(words.proposal()?)),
            _ => Err(Trouble::Unreadable),
        }
    }

    /// The same, lent.
    pub fn subject(&self) -> Subject<'_, Sha256Digest> {
        match self {
            Stated::Notarize(proposal) => Subject::Notarize(proposal),
            Stated::Nullify(round) => Subject::Nullify(*round),
            Stated::Finalize(proposal) => Subject::Finalize(proposal),
        }
    }
}

/// Says the subject's namespace.
fn say_namespace(
    names: &Namespace,
    subject: &Subject<'_, Sha256Digest>,
    say: &mut Say,
) -> Result<(), Trouble> {
    say.bytes(&names.of(say.alloc, subject)?)
}

/// Says the subject's message.
fn say_message(subject: &Subject<'_, Sha256Digest>, say: &mut Say) -> Result<(), Trouble> {
    say.bytes(&subject.message(say.alloc)?)
}

/// Says the name of the subject's kind, its namespace and its message.
fn say_signed(
    names: &Namespace,
    subject: &Subject<'_, Sha256Digest>,
    say: &mut Say,
) -> Result<(), Trouble> {
    say.bytes(subject.kind_name())?;
    say.gap()?;
    say_namespace(names, subject, say)?;
    say.gap()?;
    say_message(subject, say)
}

/// Says the hash that signs the subject in the name of an index.
fn say_hash(
    base: &[u8],
    index: Participant,
    subject: &Subject<'_, Sha256Digest>,
    say: &mut Say,
) -> Result<(), Trouble> {
    if base.len() > 255 {
        return Err(Trouble::Condition);
    }
    let mut hasher = Sha256::new();
    hash_signed(&mut hasher, base, index, subject);
    say.bytes(&hasher.finalize())
}

/// Says all of a subject.
fn say_subject(
    names: &Namespace,
    index: Participant,
    subject: &Subject<'_, Sha256Digest>,
    say: &mut Say,
) -> Result<(), Trouble> {
    say.bytes(names.base())?;
    say.gap()?;
    say.number(subject.epoch().get())?;
    say.gap()?;
    say.view(subject.view())?;
    say.gap()?;
    say_signed(names, subject, say)?;
    say.gap()?;
    say_hash(names.base(), index, subject, say)
}

/// `subject BASE INDEX SUBJECT`: base, epoch, view, the kind's name, namespace, message, and the hash that
/// signs it in the name of any index.
pub fn subject(words: &mut Words<'_>, say: &mut Say) -> Result<(), Trouble> {
    let names = Namespace::new(say.alloc, &words.bytes(say.alloc)?)?;
    subject_in(&names, words, say)
}

fn subject_in(names: &Namespace, words: &mut Words<'_>, say: &mut Say) -> Result<(), Trouble> {
    let index = words.member()?;
    match words.word() {
        "notarize" => {
            let proposal = words.proposal()?;
            say_subject(names, index, &Subject::Notarize(&proposal), say)
        }
        "nullify" => {
            let round = words.round()?;
            say_subject(names, index, &Subject::Nullify(round), say)
        }
        "finalize" => {
            let proposal = words.proposal()?;
            say_subject(names, index, &Subject::Finalize(&proposal), say)
        }
        _ => Err(Trouble::Unreadable),
    }
}
