//! The types of messages, whatever the scheme, and its committees.

use test_words::{Committee, Say, Trouble, Words};
use types_core::Sha256Digest;

pub type Notarize<S> = simplex_messages::Notarize<S, Sha256Digest>;

pub type Nullify<S> = simplex_messages::Nullify<S, Sha256Digest>;

pub type Finalize<S> = simplex_messages::Finalize<S, Sha256Digest>;

pub type Vote<S> = simplex_messages::Vote<S, Sha256Digest>;

pub type Notarization<S> = simplex_messages::Notarization<S, Sha256Digest>;

pub type Nullification<S> = simplex_messages::Nullification<S, Sha256Digest>;

pub type Finalization<S> = simplex_messages::Finalization<S, Sha256Digest>;

pub type Certificate<S> = simplex_messages::Certificate<S, Sha256Digest>;

pub type Artifact<S> = simplex_messages::Artifact<S, Sha256Digest>;

pub type TwoNotarizes<S> = simplex_messages::ConflictingNotarize<S, Sha256Digest>;

pub type TwoFinalizes<S> = simplex_messages::ConflictingFinalize<S, Sha256Digest>;

pub type NullifyFinalize<S> = simplex_messages::NullifyFinalize<S, Sha256Digest>;

pub type Report<S> = simplex_messages::Activity<S, Sha256Digest>;

/// The committee of so many as the next word says, seen by nobody of it.
pub fn committee<S: Committee>(words: &mut Words<'_>, say: &Say) -> Result<S, Trouble> {
    let members = words.index()?;
    S::member_of(say.alloc, members, None, 0)
}
