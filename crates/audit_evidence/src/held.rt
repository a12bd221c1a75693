//! The votes of one kind that a report holds.

ghost use Rattle.std.specs.Prelude.{◌≡◌, ⊤};

use simplex_messages::{
    ConflictingVotes, Nullification, Nullify, ProposalCertificate, ProposalKind, ProposalVote,
};
use std::alloc::AllocError;
use types_core::{Digest, Scheme};

/// The votes of one kind on proposals that a report holds, where they lie in it.
pub enum HeldVotes<'a, K: ProposalKind<D>, S: Scheme<D>, D: Digest> {
    /// None of this kind.
    Nothing,
    /// One vote.
    One(&'a ProposalVote<K, S, D>),
    /// One for each attestation that the certificate lists.
    Listed(&'a ProposalCertificate<K, S, D>),
    /// Both of evidence.
    Both(&'a ConflictingVotes<K, S, D>),
}

impl<'a, K: ProposalKind<D>, S: Scheme<D>, D: Digest> Clone for HeldVotes<'a, K, S, D> {
    ghost is_clone = { λ held copy. copy ≡ held };

    ghost is_infallible = { λ _. ⊤ };

    fn clone(&self) -> Result<Self, AllocError> {
        Ok(*self)
    }
}

impl<'a, K: ProposalKind<D>, S: Scheme<D>, D: Digest> Copy for HeldVotes<'a, K, S, D> {}

/// The votes to give a round up that a report holds, where they lie in it.
pub enum HeldNullifies<'a, S: Scheme<D>, D: Digest> {
    /// None.
    Nothing,
    /// One vote.
    One(&'a Nullify<S, D>),
    /// One for each attestation that the certificate lists.
    Listed(&'a Nullification<S, D>),
}

impl<'a, S: Scheme<D>, D: Digest> Clone for HeldNullifies<'a, S, D> {
    ghost is_clone = { λ held copy. copy ≡ held };

    ghost is_infallible = { λ _. ⊤ };

    fn clone(&self) -> Result<Self, AllocError> {
        Ok(*self)
    }
}

impl<'a, S: Scheme<D>, D: Digest> Copy for HeldNullifies<'a, S, D> {}
