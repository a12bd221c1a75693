//! The laws of comparing messages.

ghost use Rattle.std.specs.Prelude.{◌≡◌, ◌↔◌, IsTrue};
ghost use Rattle.messages_certificates.specs.declared.proposal_vote.ProposalVote.{ProposalVote};
ghost use Rattle.messages_certificates.specs.declared.nullify.Nullify.{Nullify};
ghost use Rattle.messages_certificates.specs.declared.proposal_certificate.ProposalCertificate.{ProposalCertificate};
ghost use Rattle.messages_certificates.specs.declared.nullification.Nullification.{Nullification};
ghost use Rattle.messages_certificates.specs.ProposalVote.{Finalize};
ghost use Rattle.simplex_messages.specs.declared.activity.Activity.{Activity};

use crate::activity::Activity;
use crate::conflicting_votes::ConflictingVotes;
use crate::nullify_finalize::NullifyFinalize;
use messages_certificates::{
    Finalizing, Notarizing, Nullification, Nullify, ProposalCertificate, ProposalKind, ProposalVote,
};
use types_core::{Digest, Scheme};

/// Equality of votes, certificates and evidence is identity. By the laws of `Hash`, equal ones then hash
/// alike.
pub fn equal_messages_are_one<K: ProposalKind<D>, S: Scheme<D>, D: Digest>()
    ensures votes { (x y : ProposalVote K S D S.PublicKey S.Signature S.Certificate)
        → IsTrue (⟦<ProposalVote<K, S, D> as PartialEq>⟧.eq x y) ↔ (x ≡ y) }
    ensures nullifies { (x y : Nullify S D S.PublicKey S.Signature S.Certificate) → IsTrue (⟦<Nullify<S, D> as PartialEq>⟧.eq x y) ↔ (x ≡ y) }
    ensures certificates { (x y : ProposalCertificate K S D S.PublicKey S.Signature S.Certificate)
        → IsTrue (⟦<ProposalCertificate<K, S, D> as PartialEq>⟧.eq x y) ↔ (x ≡ y) }
    ensures nullifications { (x y : Nullification S D S.PublicKey S.Signature S.Certificate)
        → IsTrue (⟦<Nullification<S, D> as PartialEq>⟧.eq x y) ↔ (x ≡ y) }
    ensures conflicts { (x y : ProposalVote K S D S.PublicKey S.Signature S.Certificate × ProposalVote K S D S.PublicKey S.Signature S.Certificate)
        → IsTrue (⟦<ConflictingVotes<K, S, D> as PartialEq>⟧.eq x y) ↔ (x ≡ y) }
    ensures nullifies_beside { (x y : Nullify S D S.PublicKey S.Signature S.Certificate × Finalize S D S.PublicKey S.Signature S.Certificate)
        → IsTrue (⟦<NullifyFinalize<S, D> as PartialEq>⟧.eq x y) ↔ (x ≡ y) }
{}

/// Equality of reports is identity. By the laws of `Hash`, equal ones then hash alike.
pub fn equal_reports_are_one<S: Scheme<D>, D: Digest>()
    ensures { (x y : Activity S D S.PublicKey S.Signature S.Certificate) → IsTrue (⟦<Activity<S, D> as PartialEq>⟧.eq x y) ↔ (x ≡ y) }
{
    equal_messages_are_one::<Notarizing, S, D>();
    equal_messages_are_one::<Finalizing, S, D>();
}
