//! The line of a message: its kind, then what stands in it, from left to right.

ghost use Rattle.std.specs.Prelude.{◌≡◌, ◌++◌, ℕ, List, OnOk, string_bytes};
ghost use Rattle.std.specs.List.{flat_map};
ghost use Rattle.cli_tool.specs.Parts.{signature_field};
ghost use Rattle.cli_tool.specs.Lines.{artifact_line, beside_line, certificate_line, conflicting_line, named_choice, nullification_line, nullify_line, other_fields, proposal_fields, report_line, signed_fields, verdict_line, vote_line};

use crate::parts::{
    push_attestation, push_end, push_kind, push_number, push_payload, push_round, push_signature,
    push_word, word_of,
};
use crate::style::Style;
use simplex_messages::{
    Activity, Artifact, ConflictingVotes, Nullification, Nullify, NullifyFinalize,
    ProposalCertificate, ProposalKind, ProposalVote,
};
use simplex_types::{AttestationList, PlainScheme, PlainSignature};
use std::alloc::{AllocError, Global};
use types_core::{Attestation, Proposal, Round, Sha256Digest};

/// What has a line of its own.
pub(crate) trait Line {
    ghost use Rattle.cli_tool.specs.declared.style.Style.{Style};

    /// The line, in this style.
    ghost line: { Style → Self → List ℕ };

    /// Ends the text with the line.
    fn push_line(&self, alloc: Global, text: &mut String, style: Style) -> Result<(), AllocError>
        ensures { OnOk result (string_bytes text.new ≡ string_bytes text.old ++ line style self.now) };
}

/// Ends the text with what a proposal says beside its round, under these names.
#[tactic(auto, unfolding(crate::specs::Lines::named_choice))]
fn push_choice(
    text: &mut String,
    style: Style,
    parent: &str,
    payload: &str,
    proposal: &Proposal<Sha256Digest>,
) -> Result<(), AllocError>
    ensures { OnOk result (string_bytes text.new ≡ string_bytes text.old ++ named_choice style parent.now payload.now proposal.now) }
{
    push_number(text, style, parent, proposal.parent.get())?;
    push_payload(text, style, payload, proposal.payload)
}

/// Ends the text with what the second of two votes says beside its round and its signer.
#[tactic(auto, unfolding(crate::specs::Lines::other_fields))]
fn push_other(
    alloc: Global,
    text: &mut String,
    style: Style,
    proposal: &Proposal<Sha256Digest>,
    signature: &PlainSignature,
) -> Result<(), AllocError>
    ensures { OnOk result (string_bytes text.new ≡ string_bytes text.old ++ other_fields style proposal.now signature.now) }
{
    push_choice(text, style, "other-parent", "other-payload", proposal)?;
    push_signature(alloc, text, style, "other-signature", signature)
}

/// Ends the text with a proposal.
#[tactic(auto, unfolding(crate::specs::Lines::proposal_fields))]
fn push_proposal(
    text: &mut String,
    style: Style,
    proposal: &Proposal<Sha256Digest>,
) -> Result<(), AllocError>
    ensures { OnOk result (string_bytes text.new ≡ string_bytes text.old ++ proposal_fields style proposal.now) }
{
    push_round(text, style, proposal.round)?;
    push_choice(text, style, "parent", "payload", proposal)
}

/// Ends the text with who signed a vote, and the signature.
#[tactic(auto, unfolding(crate::specs::Lines::signed_fields))]
fn push_signed(
    alloc: Global,
    text: &mut String,
    style: Style,
    attestation: &Attestation<PlainSignature>,
) -> Result<(), AllocError>
    ensures { OnOk result (string_bytes text.new ≡ string_bytes text.old ++ signed_fields style attestation.now) }
{
    push_number(text, style, "signer", u64::from(attestation.signer.get()))?;
    push_signature(alloc, text, style, "signature", &attestation.signature)
}

/// Ends the text with the attestations of a certificate.
fn push_attestations(
    alloc: Global,
    text: &mut String,
    style: Style,
    list: &AttestationList<PlainSignature>,
) -> Result<(), AllocError>
    ensures { OnOk result (string_bytes text.new ≡ string_bytes text.old ++ flat_map (signature_field style) list.now) }
{
    for attestation in list.attestations() {
        push_attestation(alloc, text, style, attestation)?;
    }
    Ok(())
}

/// Ends the text with the line of a vote on a proposal.
#[tactic(auto, unfolding(crate::specs::Lines::vote_line))]
fn push_vote<K: ProposalKind<Sha256Digest>>(
    alloc: Global,
    text: &mut String,
    style: Style,
    kind: &str,
    vote: &ProposalVote<K, PlainScheme, Sha256Digest>,
) -> Result<(), AllocError>
    ensures { OnOk result (string_bytes text.new ≡ string_bytes text.old ++ vote_line style kind.now vote.now) }
{
    push_kind(text, style, kind)?;
    push_proposal(text, style, &vote.proposal)?;
    push_signed(alloc, text, style, &vote.attestation)?;
    push_end(text, style)
}

/// Ends the text with the line of a vote to give a round up.
#[tactic(auto, unfolding(crate::specs::Lines::nullify_line))]
fn push_nullify(
    alloc: Global,
    text: &mut String,
    style: Style,
    vote: &Nullify<PlainScheme, Sha256Digest>,
) -> Result<(), AllocError>
    ensures { OnOk result (string_bytes text.new ≡ string_bytes text.old ++ nullify_line style vote.now) }
{
    push_kind(text, style, "nullify")?;
    push_round(text, style, vote.round)?;
    push_signed(alloc, text, style, &vote.attestation)?;
    push_end(text, style)
}

/// Ends the text with the line of a certificate for a proposal.
#[tactic(auto, unfolding(crate::specs::Lines::certificate_line))]
fn push_certificate<K: ProposalKind<Sha256Digest>>(
    alloc: Global,
    text: &mut String,
    style: Style,
    kind: &str,
    certificate: &ProposalCertificate<K, PlainScheme, Sha256Digest>,
) -> Result<(), AllocError>
    ensures { OnOk result (string_bytes text.new ≡ string_bytes text.old ++ certificate_line style kind.now certificate.now) }
{
    push_kind(text, style, kind)?;
    push_proposal(text, style, &certificate.proposal)?;
    push_attestations(alloc, text, style, &certificate.certificate)?;
    push_end(text, style)
}

/// Ends the text with the line of a certificate that a round is given up.
#[tactic(auto, unfolding(crate::specs::Lines::nullification_line))]
fn push_nullification(
    alloc: Global,
    text: &mut String,
    style: Style,
    certificate: &Nullification<PlainScheme, Sha256Digest>,
) -> Result<(), AllocError>
    ensures { OnOk result (string_bytes text.new ≡ string_bytes text.old ++ nullification_line style certificate.now) }
{
    push_kind(text, style, "nullification")?;
    push_round(text, style, certificate.round)?;
    push_attestations(alloc, text, style, &certificate.certificate)?;
    push_end(text, style)
}

/// Ends the text with the line of a verdict.
#[tactic(auto, unfolding(crate::specs::Lines::verdict_line))]
fn push_verdict(
    text: &mut String,
    style: Style,
    round: Round,
    verdict: bool,
) -> Result<(), AllocError>
    ensures { OnOk result (string_bytes text.new ≡ string_bytes text.old ++ verdict_line style round verdict) }
{
    push_kind(text, style, "certification")?;
    push_round(text, style, round)?;
    push_word(text, style, "verdict", word_of(verdict))?;
    push_end(text, style)
}

/// Ends the text with the line of two votes of one signer for different proposals of one round.
#[tactic(auto, unfolding(crate::specs::Lines::conflicting_line))]
fn push_conflicting<K: ProposalKind<Sha256Digest>>(
    alloc: Global,
    text: &mut String,
    style: Style,
    kind: &str,
    evidence: &ConflictingVotes<K, PlainScheme, Sha256Digest>,
) -> Result<(), AllocError>
    ensures { OnOk result (string_bytes text.new ≡ string_bytes text.old ++ conflicting_line style kind.now evidence.now) }
{
    let first = evidence.first();
    let second = evidence.second();
    push_kind(text, style, kind)?;
    push_proposal(text, style, &first.proposal)?;
    push_signed(alloc, text, style, &first.attestation)?;
    push_other(
        alloc,
        text,
        style,
        &second.proposal,
        &second.attestation.signature,
    )?;
    push_end(text, style)
}

/// Ends the text with the line of a nullify of one signer and its finalize for a proposal of the round.
#[tactic(auto, unfolding(crate::specs::Lines::beside_line))]
fn push_beside(
    alloc: Global,
    text: &mut String,
    style: Style,
    evidence: &NullifyFinalize<PlainScheme, Sha256Digest>,
) -> Result<(), AllocError>
    ensures { OnOk result (string_bytes text.new ≡ string_bytes text.old ++ beside_line style evidence.now) }
{
    let given_up = evidence.nullify();
    let finalized = evidence.finalize();
    push_kind(text, style, "nullify-finalize")?;
    push_round(text, style, given_up.round)?;
    push_signed(alloc, text, style, &given_up.attestation)?;
    push_other(
        alloc,
        text,
        style,
        &finalized.proposal,
        &finalized.attestation.signature,
    )?;
    push_end(text, style)
}

impl Line for Activity<PlainScheme, Sha256Digest> {
    ghost line = { report_line };

    fn push_line(&self, alloc: Global, text: &mut String, style: Style) -> Result<(), AllocError>
        ensures { OnOk result (string_bytes text.new ≡ string_bytes text.old ++ report_line style self.now) }
    {
        match self {
            Activity::Notarize(it) => push_vote(alloc, text, style, "notarize", it),
            Activity::Notarization(it) => push_certificate(alloc, text, style, "notarization", it),
            Activity::Certification(it) => push_certificate(alloc, text, style, "certified", it),
            Activity::Nullify(it) => push_nullify(alloc, text, style, it),
            Activity::Nullification(it) => push_nullification(alloc, text, style, it),
            Activity::Finalize(it) => push_vote(alloc, text, style, "finalize", it),
            Activity::Finalization(it) => push_certificate(alloc, text, style, "finalization", it),
            Activity::ConflictingNotarize(it) => {
                push_conflicting(alloc, text, style, "conflicting-notarize", it)
            }
            Activity::ConflictingFinalize(it) => {
                push_conflicting(alloc, text, style, "conflicting-finalize", it)
            }
            Activity::NullifyFinalize(it) => push_beside(alloc, text, style, it),
        }
    }
}

impl Line for Artifact<PlainScheme, Sha256Digest> {
    ghost line = { artifact_line };

    fn push_line(&self, alloc: Global, text: &mut String, style: Style) -> Result<(), AllocError>
        ensures { OnOk result (string_bytes text.new ≡ string_bytes text.old ++ artifact_line style self.now) }
    {
        match self {
            Artifact::Notarize(it) => push_vote(alloc, text, style, "notarize", it),
            Artifact::Notarization(it) => push_certificate(alloc, text, style, "notarization", it),
            Artifact::Certification(round, verdict) => push_verdict(text, style, *round, *verdict),
            Artifact::Nullify(it) => push_nullify(alloc, text, style, it),
            Artifact::Nullification(it) => push_nullification(alloc, text, style, it),
            Artifact::Finalize(it) => push_vote(alloc, text, style, "finalize", it),
            Artifact::Finalization(it) => push_certificate(alloc, text, style, "finalization", it),
        }
    }
}
