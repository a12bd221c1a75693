//! The lines of text that an audit prints.

ghost use Rattle.std.specs.Prelude.{◌≡◌, ◌++◌, IfOk, OnOk, string_bytes};
ghost use Rattle.cli_audit.specs.Lines.{accused_words, beside_line, conflicting_line, evidence_line, fault_line, lines_of, proposal_words};

use simplex_messages::{Activity, Finalize, Nullify, ProposalKind, ProposalVote};
use simplex_rules::Audit;
use simplex_types::PlainScheme;
use std::alloc::{AllocError, Global};
use types_core::{Participant, Proposal, Round, Sha256Digest};

/// The lines of an audit: one for each piece of evidence, then the fault's, if there is one.
pub(crate) fn text_of(
    alloc: Global,
    audit: &Audit<PlainScheme, Sha256Digest>,
) -> Result<String, AllocError>
    ensures { IfOk result (λ text. string_bytes text ≡ lines_of audit.now.evidence.items audit.now.fault) }
{
    let mut text = String::new(alloc);
    for evidence in &audit.evidence {
        push_evidence(&mut text, evidence)?;
    }
    if let Some(place) = audit.fault {
        push_fault(&mut text, place)?;
    }
    Ok(text)
}

/// Ends the text with the line for a piece of evidence.
fn push_evidence(
    text: &mut String,
    evidence: &Activity<PlainScheme, Sha256Digest>,
) -> Result<(), AllocError>
    ensures { OnOk result (string_bytes text.new ≡ string_bytes text.old ++ evidence_line evidence.now) }
{
    match evidence {
        Activity::ConflictingNotarize(votes) => {
            let (first, second) = (votes.first(), votes.second());
            push_conflicting(text, "conflicting-notarize", first, second)
        }
        Activity::ConflictingFinalize(votes) => {
            let (first, second) = (votes.first(), votes.second());
            push_conflicting(text, "conflicting-finalize", first, second)
        }
        Activity::NullifyFinalize(votes) => push_beside(text, votes.nullify(), votes.finalize()),
        _ => Ok(()),
    }
}

/// Ends the text with the line for two votes of one signer for different proposals.
#[tactic(auto, unfolding(crate::specs::Lines::conflicting_line))]
fn push_conflicting<K: ProposalKind<Sha256Digest>>(
    text: &mut String,
    word: &str,
    first: &ProposalVote<K, PlainScheme, Sha256Digest>,
    second: &ProposalVote<K, PlainScheme, Sha256Digest>,
) -> Result<(), AllocError>
    ensures { OnOk result (string_bytes text.new ≡ string_bytes text.old ++ conflicting_line word.now first.now second.now) }
{
    push_accused(text, word, first.round(), first.attestation.signer)?;
    push_proposal(text, &first.proposal)?;
    push_proposal(text, &second.proposal)?;
    text.push_str("\n")
}

/// Ends the text with the line for a nullify of one signer and its finalize for a proposal of the
/// round.
#[tactic(auto, unfolding(crate::specs::Lines::beside_line))]
fn push_beside(
    text: &mut String,
    given_up: &Nullify<PlainScheme, Sha256Digest>,
    finalized: &Finalize<PlainScheme, Sha256Digest>,
) -> Result<(), AllocError>
    ensures { OnOk result (string_bytes text.new ≡ string_bytes text.old ++ beside_line given_up.now finalized.now) }
{
    push_accused(
        text,
        "nullify-finalize",
        given_up.round,
        given_up.attestation.signer,
    )?;
    push_proposal(text, &finalized.proposal)?;
    text.push_str("\n")
}

/// Ends the text with what a line begins with: its word, then the round and the signer that the evidence is against.
#[tactic(auto, unfolding(crate::specs::Lines::accused_words))]
fn push_accused(
    text: &mut String,
    word: &str,
    round: Round,
    signer: Participant,
) -> Result<(), AllocError>
    ensures { OnOk result (string_bytes text.new ≡ string_bytes text.old ++ accused_words word.now round signer) }
{
    let epoch = round.epoch.get();
    let view = round.view.get();
    let signer = signer.get();
    write!(text, "{word} epoch {epoch} view {view} signer {signer}")
}

/// Ends the text with the words for a proposal, with the space in front of them.
#[tactic(auto, unfolding(crate::specs::Lines::proposal_words))]
fn push_proposal(text: &mut String, proposal: &Proposal<Sha256Digest>) -> Result<(), AllocError>
    ensures { OnOk result (string_bytes text.new ≡ string_bytes text.old ++ proposal_words proposal.now) }
{
    let parent = proposal.parent.get();
    let payload = proposal.payload;
    write!(text, " parent {parent} payload {payload}")
}

/// Ends the text with the line that says at which byte, counted from 0, the input stops being
/// messages.
#[tactic(auto, unfolding(crate::specs::Lines::fault_line))]
fn push_fault(text: &mut String, place: usize) -> Result<(), AllocError>
    ensures { OnOk result (string_bytes text.new ≡ string_bytes text.old ++ fault_line place) }
{
    writeln!(text, "fault at byte {place}")
}
