//! Packets that are sent to all.

ghost use Rattle.std.specs.Prelude.{◌≡◌, ◌∷◌, [], ℕ, None, map, option_to_list, IfErr, IfOk, OnOk};
ghost use Rattle.simplex_messages.specs.declared.vote.Vote.{Vote};
ghost use Rattle.simplex_messages.specs.declared.vote.Vote.TheVariants as vote;
ghost use Rattle.simplex_messages.specs.Vote.{any_vote_spelling};
ghost use Rattle.simplex_messages.specs.VoteParts.{vote_artifact};
ghost use Rattle.simplex_member.specs.declared.fault.NodeFault.TheVariants as step_fault;
ghost use Rattle.simplex_member.specs.Deeds.{IsAction, Reports, Sends};
ghost use Rattle.simplex_member.specs.Packet.{Formats, Packet, of_certificate, of_vote, packet_channel};
ghost use Rattle.node_outbox.specs.Handing.{AddsDeeds};

use crate::handing::hand_out;
use messages_certificates::{Artifact, Certificate, Nullify};
use simplex_member::{Action, Channel, NodeFault, Speaks};
use simplex_messages::{Activity, Vote};
use std::alloc::{AllocError, Global};
use types_core::{Digest, Duplicate, EncodeSize, Scheme};

/// A message's bytes, in as much memory as they take.
///
/// # Errors
///
/// `AllocError` where memory ran out.
pub fn spelled<M: EncodeSize>(alloc: Global, message: &M) -> Result<Vec<u8>, AllocError>
    ensures { IfOk result (λ bytes. bytes.items ≡ M.spelling message.now) }
{
    let mut bytes = Vec::with_capacity(alloc, message.encode_size())?;
    message.write(&mut bytes)?;
    Ok(bytes)
}

/// A vote's bytes, and the vote as it is recorded.
///
/// # Errors
///
/// `AllocError` where memory ran out.
pub fn spelled_vote<S: Scheme<D>, D: Digest>(
    alloc: Global,
    vote: &Vote<S, D>,
) -> Result<(Vec<u8>, Artifact<S, D>), AllocError>
    ensures bytes { IfOk result (λ r. r.0.items ≡ any_vote_spelling D.spelling S.Signature.spelling vote.now) }
    ensures copy { IfOk result (λ r. r.1 ≡ vote_artifact vote.now) }
{
    let bytes = spelled(alloc, vote)?;
    let copy = vote.duplicate(alloc)?;
    Ok((bytes, Artifact::from(copy)))
}

/// Sends a vote's bytes to all, and reports it.
///
/// # Errors
///
/// [`NodeFault::Memory`].
pub fn hand_vote_out<S: Scheme<D>, D: Digest>(
    bytes: Vec<u8>,
    report: Activity<S, D>,
    out: &mut Vec<Action<S, D>>,
) -> Result<(), NodeFault>
    ensures done { OnOk result ((f : Formats S D S.PublicKey S.Signature S.Certificate)
        (vote : Vote S D S.PublicKey S.Signature S.Certificate)
        → bytes.items ≡ f.packet (of_vote vote)
        → AddsDeeds f out.old.items out.new.items (Sends None (of_vote vote) ∷ Reports report ∷ [])) }
    ensures fault { IfErr result (λ why. why ≡ step_fault.Memory) }
{
    match hand_out(to_all(Channel::Votes, bytes), out) {
        Ok(()) => hand_out(Action::Report(report), out),
        Err(fault) => Err(fault),
    }
}

/// Sends a recorded nullify once more, and a certificate with it, where there is one.
///
/// # Errors
///
/// [`NodeFault::Memory`].
pub fn send_again<S: Scheme<D>, D: Digest>(
    alloc: Global,
    recorded: &Nullify<S, D>,
    best: Option<Certificate<S, D>>,
    out: &mut Vec<Action<S, D>>,
) -> Result<(), NodeFault>
    ensures done { OnOk result ((n : ℕ)
        → AddsDeeds (⟦<S as Speaks<D>>⟧.formats n) out.old.items out.new.items
        (Sends None (of_vote (vote.Nullify recorded.now)) ∷ map (λ c. Sends None (of_certificate c)) (option_to_list best))) }
    ensures fault { IfErr result (λ why. why ≡ step_fault.Memory) }
{
    let Ok(copy) = recorded.duplicate(alloc) else {
        return Err(NodeFault::Memory);
    };
    let again: Vote<S, D> = Vote::Nullify(copy);
    send(alloc, Channel::Votes, &again, out)?;
    match best {
        Some(certificate) => send(alloc, Channel::Certificates, &certificate, out),
        None => Ok(()),
    }
}

/// Sends a message to all.
fn send<S: Scheme<D>, D: Digest, M: EncodeSize>(
    alloc: Global,
    channel: Channel,
    message: &M,
    out: &mut Vec<Action<S, D>>,
) -> Result<(), NodeFault>
    ensures done { OnOk result ((f : Formats S D S.PublicKey S.Signature S.Certificate)
        (packet : Packet S D S.PublicKey S.Signature S.Certificate)
        → f.packet packet ≡ M.spelling message.now
        → packet_channel packet ≡ channel
        → AddsDeeds f out.old.items out.new.items (Sends None packet ∷ [])) }
    ensures fault { IfErr result (λ why. why ≡ step_fault.Memory) }
{
    let Ok(bytes) = spelled(alloc, message) else {
        return Err(NodeFault::Memory);
    };
    hand_out(to_all(channel, bytes), out)
}

/// What sends these bytes to all.
fn to_all<S: Scheme<D>, D: Digest>(channel: Channel, bytes: Vec<u8>) -> Action<S, D>
    ensures { (f : Formats S D S.PublicKey S.Signature S.Certificate) (packet : Packet S D S.PublicKey S.Signature S.Certificate)
        → packet_channel packet ≡ channel
        → f.packet packet ≡ bytes.items
        → IsAction f result (Sends None packet) }
{
    Action::Send {
        to: None,
        channel,
        bytes,
    }
}
