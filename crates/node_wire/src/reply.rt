//! Replies as bytes.

ghost use Rattle.std.specs.Prelude.{◌≡◌, ◌++◌, ◌≤◌, All, length, take, vec_len, OnErr, OnOk};
ghost use Rattle.std.specs.List.{flat_map};
ghost use Rattle.types_codec.specs.Varint.{varint, max_u32, max_u64};
ghost use Rattle.node_wire.specs.Parts.{listed_spelling};
ghost use Rattle.node_wire.specs.Plan.{plan_fits, plan_spelling, plan_value};
ghost use Rattle.node_wire.specs.Reply.{action_body, action_fits, action_spelling, action_tag, action_value, fitting_action, refusal_byte, reply_fits, reply_spelling, reply_value, spelled_action};

use crate::parts::{put_optional, put_packet};
use simplex_member::{Action, Refusal, Reply};
use std::alloc::AllocError;
use types_codec::{Write, put_varint};
use types_core::{Digest, Participant, Scheme};
use types_terms::Plan;

/// Appends the reply's spelling. Where memory is refused, the vector is as it was.
///
/// # Errors
///
/// `AllocError` where memory ran out.
pub fn write_reply<S: Scheme<D>, D: Digest>(
    out: &mut Vec<u8>,
    reply: &Reply<S, D>,
) -> Result<(), AllocError>
    ensures ok { OnOk result (out.new.items ≡ out.old.items ++ reply_spelling S.PublicKey.spelling D.spelling S.Signature.spelling
        S.Certificate.spelling (reply_value reply.now)) }
    ensures readable { OnOk result (reply_fits D.PartialEq.eq S.PublicKey.fits D.fits S.Signature.fits S.Certificate.fits (reply_value reply.now)) }
    ensures err { OnErr result (out.new.items ≡ out.old.items) }
{
    let start = out.len();
    let written = put_reply(out, reply);
    if written.is_err() {
        out.truncate(start);
    }
    written
}

/// Appends the reply's spelling, or an unknown part of it.
fn put_reply<S: Scheme<D>, D: Digest>(
    out: &mut Vec<u8>,
    reply: &Reply<S, D>,
) -> Result<(), AllocError>
    ensures ok { OnOk result (out.new.items ≡ out.old.items ++ reply_spelling S.PublicKey.spelling D.spelling S.Signature.spelling
        S.Certificate.spelling (reply_value reply.now)) }
    ensures readable { OnOk result (reply_fits D.PartialEq.eq S.PublicKey.fits D.fits S.Signature.fits S.Certificate.fits (reply_value reply.now)) }
    ensures err { OnErr result (take (vec_len out.old) out.new.items ≡ out.old.items) }
{
    out.push(byte_of(reply.refused))?;
    put_listed(out, &reply.actions)
}

/// The byte of a refusal, or of none.
fn byte_of(refused: Option<Refusal>) -> u8
    ensures { result ≡ refusal_byte refused }
{
    match refused {
        Some(refusal) => refusal.number(),
        None => 0,
    }
}

/// Appends the actions behind their count, or an unknown part of that.
fn put_listed<S: Scheme<D>, D: Digest>(
    out: &mut Vec<u8>,
    actions: &[Action<S, D>],
) -> Result<(), AllocError>
    ensures ok { OnOk result (out.new.items ≡ out.old.items ++ listed_spelling
        (spelled_action S.PublicKey.spelling D.spelling S.Signature.spelling S.Certificate.spelling) actions.now) }
    ensures readable { OnOk result (All (fitting_action D.PartialEq.eq S.PublicKey.fits D.fits S.Signature.fits S.Certificate.fits)
        actions.now × (length actions.now ≤ max_u64)) }
    ensures err { OnErr result (take (vec_len out.old) out.new.items ≡ out.old.items) }
{
    put_varint(out, actions.len() as u64)?;
    put_actions(out, actions)
}

/// Appends the spellings of the actions, or an unknown part of them.
fn put_actions<S: Scheme<D>, D: Digest>(
    out: &mut Vec<u8>,
    actions: &[Action<S, D>],
) -> Result<(), AllocError>
    ensures ok { OnOk result (out.new.items ≡ out.old.items ++ flat_map
        (spelled_action S.PublicKey.spelling D.spelling S.Signature.spelling S.Certificate.spelling) actions.now) }
    ensures readable { OnOk result (All (fitting_action D.PartialEq.eq S.PublicKey.fits D.fits S.Signature.fits S.Certificate.fits) actions.now) }
    ensures err { OnErr result (take (vec_len out.old) out.new.items ≡ out.old.items) }
{
    for action in actions {
        write_action(out, action)?;
    }
    Ok(())
}

/// Appends the action's spelling, or leaves all as it was.
#[tactic(auto, unfolding(crate::specs::Reply::spelled_action, crate::specs::Reply::fitting_action))]
fn write_action<S: Scheme<D>, D: Digest>(
    out: &mut Vec<u8>,
    action: &Action<S, D>,
) -> Result<(), AllocError>
    ensures ok { OnOk result (out.new.items ≡ out.old.items ++ spelled_action S.PublicKey.spelling D.spelling S.Signature.spelling
        S.Certificate.spelling action.now) }
    ensures readable { OnOk result (fitting_action D.PartialEq.eq S.PublicKey.fits D.fits S.Signature.fits S.Certificate.fits action.now) }
    ensures err { OnErr result (out.new.items ≡ out.old.items) }
{
    let start = out.len();
    let written = put_action(out, action);
    if written.is_err() {
        out.truncate(start);
    }
    written
}

/// Appends the action's spelling, or an unknown part of it.
#[tactic(auto, unfolding(crate::specs::Reply::action_spelling))]
fn put_action<S: Scheme<D>, D: Digest>(
    out: &mut Vec<u8>,
    action: &Action<S, D>,
) -> Result<(), AllocError>
    ensures ok { OnOk result (out.new.items ≡ out.old.items ++ action_spelling S.PublicKey.spelling D.spelling S.Signature.spelling
        S.Certificate.spelling (action_value action.now)) }
    ensures readable { OnOk result
        (action_fits D.PartialEq.eq S.PublicKey.fits D.fits S.Signature.fits S.Certificate.fits (action_value action.now)) }
    ensures err { OnErr result (take (vec_len out.old) out.new.items ≡ out.old.items) }
{
    out.push(tag_of(action))?;
    put_behind(out, action)
}

/// The byte that the action's spelling begins with.
#[tactic(auto, unfolding(crate::specs::Reply::action_tag))]
fn tag_of<S: Scheme<D>, D: Digest>(action: &Action<S, D>) -> u8
    ensures { result ≡ action_tag (action_value action.now) }
{
    match action {
        Action::Send { .. } => 0,
        Action::Block(_) => 1,
        Action::Build { .. } => 2,
        Action::Verify { .. } => 3,
        Action::Certify(_) => 4,
        Action::Forward { .. } => 5,
        Action::Finalized(_) => 6,
        Action::Report(_) => 7,
        Action::Wake(_) => 8,
    }
}

/// Appends what stands behind the tag.
#[tactic(auto, unfolding(crate::specs::Reply::action_body, crate::specs::Reply::action_fits))]
fn put_behind<S: Scheme<D>, D: Digest>(
    out: &mut Vec<u8>,
    action: &Action<S, D>,
) -> Result<(), AllocError>
    ensures ok { OnOk result (out.new.items ≡ out.old.items ++ action_body S.PublicKey.spelling D.spelling S.Signature.spelling
        S.Certificate.spelling (action_value action.now)) }
    ensures readable { OnOk result
        (action_fits D.PartialEq.eq S.PublicKey.fits D.fits S.Signature.fits S.Certificate.fits (action_value action.now)) }
    ensures err { OnErr result (take (vec_len out.old) out.new.items ≡ out.old.items) }
{
    match action {
        Action::Send { to, channel, bytes } => {
            put_optional(out, to)?;
            put_packet(out, *channel, bytes)
        }
        Action::Block(member) => member.append(out),
        Action::Build {
            number,
            handoff,
            context,
        } => {
            put_varint(out, *number)?;
            handoff.append(out)?;
            context.append(out)
        }
        Action::Verify {
            number,
            context,
            proposal,
        } => {
            put_varint(out, *number)?;
            context.append(out)?;
            proposal.append(out)
        }
        Action::Certify(proposal) => proposal.append(out),
        Action::Forward { payload, plan } => {
            payload.append(out)?;
            put_plan(out, plan)
        }
        Action::Finalized(proposal) => proposal.append(out),
        Action::Report(activity) => activity.append(out),
        Action::Wake(now) => put_varint(out, *now),
    }
}

/// Appends the plan's spelling, or an unknown part of it.
#[tactic(auto, unfolding(crate::specs::Plan::plan_spelling, crate::specs::Plan::plan_fits))]
fn put_plan(out: &mut Vec<u8>, plan: &Plan<Participant>) -> Result<(), AllocError>
    ensures ok { OnOk result (out.new.items ≡ out.old.items ++ plan_spelling (plan_value plan.now)) }
    ensures readable { OnOk result (plan_fits (plan_value plan.now)) }
    ensures err { OnErr result (take (vec_len out.old) out.new.items ≡ out.old.items) }
{
    match plan {
        Plan::Prepare { round } => {
            out.push(0)?;
            round.append(out)
        }
        Plan::Propose { round } => {
            out.push(1)?;
            round.append(out)
        }
        Plan::Forward { round, recipients } => {
            out.push(2)?;
            round.append(out)?;
            put_members(out, recipients)
        }
    }
}

/// Appends the members behind their count, or an unknown part of that.
fn put_members(out: &mut Vec<u8>, members: &[Participant]) -> Result<(), AllocError>
    ensures ok { OnOk result (out.new.items ≡ out.old.items ++ listed_spelling varint members.now) }
    ensures readable { OnOk result (All (λ m. m ≤ max_u32) members.now × (length members.now ≤ max_u64)) }
    ensures err { OnErr result (take (vec_len out.old) out.new.items ≡ out.old.items) }
{
    put_varint(out, members.len() as u64)?;
    put_each(out, members)
}

/// Appends the members, or an unknown part of them.
fn put_each(out: &mut Vec<u8>, members: &[Participant]) -> Result<(), AllocError>
    ensures ok { OnOk result (out.new.items ≡ out.old.items ++ flat_map varint members.now) }
    ensures readable { OnOk result (All (λ m. m ≤ max_u32) members.now) }
    ensures err { OnErr result (take (vec_len out.old) out.new.items ≡ out.old.items) }
{
    for member in members {
        member.write(out)?;
    }
    Ok(())
}
