//! The first reason for which an event is not taken, where that asks for neither memory nor the disk. The votes of a view tell the
//! last two reasons for which a vote is not.

ghost use Rattle.std.specs.Prelude.{◌≤◌, Bool, IfNone, ◌<◌, ◌^◌};
ghost use Rattle.messages_certificates.specs.Artifact.{certificate_artifact};
ghost use Rattle.simplex_member.specs.declared.event.Event.TheVariants as event;
ghost use Rattle.simplex_member.specs.Allowed.{Allowed};
ghost use Rattle.simplex_member.specs.Asked.{IsAwaited};
ghost use Rattle.simplex_member.specs.First.{IsFirst};
ghost use Rattle.simplex_member.specs.Layers.{latest};
ghost use Rattle.simplex_member.specs.Packet.{IsRecordable};
ghost use Rattle.simplex_member.specs.Point.{Came};
ghost use Rattle.simplex_member.specs.Refusals.{certificate_tests, sender_tests, tests};
ghost use Rattle.simplex_member.specs.Setup.{IsInTime};
ghost use Rattle.node_core.specs.Keeps.{AtAll, AtOwn};
ghost use Rattle.node_input.specs.Refusing.{IsAnother, MayBeHeard, first_vote_tests};

use journal_single::Disk;
use messages_certificates::Certificate;
use node_core::{
    Core, knows_like, what_is_not_recorded_is_unknown, what_is_unknown_is_not_recorded,
};
use node_inbox::{has_parent_below, vote_has_parent_below};
use simplex_member::{Refusal, Speaks};
use simplex_messages::Vote;
use types_core::{Attributable, Digest, Epochable, Participant, Scheme, View, Viewable};
use types_terms::Elector;

/// The first reason for which nothing of a sender is taken.
pub(crate) fn sender_refusal<S: Scheme<D> + Drop, L: Elector<S, D>, D: Digest, K: Disk>(
    core: &Core<S, L, D, K>,
    sender: Participant,
) -> Option<Refusal>
    ensures first { AtAll S.Scheme L.Elector K.Disk core.now (λ f s h. IsFirst (sender_tests S.Scheme f s sender) result) }
    ensures may { IfNone result (AtAll S.Scheme L.Elector K.Disk core.now (λ f s h. IsAnother S.Scheme f s sender)) }
    ensures size { AtAll S.Scheme L.Elector K.Disk core.now (λ f s h. S.size s.voter.scheme < 2 ^ 32) }
{
    if core.settings.scheme.participants() <= sender.get() {
        return Some(Refusal::UnknownSender);
    }
    if sender == core.settings.owner.signer {
        return Some(Refusal::OwnName);
    }
    None
}

/// The first reason for which a vote of this sender is not handed to the votes of its view.
pub(crate) fn vote_refusal<S: Scheme<D> + Drop, L: Elector<S, D>, D: Digest, K: Disk>(
    core: &Core<S, L, D, K>,
    sender: Participant,
    vote: &Vote<S, D>,
) -> Option<Refusal>
    ensures first { AtAll S.Scheme L.Elector K.Disk core.now (λ f s h. IsFirst (first_vote_tests S.Scheme f s h sender vote.now) result) }
    ensures may { IfNone result (AtAll S.Scheme L.Elector K.Disk core.now (λ f s h. MayBeHeard S.Scheme f s h sender vote.now)) }
{
    let view = vote.view();
    if vote.epoch() != core.settings.owner.epoch {
        return Some(Refusal::WrongEpoch);
    }
    if view.is_zero() {
        return Some(Refusal::ViewZero);
    }
    if !core.voter.views().admits_vote(view) {
        return Some(Refusal::OutsideWindow);
    }
    if !view.has_room(core.settings.owner.term_length) {
        return Some(Refusal::NoRoom);
    }
    if !vote_has_parent_below(vote) {
        return Some(Refusal::ParentNotBelow);
    }
    if vote.signer() != sender {
        return Some(Refusal::NotItsSigner);
    }
    None
}

/// The first reason for which a certificate is not taken. One that was read can be recorded.
pub(crate) fn certificate_refusal<S: Scheme<D> + Drop, L: Elector<S, D>, D: Digest, K: Disk>(
    core: &Core<S, L, D, K>,
    certificate: &Certificate<S, D>,
) -> Option<Refusal>
    ensures first { AtOwn S.Scheme L.Elector K.Disk ⟦<S as Speaks<D>>⟧.formats core.now
        (λ f s h. IsFirst (certificate_tests S.Scheme f s h certificate.now) result) }
    ensures may { IfNone result
        (AtOwn S.Scheme L.Elector K.Disk ⟦<S as Speaks<D>>⟧.formats core.now (λ f s h.
        IsRecordable f (certificate_artifact certificate.now) → Allowed S.Scheme f s h (Came certificate.now))) }
{
    what_is_not_recorded_is_unknown::<S, D>();
    what_is_unknown_is_not_recorded::<S, D>();
    let view = certificate.view();
    if certificate.epoch() != core.settings.owner.epoch {
        return Some(Refusal::WrongEpoch);
    }
    if view.is_zero() {
        return Some(Refusal::ViewZero);
    }
    if !core.voter.views().admits_certificate(view) {
        return Some(Refusal::OutsideWindow);
    }
    if !view.has_room(core.settings.owner.term_length) {
        return Some(Refusal::NoRoom);
    }
    if !has_parent_below(certificate) {
        return Some(Refusal::ParentNotBelow);
    }
    // What was recorded before a rewrite counts too: the voter knows it.
    if knows_like(&core.voter, certificate) {
        return Some(Refusal::Repeated);
    }
    if !certificate.verify(&*core.settings.scheme) {
        return Some(Refusal::NotVerifying);
    }
    None
}

/// The first reason for which a verdict on a view is not taken. Where one is recorded no request stands, so this is looked at
/// first.
pub(crate) fn verdict_refusal<S: Scheme<D> + Drop, L: Elector<S, D>, D: Digest, K: Disk>(
    core: &Core<S, L, D, K>,
    view: View,
) -> Option<Refusal>
    ensures first { AtOwn S.Scheme L.Elector K.Disk ⟦<S as Speaks<D>>⟧.formats core.now
        (λ f s h. (ok : Bool) → IsFirst (tests S.Scheme f s h (event.Verdict view ok)) result) }
    ensures may { IfNone result (AtOwn S.Scheme L.Elector K.Disk ⟦<S as Speaks<D>>⟧.formats core.now (λ f s h. IsAwaited s h view)) }
{
    if core.ledger.recorded().is_judged(view) {
        return Some(Refusal::SecondVerdict);
    }
    if !core.tables.awaits(view) {
        return Some(Refusal::UnknownAnswer);
    }
    None
}

/// The first reason for which a moment is not taken.
pub(crate) fn moment_refusal<S: Scheme<D> + Drop, L: Elector<S, D>, D: Digest, K: Disk>(
    core: &Core<S, L, D, K>,
    now: u64,
) -> Option<Refusal>
    ensures first { AtAll S.Scheme L.Elector K.Disk core.now (λ f s h. IsFirst (tests S.Scheme f s h (event.Moment now)) result) }
    ensures may { IfNone result (AtAll S.Scheme L.Elector K.Disk core.now (λ f s h. (latest h ≤ now) × IsInTime s now)) }
{
    if now < core.tables.moment() {
        return Some(Refusal::MomentFell);
    }
    if core.settings.longest > u64::MAX - now {
        return Some(Refusal::MomentTooLate);
    }
    None
}
