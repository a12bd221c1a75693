//! What is to be asked for: builds, verifications, certificates that proposals wait for, verdicts.

ghost use Rattle.std.specs.Prelude.{◌≡◌, ◌↔◌, ℕ, IsTrue, MatchOption, false};
ghost use Rattle.types_core.specs.declared.proposal.Proposal.{Proposal};
ghost use Rattle.voter_rules.specs.Ancestry.{IsFirstUncovered, IsInvalidParent, IsRequired, IsSpan, LacksPayload};
ghost use Rattle.voter_rules.specs.Asking.{Decides, Finds};
ghost use Rattle.voter_rules.specs.Knowing.{AtEach, Explains};
ghost use Rattle.voter_rules.specs.Requests.{BuildIsDue, IsHandoff, IsOpen, VerdictIsOpen, WaitsForParent};

use crate::ancestry::{
    ParentFault, explicit_payload, is_explicit_with, is_in_window, parent_payload,
    preferred_parent, required_parent, span_fault,
};
use crate::knowledge::Knowledge;
use crate::votes::may_be_spoken_of;
use types_core::{Digest, Proposal, View};

/// What is to be done for the proposal of another member that a view holds.
#[derive(Clone, Copy)]
pub enum VerifyRequest<D: Digest> {
    /// It is to be verified, over this payload of its parent.
    Ready(Proposal<D>, D),
    /// It can never stand: the view is to be given up.
    Invalid,
    /// The nullification of this view, which lies behind its parent, is to be asked for.
    Nullification(View),
    /// The notarization of this view, its parent, is to be asked for.
    Notarization(View),
    /// Nothing is to be done.
    Wait,
}

/// What is to be asked for, so that a notarized proposal gets its verdict.
#[derive(Clone, Copy)]
pub enum CertifyRequest<D: Digest> {
    /// The verdict on this proposal.
    Ready(Proposal<D>),
    /// The notarization of this view, which has to be certified first.
    Fetch(View),
    /// Nothing yet: the verdict is to be put off until this view, which is notarized, is certified.
    PutOff(View),
    /// Nothing: no verdict is open, or it was put off and still has to wait.
    Wait,
}

/// The parent that a build of a view is to be asked for on, with its payload; `None` where none is to be asked for.
pub fn build_on<K: Knowledge<D>, D: Digest>(known: &K, view: View) -> Option<(View, D)>
    ensures { AtEach K.shows known.now
        (λ m k. MatchOption result ((parent : ℕ) (payload : D) → ¬ BuildIsDue m k view parent payload) (λ x. BuildIsDue m k view x.0 x.1)) }
{
    if !known.should_propose(view) {
        return None;
    }
    if !is_open(known, view) {
        return None;
    }
    let (parent, payload) = preferred_parent(known, view)?;
    if !may_begin(known, view, parent, payload) {
        return None;
    }
    Some((parent, payload))
}

/// Whether a build on this parent needn't wait: a handoff waits while the current view is given up here.
fn may_begin<K: Knowledge<D>, D: Digest>(known: &K, view: View, parent: View, payload: D) -> bool
    ensures { AtEach K.shows known.now (λ m k. IsTrue result ↔ (IsHandoff m k view parent payload → k.has_nullified k.current ≡ false)) }
{
    if !is_handoff(known, view, parent, payload) {
        return true;
    }
    !known.broadcast_nullify(known.current_view())
}

/// Whether building on this parent is a handoff: the view starts a term, and the parent isn't explicit with this payload.
pub fn is_handoff<K: Knowledge<D>, D: Digest>(
    known: &K,
    view: View,
    parent: View,
    payload: D,
) -> bool
    ensures { AtEach K.shows known.now (λ m k. IsTrue result ↔ IsHandoff m k view parent payload) }
{
    if !view.is_term_start(known.lookahead().length) {
        return false;
    }
    !is_explicit_with(known, parent, payload)
}

/// Whether something may be asked for a view's proposal: the view isn't behind the current one, has room, may be
/// spoken of, and wasn't given up here.
pub fn is_open<K: Knowledge<D>, D: Digest>(known: &K, view: View) -> bool
    ensures { AtEach K.shows known.now (λ m k. IsTrue result ↔ IsOpen m k view) }
{
    if view < known.current_view() {
        return false;
    }
    if !may_be_spoken_of(known, view) {
        return false;
    }
    !known.broadcast_nullify(view)
}

/// What is to be done for the proposal of another member that a view holds.
pub fn request_for<K: Knowledge<D>, D: Digest>(known: &K, view: View) -> VerifyRequest<D>
    ensures { AtEach K.shows known.now (λ m k. Finds m k view result) }
{
    match waiting_proposal(known, view) {
        Some(proposal) => request_over(known, view, proposal),
        None => VerifyRequest::Wait,
    }
}

/// The proposal that waits for its parent alone, to be verified.
fn waiting_proposal<K: Knowledge<D>, D: Digest>(known: &K, view: View) -> Option<Proposal<D>>
    ensures { AtEach K.shows known.now (λ m k. MatchOption result ((p : Proposal D) → ¬ WaitsForParent m k view p) (λ p. WaitsForParent m k view p)) }
{
    let proposal = known.pending_verification(view)?;
    if !is_open(known, view) {
        return None;
    }
    Some(proposal)
}

/// What is to be done for a proposal that waits for its parent alone.
fn request_over<K: Knowledge<D>, D: Digest>(
    known: &K,
    view: View,
    proposal: Proposal<D>,
) -> VerifyRequest<D>
    ensures { AtEach K.shows known.now (λ m k. WaitsForParent m k view proposal → Finds m k view result) }
{
    match parent_payload(known, view, proposal.parent) {
        Ok(payload) => VerifyRequest::Ready(proposal, payload),
        Err(fault) => request_behind(known, view, proposal, fault),
    }
}

/// The same where it can't stand on its parent.
fn request_behind<K: Knowledge<D>, D: Digest>(
    known: &K,
    view: View,
    proposal: Proposal<D>,
    fault: ParentFault,
) -> VerifyRequest<D>
    ensures { AtEach K.shows known.now (λ m k. WaitsForParent m k view proposal → Explains m k view proposal.parent fault → Finds m k view result) }
{
    match fault {
        ParentFault::Invalid => VerifyRequest::Invalid,
        ParentFault::Uncovered(first) => uncovered(known, view, proposal, first),
        ParentFault::Missing => missing(known, view, proposal),
    }
}

/// The same where this view behind the parent is the first that isn't covered.
fn uncovered<K: Knowledge<D>, D: Digest>(
    known: &K,
    view: View,
    proposal: Proposal<D>,
    first: View,
) -> VerifyRequest<D>
    ensures { AtEach K.shows known.now (λ m k.
        WaitsForParent m k view proposal
        → ¬ IsInvalidParent m k view proposal.parent
        → IsFirstUncovered m k proposal.parent view first
        → Finds m k view result) }
{
    if known.is_requested(view, first) {
        return VerifyRequest::Wait;
    }
    VerifyRequest::Nullification(first)
}

/// The same where the parent's payload alone is missing: inside the issuance window nothing is asked for.
fn missing<K: Knowledge<D>, D: Digest>(
    known: &K,
    view: View,
    proposal: Proposal<D>,
) -> VerifyRequest<D>
    ensures { AtEach K.shows known.now (λ m k. WaitsForParent m k view proposal → LacksPayload m k view proposal.parent → Finds m k view result) }
{
    if is_in_window(known, view) {
        return VerifyRequest::Wait;
    }
    if known.is_requested(view, proposal.parent) {
        return VerifyRequest::Wait;
    }
    VerifyRequest::Notarization(proposal.parent)
}

/// What is to be asked for, so that a view's notarized proposal gets its verdict.
pub fn verdict_for<K: Knowledge<D>, D: Digest>(known: &K, view: View) -> CertifyRequest<D>
    ensures { AtEach K.shows known.now (λ m k. Decides m k view result) }
{
    match open_verdict(known, view) {
        Some(proposal) => verdict_over(known, view, proposal),
        None => CertifyRequest::Wait,
    }
}

/// The notarized proposal whose verdict is open.
fn open_verdict<K: Knowledge<D>, D: Digest>(known: &K, view: View) -> Option<Proposal<D>>
    ensures { AtEach K.shows known.now (λ m k. MatchOption result ((p : Proposal D) → ¬ VerdictIsOpen m k view p) (λ p. VerdictIsOpen m k view p)) }
{
    if view <= known.last_finalized() {
        return None;
    }
    if !view.has_room(known.lookahead().length) {
        return None;
    }
    let proposal = known.pending_certification(view)?;
    if view <= proposal.parent {
        return None;
    }
    if !may_be_required(known, view, proposal.parent) {
        return None;
    }
    Some(proposal)
}

/// Whether a view's proposal may stand on this parent, once that has a payload, where one is required to be explicit.
fn may_be_required<K: Knowledge<D>, D: Digest>(known: &K, view: View, parent: View) -> bool
    ensures { AtEach K.shows known.now (λ m k. IsTrue result ↔ ((required : ℕ) → IsRequired m k view parent required → IsSpan m k view parent)) }
{
    if required_parent(known, view, parent).is_none() {
        return true;
    }
    span_fault(known, view, parent).is_none()
}

/// What is to be asked for of a proposal whose verdict is open.
fn verdict_over<K: Knowledge<D>, D: Digest>(
    known: &K,
    view: View,
    proposal: Proposal<D>,
) -> CertifyRequest<D>
    ensures { AtEach K.shows known.now (λ m k. VerdictIsOpen m k view proposal → Decides m k view result) }
{
    let Some(required) = required_parent(known, view, proposal.parent) else {
        return CertifyRequest::Ready(proposal);
    };
    if explicit_payload(known, required).is_some() {
        return CertifyRequest::Ready(proposal);
    }
    if known.is_waiting(view) {
        return CertifyRequest::Wait;
    }
    if known.is_notarized(required) {
        return CertifyRequest::PutOff(required);
    }
    CertifyRequest::Fetch(required)
}
