//! Which payload a proposal may stand on.

ghost use Rattle.std.specs.Prelude.{◌≡◌, ◌≢◌, ◌⊎◌, ◌↔◌, ℕ, ◌+◌, ◌<◌, ◌^◌, IsTrue, IfSome, option_map, MatchOption, MatchResult, None, Some, true, false};
ghost use Rattle.std.specs.Option.{ForSome};
ghost use Rattle.types_core.specs.Positions.{IsTermStart};
ghost use Rattle.voter_rules.specs.Ancestry.{HasFailed, InWindow, IsHandedOver, IsHandoffParent, IsLastCertified, IsParent, IsPreferred, IsRequired, IsSpan, IsSteady, Leads, Optimistic, Stands, Supports, explicit, has_certificate};
ghost use Rattle.voter_rules.specs.Knowing.{AtEach, Explains, IsLink, Rests};

use crate::knowledge::Knowledge;
use types_core::{Digest, Proposal, View};

/// Why a proposal can't stand on a parent.
#[derive(Clone, Copy, Debug, PartialEq, Eq)]
pub enum ParentFault {
    /// It never can: the parent isn't below the view, lies below the last finalized one, or a view between is
    /// passed over inside a term.
    Invalid,
    /// This view between is the first that isn't covered.
    Uncovered(View),
    /// The parent's payload is missing.
    Missing,
}

/// What a view supports: its payload, and, where that rests on this member's vote alone, the parent that has to
/// support what is below, with the payload that it was bound to, where it was.
#[derive(Clone, Copy)]
struct Link<D> {
    payload: D,
    below: Option<(View, Option<D>)>,
}

/// The explicit payload of a view: that of the start, or of the held proposal where it is finalized or its
/// verdict true.
pub fn explicit_payload<K: Knowledge<D>, D: Digest>(known: &K, view: View) -> Option<D>
    ensures { AtEach K.shows known.now (λ m k. result ≡ explicit m k view) }
{
    if view.is_zero() {
        return known.genesis();
    }
    known.certified_payload(view)
}

/// Whether a view is explicit with this payload.
pub fn is_explicit_with<K: Knowledge<D>, D: Digest>(known: &K, view: View, payload: D) -> bool
    ensures { AtEach K.shows known.now (λ m k. IsTrue result ↔ (explicit m k view ≡ Some payload)) }
{
    is_payload(explicit_payload(known, view), payload)
}

/// Whether just this payload was found.
fn is_payload<D: Digest>(found: Option<D>, payload: D) -> bool
    ensures { IsTrue result ↔ (found ≡ Some payload) }
{
    match found {
        Some(given) => given == payload,
        None => false,
    }
}

/// Whether a view may be taken up before the views before it are certified: it starts no term, and at most the
/// optimistic views lie between it and one with a certificate, or the start.
pub fn is_in_window<K: Knowledge<D>, D: Digest>(known: &K, view: View) -> bool
    ensures { AtEach K.shows known.now (λ m k. IsTrue result ↔ InWindow m k view) }
{
    let Some(floor) = known.lookahead().issuance_floor(view) else {
        return false;
    };
    floor.is_zero() || known.has_certificate_within(floor, view)
}

/// The payload that a view supports before it is certified. That of the start; where the view has a certificate,
/// what this supports, unless a verdict of the term up to it is false; else that of the proposal that this
/// member voted for, as far as its parents support what they were bound to.
pub fn optimistic_payload<K: Knowledge<D>, D: Digest>(known: &K, view: View) -> Option<D>
    requires { view + 1 < 2 ^ 64 }
    ensures { AtEach K.shows known.now
        (λ m k. MatchOption result ((payload : D) → ¬ Optimistic m k view payload) (λ payload. Optimistic m k view payload)) }
{
    let first = support(known, view)?;
    let mut below = first.below;
    'views: while let Some((parent, bound)) = below {
        below = follow(known, parent, bound)?;
    }
    Some(first.payload)
}

/// What rests on a parent that has to support what it was bound to, where it was, is moved on to what that rests on.
/// There is none where the parent supports nothing, or another payload.
fn follow<K: Knowledge<D>, D: Digest>(
    known: &K,
    parent: View,
    bound: Option<D>,
) -> Option<Option<(View, Option<D>)>>
    requires { parent + 1 < 2 ^ 64 }
    ensures lower { IfSome result (λ below. ForSome below (λ b. b.0 < parent)) }
    ensures rests { AtEach K.shows known.now
        (λ m k. MatchOption result (¬ Rests m k (Some (parent, bound))) (λ below. Rests m k below ↔ Rests m k (Some (parent, bound)))) }
{
    let next = support(known, parent)?;
    if !is_met(bound, next.payload) {
        return None;
    }
    Some(next.below)
}

/// Whether a payload is the bound one, where one is.
fn is_met<D: Digest>(bound: Option<D>, payload: D) -> bool
    ensures { IsTrue result ↔ ForSome bound (λ b. b ≡ payload) }
{
    match bound {
        Some(bound) => bound == payload,
        None => true,
    }
}

/// What a view supports, and what that rests on.
fn support<K: Knowledge<D>, D: Digest>(known: &K, view: View) -> Option<Link<D>>
    requires { view + 1 < 2 ^ 64 }
    ensures lower { IfSome result (λ l. ForSome l.below (λ below. below.0 < view)) }
    ensures link { AtEach K.shows known.now (λ m k. MatchOption result ((payload : D) → ¬ Optimistic m k view payload) (λ l. IsLink m k view l)) }
{
    if view.is_zero() {
        let payload = known.genesis()?;
        return Some(Link {
            payload,
            below: None,
        });
    }
    if known.has_certificate(view) {
        return certified_link(known, view);
    }
    voted_link(known, view)
}

/// The same of a view with a certificate.
fn certified_link<K: Knowledge<D>, D: Digest>(known: &K, view: View) -> Option<Link<D>>
    requires { view + 1 < 2 ^ 64 }
    ensures lower { IfSome result (λ l. ForSome l.below (λ below. below.0 < view)) }
    ensures link { AtEach K.shows known.now (λ m k.
        view ≢ 0
        → has_certificate m k view ≡ true
        → MatchOption result ((payload : D) → ¬ Optimistic m k view payload) (λ l. IsLink m k view l)) }
{
    if has_failed(known, view) {
        return None;
    }
    let payload = known.certificate_payload(view)?;
    Some(Link {
        payload,
        below: None,
    })
}

/// Whether a verdict of the view's term up to it, above the last finalized view, is false.
fn has_failed<K: Knowledge<D>, D: Digest>(known: &K, view: View) -> bool
    requires { view + 1 < 2 ^ 64 }
    ensures { AtEach K.shows known.now (λ m k. IsTrue result ↔ HasFailed m k view) }
{
    let finalized = known.last_finalized();
    if view <= finalized {
        return false;
    }
    let start = view.term_start(known.lookahead().length);
    known.has_failed_within(start.max(finalized.next()), view.next())
}

/// The same of a view without one.
fn voted_link<K: Knowledge<D>, D: Digest>(known: &K, view: View) -> Option<Link<D>>
    requires { view + 1 < 2 ^ 64 }
    ensures lower { IfSome result (λ l. ForSome l.below (λ below. below.0 < view)) }
    ensures link { AtEach K.shows known.now (λ m k.
        view ≢ 0
        → has_certificate m k view ≡ false
        → MatchOption result ((payload : D) → ¬ Optimistic m k view payload) (λ l. IsLink m k view l)) }
{
    let proposal = known.backed_proposal(view)?;
    if proposal.parent < known.last_finalized() || view <= proposal.parent {
        return None;
    }
    if known.first_uncovered(proposal.parent, view).is_some() {
        return None;
    }
    if !is_reached(known, view) {
        return None;
    }
    let bound = bound_payload(known, view);
    Some(Link {
        payload: proposal.payload,
        below: Some((proposal.parent, bound)),
    })
}

/// Whether a view without a certificate may be built on for this member's vote: the view behind it is in the issuance
/// window, or this member may build there by a handoff.
fn is_reached<K: Knowledge<D>, D: Digest>(known: &K, view: View) -> bool
    requires { view + 1 < 2 ^ 64 }
    ensures { AtEach K.shows known.now (λ m k. view ≢ 0 → IsTrue result ↔ (InWindow m k (view + 1) ⊎ IsHandoffParent m k view)) }
{
    if is_in_window(known, view.next()) {
        return true;
    }
    is_handoff_parent(known, view)
}

/// Whether this member may build at the start of the next term before the view that ends this one is decided: a
/// schedule names it for that start, and the view isn't covered. The start isn't such a view: it is explicit.
fn is_handoff_parent<K: Knowledge<D>, D: Digest>(known: &K, view: View) -> bool
    requires { view + 1 < 2 ^ 64 }
    ensures { AtEach K.shows known.now (λ m k. IsTrue result ↔ ((view ≢ 0) × IsHandoffParent m k view)) }
{
    let Some(before) = view.previous() else {
        return false;
    };
    let next = view.next();
    if !next.is_term_start(known.lookahead().length) {
        return false;
    }
    if !known.leads_by_schedule(next) {
        return false;
    }
    known.first_uncovered(before, next).is_some()
}

/// The parent's payload that a view's proposal is bound to, where it is to any.
fn bound_payload<K: Knowledge<D>, D: Digest>(known: &K, view: View) -> Option<D>
    ensures { AtEach K.shows known.now (λ m k. result ≡ option_map (λ b. b.1) (k.binding view)) }
{
    let (_proposal, payload) = known.binding(view)?;
    Some(payload)
}

/// The payload with which a view's proposal may stand on a parent below it: inside the window the optimistic one,
/// outside the explicit one.
pub fn supported_payload<K: Knowledge<D>, D: Digest>(
    known: &K,
    view: View,
    parent: View,
) -> Option<D>
    requires { parent < view }
    ensures { AtEach K.shows known.now
        (λ m k. MatchOption result ((payload : D) → ¬ Supports m k view parent payload) (λ payload. Supports m k view parent payload)) }
{
    if is_in_window(known, view) {
        return optimistic_payload(known, parent);
    }
    explicit_payload(known, parent)
}

/// The payload with which a view's proposal may stand on this parent.
///
/// # Errors
///
/// Why it can't.
pub fn parent_payload<K: Knowledge<D>, D: Digest>(
    known: &K,
    view: View,
    parent: View,
) -> Result<D, ParentFault>
    ensures { AtEach K.shows known.now
        (λ m k. MatchResult result (λ payload. IsParent m k view parent payload) (λ fault. Explains m k view parent fault)) }
{
    if let Some(fault) = span_fault(known, view, parent) {
        return Err(fault);
    }
    supported_payload(known, view, parent).ok_or(ParentFault::Missing)
}

/// Why a view's proposal can't stand on this parent, whatever the parent's payload.
pub fn span_fault<K: Knowledge<D>, D: Digest>(
    known: &K,
    view: View,
    parent: View,
) -> Option<ParentFault>
    ensures below { result ≡ None → parent < view }
    ensures fault { AtEach K.shows known.now
        (λ m k. MatchOption result (IsSpan m k view parent) (λ fault. Explains m k view parent fault × ¬ IsSpan m k view parent)) }
{
    if view <= parent || parent < known.last_finalized() {
        return Some(ParentFault::Invalid);
    }
    if !view.is_term_start(known.lookahead().length) && view != parent.next() {
        return Some(ParentFault::Invalid);
    }
    match known.first_uncovered(parent, view) {
        Some(first) => Some(ParentFault::Uncovered(first)),
        None => None,
    }
}

/// The parent that a view is built on, with its payload: inside a term the view before, where it supports one; at a
/// term's start the highest explicit view below, where each view between is covered, or else the view before, where it
/// may be handed off.
pub fn preferred_parent<K: Knowledge<D>, D: Digest>(known: &K, view: View) -> Option<(View, D)>
    ensures { AtEach K.shows known.now
        (λ m k. MatchOption result ((parent : ℕ) (payload : D) → ¬ IsPreferred m k view parent payload) (λ x. IsPreferred m k view x.0 x.1)) }
{
    if view.is_term_start(known.lookahead().length) {
        return last_parent(known, view);
    }
    previous_parent(known, view)
}

/// The same inside a term.
fn previous_parent<K: Knowledge<D>, D: Digest>(known: &K, view: View) -> Option<(View, D)>
    ensures { AtEach K.shows known.now (λ m k.
        ¬ IsTermStart m.length view
        → MatchOption result ((parent : ℕ) (payload : D) → ¬ IsPreferred m k view parent payload) (λ x. IsPreferred m k view x.0 x.1)) }
{
    let parent = view.previous()?;
    match supported_payload(known, view, parent) {
        Some(payload) => Some((parent, payload)),
        None => None,
    }
}

/// The same at a term's start.
fn last_parent<K: Knowledge<D>, D: Digest>(known: &K, view: View) -> Option<(View, D)>
    ensures { AtEach K.shows known.now (λ m k.
        IsTermStart m.length view
        → MatchOption result ((parent : ℕ) (payload : D) → ¬ IsPreferred m k view parent payload) (λ x. IsPreferred m k view x.0 x.1)) }
{
    if let Some(found) = certified_parent(known, view) {
        return Some(found);
    }
    handed_over(known, view)
}

/// The highest explicit view below a term's start with its payload, where each view between is covered.
fn certified_parent<K: Knowledge<D>, D: Digest>(known: &K, view: View) -> Option<(View, D)>
    ensures { AtEach K.shows known.now (λ m k.
        IsTermStart m.length view
        → MatchOption result ((parent : ℕ) (payload : D) → ¬ IsLastCertified m k view parent payload)
        (λ x. IsLastCertified m k view x.0 x.1)) }
{
    let (parent, payload) = known.last_certified(view)?;
    if known.first_uncovered(parent, view).is_some() {
        return None;
    }
    Some((parent, payload))
}

/// The view before a term's start with the payload that it supports, where it may be handed off.
fn handed_over<K: Knowledge<D>, D: Digest>(known: &K, view: View) -> Option<(View, D)>
    ensures { AtEach K.shows known.now (λ m k.
        IsTermStart m.length view
        → ((u : ℕ) (other : D) → ¬ IsLastCertified m k view u other)
        → MatchOption result ((parent : ℕ) (payload : D) → ¬ IsHandedOver m k view parent payload) (λ x. IsHandedOver m k view x.0 x.1)) }
{
    let parent = view.previous()?;
    if !is_handoff_parent(known, parent) {
        return None;
    }
    match optimistic_payload(known, parent) {
        Some(payload) => Some((parent, payload)),
        None => None,
    }
}

/// Whether what a view's proposal is bound to hasn't fallen: it names the held proposal, and its parent may still be
/// stood on with the bound payload, or this member, which leads, would build on just that.
pub fn is_steady<K: Knowledge<D>, D: Digest>(known: &K, view: View) -> bool
    ensures { AtEach K.shows known.now (λ m k. IsTrue result ↔ IsSteady m k view) }
{
    match known.binding(view) {
        Some((proposal, payload)) => stands(known, view, &proposal, payload),
        None => true,
    }
}

/// Whether a binding of a proposal to its parent's payload stands.
fn stands<K: Knowledge<D>, D: Digest>(
    known: &K,
    view: View,
    proposal: &Proposal<D>,
    payload: D,
) -> bool
    ensures { AtEach K.shows known.now (λ m k. IsTrue result ↔ Stands m k view (proposal.now, payload)) }
{
    if !is_held(known.proposal(view), proposal) {
        return false;
    }
    may_stand_on(known, view, proposal.parent, payload)
}

/// Whether the held proposal is this one.
fn is_held<D: Digest>(held: Option<Proposal<D>>, proposal: &Proposal<D>) -> bool
    ensures { IsTrue result ↔ (held ≡ Some proposal.now) }
{
    match held {
        Some(held) => held == *proposal,
        None => false,
    }
}

/// Whether a view's proposal may stand on this parent with this payload, or this member, which leads, would build it so.
fn may_stand_on<K: Knowledge<D>, D: Digest>(known: &K, view: View, parent: View, payload: D) -> bool
    ensures { AtEach K.shows known.now
        (λ m k. IsTrue result ↔ (IsParent m k view parent payload ⊎ (Leads m k view × IsPreferred m k view parent payload))) }
{
    if allows_parent(known, view, parent, payload) {
        return true;
    }
    known.leads(view) && prefers(known, view, parent, payload)
}

/// Whether the parent rule gives this payload.
pub fn allows_parent<K: Knowledge<D>, D: Digest>(
    known: &K,
    view: View,
    parent: View,
    payload: D,
) -> bool
    ensures { AtEach K.shows known.now (λ m k. IsTrue result ↔ IsParent m k view parent payload) }
{
    match parent_payload(known, view, parent) {
        Ok(given) => given == payload,
        Err(_) => false,
    }
}

/// Whether this is the parent to build on, with this payload.
pub fn prefers<K: Knowledge<D>, D: Digest>(known: &K, view: View, parent: View, payload: D) -> bool
    ensures { AtEach K.shows known.now (λ m k. IsTrue result ↔ IsPreferred m k view parent payload) }
{
    is_just(preferred_parent(known, view), parent, payload)
}

/// Whether just this parent was found, with this payload.
fn is_just<D: Digest>(found: Option<(View, D)>, parent: View, payload: D) -> bool
    ensures { IsTrue result ↔ (found ≡ Some (parent, payload)) }
{
    match found {
        Some((view, given)) => view == parent && given == payload,
        None => false,
    }
}

/// The view that has to be explicit before a view's proposal on this parent is certified or finalized: inside a term
/// the view before; at a term's start the view before, where it is the parent, a schedule names this member for the
/// view, and it voted to notarize there.
pub fn required_parent<K: Knowledge<D>, D: Digest>(
    known: &K,
    view: View,
    parent: View,
) -> Option<View>
    ensures { AtEach K.shows known.now (λ m k.
        MatchOption result ((required : ℕ) → ¬ IsRequired m k view parent required) (λ required. IsRequired m k view parent required)) }
{
    let before = view.previous()?;
    if !view.is_term_start(known.lookahead().length) {
        return Some(before);
    }
    if parent != before {
        return None;
    }
    if !known.leads_by_schedule(view) {
        return None;
    }
    if !known.broadcast_notarize(view) {
        return None;
    }
    Some(before)
}
