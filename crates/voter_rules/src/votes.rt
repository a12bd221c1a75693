//! Which votes are due.

ghost use Rattle.std.specs.Prelude.{◌≡◌, ◌↔◌, ◌-◌, ◌<◌, ◌≤◌, ℕ, IsSome, IsTrue, Some, false};
ghost use Rattle.std.specs.Option.{ForSome};
ghost use Rattle.types_core.specs.declared.proposal.Proposal.{Proposal};
ghost use Rattle.types_core.specs.Positions.{HasRoom, term_start};
ghost use Rattle.types_terms.specs.Windows.{AdmitsOutbound};
ghost use Rattle.voter_rules.specs.Ancestry.{InWindow, IsRequired, Optimistic, explicit, held_at};
ghost use Rattle.voter_rules.specs.VotesDue.{FinalizeIsDue, NotarizeIsDue};
ghost use Rattle.voter_rules.specs.Knowing.{AtEach};

use crate::ancestry::{
    explicit_payload, is_in_window, is_steady, optimistic_payload, required_parent,
};
use crate::knowledge::Knowledge;
use types_core::{Digest, View};

/// Whether a notarize of a view is due.
pub fn notarize_is_due<K: Knowledge<D>, D: Digest>(known: &K, view: View) -> bool
    ensures { AtEach K.shows known.now (λ m k. IsTrue result ↔ NotarizeIsDue m k view) }
{
    if !known.retains(view) {
        return false;
    }
    if view <= known.floor() {
        return false;
    }
    if !may_be_spoken_of(known, view) {
        return false;
    }
    if !known.can_construct_notarize(view) {
        return false;
    }
    if !is_supported(known, view) {
        return false;
    }
    is_steady(known, view)
}

/// Whether a finalize of a view is due.
pub fn finalize_is_due<K: Knowledge<D>, D: Digest>(known: &K, view: View) -> bool
    ensures { AtEach K.shows known.now (λ m k. IsTrue result ↔ FinalizeIsDue m k view) }
{
    if view <= known.last_finalized() {
        return false;
    }
    if !may_be_spoken_of(known, view) {
        return false;
    }
    if !known.can_construct_finalize(view) {
        return false;
    }
    if !is_healed(known, view) {
        return false;
    }
    is_grounded(known, view)
}

/// Whether a view has room and may be spoken of.
pub fn may_be_spoken_of<K: Knowledge<D>, D: Digest>(known: &K, view: View) -> bool
    ensures { AtEach K.shows known.now (λ m k. IsTrue result ↔ (HasRoom m.length view × AdmitsOutbound m.length m.optimistic_views k.current view)) }
{
    let lookahead = known.lookahead();
    if !view.has_room(lookahead.length) {
        return false;
    }
    lookahead.admits_outbound(known.current_view(), view)
}

/// Whether the view before supports a payload, inside the issuance window.
fn is_supported<K: Knowledge<D>, D: Digest>(known: &K, view: View) -> bool
    ensures { AtEach K.shows known.now (λ m k. IsTrue result ↔ (InWindow m k view → (payload : D) × Optimistic m k (view - 1) payload)) }
{
    if !is_in_window(known, view) {
        return true;
    }
    match view.previous() {
        Some(before) => optimistic_payload(known, before).is_some(),
        None => true,
    }
}

/// Whether no earlier view of the term above the last finalized one was given up here.
fn is_healed<K: Knowledge<D>, D: Digest>(known: &K, view: View) -> bool
    ensures { AtEach K.shows known.now
        (λ m k. IsTrue result ↔ ((u : ℕ) → term_start m.length view ≤ u → u < view → k.last_finalized < u → k.has_nullified u ≡ false)) }
{
    let finalized = known.last_finalized();
    if view <= finalized {
        return true;
    }
    let start = view.term_start(known.lookahead().length);
    !known.has_given_up_within(start.max(finalized.next()), view)
}

/// Whether the parent that the held proposal requires is explicit, where it requires one.
fn is_grounded<K: Knowledge<D>, D: Digest>(known: &K, view: View) -> bool
    ensures { AtEach K.shows known.now (λ m k.
        IsTrue result ↔ ((p : Proposal D) (required : ℕ)
        → held_at m k view ≡ Some p
        → IsRequired m k view p.parent required
        → IsSome (explicit m k required))) }
{
    match known.proposal(view) {
        Some(proposal) => is_explicit(known, required_parent(known, view, proposal.parent)),
        None => true,
    }
}

/// Whether a view is explicit, where one is required.
fn is_explicit<K: Knowledge<D>, D: Digest>(known: &K, required: Option<View>) -> bool
    ensures { AtEach K.shows known.now (λ m k. IsTrue result ↔ ForSome required (λ u. IsSome (explicit m k u))) }
{
    match required {
        Some(view) => explicit_payload(known, view).is_some(),
        None => true,
    }
}
