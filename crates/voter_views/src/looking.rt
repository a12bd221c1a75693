//! Looks for what is explicit.

ghost use Rattle.std.specs.Prelude.{◌≡◌, ◌<◌, ◌-◌, ℕ, false, IfSome, MatchOption, None, option_map};
ghost use Rattle.types_core.specs.declared.proposal.Proposal.{Proposal};
ghost use Rattle.voter_history.specs.Past.{certified_proposal};
ghost use Rattle.voter_rounds.specs.Marks.{IsLastMarked};
ghost use Rattle.voter_history.specs.Pasts.{is_certified};
ghost use Rattle.voter_history.specs.History.{seen};
ghost use Rattle.voter_history.specs.Known.{known};
ghost use Rattle.voter_views.specs.Views.{AtEach};
ghost use Rattle.voter_rules.specs.Ancestry.{explicit, member};
ghost use Rattle.voter_rules.specs.Knowing.{IsHighest};

use crate::views::Views;
use types_core::{Digest, Scheme, View};
use types_terms::Elector;
use voter_history::Sign;

/// The payload of the proposal that a view holds, where it is finalized or its verdict true.
pub(crate) fn certified_payload<S: Scheme<D> + Drop, L: Elector<S, D>, D: Digest>(
    views: &Views<S, L, D>,
    view: View,
) -> Option<D>
    ensures { AtEach S.Scheme L.Elector views.now (λ s h. result ≡ option_map (λ (p : Proposal D). p.payload) (certified_proposal (seen s h view))) }
{
    match views.round(view) {
        Some(round) => round.certified_payload(),
        None => None,
    }
}

/// The highest view below this one that is explicit, with its payload.
pub(crate) fn last_explicit<S: Scheme<D> + Drop, L: Elector<S, D>, D: Digest>(
    views: &Views<S, L, D>,
    view: View,
) -> Option<(View, D)>
    ensures { AtEach S.Scheme L.Elector views.now (λ s h.
        MatchOption result ((u : ℕ) → u < view → explicit (member s) (known s h) u ≡ None)
        (λ last. IsHighest (member s) (known s h) view last.0 last.1)) }
{
    let mut end = view;
    // A certified view is explicit, and so the first one found: but for one of which the record recalls a true verdict, while no
    // proposal of it is known.
    'views: while let Some(last) = last_certified(views, end) {
        if let Some(payload) = certified_payload(views, last) {
            return Some((last, payload));
        }
        end = last;
    }
    start_below(views, view)
}

/// The last view behind the start and before the end that is finalized, or whose verdict is true.
fn last_certified<S: Scheme<D> + Drop, L: Elector<S, D>, D: Digest>(
    views: &Views<S, L, D>,
    end: View,
) -> Option<View>
    ensures before { IfSome result (λ last. last < end) }
    ensures certified { AtEach S.Scheme L.Elector views.now (λ s h.
        MatchOption result ((u : ℕ) → 0 < u → u < end → is_certified (seen s h u) ≡ false)
        (λ last. IsLastMarked (λ u. is_certified (seen s h u)) 1 (end - 1) last)) }
{
    let Some(below) = end.previous() else {
        return None;
    };
    views
        .bearing(Sign::Certified)
        .last_within(View::new(1), below)
}

/// The start with its payload, where it lies below this view and has one.
fn start_below<S: Scheme<D> + Drop, L: Elector<S, D>, D: Digest>(
    views: &Views<S, L, D>,
    view: View,
) -> Option<(View, D)>
    ensures { AtEach S.Scheme L.Elector views.now (λ s h.
        MatchOption result (0 < view → explicit (member s) (known s h) 0 ≡ None)
        (λ start. (start.0 ≡ 0) × (0 < view) × (explicit (member s) (known s h) 0 ≡ Some start.1))) }
{
    if view.is_zero() {
        return None;
    }
    match views.genesis {
        Some(payload) => Some((View::zero(), payload)),
        None => None,
    }
}
