//! What whoever keeps a voter's views can be asked.

ghost use Rattle.std.specs.Prelude.{◌≡◌, ◌≢◌, ◌↔◌, ◌<◌, ℕ, IsTrue, MatchOption, None, Some, is_some};
ghost use Rattle.types_core.specs.declared.proposal.Proposal.{Proposal};
ghost use Rattle.types_terms.specs.Windows.{Retains};
ghost use Rattle.voter_history.specs.Known.{Known};
ghost use Rattle.voter_rules.specs.Ancestry.{Member, AreCoveredBetween, IsFirstUncovered, Leads, LeadsBySchedule, certificate_payload, explicit, has_certificate, held_at};
ghost use Rattle.voter_rules.specs.Knowing.{AllowsBuild, AllowsFinalize, AllowsNotarize, AllowsVerify, AtEach, HasCertificateWithin, HasFailedWithin, HasGivenUpWithin, IsBacked, IsHighest, uncertified};

use types_core::{Digest, Proposal, View};
use types_terms::Lookahead;

/// What is known of a voter's views, as far as what they support rests on it.
pub trait Knowledge<D: Digest> {
    /// Whoever is asked stands where a member knows this.
    ghost shows: { Self → Member → Known D → Type 0 };

    /// How many views a term has, and how many are optimistic.
    fn lookahead(&self) -> Lookahead
        ensures length { AtEach shows self.now (λ m k. result.length ≡ m.length) }
        ensures optimistic_views { AtEach shows self.now (λ m k. result.optimistic_views ≡ m.optimistic_views) };

    /// The last finalized view, or 0.
    fn last_finalized(&self) -> View
        ensures { AtEach shows self.now (λ m k. result ≡ k.last_finalized) };

    /// The payload at the start.
    fn genesis(&self) -> Option<D>
        ensures { AtEach shows self.now (λ m k. result ≡ k.genesis) };

    /// The payload of the proposal that a view behind the start holds, where it is finalized or its verdict true.
    fn certified_payload(&self, view: View) -> Option<D>
        ensures { AtEach shows self.now (λ m k. view ≢ 0 → result ≡ explicit m k view) };

    /// Whether a view has a notarization or finalization.
    fn has_certificate(&self, view: View) -> bool
        ensures { AtEach shows self.now (λ m k. result ≡ has_certificate m k view) };

    /// The payload that a view's certificates support: the finalization's, or the notarization's without a false verdict.
    fn certificate_payload(&self, view: View) -> Option<D>
        ensures { AtEach shows self.now (λ m k. result ≡ certificate_payload m k view) };

    /// Whether one of the views from the first on and before the end has a notarization or finalization.
    fn has_certificate_within(&self, first: View, end: View) -> bool
        ensures { AtEach shows self.now (λ m k. IsTrue result ↔ HasCertificateWithin m k first end) };

    /// Whether a verdict on one of the views from the first on and before the end is false.
    fn has_failed_within(&self, first: View, end: View) -> bool
        ensures { AtEach shows self.now (λ m k. IsTrue result ↔ HasFailedWithin m k first end) };

    /// The proposal that a view holds, where it is verified and this member voted for it.
    fn backed_proposal(&self, view: View) -> Option<Proposal<D>>
        ensures { AtEach shows self.now (λ m k. MatchOption result (¬ IsBacked m k view) (λ p. IsBacked m k view × (held_at m k view ≡ Some p))) };

    /// What a view's proposal is bound to: a proposal, and its parent's payload.
    fn binding(&self, view: View) -> Option<(Proposal<D>, D)>
        ensures { AtEach shows self.now (λ m k. result ≡ k.binding view) };

    /// The proposal that a view holds.
    fn proposal(&self, view: View) -> Option<Proposal<D>>
        ensures { AtEach shows self.now (λ m k. result ≡ held_at m k view) };

    /// The highest view below this one that is explicit, with its payload.
    fn last_certified(&self, view: View) -> Option<(View, D)>
        ensures { AtEach shows self.now
            (λ m k. MatchOption result ((u : ℕ) → u < view → explicit m k u ≡ None) (λ last. IsHighest m k view last.0 last.1)) };

    /// Whether this member leads a view, as far as is known.
    fn leads(&self, view: View) -> bool
        ensures { AtEach shows self.now (λ m k. IsTrue result ↔ Leads m k view) };

    /// Whether a schedule names this member for a view.
    fn leads_by_schedule(&self, view: View) -> bool
        ensures { AtEach shows self.now (λ m k. IsTrue result ↔ LeadsBySchedule m view) };

    /// The current view.
    fn current_view(&self) -> View
        ensures { AtEach shows self.now (λ m k. result ≡ k.current) };

    /// The view that the record begins behind.
    fn floor(&self) -> View
        ensures { AtEach shows self.now (λ m k. result ≡ k.floor) };

    /// Whether a view is kept.
    fn retains(&self, view: View) -> bool
        ensures { AtEach shows self.now (λ m k. IsTrue result ↔ Retains k.last_finalized m.retention view) };

    /// Whether this member voted to notarize a view.
    fn broadcast_notarize(&self, view: View) -> bool
        ensures { AtEach shows self.now (λ m k. result ≡ k.has_notarized view) };

    /// Whether it gave a view up.
    fn broadcast_nullify(&self, view: View) -> bool
        ensures { AtEach shows self.now (λ m k. result ≡ k.has_nullified view) };

    /// Whether it gave up one of the views from the first on and before the end.
    fn has_given_up_within(&self, first: View, end: View) -> bool
        ensures { AtEach shows self.now (λ m k. IsTrue result ↔ HasGivenUpWithin m k first end) };

    /// Whether a view alone allows a notarize.
    fn can_construct_notarize(&self, view: View) -> bool
        ensures { AtEach shows self.now (λ m k. IsTrue result ↔ AllowsNotarize m k view) };

    /// Whether a view alone allows a finalize.
    fn can_construct_finalize(&self, view: View) -> bool
        ensures { AtEach shows self.now (λ m k. IsTrue result ↔ AllowsFinalize m k view) };

    /// Whether a view alone allows that a build is asked for.
    fn should_propose(&self, view: View) -> bool
        ensures { AtEach shows self.now (λ m k. IsTrue result ↔ AllowsBuild m k view) };

    /// The proposal that a view holds, where the view alone allows that its verification is asked for.
    fn pending_verification(&self, view: View) -> Option<Proposal<D>>
        ensures { AtEach shows self.now (λ m k. MatchOption result ((p : Proposal D) → ¬ AllowsVerify m k view p) (λ p. AllowsVerify m k view p)) };

    /// Whether another view was the last one that was asked for, for a view's proposal.
    fn is_requested(&self, view: View, missing: View) -> bool
        ensures { AtEach shows self.now (λ m k. IsTrue result ↔ (k.last_asked view ≡ Some missing)) };

    /// The proposal that a view is notarized for, until a verdict came or was asked for.
    fn pending_certification(&self, view: View) -> Option<Proposal<D>>
        ensures { AtEach shows self.now (λ m k. result ≡ uncertified m k view) };

    /// Whether the verdict on a view was put off until its parent has one.
    fn is_waiting(&self, view: View) -> bool
        ensures { AtEach shows self.now (λ m k. result ≡ k.certify_waited view) };

    /// Whether a view is notarized.
    fn is_notarized(&self, view: View) -> bool
        ensures { AtEach shows self.now (λ m k. result ≡ is_some (k.notarized view)) };

    /// The first view strictly between a parent and a view that isn't covered.
    fn first_uncovered(&self, parent: View, view: View) -> Option<View>
        ensures { AtEach shows self.now
            (λ m k. MatchOption result (AreCoveredBetween m k parent view) (λ first. IsFirstUncovered m k parent view first)) };
}
