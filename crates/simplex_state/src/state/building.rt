//! What a voter asks its application to build.

ghost use Rattle.std.specs.Prelude.{◌≡◌, ◌↔◌, ◌∷◌, Some, IfSome, IsTrue, MatchOption};
ghost use Rattle.types_terms.specs.Windows.{AdmitsOutbound};
ghost use Rattle.voter_history.specs.History.{build_asked, current};
ghost use Rattle.voter_history.specs.Known.{known};
ghost use Rattle.voter_rules.specs.Ancestry.{member};
ghost use Rattle.voter_rules.specs.Building.{IsContextOf, IsPrepared, context_of};
ghost use Rattle.voter_rules.specs.Requests.{IsFirstBuild, IsHandoff, NoBuildIsDue};
ghost use Rattle.simplex_state.specs.State.{AtEach, Keeps};

use crate::state::State;
use types_core::{Context, Digest, Round, Scheme, View};
use types_terms::Elector;
use voter_rules::ProposalRequest;
use voter_rules::requests::{build_on, is_handoff};

impl<S: Scheme<D> + Drop, L: Elector<S, D>, D: Digest> State<S, L, D> {
    /// Asks for a build in the lowest view where one is due: what is to be built on, and whether that is a handoff. Else nothing
    /// changes.
    pub fn try_propose(&mut self) -> Option<ProposalRequest<D, S::PublicKey>>
        ensures keeps { AtEach S.Scheme L.Elector self.old (λ s h.
            MatchOption result (Keeps S.Scheme L.Elector s self.new h)
            (λ x. Keeps S.Scheme L.Elector s self.new (build_asked (context_of x).round.view ∷ h))) }
        ensures answer { AtEach S.Scheme L.Elector self.old (λ s h.
            MatchOption result (NoBuildIsDue (member s) (known s h)) (λ x.
            IsFirstBuild (member s) (known s h) (context_of x).round.view (context_of x).parent.0 (context_of x).parent.1 × IsContextOf S.Scheme
            s (context_of x))) }
        ensures handoff { AtEach S.Scheme L.Elector self.old (λ s h.
            IfSome result
            (λ x. IsPrepared x ↔ IsHandoff (member s) (known s h) (context_of x).round.view (context_of x).parent.0 (context_of x).parent.1)) }
    {
        let Some(first) = self.first_build() else {
            return None;
        };
        let (view, parent, payload) = first;
        let is_handoff = is_handoff(&self.views, view, parent, payload);
        let Some(leader) = self.views.try_propose(view) else {
            return None;
        };
        let context = Context {
            round: Round::new(self.views.epoch(), view),
            leader: leader.key,
            parent: (parent, payload),
        };
        Some(ProposalRequest::new(is_handoff, context))
    }

    /// The lowest view where a build is due, with the parent to build on.
    fn first_build(&self) -> Option<(View, View, D)>
        ensures { AtEach S.Scheme L.Elector self.now
            (λ s h. MatchOption result (NoBuildIsDue (member s) (known s h)) (λ x. IsFirstBuild (member s) (known s h) x.0 x.1 x.2)) }
    {
        // The proof takes from the number that a term has at least one view.
        let _views = self.views.lookahead().length.get();
        let mut next = self.views.current_view();
        'views: while let Some(view) = self.views.first_tracked(next) {
            if !self.is_outbound(view) {
                return None;
            }
            if let Some((parent, payload)) = build_on(&self.views, view) {
                return Some((view, parent, payload));
            }
            if view.get() == u64::MAX {
                return None;
            }
            next = view.next();
        }
        None
    }

    /// Whether the view may be spoken of.
    pub(super) fn is_outbound(&self, view: View) -> bool
        ensures { AtEach S.Scheme L.Elector self.now (λ s h. IsTrue result ↔ AdmitsOutbound s.length s.optimistic_views (current s h) view) }
    {
        let current = self.views.current_view();
        if view <= current {
            return true;
        }
        self.views.lookahead().admits_outbound(current, view)
    }
}
