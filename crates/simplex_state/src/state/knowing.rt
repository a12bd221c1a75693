//! What a voter knows.

ghost use Rattle.std.specs.Prelude.{◌≡◌, ◌↔◌, ◌+◌, ◌<◌, ◌^◌, Some, IsTrue};
ghost use Rattle.voter_history.specs.Past as past;
ghost use Rattle.voter_history.specs.History.{current, floor, last_finalized, seen};
ghost use Rattle.voter_history.specs.Known.{known};
ghost use Rattle.voter_rules.specs.Ancestry.{explicit, member};
ghost use Rattle.simplex_state.specs.State.{AtEach, Keeps};

use crate::state::State;
use types_core::{Digest, Scheme, View};
use types_terms::Elector;
use voter_rules::ancestry::is_explicit_with;

impl<S: Scheme<D> + Drop, L: Elector<S, D>, D: Digest> State<S, L, D> {
    /// The current view: 0 before the start.
    pub fn current_view(&self) -> View
        ensures { AtEach S.Scheme L.Elector self.now (λ s h. result ≡ current s h) }
    {
        self.views.current_view()
    }

    /// The last finalized view, or 0.
    pub fn last_finalized(&self) -> View
        ensures value { AtEach S.Scheme L.Elector self.now (λ s h. result ≡ last_finalized h) }
        ensures behind { AtEach S.Scheme L.Elector self.now (λ s h. result + 1 < 2 ^ 64) }
    {
        self.views.last_finalized()
    }

    /// The view that the member's record begins behind, or 0.
    pub fn floor(&self) -> View
        ensures { AtEach S.Scheme L.Elector self.now (λ s h. result ≡ floor s h) }
    {
        self.views.floor()
    }

    /// Whether this member gave the view up.
    pub fn voted_nullify(&self, view: View) -> bool
        ensures { AtEach S.Scheme L.Elector self.now (λ s h. result ≡ past.has_nullified (seen s h view)) }
    {
        match self.views.round(view) {
            Some(round) => round.broadcast_nullify(),
            None => false,
        }
    }

    /// Whether the view is explicit with this payload: the start's, or that of the held proposal where it is finalized or its verdict
    /// true.
    pub fn parent_certified(&self, view: View, payload: D) -> bool
        ensures { AtEach S.Scheme L.Elector self.now (λ s h. IsTrue result ↔ (explicit (member s) (known s h) view ≡ Some payload)) }
    {
        is_explicit_with(&self.views, view, payload)
    }
}
