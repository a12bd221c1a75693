//! Of which views a voter owes votes.

ghost use Rattle.std.specs.Prelude.{◌≡◌, MatchOption};
ghost use Rattle.voter_history.specs.Known.{known};
ghost use Rattle.voter_rules.specs.Ancestry.{member};
ghost use Rattle.simplex_state.specs.LowestDue.{IsFirstFinalize, IsFirstNotarize, NoFinalizeIsDue, NoNotarizeIsDue};
ghost use Rattle.simplex_state.specs.State.{AtEach};

use crate::state::State;
use types_core::{Digest, Scheme, View};
use types_terms::Elector;
use voter_rules::votes::{finalize_is_due, notarize_is_due};

impl<S: Scheme<D> + Drop, L: Elector<S, D>, D: Digest> State<S, L, D> {
    /// The lowest view of which a notarize is due, whether this member has a key or not; `None` where none is of any view. The cost
    /// is that of the views whose proposal was found good, and that wait to be voted for.
    pub fn next_notarize(&self) -> Option<View>
        ensures { AtEach S.Scheme L.Elector self.now
            (λ s h. MatchOption result (NoNotarizeIsDue (member s) (known s h)) (λ view. IsFirstNotarize (member s) (known s h) view)) }
    {
        // The proof takes from the number that a term has at least one view.
        let _views = self.views.lookahead().length.get();
        let mut next = View::zero();
        'views: while let Some(view) = self.notarizes.first_from(next) {
            if notarize_is_due(&self.views, view) {
                return Some(view);
            }
            if view.get() == u64::MAX {
                return None;
            }
            next = view.next();
        }
        None
    }

    /// The lowest view of which a finalize is due, whether this member has a key or not; `None` where none is of any view. The cost
    /// is that of the views above the last finalized one whose verdict is true, and that wait to be voted for.
    pub fn next_finalize(&self) -> Option<View>
        ensures { AtEach S.Scheme L.Elector self.now
            (λ s h. MatchOption result (NoFinalizeIsDue (member s) (known s h)) (λ view. IsFirstFinalize (member s) (known s h) view)) }
    {
        // The proof takes from the number that a term has at least one view.
        let _views = self.views.lookahead().length.get();
        let mut next = self.views.last_finalized();
        'views: while let Some(view) = self.finalizes.first_from(next) {
            if finalize_is_due(&self.views, view) {
                return Some(view);
            }
            if view.get() == u64::MAX {
                return None;
            }
            next = view.next();
        }
        None
    }
}
