//! Which views a member keeps and listens to.

ghost use Rattle.std.specs.Prelude.{◌≡◌, ◌↔◌, ◌<◌, ◌≤◌, ◌+◌, ◌^◌, ℕ, IsTrue};
ghost use Rattle.types_core.specs.Positions.{term_end};
ghost use Rattle.types_terms.specs.Windows.{Admits, Retains, retention_floor};

use crate::lookahead::Lookahead;
use types_core::{View, ViewDelta};

/// Which views a member keeps and listens to, by where it stands.
#[derive(Clone, Copy, Debug, PartialEq, Eq, Hash)]
pub struct Viewport {
    /// The last finalized view.
    pub finalized: View,
    /// The view that the member is in.
    pub current: View,
    /// How many views before the last finalized one are kept.
    pub view_retention: ViewDelta,
    /// How far ahead the member listens.
    pub lookahead: Lookahead,
}

impl Viewport {
    /// The least view that is kept, stopped at 0.
    pub fn floor(&self) -> View
        ensures { result ≡ retention_floor self.now.finalized self.now.view_retention }
    {
        View::new(
            self.finalized
                .get()
                .saturating_sub(self.view_retention.get()),
        )
    }

    /// Of the views below the floor the first whose term ends above the last finalized view, so that a nullification of it still covers
    /// what may be built on; the floor where there is none. Of the last number that there is as the finalized view nothing more is said
    /// than that the floor isn't passed.
    pub fn first_reaching(&self) -> View
        ensures up_to_floor { result ≤ retention_floor self.now.finalized self.now.view_retention }
        ensures reaches { self.now.finalized + 1 < 2 ^ 64
            → (view : ℕ)
            → view < retention_floor self.now.finalized self.now.view_retention
            → (view < result) ↔ (term_end self.now.lookahead.length view ≤ self.now.finalized) }
    {
        // The proof takes from the number that a term has at least one view.
        let _views = self.lookahead.length.get();
        let floor = self.floor();
        let next = View::new(self.finalized.get().saturating_add(1));
        let start = next.term_start(self.lookahead.length);
        if floor < start { floor } else { start }
    }

    /// Whether the view is kept: it is from 1 on, and not below the floor.
    pub fn retains(&self, view: View) -> bool
        ensures { IsTrue result ↔ Retains self.now.finalized self.now.view_retention view }
    {
        !view.is_zero() && self.floor() <= view
    }

    /// Whether a vote of the view is taken: the view is kept and listened to.
    pub fn admits_vote(&self, view: View) -> bool
        ensures { IsTrue result ↔ (Retains self.now.finalized self.now.view_retention view × Admits self.now.lookahead.length
            self.now.lookahead.optimistic_views self.now.current view) }
    {
        self.retains(view) && self.lookahead.admits(self.current, view)
    }

    /// Whether a certificate of the view is taken: the view is kept, however far ahead it lies.
    pub fn admits_certificate(&self, view: View) -> bool
        ensures { IsTrue result ↔ Retains self.now.finalized self.now.view_retention view }
    {
        self.retains(view)
    }
}
