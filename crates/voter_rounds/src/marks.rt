//! Marks on views.
#![tactic(auto, unfolding(crate::specs::Marks::Shows))]

ghost use Rattle.std.specs.Prelude.{◌≡◌, ◌↔◌, ◌≤◌, ◌==◌, ◌&&◌, ◌||◌, if◌then◌else◌, nat_lt, ℕ, Bool, false, IsTrue, OnOk, MatchOption};
ghost use Rattle.voter_rounds.specs.Marks.{Shows, IsLastMarked, IsMarkedWithin};

use std::alloc::{AllocError, Global};
use std::collections::BTreeSet;
use std::ops::Bound;
use types_core::View;

/// The views that carry a mark.
#[derive(Drop)]
pub struct Marks {
    views: BTreeSet<View>,
}

impl Marks {
    /// No view is marked.
    pub fn new(alloc: Global) -> Self
        ensures { Shows result (λ view. false) }
    {
        Marks {
            views: BTreeSet::new(alloc),
        }
    }

    /// Whether the view is marked.
    pub fn contains(&self, view: View) -> bool
        ensures { (f : ℕ → Bool) → Shows self.now f → result ≡ f view }
    {
        // Mostly the last of all is asked for, or one behind it.
        if let Some(last) = self.views.last() {
            if *last < view {
                return false;
            }
            if *last == view {
                return true;
            }
        }
        self.views.contains(&view)
    }

    /// Marks the view.
    pub fn mark(&mut self, view: View) -> Result<(), AllocError>
        ensures { OnOk result ((f : ℕ → Bool) → Shows self.old f → Shows self.new (λ u. (view == u) || f u)) }
    {
        self.views.insert(view)?;
        Ok(())
    }

    /// Marks the view where this is so.
    pub fn mark_if(&mut self, view: View, is_so: bool) -> Result<(), AllocError>
        ensures { OnOk result ((f : ℕ → Bool) → Shows self.old f → Shows self.new (λ u. (is_so && (view == u)) || f u)) }
    {
        if is_so {
            return self.mark(view);
        }
        Ok(())
    }

    /// Whether one of the views from the first on and before the end is marked. Mostly the last mark of all tells it.
    pub fn any_within(&self, first: View, end: View) -> bool
        ensures { (f : ℕ → Bool) → Shows self.now f → IsTrue result ↔ IsMarkedWithin f first end }
    {
        if let Some(greatest) = self.views.last() {
            if *greatest < first {
                return false;
            }
            if end > *greatest {
                return true;
            }
        }
        self.search_any(first, end)
    }

    /// Whether one of these views is marked, by a search.
    fn search_any(&self, first: View, end: View) -> bool
        ensures { (f : ℕ → Bool) → Shows self.now f → IsTrue result ↔ IsMarkedWithin f first end }
    {
        let Some(last) = end.previous() else {
            return false;
        };
        if last < first {
            return false;
        }
        self.views
            .range((Bound::Included(first), Bound::Included(last)))
            .next()
            .is_some()
    }

    /// The last marked one of the views from the first on and up to the last. Mostly that is the last mark of all.
    pub fn last_within(&self, first: View, last: View) -> Option<View>
        ensures { (f : ℕ → Bool)
            → Shows self.now f
            → MatchOption result ((view : ℕ) → first ≤ view → view ≤ last → f view ≡ false) (λ found. IsLastMarked f first last found) }
    {
        if let Some(greatest) = self.views.last() {
            if *greatest < first {
                return None;
            }
            if *greatest <= last {
                return Some(*greatest);
            }
        }
        self.search_last(first, last)
    }

    /// The last marked one of these views, by a search.
    fn search_last(&self, first: View, last: View) -> Option<View>
        ensures { (f : ℕ → Bool)
            → Shows self.now f
            → MatchOption result ((view : ℕ) → first ≤ view → view ≤ last → f view ≡ false) (λ found. IsLastMarked f first last found) }
    {
        if last < first {
            return None;
        }
        match self
            .views
            .range((Bound::Included(first), Bound::Included(last)))
            .next_back()
        {
            Some(view) => Some(*view),
            None => None,
        }
    }

    /// Takes the marks off the views below the floor.
    pub fn forget_below(&mut self, floor: View)
        ensures { (f : ℕ → Bool) → Shows self.old f → Shows self.new (λ u. if nat_lt u floor then false else f u) }
    {
        while let Some(&first) = self.views.first() {
            if floor <= first {
                return;
            }
            self.views.remove(&first);
        }
    }
}
