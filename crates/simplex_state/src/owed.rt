//! For which views a vote may be owed.

ghost use Rattle.std.specs.Prelude.{◌≡◌, ◌≤◌, ◌<◌, ◌==◌, ℕ, false, IfSome, IsTrue, MatchOption, OnOk};
ghost use Rattle.simplex_state.specs.OwedViews.{Has, IsFirstFrom};

use std::alloc::{AllocError, Global};
use std::collections::BTreeSet;
use std::ops::Bound;
use types_core::View;

/// Views that may owe a vote.
#[derive(Drop)]
pub(crate) struct Owed {
    views: BTreeSet<View>,
}

impl Owed {
    /// None.
    pub(crate) fn new(alloc: Global) -> Self
        ensures { (u : ℕ) → ¬ Has result u }
    {
        Owed {
            views: BTreeSet::new(alloc),
        }
    }

    /// Adds the view.
    pub(crate) fn add(&mut self, view: View) -> Result<(), AllocError>
        ensures own { OnOk result (Has self.new view) }
        ensures kept { OnOk result ((u : ℕ) → Has self.old u → Has self.new u) }
    {
        self.views.insert(view)?;
        Ok(())
    }

    /// Adds the view where this is so.
    pub(crate) fn add_if(&mut self, view: View, is_so: bool) -> Result<(), AllocError>
        ensures own { OnOk result (IsTrue is_so → Has self.new view) }
        ensures kept { OnOk result ((u : ℕ) → Has self.old u → Has self.new u) }
    {
        if is_so {
            return self.add(view);
        }
        Ok(())
    }

    /// Takes the view out.
    pub(crate) fn remove(&mut self, view: View)
        ensures own { ¬ Has self.new view }
        ensures kept { (u : ℕ) → (view == u) ≡ false → Has self.old u → Has self.new u }
    {
        self.views.remove(&view);
    }

    /// Takes the views below the floor out.
    pub(crate) fn forget_below(&mut self, floor: View)
        ensures below { (u : ℕ) → u < floor → ¬ Has self.new u }
        ensures kept { (u : ℕ) → floor ≤ u → Has self.old u → Has self.new u }
    {
        while let Some(&first) = self.views.first() {
            if floor <= first {
                return;
            }
            self.views.remove(&first);
        }
    }

    /// The first of them from this view on.
    pub(crate) fn first_from(&self, from: View) -> Option<View>
        ensures behind { IfSome result (λ first. from ≤ first) }
        ensures first { MatchOption result ((u : ℕ) → from ≤ u → ¬ Has self.now u) (λ first. IsFirstFrom self.now from first) }
    {
        if self.views.is_empty() {
            return None;
        }
        match self
            .views
            .range((Bound::Included(from), Bound::Unbounded))
            .next()
        {
            Some(view) => Some(*view),
            None => None,
        }
    }
}
