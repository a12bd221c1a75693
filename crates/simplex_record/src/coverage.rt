//! The views that nullifications cover.

ghost use Rattle.std.specs.Prelude.{◌≡◌, ◌↔◌, ◌⊎◌, ◌+◌, ◌^◌, ◌<◌, ◌≤◌, ℕ, Contains, IfNone, IfSome, IsNone, IsTrue, OnErr, OnOk};
ghost use Rattle.simplex_record.specs.Coverage.{AreCoveredBetween, IsCovered, IsFirstUncovered, LiesIn};

use std::alloc::{AllocError, Global};
use std::collections::BTreeMap;
use std::marker::Model;
use std::ops::Bound;
use types_core::View;

/// The views that nullifications cover, in spans as long as they can be: between any two of them
/// lies a view that none covers. Asking takes a time logarithmic in the number of spans, and so
/// does covering on average over all calls, since a span that is swallowed leaves once.
#[derive(Drop)]
pub struct Coverage {
    /// The last view of each span, by its first.
    last_by_first: BTreeMap<View, View>,
}

impl Model for Coverage {
    ghost use Rattle.std.specs.Prelude.{ℕ, List};
    ghost use Rattle.simplex_record.specs.Coverage.{AreApart};

    ghost Value = { List (ℕ × ℕ) };

    ghost view = { λ coverage. coverage.last_by_first.entries };

    ghost invariant = { λ coverage. AreApart coverage.last_by_first.entries };
}

impl Coverage {
    /// No view is covered.
    pub fn new(alloc: Global) -> Self
        ensures { (view : ℕ) → ¬ IsCovered result view }
    {
        Coverage {
            last_by_first: BTreeMap::new(alloc),
        }
    }

    /// Covers the views from `first` to `last`, both included.
    /// If memory runs out, what is covered stays as it was.
    pub fn cover(&mut self, first: View, last: View) -> Result<(), AllocError>
        requires { first ≤ last }
        ensures ok { OnOk result ((view : ℕ) → IsCovered self.new view ↔ (IsCovered self.old view ⊎ LiesIn (first, last) view)) }
        ensures err { OnErr result (self.new ≡ self.old) }
    {
        let start = self.joined_first(first);
        let end = self.joined_last(last);
        self.last_by_first.insert(start, end)?;
        // Only the insertion takes memory: the spans inside the new one leave after it.
        remove_between(&mut self.last_by_first, start, end);
        Ok(())
    }

    /// Whether each view after `parent` and before `view` is covered.
    pub fn covers_between(&self, parent: View, view: View) -> bool
        ensures { IsTrue result ↔ AreCoveredBetween self.now parent view }
    {
        self.first_uncovered(parent, view).is_none()
    }

    /// The first view after `parent` and before `view` that isn't covered, or `None` where each of
    /// them is.
    pub fn first_uncovered(&self, parent: View, view: View) -> Option<View>
        ensures first { IfSome result (λ first. IsFirstUncovered self.now parent view first) }
        ensures none { IfNone result (AreCoveredBetween self.now parent view) }
    {
        if view <= parent {
            return None;
        }
        let mut first = parent.next();
        if let Some((_, last)) = self.span_of(first) {
            if view <= last {
                return None;
            }
            first = last.next();
        }
        if first < view { Some(first) } else { None }
    }

    /// Where a span from `first` on begins, once it takes in the covered views right before it.
    fn joined_first(&self, first: View) -> View
        ensures before { result ≤ first }
        ensures between { (view : ℕ) → result ≤ view → view < first → IsCovered self.now view }
        ensures bare { (view : ℕ) → view + 1 ≡ result → ¬ IsCovered self.now view }
    {
        let Some(before) = first.previous() else {
            return first;
        };
        match self.span_of(before) {
            Some((start, _)) => start,
            None => first,
        }
    }

    /// Where a span up to `last` ends, once it takes in the covered views right behind it.
    fn joined_last(&self, last: View) -> View
        ensures behind { last ≤ result }
        ensures between { (view : ℕ) → last < view → view ≤ result → IsCovered self.now view }
        ensures bare { result + 1 < 2 ^ 64 → ¬ IsCovered self.now (result + 1) }
    {
        let Some(after) = last.get().checked_add(1) else {
            return last;
        };
        match self.span_of(View::new(after)) {
            Some((_, end)) => end,
            None => last,
        }
    }

    /// The span that holds the view.
    fn span_of(&self, view: View) -> Option<(View, View)>
        ensures none { IsNone result → ¬ IsCovered self.now view }
        ensures holds { IfSome result (λ span. LiesIn span view) }
        ensures covered { IfSome result (λ span. (within : ℕ) → LiesIn span within → IsCovered self.now within) }
        ensures bare_before { IfSome result (λ span. (before : ℕ) → before + 1 ≡ span.0 → ¬ IsCovered self.now before) }
        ensures bare_behind { IfSome result (λ span. ¬ IsCovered self.now (span.1 + 1)) }
    {
        match self.last_by_first.range(..=view).next_back() {
            Some((first, last)) if view <= *last => Some((*first, *last)),
            _ => None,
        }
    }
}

/// Takes out the spans that begin after `start` and up to `end`.
fn remove_between(last_by_first: &mut BTreeMap<View, View>, start: View, end: View)
    requires { start ≤ end }
    ensures { (span : ℕ × ℕ)
        → Contains last_by_first.new.entries span ↔ (Contains last_by_first.old.entries span × ((span.0 ≤ start) ⊎ (end < span.0))) }
{
    while let Some((&first, _)) = last_by_first
        .range((Bound::Excluded(start), Bound::Included(end)))
        .next()
    {
        last_by_first.remove(&first);
    }
}
