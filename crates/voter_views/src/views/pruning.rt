//! What a voter drops.

ghost use Rattle.std.specs.Prelude.{◌≡◌, ◌↔◌, ◌<◌, ◌≤◌, ◌==◌, if◌then◌else◌, nat_lt, ℕ, ◌∷◌, None, IfOk, OnOk};
ghost use Rattle.std.specs.Option.{option_or};
ghost use Rattle.std.specs.Ordering.{nat_cmp};
ghost use Rattle.std.specs.BTreeMap.{get};
ghost use Rattle.voter_history.specs.Past as past;
ghost use Rattle.simplex_round.specs.Round as one;
ghost use Rattle.types_core.specs.Positions.{term_end};
ghost use Rattle.voter_history.specs.History.{last_finalized, pruned};
ghost use Rattle.voter_rounds.specs.Tracked as many;
ghost use Rattle.voter_rounds.specs.Tracked.{Holds, forgotten};
ghost use Rattle.voter_rules.specs.Answers.{AreDropped};
ghost use Rattle.voter_views.specs.Views.{Keeps, AreTrackedBelow, AtEach, kept_from};

use crate::views::Views;
use messages_certificates::Nullification;
use simplex_round::Round;
use std::alloc::{AllocError, Global};
use std::collections::BTreeMap;
use std::ops::Bound;
use types_core::{Digest, Duplicate, Scheme, View};
use types_terms::Elector;
use voter_rounds::Tracked;

impl<S: Scheme<D> + Drop, L: Elector<S, D>, D: Digest> Views<S, L, D> {
    /// Drops what is known of the views that need not be kept, and answers those of which something was known, ascending. A
    /// nullification whose term ends above the last finalized view stays, and so does what is covered: a view that is kept may
    /// still be notarized over any parent below it. The cost is that of what is dropped.
    ///
    /// # Errors
    ///
    /// `AllocError` where memory ran out.
    pub fn prune(&mut self, alloc: Global) -> Result<Vec<View>, AllocError>
        ensures keeps { OnOk result (AtEach S.Scheme L.Elector self.old (λ s h. Keeps S.Scheme L.Elector s self.new (pruned ∷ h))) }
        ensures dropped { IfOk result (λ views. AtEach S.Scheme L.Elector self.old (λ s h. AreDropped s h views.items)) }
    {
        let viewport = self.viewport();
        let floor = viewport.floor();
        let first = viewport.first_reaching();
        self.backed.forget_below(floor);
        self.waiting.forget_below(floor);
        self.nullified.forget_below(first);
        drop_before(&mut self.reaching, first);
        clear_below(
            &mut self.progress.tracked,
            &mut self.reaching,
            alloc,
            floor,
            first,
        )
    }
}

/// Drops the nullifications of the views before the first.
fn drop_before<S: Scheme<D>, D: Digest>(
    reaching: &mut BTreeMap<View, Nullification<S, D>>,
    first: View,
)
    ensures { (view : ℕ) → get nat_cmp reaching.new view ≡ (if nat_lt view first then None else get nat_cmp reaching.old view) }
{
    while let Some((&view, _)) = reaching
        .range((Bound::Unbounded, Bound::Excluded(first)))
        .next()
    {
        reaching.remove(&view);
    }
}

/// Drops what is known of the views below the floor, keeps the nullifications of those from the first on, and answers the views of which
/// something was known, ascending.
fn clear_below<S: Scheme<D> + Drop, D: Digest>(
    tracked: &mut Tracked<S, D>,
    reaching: &mut BTreeMap<View, Nullification<S, D>>,
    alloc: Global,
    floor: View,
    first: View,
) -> Result<Vec<View>, AllocError>
    ensures forgets { OnOk result (many.AtEach S.Scheme tracked.old (λ f t. Holds S.Scheme f tracked.new (forgotten floor t))) }
    ensures dropped { IfOk result (λ views. many.AtEach S.Scheme tracked.old (λ f t. AreTrackedBelow t floor views.items)) }
    ensures keeps { OnOk result (many.AtEach S.Scheme tracked.old
        (λ f t. (u : ℕ) → get nat_cmp reaching.new u ≡ kept_from first floor (get nat_cmp reaching.old u) (t.past u) u)) }
{
    let mut views = Vec::new(alloc);
    while let Some(entry) = tracked.pop_below(floor) {
        views.push(entry.0)?;
        keep_one(reaching, alloc, &entry, first)?;
    }
    Ok(views)
}

/// Keeps the nullification of a view from the first on, where there is one and none is kept.
fn keep_one<S: Scheme<D>, D: Digest>(
    reaching: &mut BTreeMap<View, Nullification<S, D>>,
    alloc: Global,
    entry: &(View, Round<S, D>),
    first: View,
) -> Result<(), AllocError>
    ensures { OnOk result (one.AtEach S.key_of entry.now.1 (λ s l h.
        (u : ℕ)
        → get nat_cmp reaching.new u ≡ (if entry.now.0 == u then option_or (get nat_cmp reaching.old u)
        (if nat_lt u first then None else past.nullification h) else get nat_cmp reaching.old u))) }
{
    let (view, round) = entry;
    if *view < first {
        return Ok(());
    }
    if reaching.contains_key(view) {
        return Ok(());
    }
    if let Some(certificate) = round.nullification() {
        let copy = certificate.duplicate(alloc)?;
        reaching.insert(*view, copy)?;
    }
    Ok(())
}
