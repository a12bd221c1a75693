//! The rounds of all views of which something is known.
#![tactic(auto, unfolding(crate::specs::Rounds::Keep))]

ghost use Rattle.std.specs.Prelude.{◌≡◌, ◌<◌, ◌≤◌, ◌+◌, ◌^◌, ℕ, Bool, List, [], Option, Some, None, is_none, is_some, IsSome, IfSome, IfOk, OnOk, MatchOption};
ghost use Rattle.std.specs.Borrow.{sem};
ghost use Rattle.std.specs.BTreeMap.{btree_map_len};
ghost use Rattle.types_core.specs.LatestFirst.{stored};
ghost use Rattle.simplex_round.specs.Round as one;
ghost use Rattle.voter_rounds.specs.Lending.{LendsKnown, LendsOpen};
ghost use Rattle.voter_history.specs.Pasts.{forget};
ghost use Rattle.voter_rounds.specs.Rounds.{Common, Keep, AreUntracked, AtEach, IsFirstBelow, IsFirstTracked, IsOpen, IsTracked, Takes, learn, recalled, setup_of, unled};

use messages_certificates::Artifact;
use simplex_round::Round;
use std::alloc::{AllocError, Global};
use std::cmp::Reverse;
use std::collections::BTreeMap;
use std::ops::Bound;
use std::rc::Rc;
use types_core::{Digest, Epoch, Participant, Round as Position, Scheme, View, Viewable};

/// The rounds of all views of which something is known.
#[derive(Drop)]
pub(crate) struct Rounds<S: Scheme<D>, D: Digest> {
    scheme: Rc<S>,
    epoch: Epoch,
    /// The latest stands first: a search finds it at once, and it is asked for most.
    by_view: BTreeMap<Reverse<View>, Round<S, D>>,
}

impl<S: Scheme<D> + Drop, D: Digest> Rounds<S, D> {
    /// Nothing is known of any view.
    pub(crate) fn new(alloc: Global, scheme: Rc<S>, epoch: Epoch) -> Self
        ensures { Keep S.key_of (record { scheme = scheme.value; epoch = epoch }) result (λ view. None) (λ view. []) }
    {
        Rounds {
            scheme,
            epoch,
            by_view: BTreeMap::new(alloc),
        }
    }

    /// What is known of a view, where something is.
    pub(crate) fn get(&self, view: View) -> Option<&Round<S, D>>
        ensures { AtEach S.key_of self.now (λ s led past.
            MatchOption result ((past view ≡ []) × (led view ≡ None))
            (λ r. IsTracked (past view) (led view) × one.Keeps S.key_of (setup_of s view) r.now (led view) (past view))) }
    {
        // The proof takes from the number that it has 64 bits.
        let _number = view.get();
        // Mostly the last view of all is asked for.
        if let Some((last, round)) = self.by_view.first_key_value() {
            if last.0 == view {
                return Some(round);
            }
        }
        self.search(view)
    }

    /// The same by a search. A call of its own, so that callers needn't have its code at hand.
    #[inline(never)]
    fn search(&self, view: View) -> Option<&Round<S, D>>
        ensures { AtEach S.key_of self.now (λ s led past.
            MatchOption result ((past view ≡ []) × (led view ≡ None))
            (λ r. IsTracked (past view) (led view) × one.Keeps S.key_of (setup_of s view) r.now (led view) (past view))) }
    {
        // The proof takes from the number that it has 64 bits.
        let _number = view.get();
        self.by_view.get(&Reverse(view))
    }

    /// Whether a view has a round.
    fn has(&self, view: View) -> bool
        ensures { result ≡ is_some (stored self.now.by_view view) }
    {
        if let Some((last, _)) = self.by_view.first_key_value() {
            if last.0 == view {
                return true;
            }
        }
        self.by_view.contains_key(&Reverse(view))
    }

    /// The first view from this one on of which something is known. Mostly that is the last view of all, or there is none behind it.
    pub(crate) fn first_tracked(&self, from: View) -> Option<View>
        ensures behind { IfSome result (λ first. from ≤ first) }
        ensures tracked { AtEach S.key_of self.now
            (λ s led past. MatchOption result (AreUntracked led past from (2 ^ 64)) (λ first. IsFirstTracked led past from first)) }
    {
        let Some((last, _)) = self.by_view.first_key_value() else {
            return None;
        };
        // The proof takes from the number that it has 64 bits.
        let _number = last.0.get();
        if last.0 < from {
            return None;
        }
        if last.0 == from {
            return Some(from);
        }
        self.search_from(from)
    }

    /// The first view from this one on of which something is known, by a search.
    #[inline(never)]
    fn search_from(&self, from: View) -> Option<View>
        ensures behind { IfSome result (λ first. from ≤ first) }
        ensures tracked { AtEach S.key_of self.now
            (λ s led past. MatchOption result (AreUntracked led past from (2 ^ 64)) (λ first. IsFirstTracked led past from first)) }
    {
        match self
            .by_view
            .range((Bound::Unbounded, Bound::Included(Reverse(from))))
            .next_back()
        {
            Some((first, _)) => {
                // The proof takes from the number that it has 64 bits.
                let _number = first.0.get();
                Some(first.0)
            }
            None => None,
        }
    }

    /// Sees to it that a view has a round: a fresh one where it has none. Nothing has happened by that.
    fn add(&mut self, view: View) -> Result<(), AllocError>
        ensures there { OnOk result (IsSome (stored self.new.by_view view)) }
        ensures opens { OnOk result (AtEach S.key_of self.old (λ s led past. IsOpen S.key_of s self.new led past view)) }
    {
        // The proof takes from the number that it has 64 bits.
        let _number = view.get();
        if self.has(view) {
            return Ok(());
        }
        self.add_fresh(view)?;
        Ok(())
    }

    /// Gives a fresh round to a view that has none. A call of its own, since a round is wide, and mostly there is one.
    #[inline(never)]
    fn add_fresh(&mut self, view: View) -> Result<(), AllocError>
        ensures there { OnOk result (IsSome (stored self.new.by_view view)) }
        ensures opens { OnOk result
            (AtEach S.key_of self.old (λ s led past. stored self.old.by_view view ≡ None → IsOpen S.key_of s self.new led past view)) }
    {
        // The proof takes from the number that it has 64 bits.
        let _number = view.get();
        let round = Round::new(self.scheme.clone()?, Position::new(self.epoch, view));
        self.by_view.insert(Reverse(view), round)?;
        Ok(())
    }

    /// Lends the round of a view, a fresh one where nothing is known of it. Then something has to happen to it.
    pub(crate) fn open(&mut self, view: View) -> Result<&mut Round<S, D>, AllocError>
        ensures* writes_back { sem 𝓛 (LendsOpen S.row D.row S.PublicKey.row S.Signature.row S.Certificate.row S.key_of self.entry view result) }
        ensures stands { IfOk result
            (λ round. AtEach S.key_of self.old (λ s led past. one.Keeps S.key_of (setup_of s view) round.now (led view) (past view))) }
    {
        self.add(view)?;
        match self.by_view.get_mut(&Reverse(view)) {
            Some(round) => Ok(round),
            None => unreachable!(),
        }
    }

    /// Lends the round of a view, where something is known of it.
    pub(crate) fn get_mut(&mut self, view: View) -> Option<&mut Round<S, D>>
        ensures* writes_back { sem 𝓛 (LendsKnown S.row D.row S.PublicKey.row S.Signature.row S.Certificate.row S.key_of self.entry view result) }
        ensures stands { AtEach S.key_of self.old (λ s led past.
            MatchOption result ((past view ≡ []) × (led view ≡ None))
            (λ round. IsTracked (past view) (led view) × one.Keeps S.key_of (setup_of s view) round.now (led view) (past view))) }
    {
        // The proof takes from the number that it has 64 bits.
        let _number = view.get();
        self.by_view.get_mut(&Reverse(view))
    }

    /// The leader of the view becomes known, where it isn't: whether it wasn't.
    pub(crate) fn learn(&mut self, view: View, leader: Participant) -> Result<bool, AllocError>
        ensures keeps { OnOk result
            (AtEach S.key_of self.old (λ s led past. leader < S.size s.scheme → Keep S.key_of s self.new (learn view leader led) past)) }
        ensures answer { IfOk result (λ new. AtEach S.key_of self.old (λ s led past. new ≡ is_none (led view))) }
    {
        Ok(self.open(view)?.learn_leader(leader))
    }

    /// Takes in an artifact of this member's record.
    pub(crate) fn replay(&mut self, artifact: &Artifact<S, D>) -> Result<(), AllocError>
        ensures { OnOk result (AtEach S.key_of self.old
            (λ s led past. (taken : Bool) × Takes past artifact.now taken × Keep S.key_of s self.new led (recalled taken artifact.now past))) }
    {
        let view = artifact.view();
        self.open(view)?.replay(artifact);
        Ok(())
    }

    /// Takes out the round of the first view of which something is known, where that lies below the floor.
    pub(crate) fn pop_below(&mut self, floor: View) -> Option<(View, Round<S, D>)>
        ensures below { IfSome result (λ x. x.0 < floor) }
        ensures fewer { IsSome result → btree_map_len self.new.by_view < btree_map_len self.old.by_view }
        ensures keeps { AtEach S.key_of self.old (λ s led past.
            MatchOption result (Keep S.key_of s self.new (unled floor led) (forget floor past))
            (λ x. Keep S.key_of s self.new (unled (x.0 + 1) led) (forget (x.0 + 1) past))) }
        ensures popped { AtEach S.key_of self.old
            (λ s led past. MatchOption result (AreUntracked led past 0 floor) (λ x. IsFirstBelow S.key_of s floor x.0 x.1 led past)) }
    {
        // The proof takes from the number that it has 64 bits.
        let _number = floor.get();
        let Some((first, _)) = self.by_view.last_key_value() else {
            return None;
        };
        if floor <= first.0 {
            return None;
        }
        let (view, round) = self.by_view.pop_last()?;
        Some((view.0, round))
    }
}
