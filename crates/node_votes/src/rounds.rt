//! The rounds of votes of all views.

ghost use Rattle.std.specs.Prelude.{◌≡◌, ◌≢◌, ◌==◌, ◌↔◌, ◌<◌, ◌≤◌, ℕ, [], true, false, Bool, Option, None, Some, IsSome, IsTrue, IfOk, IfErr, IfSome, OnOk, OnErr, MatchOption, is_none};
ghost use Rattle.std.specs.BTreeMap.{btree_map_len};
ghost use Rattle.std.specs.BTreeSet.{btree_set_len, contains};
ghost use Rattle.std.specs.Ordering.{nat_cmp};
ghost use Rattle.types_core.specs.LatestFirst.{stored};
ghost use Rattle.simplex_messages.specs.VoteParts.{vote_round};
ghost use Rattle.messages_certificates.specs.Certificate.{certificate_round};
ghost use Rattle.batcher_verifier.specs.declared.batcher_fault.BatcherFault.TheVariants.{Memory};
ghost use Rattle.batcher_verifier.specs.History.{Certified, History, Led, leader_of};
ghost use Rattle.simplex_batcher.specs.Queries.{has_nullify, is_missing_voter};
ghost use Rattle.simplex_batcher.specs.Admission.{AgreesWithOwn, IsCastFault};
ghost use Rattle.simplex_batcher.specs.Rounds.{RoundKeeps};
ghost use Rattle.simplex_batcher.specs.Rounds as one;
ghost use Rattle.node_votes.specs.Standing.{AreAlike, AreAtRest, AreLedFrom, AtEach, CanBeRead, Common, IsAdmitted, IsFirstUnled, IsCast, IsDone, IsRoundDone, Stand, come_up, common_of, happened_from, is_passed, put, set_at, setup_at, setup_now, up_from};
ghost use Rattle.simplex_member.specs.Layers.{IsUp, Unopened};

use crate::due::Due;
use simplex_batcher::{Admission, BatcherFault, Round};
use simplex_messages::{Activity, Certificate, Vote};
use std::alloc::{AllocError, Global};
use std::cmp::Reverse;
use std::collections::{BTreeMap, BTreeSet};
use std::ops::Bound;
use std::rc::Rc;
use types_core::{Digest, Epoch, Participant, Proposal, Round as Position, Scheme, View, Viewable};

/// The rounds of votes of all views.
#[derive(Drop)]
pub(crate) struct Rounds<S: Scheme<D>, D: Digest> {
    alloc: Global,
    scheme: Rc<S>,
    epoch: Epoch,
    me: Participant,
    tracks: bool,
    /// The latest stands first: a search finds it at once, and it is asked for most.
    by_view: BTreeMap<Reverse<View>, Round<S, D>>,
    /// The views of which something may be due.
    touched: BTreeSet<View>,
    /// The views whose leader is not named yet.
    unled: BTreeSet<View>,
}

impl<S: Scheme<D> + Drop, D: Digest> Rounds<S, D> {
    /// The votes of no view came up yet.
    pub(crate) fn new(
        alloc: Global,
        scheme: Rc<S>,
        epoch: Epoch,
        me: Participant,
        tracks: bool,
    ) -> Self
        ensures { Stand S.Scheme D.PartialEq.eq (record { scheme = scheme.value; epoch = epoch; me = me; tracks = tracks }) result
            (λ view. Unopened) (λ view. []) }
    {
        Rounds {
            alloc,
            scheme,
            epoch,
            me,
            tracks,
            by_view: BTreeMap::new(alloc),
            touched: BTreeSet::new(alloc),
            unled: BTreeSet::new(alloc),
        }
    }

    /// A round of the view to which nothing happened.
    fn fresh(&self, view: View, current: View) -> Result<Round<S, D>, AllocError>
        ensures { IfOk result (λ round.
            (s : Common S)
            → common_of self.now ≡ s
            → RoundKeeps D.PartialEq.eq S.Scheme S.batchable (setup_at S.Scheme s view (is_passed s view current)) round []) }
    {
        let round = Position::new(self.epoch, view);
        let scheme = self.scheme.clone()?;
        if view < current && !self.tracks {
            return Ok(Round::skipped(self.alloc, round, scheme));
        }
        Ok(Round::new(self.alloc, round, scheme, self.tracks))
    }

    /// Something may be due of the view.
    fn touch(&mut self, view: View) -> Result<(), AllocError>
        ensures stands { AtEach S.Scheme D.PartialEq.eq self.old (λ s up happened. Stand S.Scheme D.PartialEq.eq s self.new up happened) }
        ensures touched { OnOk result (contains nat_cmp self.new.touched view ≡ true) }
    {
        self.touched.insert(view)?;
        Ok(())
    }

    /// Puts the round of a view that had none to the others.
    fn seat(&mut self, view: View, round: Round<S, D>) -> Result<(), AllocError>
        ensures seated { OnOk result (AtEach S.Scheme D.PartialEq.eq self.old (λ s up happened.
            stored self.old.by_view view ≡ None
            → contains nat_cmp self.old.touched view ≡ true
            → (passed : Bool) (h : History S D S.PublicKey S.Signature S.Certificate)
            → leader_of h ≡ None
            → RoundKeeps D.PartialEq.eq S.Scheme S.batchable (setup_at S.Scheme s view passed) round h
            → Stand S.Scheme D.PartialEq.eq s self.new (come_up view passed up) (set_at view h happened))) }
        ensures err { OnErr result (AtEach S.Scheme D.PartialEq.eq self.old
            (λ s up happened. stored self.old.by_view view ≡ None → Stand S.Scheme D.PartialEq.eq s self.new up happened)) }
    {
        self.unled.insert(view)?;
        self.by_view.insert(Reverse(view), round)?;
        Ok(())
    }

    /// Hands a vote from the network to the round of its view. Where that has none and the vote is taken, it gets one.
    pub(crate) fn take_vote(
        &mut self,
        current: View,
        sender: Participant,
        vote: Vote<S, D>,
    ) -> Result<Admission<S, D>, BatcherFault>
        ensures admitted { IfOk result (λ a.
            AtEach S.Scheme D.PartialEq.eq self.old
            (λ s up happened. IsAdmitted S.Scheme D.PartialEq.eq s up happened self.new current sender vote a)) }
        ensures refused { IfErr result
            (λ e. AtEach S.Scheme D.PartialEq.eq self.old (λ s up happened. (vote_round vote).epoch ≡ s.epoch → e ≡ Memory)) }
        ensures err { OnErr result (AtEach S.Scheme D.PartialEq.eq self.old (λ s up happened. Stand S.Scheme D.PartialEq.eq s self.new up happened)) }
    {
        let view = vote.view();
        self.touch(view)?;
        match self.by_view.get_mut(&Reverse(view)) {
            Some(round) => round.add_network(sender, vote),
            None => self.take_first(current, sender, vote),
        }
    }

    /// Hands a vote from the network to a round of its view, which has none yet.
    fn take_first(
        &mut self,
        current: View,
        sender: Participant,
        vote: Vote<S, D>,
    ) -> Result<Admission<S, D>, BatcherFault>
        ensures admitted { IfOk result (λ a.
            AtEach S.Scheme D.PartialEq.eq self.old (λ s up happened.
            stored self.old.by_view (vote_round vote).view ≡ None
            → contains nat_cmp self.old.touched (vote_round vote).view ≡ true
            → IsAdmitted S.Scheme D.PartialEq.eq s up happened self.new current sender vote a)) }
        ensures refused { IfErr result
            (λ e. AtEach S.Scheme D.PartialEq.eq self.old (λ s up happened. (vote_round vote).epoch ≡ s.epoch → e ≡ Memory)) }
        ensures err { OnErr result (AtEach S.Scheme D.PartialEq.eq self.old
            (λ s up happened. stored self.old.by_view (vote_round vote).view ≡ None → Stand S.Scheme D.PartialEq.eq s self.new up happened)) }
    {
        let view = vote.view();
        let mut round = self.fresh(view, current)?;
        match round.add_network(sender, vote) {
            Ok(admission) => {
                if !admission.added {
                    return Ok(admission);
                }
                self.seat(view, round)?;
                Ok(admission)
            }
            Err(fault) => Err(fault),
        }
    }

    /// Hands an own vote to the round of its view, which gets one where it has none: its report, where it is new.
    pub(crate) fn cast(
        &mut self,
        current: View,
        vote: Vote<S, D>,
    ) -> Result<Option<Activity<S, D>>, BatcherFault>
        ensures cast { IfOk result (λ report.
            AtEach S.Scheme D.PartialEq.eq self.old (λ s up happened. IsCast S.Scheme D.PartialEq.eq s up happened self.new current vote report)) }
        ensures refused { IfErr result (λ e.
            AtEach S.Scheme D.PartialEq.eq self.old (λ s up happened.
            (vote_round vote).epoch ≡ s.epoch → AgreesWithOwn D.PartialEq.eq (happened (vote_round vote).view) vote → e ≡ Memory)) }
        ensures why { IfErr result (λ e.
            AtEach S.Scheme D.PartialEq.eq self.old (λ s up happened.
            IsCastFault D.PartialEq.eq (setup_now S.Scheme s up (vote_round vote).view current) (happened (vote_round vote).view) vote e)) }
        ensures err { OnErr result (AtEach S.Scheme D.PartialEq.eq self.old (λ s up happened. Stand S.Scheme D.PartialEq.eq s self.new up happened)) }
    {
        let view = vote.view();
        self.touch(view)?;
        match self.by_view.get_mut(&Reverse(view)) {
            Some(round) => round.accept_vote(vote),
            None => self.cast_first(current, vote),
        }
    }

    /// Hands an own vote to a round of its view, which has none yet.
    fn cast_first(
        &mut self,
        current: View,
        vote: Vote<S, D>,
    ) -> Result<Option<Activity<S, D>>, BatcherFault>
        ensures cast { IfOk result (λ report.
            AtEach S.Scheme D.PartialEq.eq self.old (λ s up happened.
            stored self.old.by_view (vote_round vote).view ≡ None
            → contains nat_cmp self.old.touched (vote_round vote).view ≡ true
            → IsCast S.Scheme D.PartialEq.eq s up happened self.new current vote report)) }
        ensures refused { IfErr result (λ e.
            AtEach S.Scheme D.PartialEq.eq self.old (λ s up happened.
            stored self.old.by_view (vote_round vote).view ≡ None
            → (vote_round vote).epoch ≡ s.epoch
            → AgreesWithOwn D.PartialEq.eq (happened (vote_round vote).view) vote
            → e ≡ Memory)) }
        ensures why { IfErr result (λ e.
            AtEach S.Scheme D.PartialEq.eq self.old (λ s up happened.
            stored self.old.by_view (vote_round vote).view ≡ None
            → IsCastFault D.PartialEq.eq (setup_now S.Scheme s up (vote_round vote).view current) (happened (vote_round vote).view) vote e)) }
        ensures err { OnErr result (AtEach S.Scheme D.PartialEq.eq self.old
            (λ s up happened. stored self.old.by_view (vote_round vote).view ≡ None → Stand S.Scheme D.PartialEq.eq s self.new up happened)) }
    {
        let view = vote.view();
        let mut round = self.fresh(view, current)?;
        match round.accept_vote(vote) {
            Ok(report) => {
                self.seat(view, round)?;
                Ok(report)
            }
            Err(fault) => Err(fault),
        }
    }

    /// Hands a certificate to the round of its view, which gets one where it has none.
    pub(crate) fn certify(
        &mut self,
        current: View,
        certificate: &Certificate<S, D>,
    ) -> Result<(), BatcherFault>
        ensures certified { OnOk result (AtEach S.Scheme D.PartialEq.eq self.old (λ s up happened. let w = (certificate_round certificate.now).view in
            Stand S.Scheme D.PartialEq.eq s self.new (come_up w (is_passed s w current) up) (put w (Certified certificate.now) happened))) }
        ensures refused { IfErr result
            (λ e. AtEach S.Scheme D.PartialEq.eq self.old (λ s up happened. (certificate_round certificate.now).epoch ≡ s.epoch → e ≡ Memory)) }
        ensures err { OnErr result (AtEach S.Scheme D.PartialEq.eq self.old (λ s up happened. Stand S.Scheme D.PartialEq.eq s self.new up happened)) }
    {
        let view = certificate.view();
        self.touch(view)?;
        match self.by_view.get_mut(&Reverse(view)) {
            Some(round) => match round.record_certificate(certificate) {
                Ok(_) => Ok(()),
                Err(fault) => Err(fault),
            },
            None => self.certify_first(current, certificate),
        }
    }

    /// Hands a certificate to a round of its view, which has none yet.
    fn certify_first(
        &mut self,
        current: View,
        certificate: &Certificate<S, D>,
    ) -> Result<(), BatcherFault>
        ensures certified { OnOk result (AtEach S.Scheme D.PartialEq.eq self.old (λ s up happened.
            let w = (certificate_round certificate.now).view in stored self.old.by_view w ≡ None
            → contains nat_cmp self.old.touched w ≡ true
            → Stand S.Scheme D.PartialEq.eq s self.new (come_up w (is_passed s w current) up) (put w (Certified certificate.now) happened))) }
        ensures refused { IfErr result
            (λ e. AtEach S.Scheme D.PartialEq.eq self.old (λ s up happened. (certificate_round certificate.now).epoch ≡ s.epoch → e ≡ Memory)) }
        ensures err { OnErr result (AtEach S.Scheme D.PartialEq.eq self.old
            (λ s up happened. stored self.old.by_view (certificate_round certificate.now).view ≡ None → Stand S.Scheme D.PartialEq.eq s self.new up happened)) }
    {
        let view = certificate.view();
        let mut round = self.fresh(view, current)?;
        match round.record_certificate(certificate) {
            Ok(_) => {
                self.seat(view, round)?;
                Ok(())
            }
            Err(fault) => Err(fault),
        }
    }

    /// The votes of a view come up, where they didn't before.
    pub(crate) fn open(&mut self, view: View, current: View) -> Result<(), AllocError>
        ensures opens { OnOk result (AtEach S.Scheme D.PartialEq.eq self.old
            (λ s up happened. Stand S.Scheme D.PartialEq.eq s self.new (come_up view (is_passed s view current) up) happened)) }
        ensures err { OnErr result (AtEach S.Scheme D.PartialEq.eq self.old (λ s up happened. Stand S.Scheme D.PartialEq.eq s self.new up happened)) }
    {
        if self.by_view.contains_key(&Reverse(view)) {
            return Ok(());
        }
        self.touch(view)?;
        let round = self.fresh(view, current)?;
        self.seat(view, round)
    }

    /// Names the leader of a view.
    pub(crate) fn lead(&mut self, view: View, leader: Participant) -> Result<(), BatcherFault>
        ensures led { OnOk result (AtEach S.Scheme D.PartialEq.eq self.old (λ s up happened.
            IsUp (up view) → leader_of (happened view) ≡ None → Stand S.Scheme D.PartialEq.eq s self.new up (put view (Led leader) happened))) }
        ensures again { OnOk result (AtEach S.Scheme D.PartialEq.eq self.old
            (λ s up happened. leader_of (happened view) ≢ None → Stand S.Scheme D.PartialEq.eq s self.new up happened)) }
        ensures refused { IfErr result
            (λ e. AtEach S.Scheme D.PartialEq.eq self.old (λ s up happened. leader_of (happened view) ≡ None → e ≡ Memory)) }
        ensures err { OnErr result (AtEach S.Scheme D.PartialEq.eq self.old (λ s up happened. Stand S.Scheme D.PartialEq.eq s self.new up happened)) }
    {
        self.touch(view)?;
        match self.by_view.get_mut(&Reverse(view)) {
            Some(round) => match round.set_leader(leader) {
                Ok(()) => {
                    self.unled.remove(&view);
                    Ok(())
                }
                Err(fault) => Err(fault),
            },
            None => Ok(()),
        }
    }

    /// The first view from this one on whose votes came up and wait for the name of their leader.
    pub(crate) fn first_unled(&self, from: View) -> Option<View>
        ensures behind { IfSome result (λ view. from ≤ view) }
        ensures first { AtEach S.Scheme D.PartialEq.eq self.now
            (λ s up happened. MatchOption result (AreLedFrom up happened from) (λ view. IsFirstUnled up happened from view)) }
    {
        let mut found = self.unled_from(from);
        'views: while let Some(view) = found {
            if self.is_up(view) {
                return Some(view);
            }
            found = self.unled_behind(view);
        }
        None
    }

    /// The first view from this one on whose leader is not named yet.
    fn unled_from(&self, from: View) -> Option<View>
        ensures behind { IfSome result (λ view. from ≤ view) }
        ensures there { IfSome result (λ view. contains nat_cmp self.now.unled view ≡ true) }
        ensures first { MatchOption result ((u : ℕ) → from ≤ u → contains nat_cmp self.now.unled u ≡ false)
            (λ view. (u : ℕ) → from ≤ u → u < view → contains nat_cmp self.now.unled u ≡ false) }
    {
        if self.unled.is_empty() {
            return None;
        }
        match self
            .unled
            .range((Bound::Included(from), Bound::Unbounded))
            .next()
        {
            Some(view) => Some(*view),
            None => None,
        }
    }

    /// The first view behind this one whose leader is not named yet.
    fn unled_behind(&self, last: View) -> Option<View>
        ensures behind { IfSome result (λ view. last < view) }
        ensures there { IfSome result (λ view. contains nat_cmp self.now.unled view ≡ true) }
        ensures first { MatchOption result ((u : ℕ) → last < u → contains nat_cmp self.now.unled u ≡ false)
            (λ view. (u : ℕ) → last < u → u < view → contains nat_cmp self.now.unled u ≡ false) }
    {
        match self
            .unled
            .range((Bound::Excluded(last), Bound::Unbounded))
            .next()
        {
            Some(view) => Some(*view),
            None => None,
        }
    }

    /// Whether the votes of the view came up.
    fn is_up(&self, view: View) -> bool
        ensures { AtEach S.Scheme D.PartialEq.eq self.now (λ s up happened. IsTrue result ↔ IsUp (up view)) }
    {
        self.by_view.contains_key(&Reverse(view))
    }

    /// Does what is due of a view. Where nothing is, the view rests until it is touched again.
    fn advance(&mut self, view: View) -> Result<Option<Due<S, D>>, AllocError>
        ensures done { IfOk result (λ due.
            AtEach S.Scheme D.PartialEq.eq self.old
            (λ s up happened. contains nat_cmp self.old.touched view ≡ true → IsDone S.Scheme D.PartialEq.eq s up happened self.new view due)) }
        ensures readable { IfOk result (λ due.
            AtEach S.Scheme D.PartialEq.eq self.old (λ s up happened. CanBeRead S.Certificate.within (S.size s.scheme) due)) }
        ensures rests { IfOk result (λ due.
            is_none due ≡ true → contains nat_cmp self.old.touched view ≡ true → btree_set_len self.new.touched < btree_set_len self.old.touched) }
        ensures err { OnErr result (AtEach S.Scheme D.PartialEq.eq self.old (λ s up happened. Stand S.Scheme D.PartialEq.eq s self.new up happened)) }
    {
        match self.by_view.get_mut(&Reverse(view)) {
            Some(round) => match due_of(round, self.alloc, self.me) {
                Ok(Some(due)) => Ok(Some(due)),
                Ok(None) => {
                    self.touched.remove(&view);
                    Ok(None)
                }
                Err(error) => Err(error),
            },
            None => {
                self.touched.remove(&view);
                Ok(None)
            }
        }
    }

    /// Does what is due first of the votes of all views, and answers of which. It looks at touched views alone.
    pub(crate) fn next_due(&mut self) -> Result<Option<(View, Due<S, D>)>, AllocError>
        ensures done { IfOk result (λ due.
            IfSome due (λ x.
            AtEach S.Scheme D.PartialEq.eq self.old (λ s up happened. IsDone S.Scheme D.PartialEq.eq s up happened self.new x.0 (Some x.1)))) }
        ensures readable { IfOk result (λ due.
            IfSome due (λ x.
            AtEach S.Scheme D.PartialEq.eq self.old (λ s up happened. CanBeRead S.Certificate.within (S.size s.scheme) (Some x.1)))) }
        ensures none { IfOk result (λ due.
            is_none due ≡ true
            → AtEach S.Scheme D.PartialEq.eq self.old
            (λ s up happened. AreAtRest S.Scheme D.PartialEq.eq s up happened × Stand S.Scheme D.PartialEq.eq s self.new up happened)) }
        ensures err { OnErr result (AtEach S.Scheme D.PartialEq.eq self.old (λ s up happened. Stand S.Scheme D.PartialEq.eq s self.new up happened)) }
    {
        'views: while let Some(view) = self.first_touched() {
            match self.advance(view) {
                Ok(Some(due)) => return Ok(Some((view, due))),
                Ok(None) => {}
                Err(error) => return Err(error),
            }
        }
        Ok(None)
    }

    /// The first view of which something may be due.
    fn first_touched(&self) -> Option<View>
        ensures none { is_none result ≡ true
            → AtEach S.Scheme D.PartialEq.eq self.now (λ s up happened. AreAtRest S.Scheme D.PartialEq.eq s up happened) }
        ensures touched { IfSome result (λ view. contains nat_cmp self.now.touched view ≡ true) }
    {
        match self.touched.first() {
            Some(view) => Some(*view),
            None => None,
        }
    }

    /// Whether a nullify of this member was accepted in the view.
    pub(crate) fn has_nullify(&self, view: View, signer: Participant) -> bool
        ensures { AtEach S.Scheme D.PartialEq.eq self.now (λ s up happened. result ≡ has_nullify (happened view) signer) }
    {
        match self.by_view.get(&Reverse(view)) {
            Some(round) => round.has_nullify(signer),
            None => false,
        }
    }

    /// Whether no notarize and no finalize of this member for the proposal was accepted in the view.
    pub(crate) fn is_missing_voter(
        &self,
        view: View,
        proposal: &Proposal<D>,
        signer: Participant,
    ) -> bool
        ensures { AtEach S.Scheme D.PartialEq.eq self.now
            (λ s up happened. result ≡ is_missing_voter D.PartialEq.eq (happened view) proposal.now signer) }
    {
        match self.by_view.get(&Reverse(view)) {
            Some(round) => round.is_missing_voter(proposal, signer),
            None => true,
        }
    }

    /// Drops the votes of the views below the floor. The cost is that of what is dropped.
    pub(crate) fn drop_below(&mut self, floor: View)
        ensures { AtEach S.Scheme D.PartialEq.eq self.old
            (λ s up happened. Stand S.Scheme D.PartialEq.eq s self.new (up_from floor up) (happened_from floor happened)) }
    {
        'views: while let Some((first, _)) = self.by_view.last_key_value() {
            if floor <= first.0 {
                return;
            }
            let view = first.0;
            self.forget(view);
        }
    }

    /// Nothing is kept of the view.
    fn forget(&mut self, view: View)
        ensures others { (u : ℕ) → (view == u) ≡ false → AreAlike self.old self.new u }
        ensures shared { common_of self.new ≡ common_of self.old }
        ensures fewer { IsSome (stored self.old.by_view view) → btree_map_len self.new.by_view < btree_map_len self.old.by_view }
    {
        self.by_view.remove(&Reverse(view));
        self.touched.remove(&view);
        self.unled.remove(&view);
    }
}

/// Does what is due of the votes of one round.
fn due_of<S: Scheme<D>, D: Digest>(
    round: &mut Round<S, D>,
    alloc: Global,
    me: Participant,
) -> Result<Option<Due<S, D>>, AllocError>
    ensures done { IfOk result
        (λ due. one.AtEach D.PartialEq.eq S.Scheme S.batchable round.old (λ s h. IsRoundDone S.Scheme D.PartialEq.eq s h me round.new due)) }
    ensures readable { IfOk result
        (λ due. one.AtEach D.PartialEq.eq S.Scheme S.batchable round.old (λ s h. CanBeRead S.Certificate.within s.members due)) }
    ensures err { OnErr result
        (one.AtEach D.PartialEq.eq S.Scheme S.batchable round.old (λ s h. RoundKeeps D.PartialEq.eq S.Scheme S.batchable s round.new h)) }
{
    match round.try_forward_proposal(me) {
        Some(proposal) => Ok(Some(Due::Forwards(proposal))),
        None => match round.try_construct(alloc) {
            Ok(Some(batch)) => Ok(Some(Due::Made(batch))),
            Ok(None) => Ok(None),
            Err(error) => Err(error),
        },
    }
}
