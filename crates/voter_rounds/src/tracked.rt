//! All views together: their rounds, and who leads them.
#![tactic(auto, unfolding(crate::specs::Tracked::Holds))]

mod one_view;

ghost use Rattle.std.specs.Prelude.{◌≡◌, ◌≢◌, ◌↔◌, ◌⊎◌, ◌<◌, ◌≤◌, ◌+◌, ◌-◌, ◌^◌, ◌==◌, if◌then◌else◌, nat_lt, min, ℕ, Bool, false, true, List, [], ◌∷◌, Option, Some, None, is_none, IsSome, IsTrue, IfOk, OnOk, MatchOption, option_map};
ghost use Rattle.std.specs.Option.{option_or, ForSome};
ghost use Rattle.voter_history.specs.Held.{held, Agrees, Differs};
ghost use Rattle.voter_history.specs.Past.{entered, armed, notarized, nullified, finalized, notarization, nullification, finalization, offers, has_nullified};
ghost use Rattle.simplex_round.specs.Round as one;
ghost use Rattle.voter_rounds.specs.Marks.{Shows};
ghost use Rattle.voter_history.specs.Pasts.{bears, put};
ghost use Rattle.voter_history.specs.Leaders.{extend};
ghost use Rattle.voter_rounds.specs.Rounds.{AreUntracked, IsFirstBelow, IsTracked, setup_of};
ghost use Rattle.voter_rounds.specs.Tracked.{Frame, Tables, Holds, AtEach, Inherits, IsBegun, IsClosedAt, count, forgotten, inherits_by, is_spoken, proposed};

use crate::marks::Marks;
use crate::rounds::Rounds;
use messages_certificates::{Finalization, Notarization, Nullification};
use simplex_round::Round;
use std::alloc::{AllocError, Global};
use std::rc::Rc;
use types_core::{Digest, Epoch, Participant, Proposal, Scheme, View, Viewable};
use types_terms::Lookahead;
use voter_history::Sign;

/// What is known of all views.
#[derive(Drop)]
pub struct Tracked<S: Scheme<D>, D: Digest> {
    lookahead: Lookahead,
    rounds: Rounds<S, D>,
    /// The views that have a notarization or finalization.
    direct: Marks,
    /// The views that are finalized, or whose verdict is true.
    certified: Marks,
    /// The views whose verdict is false.
    failed: Marks,
    /// The views that this member voted to nullify.
    given_up: Marks,
    /// The views whose leader's proposal was forwarded.
    noted: Marks,
}

impl<S: Scheme<D> + Drop, D: Digest> Tracked<S, D> {
    /// Nothing is known of any view.
    pub fn new(alloc: Global, scheme: Rc<S>, epoch: Epoch, lookahead: Lookahead) -> Self
        ensures { Holds S.Scheme (record
            { common = record { scheme = scheme.value; epoch = epoch }; length = lookahead.length; optimistic_views = lookahead.optimistic_views })
            result (record { led = λ view. None; past = λ view. []; noted = λ view. false }) }
    {
        Tracked {
            lookahead,
            rounds: Rounds::new(alloc, scheme, epoch),
            direct: Marks::new(alloc),
            certified: Marks::new(alloc),
            failed: Marks::new(alloc),
            given_up: Marks::new(alloc),
            noted: Marks::new(alloc),
        }
    }

    /// Whether the leader's proposal of the view was forwarded, or this member voted for it.
    fn is_spoken(&self, view: View) -> bool
        ensures { AtEach S.Scheme self.now (λ f t. IsTrue result ↔ (is_spoken t view ≡ true)) }
    {
        if self.noted.contains(view) {
            return true;
        }
        match self.rounds.get(view) {
            Some(round) => round.broadcast_notarize(),
            None => false,
        }
    }

    /// Whether the view has the leader of the view before.
    fn inherits(&self, view: View) -> bool
        ensures { AtEach S.Scheme self.now (λ f t. IsTrue result ↔ Inherits f t view) }
    {
        let Some(floor) = self.lookahead.issuance_floor(view) else {
            return false;
        };
        let start = view.term_start(self.lookahead.length);
        let low = later(floor, start);
        if self.direct.any_within(low, view) {
            return true;
        }
        let Some(before) = view.previous() else {
            return false;
        };
        if !self.is_spoken(before) {
            return false;
        }
        floor.is_zero() || self.direct.any_within(floor, view)
    }

    /// The leader of a view.
    pub fn leader(&self, view: View) -> Option<Participant>
        ensures { AtEach S.Scheme self.now (λ f t. result ≡ t.led view) }
    {
        match self.rounds.get(view) {
            Some(round) => match round.leader() {
                Some(leader) => Some(leader.idx),
                None => None,
            },
            None => None,
        }
    }

    /// Hands the leader of the view before on to a view, where it has the same: whether that became known.
    fn inherit(&mut self, view: View) -> Result<bool, AllocError>
        ensures keeps { OnOk result (AtEach S.Scheme self.old (λ f t.
            Holds S.Scheme f self.new (record t
            { led = λ u. if view == u then option_or (t.led view) (if inherits_by f t view then t.led (view - 1) else None) else t.led u }))) }
        ensures answer { IfOk result (λ new.
            AtEach S.Scheme self.old
            (λ f t. new ≡ false → option_or (t.led view) (if inherits_by f t view then t.led (view - 1) else None) ≡ t.led view)) }
    {
        let Some(before) = view.previous() else {
            return Ok(false);
        };
        // The proof takes from the number that it has 64 bits.
        let _number = before.get();
        let Some(leader) = self.leader(before) else {
            return Ok(false);
        };
        if !self.inherits(view) {
            return Ok(false);
        }
        self.rounds.learn(view, leader)
    }

    /// The next view behind this one that may have the leader of the view before: the one behind the first of which something is
    /// known. It is at most the last one, where that lies ahead.
    fn next_heir(&self, view: View, last: View) -> View
        requires { view + 1 < 2 ^ 64 }
        ensures ahead { view < result }
        ensures bare { AtEach S.Scheme self.now (λ f t. (u : ℕ) → view ≤ u → u + 1 < result → t.led u ≡ None) }
    {
        // The proof takes from the number that it has 64 bits.
        let _number = last.get();
        let next = view.next();
        if last <= next {
            return next;
        }
        let Some(first) = self.first_tracked(view) else {
            return last;
        };
        if last <= first {
            return last;
        }
        first.next()
    }

    /// Hands leaders on from the first view, up to the last at least, and on while one becomes known. The cost is that of the views
    /// on the way of which something is known, however far the last one lies.
    fn hand_on(&mut self, first: View, last: View) -> Result<(), AllocError>
        ensures { OnOk result (AtEach S.Scheme self.old (λ f t.
            (here known : ℕ → Option ℕ)
            → IsBegun f t here known first last
            → Holds S.Scheme f self.new (record t { led = extend here (inherits_by f t) known }))) }
    {
        let mut view = first;
        'views: while view.get() < u64::MAX {
            let learnt = self.inherit(view)?;
            if !learnt && last <= view {
                return Ok(());
            }
            view = self.next_heir(view, last);
        }
        let _last = self.inherit(view)?;
        Ok(())
    }

    /// Names the leader of a view, where it isn't known, and hands leaders on behind it.
    pub fn lead(&mut self, first: View, leader: Participant, last: View) -> Result<(), AllocError>
        ensures { OnOk result (AtEach S.Scheme self.old (λ f t.
            0 < first
            → leader < S.size f.common.scheme
            → ((u : ℕ) → (u + 1 < first) ⊎ (last ≤ u) → u + 1 < 2 ^ 64 → IsClosedAt (inherits_by f t) t.led u)
            → Holds S.Scheme f self.new (record t { led = extend (λ u. if u == first then Some leader else None) (inherits_by f t) t.led }))) }
    {
        let _new = self.rounds.learn(first, leader)?;
        if first.get() == u64::MAX {
            return Ok(());
        }
        self.hand_on(first.next(), last)
    }

    /// The view is entered, with these deadlines.
    pub fn enter(
        &mut self,
        view: View,
        now: u64,
        leader: u64,
        certification: u64,
        stall: Option<u64>,
    ) -> Result<(), AllocError>
        ensures { OnOk result (AtEach S.Scheme self.old
            (λ f t. Holds S.Scheme f self.new (record t { past = put view (armed leader certification stall) (put view (entered now) t.past) }))) }
    {
        let round = self.rounds.open(view)?;
        round.mark_entered(now);
        round.set_deadlines(leader, certification, stall);
        Ok(())
    }

    /// Takes a nullification, the first of its view.
    pub fn add_nullification(&mut self, certificate: Nullification<S, D>) -> Result<(), AllocError>
        ensures { OnOk result (AtEach S.Scheme self.old (λ f t.
            nullification (t.past certificate.round.view) ≡ None
            → Holds S.Scheme f self.new (record t { past = put certificate.round.view (nullified certificate) t.past }))) }
    {
        let view = certificate.view();
        let _first = self.rounds.open(view)?.add_nullification(certificate);
        Ok(())
    }

    /// Takes a notarization, the first of its view: the known leader's key where it took the place of another proposal.
    pub fn add_notarization(
        &mut self,
        certificate: Notarization<S, D>,
    ) -> Result<Option<S::PublicKey>, AllocError>
        ensures keeps { OnOk result (AtEach S.Scheme self.old (λ f t.
            notarization (t.past certificate.proposal.round.view) ≡ None
            → Holds S.Scheme f self.new (record t { past = put certificate.proposal.round.view (notarized certificate) t.past }))) }
        ensures replaced { IfOk result (λ key.
            AtEach S.Scheme self.old (λ f t.
            notarization (t.past certificate.proposal.round.view) ≡ None
            → Differs (held (offers (t.past certificate.proposal.round.view))) certificate.proposal
            → key ≡ option_map (S.key_of f.common.scheme) (t.led certificate.proposal.round.view))) }
        ensures same { IfOk result (λ key.
            AtEach S.Scheme self.old (λ f t. Agrees (held (offers (t.past certificate.proposal.round.view))) certificate.proposal → key ≡ None)) }
    {
        let view = certificate.view();
        self.direct.mark(view)?;
        let (_first, key) = self.rounds.open(view)?.add_notarization(certificate);
        Ok(key)
    }

    /// Takes a finalization, the first of its view: the known leader's key where it took the place of another proposal.
    pub fn add_finalization(
        &mut self,
        certificate: Finalization<S, D>,
    ) -> Result<Option<S::PublicKey>, AllocError>
        ensures keeps { OnOk result (AtEach S.Scheme self.old (λ f t.
            finalization (t.past certificate.proposal.round.view) ≡ None
            → Holds S.Scheme f self.new (record t { past = put certificate.proposal.round.view (finalized certificate) t.past }))) }
        ensures replaced { IfOk result (λ key.
            AtEach S.Scheme self.old (λ f t.
            finalization (t.past certificate.proposal.round.view) ≡ None
            → Differs (held (offers (t.past certificate.proposal.round.view))) certificate.proposal
            → key ≡ option_map (S.key_of f.common.scheme) (t.led certificate.proposal.round.view))) }
        ensures same { IfOk result (λ key.
            AtEach S.Scheme self.old (λ f t. Agrees (held (offers (t.past certificate.proposal.round.view))) certificate.proposal → key ≡ None)) }
    {
        let view = certificate.view();
        self.direct.mark(view)?;
        self.certified.mark(view)?;
        let (_first, key) = self.rounds.open(view)?.add_finalization(certificate);
        Ok(key)
    }

    /// The first view whose window doesn't reach back to this one, or the last view that there is.
    pub fn first_unreached(&self, view: View) -> View
        ensures exact { AtEach S.Scheme self.now (λ f t. result ≡ min (view + f.optimistic_views + 1) (2 ^ 64 - 1)) }
        ensures behind { AtEach S.Scheme self.now (λ f t. (u : ℕ) → result ≤ u → u + 1 < 2 ^ 64 → view + f.optimistic_views < u) }
    {
        let optimistic = self.lookahead.optimistic_views.get();
        View::new(view.get().saturating_add(optimistic).saturating_add(1))
    }

    /// Hands leaders on from this view, where more is known of it now.
    pub fn follow(&mut self, view: View) -> Result<(), AllocError>
        ensures { OnOk result (AtEach S.Scheme self.old (λ f t.
            ((u : ℕ) → (view == u) ≡ false → IsClosedAt (inherits_by f t) t.led u)
            → Holds S.Scheme f self.new (record t { led = extend (λ u. None) (inherits_by f t) t.led }))) }
    {
        if view.get() == u64::MAX {
            return Ok(());
        }
        let next = view.next();
        self.hand_on(next, next)
    }

    /// Hands leaders on from a view that this member voted to notarize, and names the leader of the view behind it, where one is
    /// given and none is known.
    pub fn follow_vote(
        &mut self,
        view: View,
        next_leader: Option<Participant>,
    ) -> Result<(), AllocError>
        ensures { OnOk result (AtEach S.Scheme self.old (λ f t.
            ForSome next_leader (λ i. i < S.size f.common.scheme)
            → ((u : ℕ) → (view == u) ≡ false → IsClosedAt (inherits_by f t) t.led u)
            → Holds S.Scheme f self.new (record t { led = extend (λ u. if u == view + 1 then next_leader else None) (inherits_by f t) t.led }))) }
    {
        let Some(leader) = next_leader else {
            return self.follow(view);
        };
        if view.get() == u64::MAX {
            return Ok(());
        }
        let next = view.next();
        self.lead(next, leader, next)
    }

    /// Offers the leader's proposal of a view: whether it is the first there. Behind an own nullify it is not taken.
    pub fn forward(&mut self, view: View, proposal: &Proposal<D>) -> Result<bool, AllocError>
        ensures keeps { OnOk result (AtEach S.Scheme self.old
            (λ f t. ((u : ℕ) → IsClosedAt (inherits_by f t) t.led u) → Holds S.Scheme f self.new (proposed f t view proposal.now))) }
        ensures answer { IfOk result (λ first.
            AtEach S.Scheme self.old (λ f t. IsTrue first ↔ ((has_nullified (t.past view) ≡ false) × (held (offers (t.past view)) ≡ None)))) }
    {
        let first = self.rounds.open(view)?.set_proposal(proposal);
        self.noted.mark(view)?;
        self.follow(view)?;
        Ok(first)
    }

    /// Takes out the round of the first view of which something is known, where that lies below the floor, and drops what is known of
    /// the views up to it. Where there is none, it drops what is known of the views below the floor.
    pub fn pop_below(&mut self, floor: View) -> Option<(View, Round<S, D>)>
        ensures fewer { IsSome result → count self.new < count self.old }
        ensures keeps { AtEach S.Scheme self.old
            (λ f t. MatchOption result (Holds S.Scheme f self.new (forgotten floor t)) (λ x. Holds S.Scheme f self.new (forgotten (x.0 + 1) t))) }
        ensures popped { AtEach S.Scheme self.old
            (λ f t. MatchOption result (AreUntracked t.led t.past 0 floor) (λ x. IsFirstBelow S.key_of f.common floor x.0 x.1 t.led t.past)) }
    {
        // The proof takes from the number that it has 64 bits.
        let _number = floor.get();
        let Some(entry) = self.rounds.pop_below(floor) else {
            self.forget_marks(floor);
            return None;
        };
        self.forget_marks(entry.0.next());
        Some(entry)
    }

    /// Takes the marks off the views before the end.
    fn forget_marks(&mut self, end: View)
        ensures lookahead { self.new.lookahead ≡ self.old.lookahead }
        ensures rounds { self.new.rounds ≡ self.old.rounds }
        ensures direct { (marked : ℕ → Bool) → Shows self.old.direct marked → Shows self.new.direct (λ u. if nat_lt u end then false else marked u) }
        ensures certified { (marked : ℕ → Bool)
            → Shows self.old.certified marked
            → Shows self.new.certified (λ u. if nat_lt u end then false else marked u) }
        ensures failed { (marked : ℕ → Bool) → Shows self.old.failed marked → Shows self.new.failed (λ u. if nat_lt u end then false else marked u) }
        ensures given_up { (marked : ℕ → Bool)
            → Shows self.old.given_up marked
            → Shows self.new.given_up (λ u. if nat_lt u end then false else marked u) }
        ensures noted { (marked : ℕ → Bool) → Shows self.old.noted marked → Shows self.new.noted (λ u. if nat_lt u end then false else marked u) }
    {
        self.direct.forget_below(end);
        self.certified.forget_below(end);
        self.failed.forget_below(end);
        self.given_up.forget_below(end);
        self.noted.forget_below(end);
    }

    /// The views that bear a sign.
    pub fn bearing(&self, sign: Sign) -> &Marks
        ensures { AtEach S.Scheme self.now (λ f t. Shows result.now (λ view. bears sign (t.past view))) }
    {
        match sign {
            Sign::Direct => &self.direct,
            Sign::Certified => &self.certified,
            Sign::Failed => &self.failed,
            Sign::GivenUp => &self.given_up,
        }
    }

    /// What is known of a view, where something is.
    pub fn round(&self, view: View) -> Option<&Round<S, D>>
        ensures { AtEach S.Scheme self.now (λ f t.
            MatchOption result ((t.past view ≡ []) × (t.led view ≡ None))
            (λ r. IsTracked (t.past view) (t.led view) × one.Keeps S.key_of (setup_of f.common view) r.now (t.led view) (t.past view))) }
    {
        self.rounds.get(view)
    }
}

/// The later one of two views.
pub fn later(one: View, other: View) -> View
    ensures one { one ≤ result }
    ensures other { other ≤ result }
    ensures least { (view : ℕ) → one ≤ view → other ≤ view → result ≤ view }
{
    if one < other { other } else { one }
}
