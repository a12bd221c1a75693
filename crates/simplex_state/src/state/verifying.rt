//! What a voter asks for, to judge the proposals of others.

ghost use Rattle.std.specs.Prelude.{◌≡◌, ◌≤◌, ℕ, IfOk, IfSome, MatchOption, None};
ghost use Rattle.voter_history.specs.Known.{known};
ghost use Rattle.voter_history.specs.Leaders.{leader};
ghost use Rattle.voter_rules.specs.Ancestry.{member};
ghost use Rattle.simplex_state.specs.Resuming.{AnswersFrom, BehindLookFrom, IsFrom, PassesFrom, first_looked};
ghost use Rattle.simplex_state.specs.State.{AtEach, Keeps};
ghost use Rattle.voter_rules.specs.Building.{IsKeyOfLeader};
ghost use Rattle.simplex_state.specs.Verifying.{Answers, Asks, IsWanted, Passes};

use crate::state::State;
use crate::verify::Verify;
use crate::wanted::Wanted;
use simplex_resolver::Kind;
use std::alloc::AllocError;
use types_core::{Context, Digest, Round, Scheme, View};
use types_terms::Elector;
use voter_history::TimeoutReason;
use voter_laws::a_look_leaves_nothing_to_ask;
use voter_rules::requests::{VerifyRequest, request_for};

impl<S: Scheme<D> + Drop, L: Elector<S, D>, D: Digest> State<S, L, D> {
    /// Asks for the verification of the lowest proposal of another member that waits, or for the certificate that it lacks: each
    /// once. On the way the views below with a proposal that can never stand are given up for that. So whoever asks when the
    /// current view is given up looks again behind this call, whatever it answers.
    ///
    /// # Errors
    ///
    /// `AllocError` where memory ran out.
    pub fn try_verify(&mut self, now: u64) -> Result<Verify<D, S::PublicKey>, AllocError>
        ensures { IfOk result (λ answer. AtEach S.Scheme L.Elector self.old (λ s h. Answers S.Scheme L.Elector s self.new now h answer)) }
    {
        self.try_verify_from(now, View::zero())
    }

    /// The same for the proposals from a view on alone. So whoever goes on behind the view of the last answer comes to an end, also
    /// where an answer asks for nothing new of its peers.
    ///
    /// # Errors
    ///
    /// `AllocError` where memory ran out.
    pub fn try_verify_from(
        &mut self,
        now: u64,
        from: View,
    ) -> Result<Verify<D, S::PublicKey>, AllocError>
        ensures answer { IfOk result
            (λ answer. AtEach S.Scheme L.Elector self.old (λ s h. AnswersFrom S.Scheme L.Elector s self.new now h from answer)) }
        ensures rises { IfOk result (λ answer. IsFrom from answer) }
    {
        let found = self.first_wanted(now, from)?;
        let Some(waiting) = found else {
            return Ok(Verify::Wait);
        };
        let (view, wanted) = waiting;
        self.ask(view, wanted)
    }

    /// The lowest view from this one on for whose proposal something is to be asked, with that. The views below with a proposal that
    /// can never stand are given up.
    fn first_wanted(
        &mut self,
        now: u64,
        from: View,
    ) -> Result<Option<(View, Wanted<D>)>, AllocError>
        ensures found { IfOk result (λ found.
            AtEach S.Scheme L.Elector self.old (λ s h.
            MatchOption found ((last : ℕ) × BehindLookFrom s h now from last (PassesFrom S.Scheme L.Elector s self.new from last))
            (λ x. BehindLookFrom s h now from x.0 (λ end. IsWanted (member s) (known s end) x.0 x.1 × Keeps S.Scheme L.Elector s self.new end)))) }
        ensures rises { IfOk result (λ found. IfSome found (λ x. from ≤ x.0)) }
    {
        a_look_leaves_nothing_to_ask::<S, D>();
        // The proof takes from the number that a term has at least one view.
        let _views = self.views.lookahead().length.get();
        let mut next = self.first_looked(from);
        'views: while let Some(view) = self.views.first_tracked(next) {
            if !self.is_outbound(view) {
                return Ok(None);
            }
            let found = self.look(now, view)?;
            if let Some(wanted) = found {
                return Ok(Some((view, wanted)));
            }
            if view.get() == u64::MAX {
                return Ok(None);
            }
            next = view.next();
        }
        Ok(None)
    }

    /// Where a look from this view on begins.
    fn first_looked(&self, from: View) -> View
        ensures from { from ≤ result }
        ensures value { AtEach S.Scheme L.Elector self.now (λ s h. result ≡ first_looked s h from) }
    {
        let current = self.views.current_view();
        if from < current { current } else { from }
    }

    /// What is to be asked for the view's proposal. Where it can never stand, the view is given up.
    fn look(&mut self, now: u64, view: View) -> Result<Option<Wanted<D>>, AllocError>
        ensures { IfOk result (λ found.
            AtEach S.Scheme L.Elector self.old (λ s h.
            MatchOption found (Passes S.Scheme L.Elector s self.new now h view)
            (λ x. IsWanted (member s) (known s h) view x × Keeps S.Scheme L.Elector s self.new h))) }
    {
        match request_for(&self.views, view) {
            VerifyRequest::Ready(proposal, payload) => {
                Ok(Some(Wanted::Verification(proposal, payload)))
            }
            VerifyRequest::Nullification(first) => {
                Ok(Some(Wanted::Certificate(Kind::Nullification, first)))
            }
            VerifyRequest::Notarization(parent) => {
                Ok(Some(Wanted::Certificate(Kind::Notarization, parent)))
            }
            VerifyRequest::Invalid => {
                let _first = self
                    .views
                    .latch_timeout(now, view, TimeoutReason::InvalidProposal)?;
                Ok(None)
            }
            VerifyRequest::Wait => Ok(None),
        }
    }

    /// Asks for what is wanted for the view's proposal, and puts that down.
    fn ask(&mut self, view: View, wanted: Wanted<D>) -> Result<Verify<D, S::PublicKey>, AllocError>
        ensures of_view { IfOk result (λ answer. IsFrom view answer) }
        ensures asks { IfOk result (λ answer.
            AtEach S.Scheme L.Elector self.old
            (λ s h. IsWanted (member s) (known s h) view wanted → Asks S.Scheme L.Elector s self.new h view answer)) }
    {
        let Some(leader) = self.leader_key(view) else {
            return Ok(Verify::Wait);
        };
        match wanted {
            Wanted::Verification(proposal, payload) => {
                let context = Context {
                    round: Round::new(self.views.epoch(), view),
                    leader,
                    parent: (proposal.parent, payload),
                };
                let _asked = self.views.request_verify(view, proposal, payload);
                Ok(Verify::Ready(context, proposal))
            }
            Wanted::Certificate(kind, missing) => {
                self.views.request(view, missing)?;
                Ok(Verify::Resolve {
                    proposal: view,
                    view: missing,
                    kind,
                    target: leader,
                })
            }
        }
    }

    /// The key of the member that leads the view, where that is known.
    fn leader_key(&self, view: View) -> Option<S::PublicKey>
        ensures { AtEach S.Scheme L.Elector self.now
            (λ s h. MatchOption result (leader s h view ≡ None) (λ key. IsKeyOfLeader S.Scheme s h view key)) }
    {
        let Some(round) = self.views.round(view) else {
            return None;
        };
        let Some(leader) = round.leader() else {
            return None;
        };
        Some(leader.key)
    }
}
