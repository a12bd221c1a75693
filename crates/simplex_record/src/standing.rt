//! What is kept of a record: of each view and kind of artifact, whether the record has one. Every question
//! and every addition takes a logarithmic time.

ghost use Rattle.std.specs.Prelude.{◌≡◌, ◌↔◌, ◌<◌, ◌≤◌, ℕ, [], Bool, List, Some, IsTrue, true};
ghost use Rattle.types_core.specs.LatestFirst.{stored};
ghost use Rattle.types_core.specs.Positions.{HasRoom};
ghost use Rattle.types_core.specs.Subject.{notarize, nullify, finalize};
ghost use Rattle.simplex_record.specs.Record.{Entry, HasVerdict, HasCertificate, floor};
ghost use Rattle.simplex_record.specs.Rules.{MayNotarize, MayNullify, MayFinalize, MayTake, MayJudge, HasNoOpenNullify};
ghost use Rattle.simplex_record.specs.CheckerState.{Keeps, TellsLastNullify};

use crate::certificates::Certificates;
use crate::numbering::Numbering;
use crate::votes::Votes;
use std::alloc::Global;
use std::cmp::Reverse;
use std::collections::BTreeMap;
use std::ops::Bound;
use types_core::{Digest, Proposal, Round, TermLength, View};
use types_terms::Kind;

/// What is kept of a record: all that the rules ask of it.
#[derive(Drop)]
pub struct Standing<D: Digest> {
    /// The views that the member voted in.
    pub(crate) votes: Votes,
    /// What it has certificates for.
    pub(crate) certificates: Certificates<D>,
    /// The verdicts, by their views.
    pub(crate) verdicts: BTreeMap<Reverse<View>, bool>,
    /// The highest finalized view, or 0.
    pub(crate) last_finalized: View,
    /// The highest view that was entered, from 1 on.
    pub(crate) current_view: View,
    /// How many artifacts there are, and where the last own nullify stands.
    pub(crate) numbering: Numbering,
}

impl<D: Digest> Standing<D> {
    /// What is kept of an empty record.
    pub fn new(alloc: Global) -> Self
        ensures { (length : TermLength) → Keeps length result [] }
    {
        Standing {
            votes: Votes::new(alloc),
            certificates: Certificates::new(alloc),
            verdicts: BTreeMap::new(alloc),
            last_finalized: View::zero(),
            current_view: View::new(1),
            numbering: Numbering::new(),
        }
    }

    /// The verdict on the view, where one is recorded.
    pub fn verdict(&self, view: View) -> Option<bool>
        ensures { (views : ℕ) (before : List (Entry D))
            → Keeps views self.now before
            → (verdict : Bool)
            → (result ≡ Some verdict) ↔ HasVerdict before view verdict }
    {
        self.verdicts.get(&Reverse(view)).copied()
    }

    /// Whether a certificate of this kind and view is recorded.
    pub fn has_certificate(&self, kind: Kind, view: View) -> bool
        ensures { (views : ℕ) (before : List (Entry D)) → Keeps views self.now before → IsTrue result ↔ HasCertificate before kind view }
    {
        match kind {
            Kind::Notarization => self.certificates.notarizations.contains_key(&Reverse(view)),
            Kind::Nullification => self.certificates.nullifications.contains(&Reverse(view)),
            Kind::Finalization => self.certificates.finalizations.contains(&Reverse(view)),
        }
    }

    /// The place of the last own nullify, where one is recorded: how many artifacts stand before it.
    pub fn last_nullify(&self) -> Option<usize>
        ensures { (views : ℕ) (before : List (Entry D)) → Keeps views self.now before → TellsLastNullify before result }
    {
        self.numbering.last_nullify
    }

    /// The view that the record begins behind: the one that its first artifact finalizes, or 0.
    pub fn floor(&self) -> View
        ensures { (views : ℕ) (before : List (Entry D)) → Keeps views self.now before → result ≡ floor before }
    {
        self.numbering.floor
    }

    /// Whether the member may vote to notarize the proposal.
    pub fn may_notarize(&self, length: TermLength, proposal: &Proposal<D>) -> bool
        ensures lawful { (before : List (Entry D)) → Keeps length self.now before → IsTrue result ↔ MayNotarize length before proposal.now }
        ensures parent_below { IsTrue result → proposal.now.parent < proposal.now.round.view }
        ensures room { IsTrue result → HasRoom length proposal.now.round.view }
    {
        let view = proposal.round.view;
        if !view.has_room(length) {
            return false;
        }
        let floor = self.numbering.floor;
        if view <= floor {
            return false;
        }
        if self.votes.notarizes.contains(&Reverse(view)) {
            return false;
        }
        if self.votes.nullifies.contains(&Reverse(view)) {
            return false;
        }
        if proposal.parent >= view {
            return false;
        }
        // What lies at or below the floor need not be covered.
        let from = proposal.parent.max(floor);
        self.certificates.covered.covers_between(from, view)
    }

    /// Whether it may vote to nullify the round.
    pub fn may_nullify(&self, length: TermLength, round: Round) -> bool
        ensures lawful { (before : List (Entry D)) → Keeps length self.now before → IsTrue result ↔ MayNullify length before round }
        ensures from_one { IsTrue result → 1 ≤ round.view }
        ensures room { IsTrue result → HasRoom length round.view }
    {
        // View 0 is never entered, so nobody gives it up.
        if round.view == View::zero() {
            return false;
        }
        if !round.view.has_room(length) {
            return false;
        }
        if round.view != self.current_view {
            return false;
        }
        if self.votes.nullifies.contains(&Reverse(round.view)) {
            return false;
        }
        !self.votes.finalizes.contains(&Reverse(round.view))
    }

    /// Whether it may vote to finalize the proposal.
    pub fn may_finalize(&self, length: TermLength, proposal: &Proposal<D>) -> bool
        ensures lawful { (before : List (Entry D)) → Keeps length self.now before → IsTrue result ↔ MayFinalize length before proposal.now }
        ensures from_one { IsTrue result → 1 ≤ proposal.now.round.view }
        ensures room { IsTrue result → HasRoom length proposal.now.round.view }
    {
        let finalized = proposal.round.view;
        if !finalized.has_room(length) {
            return false;
        }
        if self.last_finalized >= finalized {
            return false;
        }
        if self.votes.nullifies.contains(&Reverse(finalized)) {
            return false;
        }
        if self.votes.finalizes.contains(&Reverse(finalized)) {
            return false;
        }
        if !self.certificates.has_notarized(proposal) {
            return false;
        }
        if !self.is_certified(finalized) {
            return false;
        }
        self.is_healed(length, finalized)
    }

    /// Whether the verdict on the view is true.
    fn is_certified(&self, view: View) -> bool
        ensures { IsTrue result ↔ (stored self.now.verdicts view ≡ Some true) }
    {
        matches!(self.verdicts.get(&Reverse(view)), Some(true))
    }

    /// Whether each own nullify of an earlier view of the term lies at or below the last finalized view.
    fn is_healed(&self, length: TermLength, view: View) -> bool
        requires { self.now.last_finalized < view }
        ensures { (before : List (Entry D)) → Keeps length self.now before → IsTrue result ↔ HasNoOpenNullify length before view }
    {
        let start = view.term_start(length);
        let low = start.max(self.last_finalized.next());
        let from_latest = (
            Bound::Excluded(Reverse(view)),
            Bound::Included(Reverse(low)),
        );
        self.votes.nullifies.range(from_latest).next().is_none()
    }

    /// Whether it may take a notarization of the proposal.
    pub fn may_take_notarization(&self, length: TermLength, proposal: &Proposal<D>) -> bool
        ensures lawful { (before : List (Entry D)) → Keeps length self.now before → IsTrue result ↔ MayTake length before (notarize proposal.now) }
        ensures room { IsTrue result → HasRoom length proposal.now.round.view }
        ensures parent_below { IsTrue result → proposal.now.parent < proposal.now.round.view }
    {
        if !can_be_certified(length, proposal) {
            return false;
        }
        !self
            .certificates
            .notarizations
            .contains_key(&Reverse(proposal.round.view))
    }

    /// Whether it may take a nullification of the round.
    pub fn may_take_nullification(&self, length: TermLength, round: Round) -> bool
        ensures lawful { (before : List (Entry D)) → Keeps length self.now before → IsTrue result ↔ MayTake length before (nullify round) }
        ensures from_one { IsTrue result → 1 ≤ round.view }
        ensures room { IsTrue result → HasRoom length round.view }
    {
        if round.view.is_zero() {
            return false;
        }
        if !round.view.has_room(length) {
            return false;
        }
        !self
            .certificates
            .nullifications
            .contains(&Reverse(round.view))
    }

    /// Whether it may take a finalization of the proposal.
    pub fn may_take_finalization(&self, length: TermLength, proposal: &Proposal<D>) -> bool
        ensures lawful { (before : List (Entry D)) → Keeps length self.now before → IsTrue result ↔ MayTake length before (finalize proposal.now) }
        ensures room { IsTrue result → HasRoom length proposal.now.round.view }
        ensures parent_below { IsTrue result → proposal.now.parent < proposal.now.round.view }
    {
        if !can_be_certified(length, proposal) {
            return false;
        }
        !self
            .certificates
            .finalizations
            .contains(&Reverse(proposal.round.view))
    }

    /// Whether it may record a verdict on the round.
    pub fn may_judge(&self, length: TermLength, round: Round) -> bool
        ensures lawful { (before : List (Entry D)) → Keeps length self.now before → IsTrue result ↔ MayJudge before round }
        ensures room { IsTrue result → HasRoom length round.view }
    {
        if !round.view.has_room(length) {
            return false;
        }
        if self.verdicts.contains_key(&Reverse(round.view)) {
            return false;
        }
        match self.certificates.notarized(round.view) {
            Some(proposal) => proposal.round == round,
            None => false,
        }
    }
}

/// Whether a certificate may be for the proposal: its view has room, and its parent lies below.
fn can_be_certified<D: Digest>(length: TermLength, proposal: &Proposal<D>) -> bool
    ensures { IsTrue result ↔ (HasRoom length proposal.now.round.view × (proposal.now.parent < proposal.now.round.view)) }
{
    proposal.round.view.has_room(length) && proposal.parent < proposal.round.view
}
