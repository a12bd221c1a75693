//! The votes of all views that a member's node keeps.
#![tactic(auto)]

ghost use Rattle.std.specs.Prelude.{◌≡◌, ◌≢◌, ◌≤◌, ◌↔◌, ◌∷◌, ℕ, [], true, false, Bool, Option, None, Some, IsTrue, IfOk, IfErr, IfSome, OnOk, OnErr, MatchOption, is_none, if◌then◌else◌};
ghost use Rattle.types_core.specs.Positions.{HasRoom};
ghost use Rattle.messages_certificates.specs.Artifact.{certificate_artifact};
ghost use Rattle.messages_certificates.specs.Certificate.{certificate_round};
ghost use Rattle.simplex_messages.specs.VoteParts.{vote_artifact, vote_round};
ghost use Rattle.batcher_admission.specs.Evidence.{as_report};
ghost use Rattle.batcher_verifier.specs.declared.batcher_fault.BatcherFault.TheVariants.{Memory};
ghost use Rattle.batcher_verifier.specs.History.{leader_of, recorded, takes};
ghost use Rattle.simplex_batcher.specs.Admission.{AgreesWithOwn, IsBlocked, IsCastFault, contradicts, report_of};
ghost use Rattle.simplex_batcher.specs.Queries.{has_nullify, is_missing_voter};
ghost use Rattle.simplex_member.specs.Layers.{current_of, floor_of, may_enter, stage, votes_of, votes_setup, Stage, IsUp};
ghost use Rattle.simplex_member.specs.Point.{Point, History, Came, Found, Heard, Leads, Votes};
ghost use Rattle.simplex_member.specs.Setup.{Setup};
ghost use Rattle.batcher_verifier.specs.History as votes;
ghost use Rattle.node_votes.specs.Standing.{AreLedFrom, CanBeRead, IsFirstUnled, happened_from, up_from};
ghost use Rattle.node_votes.specs.KeepsVotes.{AtEach, Does, IsAt, IsNewVote, IsOpenTo, IsSetUp, IsShut, Keeps, KeepsAhead, NoneIsDue};

use crate::due::Due;
use crate::rounds::Rounds;
use simplex_batcher::{Admission, BatcherFault};
use simplex_messages::{Activity, Certificate, Vote};
use std::alloc::{AllocError, Global};
use std::rc::Rc;
use types_core::{Digest, Epoch, Participant, Proposal, Scheme, TermLength, View, Viewable};

/// The votes of all views that a member's node keeps: by view, from the floor on, of those of which votes came up.
#[derive(Drop)]
pub struct Acceptance<S: Scheme<D>, D: Digest> {
    length: TermLength,
    current: View,
    floor: View,
    rounds: Rounds<S, D>,
}

impl<S: Scheme<D> + Drop, D: Digest> Acceptance<S, D> {
    /// The votes of no view came up yet.
    pub fn new(
        alloc: Global,
        scheme: Rc<S>,
        epoch: Epoch,
        length: TermLength,
        me: Participant,
        track_historical_votes: bool,
    ) -> Self
        ensures { (s : Setup S D S.Certificate)
            → IsSetUp s scheme.value epoch length me track_historical_votes
            → Keeps S.Scheme D.PartialEq.eq s result [] }
    {
        Acceptance {
            length,
            current: View::zero(),
            floor: View::zero(),
            rounds: Rounds::new(alloc, scheme, epoch, me, track_historical_votes),
        }
    }

    /// Takes a vote from the network, which other tests have passed: whether it is accepted, whether its sender is to be blocked
    /// for it, and what is to be reported. A vote of a view that is below the floor, or has no room, is not accepted.
    ///
    /// # Errors
    ///
    /// [`BatcherFault::WrongRound`] where it is of another epoch, and [`BatcherFault::Memory`] where memory ran out. Nothing is
    /// changed then.
    pub fn hear(
        &mut self,
        sender: Participant,
        vote: Vote<S, D>,
    ) -> Result<Admission<S, D>, BatcherFault>
        ensures added { IfOk result (λ a.
            AtEach S.Scheme D.PartialEq.eq self.old (λ s h.
            IsOpenTo s h (vote_round vote)
            → a.added ≡ takes (votes_setup s S.Scheme h (vote_round vote).view) (votes_of s h (vote_round vote).view) sender vote)) }
        ensures block { IfOk result (λ a.
            AtEach S.Scheme D.PartialEq.eq self.old (λ s h.
            IsOpenTo s h (vote_round vote)
            → IsTrue a.block ↔ IsBlocked (votes_setup s S.Scheme h (vote_round vote).view) (votes_of s h (vote_round vote).view) sender vote)) }
        ensures report { IfOk result (λ a.
            AtEach S.Scheme D.PartialEq.eq self.old (λ s h.
            IsOpenTo s h (vote_round vote)
            → a.report ≡ report_of D.PartialEq.eq (votes_setup s S.Scheme h (vote_round vote).view) (votes_of s h (vote_round vote).view) sender
            vote)) }
        ensures shut { IfOk result (λ a.
            AtEach S.Scheme D.PartialEq.eq self.old
            (λ s h. IsShut s h (vote_round vote).view → (a.added ≡ false) × (a.block ≡ false) × (a.report ≡ None))) }
        ensures heard { IfOk result
            (λ a. a.added ≡ true → AtEach S.Scheme D.PartialEq.eq self.old (λ s h. Keeps S.Scheme D.PartialEq.eq s self.new (Heard vote ∷ h))) }
        ensures refused { IfOk result
            (λ a. a.added ≡ false → AtEach S.Scheme D.PartialEq.eq self.old (λ s h. Keeps S.Scheme D.PartialEq.eq s self.new h)) }
        ensures fault { IfErr result (λ e. AtEach S.Scheme D.PartialEq.eq self.old (λ s h. (vote_round vote).epoch ≡ s.voter.epoch → e ≡ Memory)) }
        ensures err { OnErr result (AtEach S.Scheme D.PartialEq.eq self.old (λ s h. Keeps S.Scheme D.PartialEq.eq s self.new h)) }
    {
        let view = vote.view();
        if !self.is_open_to(view) {
            return Ok(Admission {
                added: false,
                block: false,
                report: None,
            });
        }
        match self.rounds.take_vote(self.current, sender, vote) {
            Ok(admission) => Ok(admission),
            Err(fault) => Err(fault),
        }
    }

    /// Whether the votes of a view may be kept: it is not below the floor, and has room.
    fn is_open_to(&self, view: View) -> bool
        ensures { AtEach S.Scheme D.PartialEq.eq self.now (λ s h. IsTrue result ↔ ((floor_of s h ≤ view) × HasRoom s.voter.length view)) }
    {
        self.floor <= view && view.has_room(self.length)
    }

    /// Takes an own vote, one that was made now or that the record said: its report, where it is new. Of a view that is below the
    /// floor, or has no room, nothing is kept.
    ///
    /// # Errors
    ///
    /// [`BatcherFault::WrongRound`] where it is of another epoch, [`BatcherFault::Contradicts`] where it contradicts an accepted
    /// vote, and [`BatcherFault::Memory`] where memory ran out. Nothing is changed then.
    pub fn cast(&mut self, vote: Vote<S, D>) -> Result<Option<Activity<S, D>>, BatcherFault>
        ensures report { IfOk result (λ report.
            AtEach S.Scheme D.PartialEq.eq self.old (λ s h.
            IsOpenTo s h (vote_round vote)
            → report ≡ (if is_none (recorded (votes_of s h (vote_round vote).view) vote) then Some (as_report vote) else None))) }
        ensures cast { OnOk result (AtEach S.Scheme D.PartialEq.eq self.old
            (λ s h. IsNewVote S.Scheme s h vote → Keeps S.Scheme D.PartialEq.eq s self.new (Votes vote ∷ h))) }
        ensures found { OnOk result (AtEach S.Scheme D.PartialEq.eq self.old (λ s h.
            IsNewVote S.Scheme s h vote → (taken : Bool) → KeepsAhead S.Scheme D.PartialEq.eq s self.new h (Found (vote_artifact vote) taken))) }
        ensures shut { IfOk result (λ report.
            AtEach S.Scheme D.PartialEq.eq self.old
            (λ s h. IsShut s h (vote_round vote).view → (report ≡ None) × Keeps S.Scheme D.PartialEq.eq s self.new h)) }
        ensures agrees { OnOk result (AtEach S.Scheme D.PartialEq.eq self.old
            (λ s h. IsOpenTo s h (vote_round vote) → contradicts D.PartialEq.eq (votes_of s h (vote_round vote).view) vote ≡ false)) }
        ensures again { OnOk result (AtEach S.Scheme D.PartialEq.eq self.old
            (λ s h. is_none (recorded (votes_of s h (vote_round vote).view) vote) ≡ false → Keeps S.Scheme D.PartialEq.eq s self.new h)) }
        ensures why { IfErr result (λ e.
            AtEach S.Scheme D.PartialEq.eq self.old
            (λ s h. IsCastFault D.PartialEq.eq (votes_setup s S.Scheme h (vote_round vote).view) (votes_of s h (vote_round vote).view) vote e)) }
        ensures fault { IfErr result (λ e.
            AtEach S.Scheme D.PartialEq.eq self.old (λ s h.
            (vote_round vote).epoch ≡ s.voter.epoch → AgreesWithOwn D.PartialEq.eq (votes_of s h (vote_round vote).view) vote → e ≡ Memory)) }
        ensures err { OnErr result (AtEach S.Scheme D.PartialEq.eq self.old (λ s h. Keeps S.Scheme D.PartialEq.eq s self.new h)) }
    {
        let view = vote.view();
        if !self.is_open_to(view) {
            return Ok(None);
        }
        match self.rounds.cast(self.current, vote) {
            Ok(report) => Ok(report),
            Err(fault) => Err(fault),
        }
    }

    /// Takes a certificate that came or that the record said. The view that is entered by it is entered by `enter`. Of a view that
    /// is below the floor, or has no room, nothing is kept.
    ///
    /// # Errors
    ///
    /// [`BatcherFault::WrongRound`] where it is of another epoch, and [`BatcherFault::Memory`] where memory ran out. Nothing is
    /// changed then.
    pub fn record(&mut self, certificate: &Certificate<S, D>) -> Result<(), BatcherFault>
        ensures came { OnOk result (AtEach S.Scheme D.PartialEq.eq self.old (λ s h.
            HasRoom s.voter.length (certificate_round certificate.now).view
            → KeepsAhead S.Scheme D.PartialEq.eq s self.new h (Came certificate.now))) }
        ensures found { OnOk result (AtEach S.Scheme D.PartialEq.eq self.old (λ s h.
            HasRoom s.voter.length (certificate_round certificate.now).view
            → (taken : Bool)
            → KeepsAhead S.Scheme D.PartialEq.eq s self.new h (Found (certificate_artifact certificate.now) taken))) }
        ensures shut { OnOk result (AtEach S.Scheme D.PartialEq.eq self.old
            (λ s h. IsShut s h (certificate_round certificate.now).view → Keeps S.Scheme D.PartialEq.eq s self.new h)) }
        ensures fault { IfErr result
            (λ e. AtEach S.Scheme D.PartialEq.eq self.old (λ s h. (certificate_round certificate.now).epoch ≡ s.voter.epoch → e ≡ Memory)) }
        ensures err { OnErr result (AtEach S.Scheme D.PartialEq.eq self.old (λ s h. Keeps S.Scheme D.PartialEq.eq s self.new h)) }
    {
        let view = certificate.view();
        if !self.is_open_to(view) {
            return Ok(());
        }
        match self.rounds.certify(self.current, certificate) {
            Ok(()) => Ok(()),
            Err(fault) => Err(fault),
        }
    }

    /// Enters the current view, where it wasn't entered before, and drops what need not be kept any more: behind each point by which
    /// a view may be entered.
    ///
    /// # Errors
    ///
    /// [`AllocError`] where memory ran out. Nothing is changed then.
    pub fn enter(&mut self, current: View, floor: View) -> Result<(), AllocError>
        ensures entered { OnOk result ((s : Setup S D S.Certificate) (h : History S D S.PublicKey S.Signature S.Certificate)
            (p : Point S D S.PublicKey S.Signature S.Certificate)
            → KeepsAhead S.Scheme D.PartialEq.eq s self.old h p
            → may_enter p ≡ true
            → current ≡ current_of s (p ∷ h)
            → floor ≡ floor_of s (p ∷ h)
            → Keeps S.Scheme D.PartialEq.eq s self.new (p ∷ h)) }
        ensures err { OnErr result ((s : Setup S D S.Certificate) (h : History S D S.PublicKey S.Signature S.Certificate)
            (p : Point S D S.PublicKey S.Signature S.Certificate)
            → KeepsAhead S.Scheme D.PartialEq.eq s self.old h p
            → KeepsAhead S.Scheme D.PartialEq.eq s self.new h p) }
    {
        if !self.comes_up(current, floor) {
            self.move_to(current, floor);
            return Ok(());
        }
        self.rounds.open(current, self.current)?;
        self.move_to(current, floor);
        Ok(())
    }

    /// Whether the votes of the current view may come up: it is not below the floor, and has room.
    fn comes_up(&self, current: View, floor: View) -> bool
        ensures { (views : ℕ) → self.now.length ≡ views → IsTrue result ↔ ((floor ≤ current) × HasRoom views current) }
    {
        floor <= current && current.has_room(self.length)
    }

    /// The current view and the floor rose, by which votes are dropped.
    fn move_to(&mut self, current: View, floor: View)
        ensures { (s : Setup S D S.Certificate) (before low : ℕ) (up : ℕ → Stage)
            (happened : ℕ → votes.History S D S.PublicKey S.Signature S.Certificate)
            → IsAt S.Scheme D.PartialEq.eq s self.old before low up happened
            → IsAt S.Scheme D.PartialEq.eq s self.new current floor (up_from floor up) (happened_from floor happened) }
    {
        self.rounds.drop_below(floor);
        self.current = current;
        self.floor = floor;
    }

    /// Names the leader of a view, whose votes wait for it. The same leader again changes nothing.
    ///
    /// # Errors
    ///
    /// [`BatcherFault::OtherLeader`] where another was named, and [`BatcherFault::Memory`] where memory ran out. Nothing is changed
    /// then.
    pub fn lead(&mut self, view: View, leader: Participant) -> Result<(), BatcherFault>
        ensures led { OnOk result (AtEach S.Scheme D.PartialEq.eq self.old (λ s h.
            IsUp (stage s h view) → leader_of (votes_of s h view) ≡ None → Keeps S.Scheme D.PartialEq.eq s self.new (Leads view leader ∷ h))) }
        ensures again { OnOk result
            (AtEach S.Scheme D.PartialEq.eq self.old (λ s h. leader_of (votes_of s h view) ≢ None → Keeps S.Scheme D.PartialEq.eq s self.new h)) }
        ensures fault { IfErr result (λ e. AtEach S.Scheme D.PartialEq.eq self.old (λ s h. leader_of (votes_of s h view) ≡ None → e ≡ Memory)) }
        ensures err { OnErr result (AtEach S.Scheme D.PartialEq.eq self.old (λ s h. Keeps S.Scheme D.PartialEq.eq s self.new h)) }
    {
        match self.rounds.lead(view, leader) {
            Ok(()) => Ok(()),
            Err(fault) => Err(fault),
        }
    }

    /// The first view from this one on whose votes came up and wait for the name of their leader.
    pub fn first_unled(&self, from: View) -> Option<View>
        ensures behind { IfSome result (λ view. from ≤ view) }
        ensures first { AtEach S.Scheme D.PartialEq.eq self.now
            (λ s h. MatchOption result (AreLedFrom (stage s h) (votes_of s h) from) (λ view. IsFirstUnled (stage s h) (votes_of s h) from view)) }
    {
        self.rounds.first_unled(from)
    }

    /// Does what is due first of the votes of all views, and answers of which: forwards their proposal, or makes what it can of a
    /// kind. It looks at those views alone to whose votes something happened since nothing was due of them.
    ///
    /// # Errors
    ///
    /// [`AllocError`] where memory ran out. Nothing is changed then.
    pub fn next_due(&mut self) -> Result<Option<(View, Due<S, D>)>, AllocError>
        ensures done { IfOk result
            (λ due. IfSome due (λ x. AtEach S.Scheme D.PartialEq.eq self.old (λ s h. Does S.Scheme D.PartialEq.eq s h self.new x.0 x.1))) }
        ensures readable { IfOk result (λ due.
            IfSome due (λ x.
            AtEach S.Scheme D.PartialEq.eq self.old (λ s h. CanBeRead S.Certificate.within (S.size s.voter.scheme) (Some x.1)))) }
        ensures none { IfOk result (λ due.
            is_none due ≡ true
            → AtEach S.Scheme D.PartialEq.eq self.old
            (λ s h. NoneIsDue S.Scheme D.PartialEq.eq s h × Keeps S.Scheme D.PartialEq.eq s self.new h)) }
        ensures err { OnErr result (AtEach S.Scheme D.PartialEq.eq self.old (λ s h. Keeps S.Scheme D.PartialEq.eq s self.new h)) }
    {
        match self.rounds.next_due() {
            Ok(due) => Ok(due),
            Err(error) => Err(error),
        }
    }

    /// Whether a nullify of this member was accepted in the view.
    pub fn has_nullify(&self, view: View, signer: Participant) -> bool
        ensures { AtEach S.Scheme D.PartialEq.eq self.now (λ s h. result ≡ has_nullify (votes_of s h view) signer) }
    {
        self.rounds.has_nullify(view, signer)
    }

    /// Whether no notarize and no finalize of this member for the proposal was accepted in the view.
    pub fn is_missing_voter(&self, view: View, proposal: &Proposal<D>, signer: Participant) -> bool
        ensures { AtEach S.Scheme D.PartialEq.eq self.now (λ s h. result ≡ is_missing_voter D.PartialEq.eq (votes_of s h view) proposal.now signer) }
    {
        self.rounds.is_missing_voter(view, proposal, signer)
    }
}
