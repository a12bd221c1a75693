//! The votes of one round.

ghost use Rattle.std.specs.Prelude.{◌≡◌, ◌≢◌, ◌↔◌, ◌<◌, ◌∷◌, [], ◌&&◌, ℕ, List, All, Contains, Bool, true, false, Err, Option, Some, None, find, IsTrue, IfOk, IfErr, IfSome, MatchOption, OnOk, OnErr, is_none, is_some, if◌then◌else◌};
ghost use Rattle.std.specs.Option.{option_copied};
ghost use Rattle.types_quorum.specs.Committee.{quorum};
ghost use Rattle.types_core.specs.declared.attestation.Attestation.{Attestation};
ghost use Rattle.simplex_messages.specs.VoteParts.{vote_round, vote_signer};
ghost use Rattle.messages_certificates.specs.Certificate.{certificate_round, certificate_statement, certified_by};
ghost use Rattle.batcher_verifier.specs.declared.batcher_fault.BatcherFault.TheVariants.{WrongRound, OtherLeader, Contradicts, Memory};
ghost use Rattle.types_terms.specs.declared.kind.Kind.TheVariants.{Notarization};
ghost use Rattle.batcher_verifier.specs.Votes.{vote_kind, certificate_kind};
ghost use Rattle.batcher_verifier.specs.History.{Taken, Cast, Certified, Led, Forwarded, recorded, selected, leader_of, takes, is_kept_in_full, is_complete, forwardable, is_another, next_kind};
ghost use Rattle.batcher_verifier.specs.Lawful.{IsNew, VoteAttests, Allowed};
ghost use Rattle.batcher_verifier.specs.Quorums.{AllCertified};
ghost use Rattle.batcher_admission.specs.Evidence.{as_report, evidence};
ghost use Rattle.simplex_batcher.specs.Admission.{contradicts, IsBlocked, report_of, AgreesWithOwn, IsAdmissionFault, IsCastFault};
ghost use Rattle.batcher_verifier.specs.ConstructionResult.{after, after_construction, kinds_left, HasFailed, IsBatch, IsReadable, IsVoted};
ghost use Rattle.simplex_batcher.specs.Rounds.{RoundKeeps, AtEach};

use crate::votes::{notarized_in, round_of_certificate};
use batcher_admission::{Admission, are_against, copied, refusal, report};
use batcher_assembly::in_turn;
use batcher_verifier::{
    Batch, BatcherFault, Kind, Verifier, batches_rest_on_accepted_votes, constructions_end,
    forwarding_changes_no_votes, kind_of, kind_of_certificate, no_quorum_is_lost, round_of,
    what_is_due_has_no_certificate, what_is_new_may_be_added,
};
use simplex_messages::{Activity, Certificate, Vote};
use std::alloc::{AllocError, Global};
use std::rc::Rc;
use types_core::{Attributable, Digest, Participant, Proposal, Round as Rnd, Scheme};

mod queries;

/// The votes of one round, on their way to certificates.
#[derive(Drop)]
pub struct Round<S: Scheme<D>, D: Digest> {
    tracks: bool,
    forwarded: bool,
    verifier: Verifier<S, D>,
}

impl<S: Scheme<D>, D: Digest> Round<S, D> {
    /// A round in which nothing happened. With `track_historical_votes` votes are kept in full also when their kind is
    /// certified.
    pub fn new(alloc: Global, round: Rnd, scheme: Rc<S>, track_historical_votes: bool) -> Self
        ensures { RoundKeeps D.PartialEq.eq S.Scheme S.batchable (record
            { round = round; scheme = scheme.value; members = S.size scheme.value; needed = quorum (S.size scheme.value); batchable = S.batchable scheme.value; tracks = track_historical_votes; is_skipped = false })
            result [] }
    {
        Round {
            tracks: track_historical_votes,
            forwarded: false,
            verifier: Verifier::open(alloc, round, scheme, 0, false),
        }
    }

    /// A round that is passed over: it keeps no vote in full, and makes no certificate.
    pub fn skipped(alloc: Global, round: Rnd, scheme: Rc<S>) -> Self
        ensures { RoundKeeps D.PartialEq.eq S.Scheme S.batchable (record
            { round = round; scheme = scheme.value; members = S.size scheme.value; needed = quorum (S.size scheme.value); batchable = S.batchable scheme.value; tracks = false; is_skipped = true })
            result [] }
    {
        Round {
            tracks: false,
            forwarded: false,
            verifier: Verifier::open(alloc, round, scheme, 0, true),
        }
    }

    /// Whether a certificate of this kind was recorded or made.
    pub fn has_certificate(&self, kind: Kind) -> bool
        ensures { AtEach D.PartialEq.eq S.Scheme S.batchable self.now (λ s h. result ≡ is_complete kind h) }
    {
        self.verifier.has_certificate(kind)
    }

    /// Whether the vote is of this round.
    pub fn belongs(&self, vote: &Vote<S, D>) -> bool
        ensures { AtEach D.PartialEq.eq S.Scheme S.batchable self.now (λ s h. IsTrue result ↔ (vote_round vote.now ≡ s.round)) }
    {
        round_of(vote) == self.verifier.round()
    }

    /// Whether the certificate is of this round.
    pub fn belongs_certificate(&self, certificate: &Certificate<S, D>) -> bool
        ensures { AtEach D.PartialEq.eq S.Scheme S.batchable self.now (λ s h. IsTrue result ↔ (certificate_round certificate.now ≡ s.round)) }
    {
        round_of_certificate(certificate) == self.verifier.round()
    }

    /// Whether votes of this kind are kept in full.
    fn is_kept_in_full(&self, kind: Kind) -> bool
        ensures { AtEach D.PartialEq.eq S.Scheme S.batchable self.now (λ s h. result ≡ is_kept_in_full s kind h) }
    {
        !self.verifier.is_skipped() && (self.tracks || !self.has_certificate(kind))
    }

    /// What is answered to a vote from the network that is not accepted; nothing where it is accepted.
    fn refusal(&self, sender: Participant, vote: &Vote<S, D>) -> Option<Admission<S, D>>
        ensures takes { AtEach D.PartialEq.eq S.Scheme S.batchable self.now (λ s h. is_none result ≡ takes s h sender vote.now) }
        ensures added { IfSome result (λ a. a.added ≡ false) }
        ensures block { IfSome result
            (λ a. AtEach D.PartialEq.eq S.Scheme S.batchable self.now (λ s h. IsTrue a.block ↔ IsBlocked s h sender vote.now)) }
        ensures report { IfSome result
            (λ a. AtEach D.PartialEq.eq S.Scheme S.batchable self.now (λ s h. a.report ≡ report_of D.PartialEq.eq s h sender vote.now)) }
    {
        let recorded = self.verifier.recorded(vote);
        let in_full = self.holds_in_full(recorded);
        refusal(
            self.verifier.participants(),
            sender,
            vote,
            recorded,
            in_full,
        )
    }

    /// Whether the recorded vote, if there is one, is kept in full.
    fn holds_in_full(&self, recorded: Option<&Vote<S, D>>) -> bool
        ensures { AtEach D.PartialEq.eq S.Scheme S.batchable self.now
            (λ s h. IfSome (option_copied recorded.entry) (λ u. result ≡ is_kept_in_full s (vote_kind u) h)) }
    {
        match recorded {
            Some(recorded) => self.is_kept_in_full(kind_of(recorded)),
            None => false,
        }
    }

    /// Takes a vote from the network. Its sender is blocked where it names another, or where the vote offends one that was
    /// accepted.
    ///
    /// # Errors
    ///
    /// [`BatcherFault::WrongRound`] where the vote is of another round, and [`BatcherFault::Memory`] where memory ran out.
    /// Nothing is changed then.
    pub fn add_network(
        &mut self,
        sender: Participant,
        vote: Vote<S, D>,
    ) -> Result<Admission<S, D>, BatcherFault>
        ensures foreign { AtEach D.PartialEq.eq S.Scheme S.batchable self.old (λ s h. vote_round vote ≢ s.round → (result ≡ Err WrongRound)) }
        ensures refused { IfErr result (λ e. AtEach D.PartialEq.eq S.Scheme S.batchable self.old (λ s h. IsAdmissionFault s vote e)) }
        ensures ours { IfOk result (λ a. AtEach D.PartialEq.eq S.Scheme S.batchable self.old (λ s h. vote_round vote ≡ s.round)) }
        ensures added { IfOk result (λ a. AtEach D.PartialEq.eq S.Scheme S.batchable self.old (λ s h. a.added ≡ takes s h sender vote)) }
        ensures block { IfOk result (λ a. AtEach D.PartialEq.eq S.Scheme S.batchable self.old (λ s h. IsTrue a.block ↔ IsBlocked s h sender vote)) }
        ensures report { IfOk result
            (λ a. AtEach D.PartialEq.eq S.Scheme S.batchable self.old (λ s h. a.report ≡ report_of D.PartialEq.eq s h sender vote)) }
        ensures ok { OnOk result (AtEach D.PartialEq.eq S.Scheme S.batchable self.old
            (λ s h. RoundKeeps D.PartialEq.eq S.Scheme S.batchable s self.new (if takes s h sender vote then Taken vote ∷ h else h))) }
        ensures err { OnErr result
            (AtEach D.PartialEq.eq S.Scheme S.batchable self.old (λ s h. RoundKeeps D.PartialEq.eq S.Scheme S.batchable s self.new h)) }
    {
        if !self.belongs(&vote) {
            return Err(BatcherFault::WrongRound);
        }
        if let Some(admission) = self.refusal(sender, &vote) {
            return Ok(admission);
        }
        self.put(&vote, false)?;
        Ok(Admission {
            added: true,
            block: false,
            report: Some(report(&vote)),
        })
    }

    /// Puts down a vote that nothing stands in the way of.
    fn put(&mut self, vote: &Vote<S, D>, own: bool) -> Result<(), AllocError>
        ensures taken { OnOk result (AtEach D.PartialEq.eq S.Scheme S.batchable self.old (λ s h.
            own ≡ false
            → vote_signer vote.now < s.members
            → IsNew s h vote.now
            → RoundKeeps D.PartialEq.eq S.Scheme S.batchable s self.new (Taken vote.now ∷ h))) }
        ensures cast { OnOk result (AtEach D.PartialEq.eq S.Scheme S.batchable self.old (λ s h.
            own ≡ true
            → vote_signer vote.now < s.members
            → IsNew s h vote.now
            → VoteAttests S.attests s vote.now
            → RoundKeeps D.PartialEq.eq S.Scheme S.batchable s self.new (Cast vote.now ∷ h))) }
        ensures err { OnErr result
            (AtEach D.PartialEq.eq S.Scheme S.batchable self.old (λ s h. RoundKeeps D.PartialEq.eq S.Scheme S.batchable s self.new h)) }
    {
        what_is_new_may_be_added::<S, D>();
        let _ = self.verifier.add(copied(vote), own)?;
        Ok(())
    }

    /// Takes an own vote, which attests: its report where it is new, and nothing where one of its kind, or of nullify
    /// and finalize the other, was given before; then nothing is changed, also where it does not attest. An own vote of
    /// a member that never contradicts itself is refused for want of memory alone.
    ///
    /// # Errors
    ///
    /// [`BatcherFault::WrongRound`] where it is of another round, [`BatcherFault::Contradicts`] where it contradicts a
    /// recorded vote, and [`BatcherFault::Memory`] where memory ran out. Nothing is changed then.
    pub fn accept_vote(&mut self, vote: Vote<S, D>) -> Result<Option<Activity<S, D>>, BatcherFault>
        ensures foreign { AtEach D.PartialEq.eq S.Scheme S.batchable self.old (λ s h. vote_round vote ≢ s.round → (result ≡ Err WrongRound)) }
        ensures against { AtEach D.PartialEq.eq S.Scheme S.batchable self.old
            (λ s h. vote_round vote ≡ s.round → contradicts D.PartialEq.eq h vote ≡ true → (result ≡ Err Contradicts)) }
        ensures refused { IfErr result (λ e. AtEach D.PartialEq.eq S.Scheme S.batchable self.old (λ s h. IsCastFault D.PartialEq.eq s h vote e)) }
        ensures own { IfErr result (λ e.
            AtEach D.PartialEq.eq S.Scheme S.batchable self.old
            (λ s h. vote_round vote ≡ s.round → AgreesWithOwn D.PartialEq.eq h vote → e ≡ Memory)) }
        ensures ours { IfOk result (λ report. AtEach D.PartialEq.eq S.Scheme S.batchable self.old (λ s h. vote_round vote ≡ s.round)) }
        ensures agrees { IfOk result
            (λ report. AtEach D.PartialEq.eq S.Scheme S.batchable self.old (λ s h. contradicts D.PartialEq.eq h vote ≡ false)) }
        ensures report { IfOk result (λ report.
            AtEach D.PartialEq.eq S.Scheme S.batchable self.old
            (λ s h. report ≡ (if is_none (recorded h vote) then Some (as_report vote) else None))) }
        ensures ok { OnOk result (AtEach D.PartialEq.eq S.Scheme S.batchable self.old (λ s h.
            VoteAttests S.attests s vote
            → RoundKeeps D.PartialEq.eq S.Scheme S.batchable s self.new (if is_none (recorded h vote) then Cast vote ∷ h else h))) }
        ensures again { OnOk result (AtEach D.PartialEq.eq S.Scheme S.batchable self.old
            (λ s h. is_none (recorded h vote) ≡ false → RoundKeeps D.PartialEq.eq S.Scheme S.batchable s self.new h)) }
        ensures err { OnErr result
            (AtEach D.PartialEq.eq S.Scheme S.batchable self.old (λ s h. RoundKeeps D.PartialEq.eq S.Scheme S.batchable s self.new h)) }
    {
        if !self.belongs(&vote) {
            return Err(BatcherFault::WrongRound);
        }
        if let Some(recorded) = self.verifier.recorded(&vote) {
            if are_against(recorded, &vote) {
                return Err(BatcherFault::Contradicts);
            }
            return Ok(None);
        }
        self.put(&vote, true)?;
        Ok(Some(report(&vote)))
    }

    /// Records a certificate: whether it is a notarization that selects a new proposal.
    ///
    /// # Errors
    ///
    /// [`BatcherFault::WrongRound`] where it is of another round. Nothing is changed then.
    pub fn record_certificate(
        &mut self,
        certificate: &Certificate<S, D>,
    ) -> Result<bool, BatcherFault>
        ensures foreign { AtEach D.PartialEq.eq S.Scheme S.batchable self.old
            (λ s h. certificate_round certificate.now ≢ s.round → (result ≡ Err WrongRound)) }
        ensures refused { IfErr result
            (λ e. AtEach D.PartialEq.eq S.Scheme S.batchable self.old (λ s h. (certificate_round certificate.now ≢ s.round) × (e ≡ WrongRound))) }
        ensures ours { IfOk result
            (λ selects. AtEach D.PartialEq.eq S.Scheme S.batchable self.old (λ s h. certificate_round certificate.now ≡ s.round)) }
        ensures selects { IfOk result (λ selects.
            AtEach D.PartialEq.eq S.Scheme S.batchable self.old (λ s h.
            IsTrue selects ↔ ((certificate_kind certificate.now ≡ Notarization) × (selected (Certified certificate.now ∷ h) ≢ selected h)))) }
        ensures ok { OnOk result (AtEach D.PartialEq.eq S.Scheme S.batchable self.old
            (λ s h. RoundKeeps D.PartialEq.eq S.Scheme S.batchable s self.new (Certified certificate.now ∷ h))) }
        ensures err { OnErr result
            (AtEach D.PartialEq.eq S.Scheme S.batchable self.old (λ s h. RoundKeeps D.PartialEq.eq S.Scheme S.batchable s self.new h)) }
    {
        if !self.belongs_certificate(certificate) {
            return Err(BatcherFault::WrongRound);
        }
        let changed = self.verifier.record(certificate);
        Ok(changed && kind_of_certificate(certificate) == Kind::Notarization)
    }

    /// Names the leader. The same leader again changes nothing.
    ///
    /// # Errors
    ///
    /// [`BatcherFault::OtherLeader`] where another was named before. Nothing is changed then.
    pub fn set_leader(&mut self, leader: Participant) -> Result<(), BatcherFault>
        ensures other { AtEach D.PartialEq.eq S.Scheme S.batchable self.old
            (λ s h. IfSome (leader_of h) (λ known. known ≢ leader → (result ≡ Err OtherLeader))) }
        ensures refused { IfErr result (λ e.
            AtEach D.PartialEq.eq S.Scheme S.batchable self.old
            (λ s h. (e ≡ OtherLeader) × MatchOption (leader_of h) ⊥ (λ known. known ≢ leader))) }
        ensures named { IfOk result
            (λ _. AtEach D.PartialEq.eq S.Scheme S.batchable self.old (λ s h. IfSome (leader_of h) (λ known. known ≡ leader))) }
        ensures ok { OnOk result (AtEach D.PartialEq.eq S.Scheme S.batchable self.old
            (λ s h. RoundKeeps D.PartialEq.eq S.Scheme S.batchable s self.new (if is_none (leader_of h) then Led leader ∷ h else h))) }
        ensures err { OnErr result
            (AtEach D.PartialEq.eq S.Scheme S.batchable self.old (λ s h. RoundKeeps D.PartialEq.eq S.Scheme S.batchable s self.new h)) }
    {
        let led = notarized_in(self.verifier.vote_of(leader, true));
        match self.verifier.lead(leader, led) {
            Ok(()) => Ok(()),
            Err(fault) => Err(fault),
        }
    }

    /// Makes a certificate, or judges the votes that wait, of the first kind of which one of the two is due:
    /// notarization, nullification, finalization. A certificate is the first of its kind, is of the round, certifies
    /// what it states, can be read again in the committee, and lists attestations alone of accepted votes that state
    /// the same. Of each signer that is called invalid a vote was accepted that does not attest what it states. Where
    /// nothing is due, each kind with a valid quorum has its certificate. Where something was, a later kind is due, or
    /// none: three calls one after the other are enough. After an `Err` the call counts as not made.
    pub fn try_construct(
        &mut self,
        alloc: Global,
    ) -> Result<Option<Batch<Certificate<S, D>>>, AllocError>
        ensures none { IfOk result
            (λ made. AtEach D.PartialEq.eq S.Scheme S.batchable self.old (λ s h. is_none made ≡ is_none (next_kind D.PartialEq.eq s h))) }
        ensures batch { IfOk result (λ made.
            IfSome made (λ batch.
            AtEach D.PartialEq.eq S.Scheme S.batchable self.old
            (λ s h. MatchOption (next_kind D.PartialEq.eq s h) ⊥ (λ kind. IsBatch S.Scheme D.PartialEq.eq s kind h batch)))) }
        ensures kind { IfOk result (λ made.
            IfSome made (λ batch.
            AtEach D.PartialEq.eq S.Scheme S.batchable self.old
            (λ s h. IfSome batch.certificate (λ c. next_kind D.PartialEq.eq s h ≡ Some (certificate_kind c))))) }
        ensures round { IfOk result (λ made.
            IfSome made (λ batch.
            AtEach D.PartialEq.eq S.Scheme S.batchable self.old (λ s h. IfSome batch.certificate (λ c. certificate_round c ≡ s.round)))) }
        ensures certifies { IfOk result (λ made.
            IfSome made (λ batch.
            AtEach D.PartialEq.eq S.Scheme S.batchable self.old
            (λ s h. IfSome batch.certificate (λ c. S.certifies s.scheme (certificate_statement c) (certified_by c))))) }
        ensures readable { IfOk result (λ made.
            IfSome made (λ batch.
            AtEach D.PartialEq.eq S.Scheme S.batchable self.old (λ s h. IfSome batch.certificate (IsReadable S.Certificate.within s.members)))) }
        ensures listed { IfOk result (λ made.
            IfSome made (λ batch.
            AtEach D.PartialEq.eq S.Scheme S.batchable self.old (λ s h.
            IfSome batch.certificate (λ c.
            (a : Attestation S.Signature) → Contains (S.lists (certified_by c)) a → IsVoted (certificate_kind c) h (certificate_statement c) a)))) }
        ensures invalid { IfOk result (λ made.
            IfSome made (λ batch.
            AtEach D.PartialEq.eq S.Scheme S.batchable self.old
            (λ s h. MatchOption (next_kind D.PartialEq.eq s h) ⊥ (λ kind. All (HasFailed S.attests s kind h) batch.invalid.items)))) }
        ensures fresh { IfOk result (λ made.
            IfSome made (λ batch.
            AtEach D.PartialEq.eq S.Scheme S.batchable self.old
            (λ s h. MatchOption (next_kind D.PartialEq.eq s h) ⊥ (λ kind. is_complete kind h ≡ false)))) }
        ensures certified { IfOk result (λ made.
            made ≡ None → AtEach D.PartialEq.eq S.Scheme S.batchable self.old (λ s h. s.is_skipped ≡ false → AllCertified S.attests s h)) }
        ensures last { IfOk result (λ made.
            AtEach D.PartialEq.eq S.Scheme S.batchable self.old (λ s h.
            let later = after_construction (next_kind D.PartialEq.eq s h) made h in s.is_skipped ≡ false
            → next_kind D.PartialEq.eq s later ≡ None
            → AllCertified S.attests s later)) }
        ensures fewer { IfOk result (λ made.
            AtEach D.PartialEq.eq S.Scheme S.batchable self.old (λ s h.
            is_some made ≡ true
            → kinds_left (next_kind D.PartialEq.eq s (after_construction (next_kind D.PartialEq.eq s h) made h)) < kinds_left
            (next_kind D.PartialEq.eq s h))) }
        ensures ok { IfOk result (λ made.
            AtEach D.PartialEq.eq S.Scheme S.batchable self.old
            (λ s h. RoundKeeps D.PartialEq.eq S.Scheme S.batchable s self.new (after_construction (next_kind D.PartialEq.eq s h) made h))) }
        ensures err { OnErr result
            (AtEach D.PartialEq.eq S.Scheme S.batchable self.old (λ s h. RoundKeeps D.PartialEq.eq S.Scheme S.batchable s self.new h)) }
    {
        no_quorum_is_lost::<S, D>();
        constructions_end::<S, D>();
        batches_rest_on_accepted_votes::<S, D>();
        what_is_due_has_no_certificate::<S, D>();
        let made = self.construct_first(alloc)?;
        Ok(made)
    }

    /// Makes what is due first.
    fn construct_first(
        &mut self,
        alloc: Global,
    ) -> Result<Option<Batch<Certificate<S, D>>>, AllocError>
        ensures none { IfOk result
            (λ made. AtEach D.PartialEq.eq S.Scheme S.batchable self.old (λ s h. is_none made ≡ is_none (next_kind D.PartialEq.eq s h))) }
        ensures batch { IfOk result (λ made.
            IfSome made (λ batch.
            AtEach D.PartialEq.eq S.Scheme S.batchable self.old
            (λ s h. MatchOption (next_kind D.PartialEq.eq s h) ⊥ (λ kind. IsBatch S.Scheme D.PartialEq.eq s kind h batch)))) }
        ensures readable { IfOk result (λ made.
            IfSome made (λ batch.
            AtEach D.PartialEq.eq S.Scheme S.batchable self.old (λ s h. IfSome batch.certificate (IsReadable S.Certificate.within s.members)))) }
        ensures ok { IfOk result (λ made.
            AtEach D.PartialEq.eq S.Scheme S.batchable self.old (λ s h.
            MatchOption (next_kind D.PartialEq.eq s h) (RoundKeeps D.PartialEq.eq S.Scheme S.batchable s self.new h)
            (λ kind. RoundKeeps D.PartialEq.eq S.Scheme S.batchable s self.new (after kind made h)))) }
        ensures err { OnErr result
            (AtEach D.PartialEq.eq S.Scheme S.batchable self.old (λ s h. RoundKeeps D.PartialEq.eq S.Scheme S.batchable s self.new h)) }
    {
        for kind in in_turn() {
            if let Some(batch) = self.verifier.construct(alloc, kind)? {
                return Ok(Some(batch));
            }
        }
        Ok(None)
    }

    /// The selected proposal, once in the round's life, where the leader is named and is another than this member.
    pub fn try_forward_proposal(&mut self, me: Participant) -> Option<Proposal<D>>
        ensures exact { AtEach D.PartialEq.eq S.Scheme S.batchable self.old (λ s h. result ≡ forwardable h me) }
        ensures keeps { AtEach D.PartialEq.eq S.Scheme S.batchable self.old
            (λ s h. RoundKeeps D.PartialEq.eq S.Scheme S.batchable s self.new (if is_some (forwardable h me) then Forwarded ∷ h else h)) }
    {
        match self.forwardable(me) {
            Some(proposal) => {
                forwarding_changes_no_votes::<S, D>();
                self.forwarded = true;
                Some(proposal)
            }
            None => None,
        }
    }

    /// The proposal that is to be forwarded.
    fn forwardable(&self, me: Participant) -> Option<Proposal<D>>
        ensures { AtEach D.PartialEq.eq S.Scheme S.batchable self.now (λ s h. result ≡ forwardable h me) }
    {
        if self.forwarded || !self.is_led_by_another(me) {
            return None;
        }
        match self.verifier.proposal() {
            Some(proposal) => Some(*proposal),
            None => None,
        }
    }

    /// Whether the leader is named, and is another than this member.
    fn is_led_by_another(&self, me: Participant) -> bool
        ensures { AtEach D.PartialEq.eq S.Scheme S.batchable self.now (λ s h. result ≡ is_another (leader_of h) me) }
    {
        match self.verifier.leader() {
            Some(leader) => leader != me,
            None => false,
        }
    }
}
