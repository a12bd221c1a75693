//! The votes of one round that count for certificates.

ghost use Rattle.std.specs.Prelude.{◌≡◌, ◌<◌, All, find, ◌↔◌, ◌++◌, ◌∷◌, ◌≤◌, [], ◌&&◌, ◌||◌, ℕ, List, Bool, not, filter, length, Option, Some, None, IsTrue, IfOk, IfErr, IfSome, Err, ◌≢◌, OnOk, OnErr, MatchOption, if◌then◌else◌, is_some, nat_le, max, true, false};
ghost use Rattle.std.specs.Option.{option_copied, option_map, option_or};
ghost use Rattle.batcher_verifier.specs.declared.batcher_fault.BatcherFault.TheVariants.{OtherLeader};
ghost use Rattle.types_quorum.specs.Committee.{quorum};
ghost use Rattle.messages_certificates.specs.Certificate.{certificate_round};
ghost use Rattle.batcher_verifier.specs.Votes.{is_of, vote_kind, fixed_proposal};
ghost use Rattle.batcher_verifier.specs.History.{accepted, recorded, Taken, Cast, Certified, Led, History, Setup, select, proposal_of, selected, selection, leader_of, led, notarized_by, context, waiting, verified, is_candidate, is_complete, is_ready, is_due, next_kind};
ghost use Rattle.batcher_verifier.specs.Lawful.{MayBeAdded, MayHappen, VoteAttests};
ghost use Rattle.simplex_messages.specs.VoteParts.{vote_round, vote_signer};
ghost use Rattle.batcher_rows.specs.Rows.{tally_at};
ghost use Rattle.batcher_verifier.specs.Keeping.{VerifierKeeps, AtEachOf, selection_of, IsChosen, held_by, led_by};

use crate::batcher_fault::BatcherFault;
use crate::certificate_kinds::{fixed_by, kind_of_certificate, proposal_of_certificate};
use crate::proposal_state::ProposalState;
use crate::vote_round::round_of;
use batcher_rows::{Rows, is_for, kind_of};
use simplex_messages::{Certificate, Notarize, Vote};
use std::alloc::{AllocError, Global};
use std::rc::Rc;
use types_core::{Attributable, Digest, Participant, Proposal, Round, Scheme, quorum};
use types_terms::Kind;

mod construction;

/// The votes of one round that count for certificates.
#[derive(Drop)]
pub struct Verifier<S: Scheme<D>, D: Digest> {
    round: Round,
    scheme: Rc<S>,
    needed: u32,
    skipped: bool,
    leader: Option<Participant>,
    proposal: ProposalState<D>,
    rows: Rows<S, D>,
}

impl<S: Scheme<D>, D: Digest> Verifier<S, D> {
    /// A verifier that knows of no vote. It makes certificates of so many votes, and never of fewer than a quorum.
    pub fn new(alloc: Global, round: Round, scheme: Rc<S>, needed: u32) -> Self
        ensures { VerifierKeeps D.PartialEq.eq S.Scheme S.batchable (record
            { round = round; scheme = scheme.value; members = S.size scheme.value; needed = max needed (quorum (S.size scheme.value)); batchable = S.batchable scheme.value; tracks = false; is_skipped = false })
            result [] }
    {
        Self::open(alloc, round, scheme, needed, false)
    }

    /// A verifier that knows of no vote, and makes certificates or none.
    pub fn open(alloc: Global, round: Round, scheme: Rc<S>, needed: u32, skipped: bool) -> Self
        ensures { (tracks : Bool)
            → VerifierKeeps D.PartialEq.eq S.Scheme S.batchable (record
            { round = round; scheme = scheme.value; members = S.size scheme.value; needed = max needed (quorum (S.size scheme.value)); batchable = S.batchable scheme.value; tracks = tracks; is_skipped = skipped })
            result [] }
    {
        let members = scheme.participants();
        let needed = needed.max(quorum(members));
        Verifier {
            round,
            scheme,
            needed,
            skipped,
            leader: None,
            proposal: ProposalState::Unknown,
            rows: Rows::new(alloc, members),
        }
    }

    /// The round.
    pub const fn round(&self) -> Round
        ensures { AtEachOf D.PartialEq.eq S.Scheme S.batchable self.now (λ s h. result ≡ s.round) }
    {
        self.round
    }

    /// How many members the committee has.
    pub fn participants(&self) -> u32
        ensures { AtEachOf D.PartialEq.eq S.Scheme S.batchable self.now (λ s h. result ≡ s.members) }
    {
        self.scheme.participants()
    }

    /// Whether no certificate is made.
    pub const fn is_skipped(&self) -> bool
        ensures { AtEachOf D.PartialEq.eq S.Scheme S.batchable self.now (λ s h. result ≡ s.is_skipped) }
    {
        self.skipped
    }

    /// The leader, where it is named.
    pub fn leader(&self) -> Option<Participant>
        ensures { AtEachOf D.PartialEq.eq S.Scheme S.batchable self.now (λ s h. result ≡ leader_of h) }
    {
        self.leader
    }

    /// The selected proposal.
    pub fn proposal(&self) -> Option<&Proposal<D>>
        ensures selected { AtEachOf D.PartialEq.eq S.Scheme S.batchable self.now (λ s h. option_copied result ≡ selected h) }
        ensures held { option_copied result ≡ held_by self.now }
    {
        self.proposal.proposal()
    }

    /// This signer's newest notarize, or its newest nullify or finalize, where members alone voted.
    pub fn vote_of(&self, signer: Participant, notarize: bool) -> Option<&Vote<S, D>>
        ensures { AtEachOf D.PartialEq.eq S.Scheme S.batchable self.now
            (λ s h. All (λ v. vote_signer v < s.members) (accepted h) → option_copied result ≡ find (is_of notarize signer) (accepted h)) }
    {
        self.rows.vote_of(signer, notarize)
    }

    /// The accepted vote that stands in the way of this one, where members alone voted.
    pub fn recorded(&self, vote: &Vote<S, D>) -> Option<&Vote<S, D>>
        ensures { AtEachOf D.PartialEq.eq S.Scheme S.batchable self.now
            (λ s h. All (λ v. vote_signer v < s.members) (accepted h) → option_copied result ≡ recorded h vote.now) }
    {
        match vote {
            Vote::Notarize(vote) => self.vote_of(vote.attestation.signer, true),
            Vote::Nullify(vote) => self.vote_of(vote.attestation.signer, false),
            Vote::Finalize(vote) => self.vote_of(vote.attestation.signer, false),
        }
    }

    /// Whether a certificate of this kind was recorded or made.
    pub fn has_certificate(&self, kind: Kind) -> bool
        ensures { AtEachOf D.PartialEq.eq S.Scheme S.batchable self.now (λ s h. result ≡ is_complete kind h) }
    {
        self.rows.tally(kind).complete
    }

    /// The leader's proposal, where the vote is the leader's notarize.
    fn led_by(&self, vote: &Vote<S, D>) -> Option<Proposal<D>>
        ensures { result ≡ led_by self.now.leader vote.now }
    {
        let Vote::Notarize(notarize) = vote else {
            return None;
        };
        match self.leader {
            Some(leader) => {
                if leader == notarize.attestation.signer {
                    Some(notarize.proposal)
                } else {
                    None
                }
            }
            None => None,
        }
    }

    /// Whether the vote counts for a certificate, where this is selected.
    fn counts(&self, next: &ProposalState<D>, vote: &Vote<S, D>) -> bool
        ensures { result ≡ (not (self.now.skipped || (tally_at (vote_kind vote.now) self.now.rows).complete) && is_candidate D.PartialEq.eq
            (proposal_of (selection_of next.now)) vote.now) }
    {
        if self.skipped || self.rows.tally(kind_of(vote)).complete {
            return false;
        }
        match next.proposal() {
            Some(proposal) => is_for(vote, proposal),
            None => true,
        }
    }

    /// Selects, and drops the votes for other proposals where another is selected: whether it is.
    fn choose(&mut self, next: ProposalState<D>) -> bool
        ensures chosen { IsChosen D.PartialEq.eq next self.old self.new }
        ensures changed { IsTrue result ↔ (proposal_of (selection_of next) ≢ proposal_of (selection_of self.old.proposal)) }
    {
        let stays = next.selects_as(&self.proposal);
        self.proposal = next;
        if stays {
            return false;
        }
        match self.proposal.proposal() {
            Some(proposal) => {
                self.rows.retain_for(proposal);
                true
            }
            None => true,
        }
    }

    /// Adds a vote, one that is known to attest or one that waits to be judged: whether it was added. It is exactly where
    /// it is of the round, and no vote of its signer waits or is known to attest that stands in its way: of its kind or,
    /// of nullify and finalize, of either. Else, and after an `Err`, nothing is changed.
    pub fn add(&mut self, vote: Vote<S, D>, verified: bool) -> Result<bool, AllocError>
        ensures added { IfOk result (λ added.
            AtEachOf D.PartialEq.eq S.Scheme S.batchable self.old (λ s h. IsTrue added ↔ MayBeAdded D.PartialEq.eq s h vote)) }
        ensures waits { IfOk result (λ added.
            AtEachOf D.PartialEq.eq S.Scheme S.batchable self.old (λ s h.
            added ≡ true
            → verified ≡ false
            → VerifierKeeps D.PartialEq.eq S.Scheme S.batchable s self.new (Taken vote ∷ h))) }
        ensures verified { IfOk result (λ added.
            AtEachOf D.PartialEq.eq S.Scheme S.batchable self.old (λ s h.
            added ≡ true
            → verified ≡ true
            → VoteAttests S.attests s vote
            → VerifierKeeps D.PartialEq.eq S.Scheme S.batchable s self.new (Cast vote ∷ h))) }
        ensures refused { IfOk result (λ added. added ≡ false → self.new ≡ self.old) }
        ensures err { OnErr result
            (AtEachOf D.PartialEq.eq S.Scheme S.batchable self.old (λ s h. VerifierKeeps D.PartialEq.eq S.Scheme S.batchable s self.new h)) }
    {
        if !self.may_add(&vote) {
            return Ok(false);
        }
        self.put(vote, verified)?;
        Ok(true)
    }

    /// Whether a vote may be added.
    fn may_add(&self, vote: &Vote<S, D>) -> bool
        ensures { AtEachOf D.PartialEq.eq S.Scheme S.batchable self.now (λ s h. IsTrue result ↔ MayBeAdded D.PartialEq.eq s h vote.now) }
    {
        if !self.is_ours(vote) {
            return false;
        }
        !self.rows.has_in_way(vote)
    }

    /// Whether the vote is of the round.
    fn is_ours(&self, vote: &Vote<S, D>) -> bool
        ensures { AtEachOf D.PartialEq.eq S.Scheme S.batchable self.now (λ s h. IsTrue result ↔ (vote_round vote.now ≡ s.round)) }
    {
        round_of(vote) == self.round()
    }

    /// Adds a vote that may be added.
    fn put(&mut self, vote: Vote<S, D>, verified: bool) -> Result<(), AllocError>
        ensures waits { OnOk result (AtEachOf D.PartialEq.eq S.Scheme S.batchable self.old (λ s h.
            verified ≡ false
            → MayHappen D.PartialEq.eq S.attests s h (Taken vote)
            → VerifierKeeps D.PartialEq.eq S.Scheme S.batchable s self.new (Taken vote ∷ h))) }
        ensures verified { OnOk result (AtEachOf D.PartialEq.eq S.Scheme S.batchable self.old (λ s h.
            verified ≡ true
            → MayHappen D.PartialEq.eq S.attests s h (Cast vote)
            → VerifierKeeps D.PartialEq.eq S.Scheme S.batchable s self.new (Cast vote ∷ h))) }
        ensures err { OnErr result
            (AtEachOf D.PartialEq.eq S.Scheme S.batchable self.old (λ s h. VerifierKeeps D.PartialEq.eq S.Scheme S.batchable s self.new h)) }
    {
        if !self.may_select(&vote, verified) {
            self.hold(vote, verified)?;
            return Ok(());
        }
        let next = self
            .proposal
            .select(fixed_by(&vote, verified), self.led_by(&vote));
        let held = self.counts(&next, &vote);
        self.rows.put(vote, verified, held)?;
        let _changed = self.choose(next);
        Ok(())
    }

    /// Whether the vote fixes a proposal, or is the leader's notarize.
    fn may_select(&self, vote: &Vote<S, D>, verified: bool) -> bool
        ensures { result ≡ (is_some (if verified then fixed_proposal vote.now else None) || is_some (led_by self.now.leader vote.now)) }
    {
        fixed_by(vote, verified).is_some() || self.led_by(vote).is_some()
    }

    /// Adds a vote that fixes no proposal, and isn't the leader's notarize.
    fn hold(&mut self, vote: Vote<S, D>, verified: bool) -> Result<(), AllocError>
        ensures waits { OnOk result (AtEachOf D.PartialEq.eq S.Scheme S.batchable self.old (λ s h.
            verified ≡ false
            → led_by self.old.leader vote ≡ None
            → MayHappen D.PartialEq.eq S.attests s h (Taken vote)
            → VerifierKeeps D.PartialEq.eq S.Scheme S.batchable s self.new (Taken vote ∷ h))) }
        ensures verified { OnOk result (AtEachOf D.PartialEq.eq S.Scheme S.batchable self.old (λ s h.
            verified ≡ true
            → fixed_proposal vote ≡ None
            → led_by self.old.leader vote ≡ None
            → MayHappen D.PartialEq.eq S.attests s h (Cast vote)
            → VerifierKeeps D.PartialEq.eq S.Scheme S.batchable s self.new (Cast vote ∷ h))) }
        ensures err { OnErr result
            (AtEachOf D.PartialEq.eq S.Scheme S.batchable self.old (λ s h. VerifierKeeps D.PartialEq.eq S.Scheme S.batchable s self.new h)) }
    {
        let held = self.counts(&self.proposal, &vote);
        self.rows.put(vote, verified, held)?;
        Ok(())
    }

    /// Records a certificate: whether another proposal is selected.
    pub fn record(&mut self, certificate: &Certificate<S, D>) -> bool
        ensures changed { AtEachOf D.PartialEq.eq S.Scheme S.batchable self.old
            (λ s h. IsTrue result ↔ (selected (Certified certificate.now ∷ h) ≢ selected h)) }
        ensures keeps { AtEachOf D.PartialEq.eq S.Scheme S.batchable self.old (λ s h.
            certificate_round certificate.now ≡ s.round
            → VerifierKeeps D.PartialEq.eq S.Scheme S.batchable s self.new (Certified certificate.now ∷ h)) }
    {
        let next = self
            .proposal
            .select(proposal_of_certificate(certificate), None);
        self.rows.finish(kind_of_certificate(certificate));
        self.choose(next)
    }

    /// Names the leader, with its notarize where one was added, of two the later. Where a proposal is selected already the
    /// notarize is not looked at; else its proposal is selected, whatever was added. The same leader again changes nothing.
    ///
    /// # Errors
    ///
    /// [`BatcherFault::OtherLeader`] where another was named before. Nothing is changed then.
    pub fn set_leader(
        &mut self,
        leader: Participant,
        notarize: Option<&Notarize<S, D>>,
    ) -> Result<(), BatcherFault>
        ensures other { AtEachOf D.PartialEq.eq S.Scheme S.batchable self.old
            (λ s h. IfSome (leader_of h) (λ known. known ≢ leader → result ≡ Err OtherLeader)) }
        ensures refused { IfErr result (λ e.
            AtEachOf D.PartialEq.eq S.Scheme S.batchable self.old
            (λ s h. (e ≡ OtherLeader) × MatchOption (leader_of h) ⊥ (λ known. known ≢ leader))) }
        ensures same { OnOk result (AtEachOf D.PartialEq.eq S.Scheme S.batchable self.old
            (λ s h. leader_of h ≡ Some leader → VerifierKeeps D.PartialEq.eq S.Scheme S.batchable s self.new h)) }
        ensures first { OnOk result (AtEachOf D.PartialEq.eq S.Scheme S.batchable self.old (λ s h.
            leader_of h ≡ None
            → (selected h ≡ None → option_map (λ n. n.proposal) (option_copied notarize.entry) ≡ notarized_by h leader)
            → VerifierKeeps D.PartialEq.eq S.Scheme S.batchable s self.new (Led leader ∷ h))) }
        ensures holds { OnOk result (AtEachOf D.PartialEq.eq S.Scheme S.batchable self.old (λ s h.
            leader_of h ≡ None → held_by self.new ≡ option_or (selected h) (option_map (λ n. n.proposal) (option_copied notarize.entry)))) }
        ensures err { OnErr result
            (AtEachOf D.PartialEq.eq S.Scheme S.batchable self.old (λ s h. VerifierKeeps D.PartialEq.eq S.Scheme S.batchable s self.new h)) }
    {
        match self.lead(leader, proposal_in(notarize)) {
            Ok(()) => Ok(()),
            Err(fault) => Err(fault),
        }
    }

    /// Names the leader, with the proposal that it voted to notarize.
    pub fn lead(
        &mut self,
        leader: Participant,
        led: Option<Proposal<D>>,
    ) -> Result<(), BatcherFault>
        ensures other { AtEachOf D.PartialEq.eq S.Scheme S.batchable self.old
            (λ s h. IfSome (leader_of h) (λ known. known ≢ leader → result ≡ Err OtherLeader)) }
        ensures refused { IfErr result (λ e.
            AtEachOf D.PartialEq.eq S.Scheme S.batchable self.old
            (λ s h. (e ≡ OtherLeader) × MatchOption (leader_of h) ⊥ (λ known. known ≢ leader))) }
        ensures same { OnOk result (AtEachOf D.PartialEq.eq S.Scheme S.batchable self.old
            (λ s h. leader_of h ≡ Some leader → VerifierKeeps D.PartialEq.eq S.Scheme S.batchable s self.new h)) }
        ensures first { OnOk result (AtEachOf D.PartialEq.eq S.Scheme S.batchable self.old (λ s h.
            leader_of h ≡ None
            → (selected h ≡ None → led ≡ notarized_by h leader)
            → VerifierKeeps D.PartialEq.eq S.Scheme S.batchable s self.new (Led leader ∷ h))) }
        ensures holds { OnOk result
            (AtEachOf D.PartialEq.eq S.Scheme S.batchable self.old (λ s h. leader_of h ≡ None → held_by self.new ≡ option_or (selected h) led)) }
        ensures err { OnErr result
            (AtEachOf D.PartialEq.eq S.Scheme S.batchable self.old (λ s h. VerifierKeeps D.PartialEq.eq S.Scheme S.batchable s self.new h)) }
    {
        match self.leader {
            Some(known) => {
                if known == leader {
                    return Ok(());
                }
                Err(BatcherFault::OtherLeader)
            }
            None => {
                let next = self.proposal.select(None, led);
                self.leader = Some(leader);
                let _changed = self.choose(next);
                Ok(())
            }
        }
    }
}

/// The proposal of a notarize.
fn proposal_in<S: Scheme<D>, D: Digest>(notarize: Option<&Notarize<S, D>>) -> Option<Proposal<D>>
    ensures { result ≡ option_map (λ n. n.proposal) (option_copied notarize.entry) }
{
    match notarize {
        Some(notarize) => Some(notarize.proposal),
        None => None,
    }
}
