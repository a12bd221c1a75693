//! What is kept of each signer's votes of each round on a proposal.

ghost use Rattle.std.specs.Prelude.{◌≡◌, ◌≢◌, ◌<◌, ◌↔◌, ◌++◌, ◌∷◌, [], List, OnOk, IsTrue, IfSome, MatchBool, Some, false, length, slice_get};
ghost use Rattle.std.specs.BTreeSet.{BTreeSet};
ghost use Rattle.messages_certificates.specs.declared.proposal_vote.ProposalVote.{ProposalVote};
ghost use Rattle.simplex_messages.specs.Guilt.{votes_listed};
ghost use Rattle.audit_evidence.specs.Held.{votes_held};
ghost use Rattle.simplex_rules.specs.declared.cast.Cast.{Cast};
ghost use Rattle.simplex_rules.specs.declared.cast.Kept.{Kept};
ghost use Rattle.simplex_rules.specs.declared.cast.Suspect.{Suspect};
ghost use Rattle.simplex_rules.specs.Cast.{IsSettled};
ghost use Rattle.simplex_rules.specs.Kept.{StandsAt, Tallies};
ghost use Rattle.simplex_rules.specs.Tally.{AreApart, CastIsAttested, HoldsVotes, IsLeastOf, KeepsVotes, cast_of, conflict_in, suspect_of, vote_of};

use crate::cast::{Cast, Choice, Kept, Place, Suspect};
use crate::roster::Suspects;
use audit_evidence::{HeldVotes, evidence_of};
use simplex_messages::{ConflictingVotes, ProposalCertificate, ProposalKind, ProposalVote};
use std::alloc::{AllocError, Global};
use std::marker::PhantomData;
use types_core::{Attestation, Digest, Listing, Proposal, Scheme};

/// What is kept of each suspect's votes of one kind.
#[derive(Drop)]
pub(crate) struct Ballots<K: ProposalKind<D>, S: Scheme<D>, D: Digest> {
    /// What is kept of each of the contested, by their places, up to the last that a vote was counted of.
    kept: Vec<Kept<D, S::Signature>>,
    /// Where the next suspect is looked for first.
    next: usize,
    kind: PhantomData<K>,
}

impl<K: ProposalKind<D>, S: Scheme<D>, D: Digest> Ballots<K, S, D> {
    /// Nothing counted.
    pub(crate) fn new(alloc: Global) -> Self
        ensures { (scheme : S) (contested : BTreeSet Suspect)
            → HoldsVotes {K = K} {S = S} {P = S.PublicKey} {C = S.Certificate} K.states (S.attests scheme) D.cmp contested [] result.kept.items }
    {
        Ballots {
            kept: Vec::new(alloc),
            next: 0,
            kind: PhantomData,
        }
    }

    /// Whether the suspect's vote that was cast so verifies.
    fn verifies(scheme: &S, suspect: &Suspect, cast: &Cast<D, S::Signature>) -> bool
        ensures { IsTrue result ↔ CastIsAttested K.states (S.attests scheme.now) suspect.now cast.now }
    {
        let vote: ProposalVote<K, S, D> = vote_from(suspect, cast);
        vote.verify(scheme)
    }

    /// Verifies the claim that is kept of a suspect, where there is one and the vote read last is
    /// another. Whether that vote is still to be weighed: it isn't where it is the first or the claim's own, or takes
    /// the place of one that failed.
    fn challenge(
        scheme: &S,
        suspect: &Suspect,
        kept: &mut Kept<D, S::Signature>,
        cast: &Cast<D, S::Signature>,
    ) -> bool
        ensures { (casts : List (Cast D S.Signature)) → KeepsVotes K.states (S.attests scheme.now) D.cmp suspect.now casts kept.old → MatchBool result
            (IsSettled kept.new × KeepsVotes K.states (S.attests scheme.now) D.cmp suspect.now casts kept.new)
            (KeepsVotes K.states (S.attests scheme.now) D.cmp suspect.now (casts ++ cast.now ∷ []) kept.new) }
    {
        let claim = match kept {
            Kept::Nothing => {
                *kept = Kept::Claim(*cast);
                return false;
            }
            Kept::Claim(claim) => *claim,
            Kept::One(_) | Kept::Two(_, _) => return true,
        };
        if claim.is_same(cast) {
            return false;
        }
        if !Self::verifies(scheme, suspect, &claim) {
            *kept = Kept::Claim(*cast);
            return false;
        }
        *kept = Kept::One(claim);
        true
    }

    /// Keeps what there is to keep of a suspect's verified votes and one more, which was read last. That
    /// one is verified only where it would then be kept.
    fn add(
        scheme: &S,
        suspect: &Suspect,
        kept: &mut Kept<D, S::Signature>,
        cast: &Cast<D, S::Signature>,
    )
        ensures { (casts : List (Cast D S.Signature))
            → IsSettled kept.old
            → KeepsVotes K.states (S.attests scheme.now) D.cmp suspect.now casts kept.old
            → KeepsVotes K.states (S.attests scheme.now) D.cmp suspect.now (casts ++ cast.now ∷ []) kept.new }
    {
        let place = match kept.place_of(cast) {
            None => return,
            Some(place) => place,
        };
        if !Self::verifies(scheme, suspect, cast) {
            return;
        }
        match kept {
            Kept::Nothing | Kept::Claim(_) => {}
            Kept::One(only) => {
                let only = *only;
                match place {
                    Place::First => *kept = Kept::Two(*cast, only),
                    Place::Second => *kept = Kept::Two(only, *cast),
                }
            }
            Kept::Two(least, next) => match place {
                Place::First => {
                    *next = *least;
                    *least = *cast;
                }
                Place::Second => *next = *cast,
            },
        }
    }

    /// Keeps what there is to keep of a suspect's votes and one more, which was read last.
    fn weigh(
        scheme: &S,
        suspect: &Suspect,
        kept: &mut Kept<D, S::Signature>,
        cast: &Cast<D, S::Signature>,
    )
        ensures { (casts : List (Cast D S.Signature))
            → KeepsVotes K.states (S.attests scheme.now) D.cmp suspect.now casts kept.old
            → KeepsVotes K.states (S.attests scheme.now) D.cmp suspect.now (casts ++ cast.now ∷ []) kept.new }
    {
        if Self::challenge(scheme, suspect, kept, cast) {
            Self::add(scheme, suspect, kept, cast);
        }
    }

    /// Makes room for what is kept of the suspect at the place.
    fn reach(&mut self, place: usize) -> Result<(), AllocError>
        ensures reached { OnOk result (place < length self.new.kept.items) }
        ensures same { OnOk result ((scheme : S) (contested : BTreeSet Suspect) (counted : List (Suspect × Cast D S.Signature))
            → Tallies contested (KeepsVotes K.states (S.attests scheme) D.cmp) counted self.old.kept.items
            → Tallies contested (KeepsVotes K.states (S.attests scheme) D.cmp) counted self.new.kept.items) }
    {
        while self.kept.len() <= place {
            self.kept.push(Kept::Nothing)?;
        }
        Ok(())
    }

    /// Keeps what there is to keep of one more vote.
    fn keep(
        &mut self,
        scheme: &S,
        place: usize,
        suspect: &Suspect,
        vote: &ProposalVote<K, S, D>,
    ) -> Result<(), AllocError>
        ensures { OnOk result ((contested : BTreeSet Suspect) (counted : List (Suspect × Cast D S.Signature))
            → StandsAt contested place suspect.now
            → Tallies contested (KeepsVotes K.states (S.attests scheme.now) D.cmp) counted self.old.kept.items
            → Tallies contested (KeepsVotes K.states (S.attests scheme.now) D.cmp) (counted ++ (suspect.now, cast_of vote.now) ∷ [])
            self.new.kept.items) }
    {
        self.reach(place)?;
        let choice = Choice {
            parent: vote.proposal.parent,
            payload: vote.proposal.payload,
        };
        let signature = vote.attestation.signature;
        let cast = Cast { choice, signature };
        Self::weigh(scheme, suspect, &mut self.kept[place], &cast);
        Ok(())
    }

    /// Counts a vote. It is weighed only where its suspect is contested.
    pub(crate) fn count(
        &mut self,
        scheme: &S,
        contested: &Suspects,
        vote: &ProposalVote<K, S, D>,
    ) -> Result<(), AllocError>
        ensures { OnOk result ((votes : List (ProposalVote K S D S.PublicKey S.Signature S.Certificate))
            → HoldsVotes K.states (S.attests scheme.now) D.cmp contested.now votes self.old.kept.items
            → HoldsVotes K.states (S.attests scheme.now) D.cmp contested.now (votes ++ vote.now ∷ []) self.new.kept.items) }
    {
        let suspect = Suspect {
            round: vote.proposal.round,
            signer: vote.attestation.signer,
        };
        match contested.place_of(self.next, &suspect) {
            Ok(place) => {
                self.next = place.saturating_add(1);
                self.keep(scheme, place, &suspect, vote)
            }
            Err(gap) => {
                self.next = gap;
                Ok(())
            }
        }
    }

    /// Counts both votes of evidence.
    fn count_both(
        &mut self,
        scheme: &S,
        contested: &Suspects,
        both: &ConflictingVotes<K, S, D>,
    ) -> Result<(), AllocError>
        ensures { OnOk result ((votes : List (ProposalVote K S D S.PublicKey S.Signature S.Certificate))
            → HoldsVotes K.states (S.attests scheme.now) D.cmp contested.now votes self.old.kept.items
            → HoldsVotes K.states (S.attests scheme.now) D.cmp contested.now (votes ++ both.now.0 ∷ both.now.1 ∷ []) self.new.kept.items) }
    {
        self.count(scheme, contested, both.first())?;
        self.count(scheme, contested, both.second())
    }

    /// Whether votes of the suspect at the place are kept.
    pub(crate) fn contains(&self, place: usize) -> bool
        ensures { result ≡ false → (kept : Kept D S.Signature) → slice_get self.now.kept.items place ≡ Some kept → kept ≡ Kept.Nothing }
    {
        match self.kept.get(place) {
            None => false,
            Some(kept) => kept.is_any(),
        }
    }

    /// The two votes that are kept of the suspect at the place, if there are two.
    pub(crate) fn conflict(
        &self,
        place: usize,
        suspect: &Suspect,
    ) -> Option<ConflictingVotes<K, S, D>>
        requires { AreApart self.now.kept.items place }
        ensures { result ≡ conflict_in suspect.now (slice_get self.now.kept.items place) }
    {
        match self.kept.get(place) {
            None => None,
            Some(kept) => conflict_from(suspect, kept),
        }
    }

    /// Of the votes that verify of the suspect at the place the first for the least proposal.
    pub(crate) fn least(
        &self,
        scheme: &S,
        place: usize,
        suspect: &Suspect,
    ) -> Option<ProposalVote<K, S, D>>
        ensures own { IfSome result (λ v. suspect_of v ≡ suspect.now) }
        ensures least { (contested : BTreeSet Suspect) (votes : List (ProposalVote K S D S.PublicKey S.Signature S.Certificate))
            → StandsAt contested place suspect.now
            → HoldsVotes K.states (S.attests scheme.now) D.cmp contested votes self.now.kept.items
            → IsLeastOf K.states (S.attests scheme.now) D.cmp votes suspect.now result }
    {
        match self.kept.get(place)? {
            Kept::Nothing => None,
            Kept::Claim(claim) => {
                if !Self::verifies(scheme, suspect, claim) {
                    return None;
                }
                Some(vote_from(suspect, claim))
            }
            Kept::One(only) => Some(vote_from(suspect, only)),
            Kept::Two(least, _) => Some(vote_from(suspect, least)),
        }
    }
}

impl<K: ProposalKind<D>, S: Listing<D>, D: Digest> Ballots<K, S, D> {
    /// Counts the votes that a report holds.
    pub(crate) fn count_held(
        &mut self,
        scheme: &S,
        contested: &Suspects,
        held: HeldVotes<'_, K, S, D>,
    ) -> Result<(), AllocError>
        ensures { OnOk result ((votes : List (ProposalVote K S D S.PublicKey S.Signature S.Certificate))
            → HoldsVotes K.states (S.attests scheme.now) D.cmp contested.now votes self.old.kept.items
            → HoldsVotes K.states (S.attests scheme.now) D.cmp contested.now (votes ++ votes_held S.lists held.entry) self.new.kept.items) }
    {
        match held {
            HeldVotes::Nothing => Ok(()),
            HeldVotes::One(vote) => self.count(scheme, contested, vote),
            HeldVotes::Listed(made) => self.count_listed(scheme, contested, made),
            HeldVotes::Both(both) => self.count_both(scheme, contested, both),
        }
    }

    /// Counts the votes that a certificate lists.
    fn count_listed(
        &mut self,
        scheme: &S,
        contested: &Suspects,
        made: &ProposalCertificate<K, S, D>,
    ) -> Result<(), AllocError>
        ensures { OnOk result ((votes : List (ProposalVote K S D S.PublicKey S.Signature S.Certificate))
            → HoldsVotes K.states (S.attests scheme.now) D.cmp contested.now votes self.old.kept.items
            → HoldsVotes K.states (S.attests scheme.now) D.cmp contested.now (votes ++ votes_listed S.lists made.now) self.new.kept.items) }
    {
        for attestation in S::attestations(&made.certificate) {
            let vote = ProposalVote::new(made.proposal, *attestation);
            self.count(scheme, contested, &vote)?;
        }
        Ok(())
    }
}

/// The two votes that are kept of the suspect, if there are two.
fn conflict_from<K: ProposalKind<D>, S: Scheme<D>, D: Digest>(
    suspect: &Suspect,
    kept: &Kept<D, S::Signature>,
) -> Option<ConflictingVotes<K, S, D>>
    requires { (a b : Cast D S.Signature) → kept.now ≡ Kept.Two a b → a.choice ≢ b.choice }
    ensures { result ≡ conflict_in suspect.now (Some kept.now) }
{
    let (least, last) = kept.ends()?;
    evidence_of(vote_from(suspect, &least), vote_from(suspect, &last))
}

/// The vote of the suspect that was cast so.
fn vote_from<K: ProposalKind<D>, S: Scheme<D>, D: Digest>(
    suspect: &Suspect,
    cast: &Cast<D, S::Signature>,
) -> ProposalVote<K, S, D>
    ensures { result ≡ vote_of suspect.now cast.now }
{
    let proposal = Proposal::new(suspect.round, cast.choice.parent, cast.choice.payload);
    let attestation = Attestation {
        signer: suspect.signer,
        signature: cast.signature,
    };
    ProposalVote::new(proposal, attestation)
}
