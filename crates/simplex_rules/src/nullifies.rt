//! What is kept of each signer's votes to give a round up.

ghost use Rattle.std.specs.Prelude.{◌≡◌, ◌<◌, ◌↔◌, ◌++◌, ◌∷◌, [], List, OnOk, IsTrue, IfSome, length};
ghost use Rattle.messages_certificates.specs.declared.nullify.Nullify.{Nullify};
ghost use Rattle.simplex_messages.specs.Guilt.{nullifies_listed};
ghost use Rattle.audit_evidence.specs.Held.{nullifies_held};
ghost use Rattle.simplex_rules.specs.declared.cast.Suspect.{Suspect};
ghost use Rattle.std.specs.BTreeSet.{BTreeSet};
ghost use Rattle.simplex_rules.specs.Kept.{StandsAt, Tallies};
ghost use Rattle.simplex_rules.specs.Tally.{GivenIsAttested, HoldsNullifies, IsFirstOf, KeepsNullifies, nullify_of, nullify_suspect};

use crate::cast::Suspect;
use crate::roster::Suspects;
use audit_evidence::HeldNullifies;
use simplex_messages::{Nullification, Nullify};
use std::alloc::{AllocError, Global};
use types_core::{Attestation, Digest, Listing, Scheme};

/// What is kept of one signer's nullifies of one round, by its signature.
#[derive(Drop)]
pub(crate) enum Given<G> {
    /// There was no nullify.
    Nothing,
    /// One that was not verified yet. All before it failed, and all behind it are the same.
    Claim(G),
    /// The first that verifies.
    First(G),
}

/// What is kept of each suspect's nullifies.
#[derive(Drop)]
pub(crate) struct Nullifies<S: Scheme<D>, D: Digest> {
    /// What is kept of each of the contested, by their places, up to the last that a nullify was counted of.
    pub(crate) kept: Vec<Given<S::Signature>>,
    /// Where the next suspect is looked for first.
    next: usize,
}

impl<S: Scheme<D>, D: Digest> Nullifies<S, D> {
    /// Nothing counted.
    pub(crate) fn new(alloc: Global) -> Self
        ensures { (scheme : S) (contested : BTreeSet Suspect)
            → HoldsNullifies {S = S} {P = S.PublicKey} {C = S.Certificate} (S.attests scheme) contested [] result.kept.items }
    {
        Nullifies {
            kept: Vec::new(alloc),
            next: 0,
        }
    }

    /// Whether the suspect's nullify with this signature verifies.
    fn verifies(scheme: &S, suspect: &Suspect, signature: &S::Signature) -> bool
        ensures { IsTrue result ↔ GivenIsAttested (S.attests scheme.now) suspect.now signature.now }
    {
        let vote: Nullify<S, D> = nullify_from(suspect, signature);
        vote.verify(scheme)
    }

    /// Keeps what there is to keep of a suspect's nullifies and one more, which was read last.
    fn weigh(
        scheme: &S,
        suspect: &Suspect,
        given: &mut Given<S::Signature>,
        signature: S::Signature,
    )
        ensures { (signatures : List S.Signature)
            → KeepsNullifies (S.attests scheme.now) suspect.now signatures given.old
            → KeepsNullifies (S.attests scheme.now) suspect.now (signatures ++ signature ∷ []) given.new }
    {
        let claim = match given {
            Given::Nothing => {
                *given = Given::Claim(signature);
                return;
            }
            Given::Claim(claim) => *claim,
            Given::First(_) => return,
        };
        if claim == signature {
            return;
        }
        if Self::verifies(scheme, suspect, &claim) {
            *given = Given::First(claim);
            return;
        }
        *given = Given::Claim(signature);
    }

    /// Makes room for what is kept of the suspect at the place.
    fn reach(&mut self, place: usize) -> Result<(), AllocError>
        ensures reached { OnOk result (place < length self.new.kept.items) }
        ensures same { OnOk result ((scheme : S) (contested : BTreeSet Suspect) (counted : List (Suspect × S.Signature))
            → Tallies contested (KeepsNullifies (S.attests scheme)) counted self.old.kept.items
            → Tallies contested (KeepsNullifies (S.attests scheme)) counted self.new.kept.items) }
    {
        while self.kept.len() <= place {
            self.kept.push(Given::Nothing)?;
        }
        Ok(())
    }

    /// Keeps what there is to keep of one more nullify.
    fn keep(
        &mut self,
        scheme: &S,
        place: usize,
        suspect: &Suspect,
        signature: S::Signature,
    ) -> Result<(), AllocError>
        ensures { OnOk result ((contested : BTreeSet Suspect) (counted : List (Suspect × S.Signature))
            → StandsAt contested place suspect.now
            → Tallies contested (KeepsNullifies (S.attests scheme.now)) counted self.old.kept.items
            → Tallies contested (KeepsNullifies (S.attests scheme.now)) (counted ++ (suspect.now, signature) ∷ []) self.new.kept.items) }
    {
        self.reach(place)?;
        Self::weigh(scheme, suspect, &mut self.kept[place], signature);
        Ok(())
    }

    /// Counts a nullify. It is weighed only where its suspect is contested.
    fn count(
        &mut self,
        scheme: &S,
        contested: &Suspects,
        vote: &Nullify<S, D>,
    ) -> Result<(), AllocError>
        ensures { OnOk result ((votes : List (Nullify S D S.PublicKey S.Signature S.Certificate))
            → HoldsNullifies (S.attests scheme.now) contested.now votes self.old.kept.items
            → HoldsNullifies (S.attests scheme.now) contested.now (votes ++ vote.now ∷ []) self.new.kept.items) }
    {
        let suspect = Suspect {
            round: vote.round,
            signer: vote.attestation.signer,
        };
        match contested.place_of(self.next, &suspect) {
            Ok(place) => {
                self.next = place.saturating_add(1);
                self.keep(scheme, place, &suspect, vote.attestation.signature)
            }
            Err(gap) => {
                self.next = gap;
                Ok(())
            }
        }
    }

    /// Of the nullifies of the suspect at the place the first that verifies.
    pub(crate) fn first(&self, scheme: &S, place: usize, suspect: &Suspect) -> Option<Nullify<S, D>>
        ensures own { IfSome result (λ v. nullify_suspect v ≡ suspect.now) }
        ensures first { (contested : BTreeSet Suspect) (votes : List (Nullify S D S.PublicKey S.Signature S.Certificate))
            → StandsAt contested place suspect.now
            → HoldsNullifies (S.attests scheme.now) contested votes self.now.kept.items
            → IsFirstOf (S.attests scheme.now) votes suspect.now result }
    {
        match self.kept.get(place)? {
            Given::Nothing => None,
            Given::Claim(claim) => {
                if !Self::verifies(scheme, suspect, claim) {
                    return None;
                }
                Some(nullify_from(suspect, claim))
            }
            Given::First(first) => Some(nullify_from(suspect, first)),
        }
    }
}

impl<S: Listing<D>, D: Digest> Nullifies<S, D> {
    /// Counts the nullifies that a report holds.
    pub(crate) fn count_held(
        &mut self,
        scheme: &S,
        contested: &Suspects,
        held: HeldNullifies<'_, S, D>,
    ) -> Result<(), AllocError>
        ensures { OnOk result ((votes : List (Nullify S D S.PublicKey S.Signature S.Certificate))
            → HoldsNullifies (S.attests scheme.now) contested.now votes self.old.kept.items
            → HoldsNullifies (S.attests scheme.now) contested.now (votes ++ nullifies_held S.lists held.entry) self.new.kept.items) }
    {
        match held {
            HeldNullifies::Nothing => Ok(()),
            HeldNullifies::One(vote) => self.count(scheme, contested, vote),
            HeldNullifies::Listed(made) => self.count_listed(scheme, contested, made),
        }
    }

    /// Counts the nullifies that a nullification lists.
    fn count_listed(
        &mut self,
        scheme: &S,
        contested: &Suspects,
        made: &Nullification<S, D>,
    ) -> Result<(), AllocError>
        ensures { OnOk result ((votes : List (Nullify S D S.PublicKey S.Signature S.Certificate))
            → HoldsNullifies (S.attests scheme.now) contested.now votes self.old.kept.items
            → HoldsNullifies (S.attests scheme.now) contested.now (votes ++ nullifies_listed S.lists made.now) self.new.kept.items) }
    {
        for attestation in S::attestations(&made.certificate) {
            let vote = Nullify {
                round: made.round,
                attestation: *attestation,
            };
            self.count(scheme, contested, &vote)?;
        }
        Ok(())
    }
}

/// The nullify of the suspect with this signature.
fn nullify_from<S: Scheme<D>, D: Digest>(
    suspect: &Suspect,
    signature: &S::Signature,
) -> Nullify<S, D>
    ensures { result ≡ nullify_of suspect.now signature.now }
{
    let attestation = Attestation {
        signer: suspect.signer,
        signature: *signature,
    };
    Nullify {
        round: suspect.round,
        attestation,
    }
}
