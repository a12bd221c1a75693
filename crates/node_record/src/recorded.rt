//! What a member has recorded: its artifacts in their order, and what they tell.

ghost use Rattle.std.specs.Prelude.{◌≡◌, ◌↔◌, ◌⊎◌, ◌++◌, ◌∷◌, [], ℕ, List, Bool, Some, Contains, IsTrue, IfOk, IfErr, OnOk, MatchOption};
ghost use Rattle.std.specs.Option.{option_copied};
ghost use Rattle.types_core.specs.declared.position.Round.{Round};
ghost use Rattle.messages_certificates.specs.declared.artifact.Artifact.{Artifact};
ghost use Rattle.messages_certificates.specs.declared.artifact.Artifact.TheVariants as artifact;
ghost use Rattle.messages_certificates.specs.Certificate.{certificate_statement};
ghost use Rattle.simplex_record.specs.declared.owner.Owner.{Owner};
ghost use Rattle.simplex_record.specs.CheckerState.{Keeps};
ghost use Rattle.simplex_record.specs.Record.{entry, entries, last_finalized, HasCertificate, HasJudged, HasVerdict};
ghost use Rattle.simplex_record.specs.Rules.{MayFollow};
ghost use Rattle.simplex_record.specs.Lawful.{IsLawful, IsRefusedAt, rewritten};
ghost use Rattle.simplex_member.specs.declared.fault.OpenFault.TheVariants as fault;
ghost use Rattle.simplex_member.specs.Recorded.{finalization_in, next_floor, notarization_in};
ghost use Rattle.node_record.specs.Noting.{HasNoted};
ghost use Rattle.node_record.specs.Places.{at_place};
ghost use Rattle.node_record.specs.Recorded.{AtEach, EachMayFollow, HasLike, HasNoNullify, HoldsRecord, IsLastNullifyOf, IsReserved};

use crate::places::{Places, finalization_of, notarization_of, nullify_of};
use messages_certificates::{Artifact, Certificate, Finalization, Notarization, Nullify};
use simplex_member::OpenFault;
use simplex_record::{Owner, Standing, a_rewritten_record_is_lawful, check, rewritten};
use std::alloc::{AllocError, Global};
use std::cmp::Reverse;
use types_core::{Digest, Scheme, TermLength, View, Viewable};
use types_terms::Kind;

/// What a member has recorded: the artifacts, and what is asked of them again and again. Each question takes
/// a logarithmic time at most.
#[derive(Drop)]
pub struct Recorded<S: Scheme<D>, D: Digest> {
    /// How many views a term has.
    pub(crate) term_length: TermLength,
    /// The artifacts, the oldest first.
    pub(crate) artifacts: Vec<Artifact<S, D>>,
    /// What of each view they have.
    pub(crate) standing: Standing<D>,
    /// Where its certificates stand.
    pub(crate) places: Places,
}

impl<S: Scheme<D>, D: Digest> Recorded<S, D> {
    /// What these artifacts tell, the oldest first, where they are a lawful record of this owner.
    ///
    /// # Errors
    ///
    /// [`OpenFault::Contradiction`] with how many artifacts stand before the first that the rules refuse, and
    /// [`OpenFault::Memory`].
    pub(crate) fn checked(
        alloc: Global,
        scheme: &S,
        owner: Owner,
        artifacts: Vec<Artifact<S, D>>,
    ) -> Result<Self, OpenFault>
        ensures holds { IfOk result (λ recorded. HoldsRecord owner recorded artifacts.items) }
        ensures lawful { OnOk result (IsLawful (S.attests scheme.now) (S.certifies scheme.now) owner artifacts.items) }
        ensures refused { IfErr result (λ why.
            (position : ℕ)
            → why ≡ fault.Contradiction position
            → IsRefusedAt (S.attests scheme.now) (S.certifies scheme.now) owner artifacts.items position) }
        ensures faults { IfErr result (λ why. (why ≡ fault.Memory) ⊎ ((position : ℕ) × (why ≡ fault.Contradiction position))) }
    {
        let term_length = owner.term_length;
        let standing = match check(alloc, scheme, owner, &artifacts) {
            Ok(Ok(standing)) => standing,
            Ok(Err(position)) => return Err(OpenFault::Contradiction(position)),
            Err(_) => return Err(OpenFault::Memory),
        };
        let Ok(places) = Places::of(alloc, &artifacts) else {
            return Err(OpenFault::Memory);
        };
        Ok(Recorded {
            term_length,
            artifacts,
            standing,
            places,
        })
    }

    /// Makes room for one artifact more.
    pub(crate) fn reserve(&mut self) -> Result<(), AllocError>
        ensures same { (owner : Owner) (xs : List (Artifact S D S.PublicKey S.Signature S.Certificate))
            → HoldsRecord owner self.old xs
            → HoldsRecord owner self.new xs }
        ensures reserved { OnOk result (IsReserved self.new) }
    {
        self.artifacts.reserve(1)
    }

    /// Adds an artifact that may stand behind the others, once room was made for it.
    pub(crate) fn add(&mut self, artifact: Artifact<S, D>) -> Result<(), AllocError>
        requires { IsReserved self.old }
        ensures { OnOk result ((owner : Owner) (xs : List (Artifact S D S.PublicKey S.Signature S.Certificate))
            → HoldsRecord owner self.old xs
            → MayFollow owner.term_length (entries xs) (entry artifact)
            → HoldsRecord owner self.new (xs ++ artifact ∷ [])) }
    {
        match self.note(&artifact) {
            Ok(()) => match self.artifacts.push(artifact) {
                Ok(()) => Ok(()),
                Err(_) => unreachable!(),
            },
            Err(error) => {
                drop(artifact);
                Err(error)
            }
        }
    }

    /// Notes what an artifact tells that is about to stand behind the others.
    fn note(&mut self, artifact: &Artifact<S, D>) -> Result<(), AllocError>
        ensures artifacts { self.new.artifacts ≡ self.old.artifacts }
        ensures noted { OnOk result ((owner : Owner) (xs : List (Artifact S D S.PublicKey S.Signature S.Certificate))
            → HoldsRecord owner self.old xs
            → MayFollow owner.term_length (entries xs) (entry artifact.now)
            → HasNoted owner self.new xs artifact.now) }
    {
        match self.places.add(self.artifacts.len(), artifact) {
            Ok(()) => {}
            Err(error) => return Err(error),
        }
        match self.standing.add(self.term_length, artifact) {
            Ok(_) => Ok(()),
            Err(error) => Err(error),
        }
    }

    /// All of it, the oldest first.
    pub fn artifacts(&self) -> &[Artifact<S, D>]
        ensures { AtEach self.now (λ owner xs. result.now ≡ xs) }
    {
        &self.artifacts
    }

    /// Whether the artifact may stand behind what is recorded, by all rules but that it verifies.
    pub fn allows(&self, artifact: &Artifact<S, D>) -> bool
        ensures { AtEach self.now (λ owner xs. IsTrue result ↔ MayFollow owner.term_length (entries xs) (entry artifact.now)) }
    {
        self.standing.allows(self.term_length, artifact)
    }

    /// Whether a certificate of the kind and view of this one is recorded.
    pub fn has_like(&self, certificate: &Certificate<S, D>) -> bool
        ensures { AtEach self.now (λ owner xs. IsTrue result ↔ HasLike (entries xs) (certificate_statement certificate.now)) }
    {
        match certificate {
            Certificate::Notarization(notarization) => self
                .standing
                .has_certificate(Kind::Notarization, notarization.view()),
            Certificate::Nullification(nullification) => self
                .standing
                .has_certificate(Kind::Nullification, nullification.view()),
            Certificate::Finalization(finalization) => self
                .standing
                .has_certificate(Kind::Finalization, finalization.view()),
        }
    }

    /// Whether a certificate of this kind and view is recorded.
    pub fn has_certificate(&self, kind: Kind, view: View) -> bool
        ensures { AtEach self.now (λ owner xs. IsTrue result ↔ HasCertificate (entries xs) kind view) }
    {
        self.standing.has_certificate(kind, view)
    }

    /// Whether a verdict on the view is recorded.
    pub fn is_judged(&self, view: View) -> bool
        ensures { AtEach self.now (λ owner xs. IsTrue result ↔ ((r : Round) × (ok : Bool) × (r.view ≡ view) × HasJudged (entries xs) r ok)) }
    {
        self.standing.verdict(view).is_some()
    }

    /// The verdict on the view, where one is recorded.
    pub fn verdict(&self, view: View) -> Option<bool>
        ensures { AtEach self.now (λ owner xs. (ok : Bool) → (result ≡ Some ok) ↔ HasVerdict (entries xs) view ok) }
    {
        self.standing.verdict(view)
    }

    /// The notarization of the view, where one is recorded.
    pub fn notarization(&self, view: View) -> Option<&Notarization<S, D>>
        ensures { AtEach self.now (λ owner xs. option_copied result ≡ notarization_in xs view) }
    {
        let place = self.places.notarizations.get(&Reverse(view)).copied();
        match self.artifact_at(place) {
            Some(artifact) => notarization_of(artifact),
            None => None,
        }
    }

    /// The finalization of the view, where one is recorded.
    pub fn finalization(&self, view: View) -> Option<&Finalization<S, D>>
        ensures { AtEach self.now (λ owner xs. option_copied result ≡ finalization_in xs view) }
    {
        let place = self.places.finalizations.get(&Reverse(view)).copied();
        match self.artifact_at(place) {
            Some(artifact) => finalization_of(artifact),
            None => None,
        }
    }

    /// The last finalized view, or 0.
    pub(crate) fn last_finalized(&self) -> View
        ensures { AtEach self.now (λ owner xs. result ≡ last_finalized (entries xs)) }
    {
        match self.places.finalizations.first_key_value() {
            Some((last, _)) => last.0,
            None => View::zero(),
        }
    }

    /// The finalization that a rewrite makes the record begin with: that of the last finalized view, unless the
    /// record begins behind it.
    pub fn next_floor(&self) -> Option<&Finalization<S, D>>
        ensures { AtEach self.now (λ owner xs. option_copied result ≡ next_floor xs) }
    {
        let last = self.last_finalized();
        if self.standing.floor() >= last {
            return None;
        }
        self.finalization(last)
    }

    /// What a rewrite leaves of it behind this finalization, of its last finalized view. All that it tells is
    /// built anew of what is left, and nothing is verified again.
    pub(crate) fn rewritten(
        &self,
        alloc: Global,
        floor: &Finalization<S, D>,
    ) -> Result<Self, AllocError>
        ensures artifacts { IfOk result (λ left. AtEach self.now (λ owner xs. left.artifacts.items ≡ rewritten owner.term_length floor.now xs)) }
        ensures holds { IfOk result (λ left.
            (scheme : S) (owner : Owner) (xs : List (Artifact S D S.PublicKey S.Signature S.Certificate))
            → HoldsRecord owner self.now xs
            → IsLawful (S.attests scheme) (S.certifies scheme) owner xs
            → Contains xs (artifact.Finalization floor.now)
            → floor.now.proposal.round.view ≡ last_finalized (entries xs)
            → HoldsRecord owner left (rewritten owner.term_length floor.now xs)) }
    {
        a_rewritten_record_is_lawful::<S, D>();
        // The proof takes from the number that a term has at least one view.
        let _views = self.term_length.get();
        let artifacts = rewritten(alloc, self.term_length, floor, &self.artifacts)?;
        let standing = standing_of(alloc, self.term_length, &artifacts)?;
        let places = Places::of(alloc, &artifacts)?;
        Ok(Recorded {
            term_length: self.term_length,
            artifacts,
            standing,
            places,
        })
    }

    /// The last own nullify that is recorded.
    pub fn last_nullify(&self) -> Option<&Nullify<S, D>>
        ensures { AtEach self.now (λ owner xs. MatchOption result (HasNoNullify xs) (λ v. IsLastNullifyOf xs v.now)) }
    {
        let place = self.standing.last_nullify();
        match self.artifact_at(place) {
            Some(artifact) => nullify_of(artifact),
            None => None,
        }
    }

    /// The artifact behind so many, where a number is named.
    fn artifact_at(&self, place: Option<usize>) -> Option<&Artifact<S, D>>
        ensures { option_copied result ≡ at_place self.now.artifacts.items place }
    {
        match place {
            Some(place) => self.artifacts.get(place),
            None => None,
        }
    }
}

/// What is kept of artifacts of which each may stand behind those before it. Nothing is verified.
fn standing_of<S: Scheme<D>, D: Digest>(
    alloc: Global,
    length: TermLength,
    artifacts: &[Artifact<S, D>],
) -> Result<Standing<D>, AllocError>
    ensures { IfOk result (λ standing. EachMayFollow length artifacts.now → Keeps length standing (entries artifacts.now)) }
{
    let mut standing = Standing::new(alloc);
    let mut rest = artifacts;
    while let Some((artifact, behind)) = rest.split_first() {
        standing.add(length, artifact)?;
        rest = behind;
    }
    Ok(standing)
}
