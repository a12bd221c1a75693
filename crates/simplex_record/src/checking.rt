//! Checking a record by its rules.

ghost use Rattle.std.specs.Prelude.{◌≡◌, ◌↔◌, ◌++◌, ◌∷◌, [], List, false, IsTrue, IfErr, IfOk, IfSome, IfNone, OnOk};
ghost use Rattle.simplex_record.specs.Record.{Entry, entry, entries, finalizes, IsNullify};
ghost use Rattle.simplex_record.specs.Rules.{MayFollow, LeavesRoom};
ghost use Rattle.simplex_record.specs.Lawful.{Verifies, IsLawful, IsRefusedAt};
ghost use Rattle.simplex_record.specs.CheckerState.{Keeps, KeepsViews};

use crate::owner::Owner;
use crate::standing::Standing;
use messages_certificates::Artifact;
use std::alloc::{AllocError, Global};
use types_core::{Digest, Epoch, Epochable, Participant, Scheme, TermLength, View, Viewable};

/// The position of the first artifact that a lawful record of this owner refuses, or `None` where the
/// record is lawful. It takes a logarithmic time for each artifact beside what the scheme takes to verify
/// it. Refused only where memory is.
pub fn first_refused<S: Scheme<D>, D: Digest>(
    alloc: Global,
    scheme: &S,
    owner: Owner,
    artifacts: &[Artifact<S, D>],
) -> Result<Option<usize>, AllocError>
    ensures lawful { IfOk result (λ found. IfNone found (IsLawful (S.attests scheme.now) (S.certifies scheme.now) owner artifacts.now)) }
    ensures refused { IfOk result (λ found. IfSome found (IsRefusedAt (S.attests scheme.now) (S.certifies scheme.now) owner artifacts.now)) }
{
    if let Err(position) = check(alloc, scheme, owner, artifacts)? {
        return Ok(Some(position));
    }
    Ok(None)
}

/// The same, where a lawful record is answered by what is kept of it.
///
/// # Errors
///
/// Outside where memory is refused; inside the position of the first artifact that a lawful record of this
/// owner refuses.
pub fn check<S: Scheme<D>, D: Digest>(
    alloc: Global,
    scheme: &S,
    owner: Owner,
    artifacts: &[Artifact<S, D>],
) -> Result<Result<Standing<D>, usize>, AllocError>
    ensures lawful { IfOk result (λ found. IfOk found (λ standing. IsLawful (S.attests scheme.now) (S.certifies scheme.now) owner artifacts.now)) }
    ensures keeps { IfOk result (λ found. IfOk found (λ standing. Keeps owner.term_length standing (entries artifacts.now))) }
    ensures refused { IfOk result (λ found. IfErr found (IsRefusedAt (S.attests scheme.now) (S.certifies scheme.now) owner artifacts.now)) }
{
    let mut standing = Standing::new(alloc);
    let mut rest = artifacts;
    while let Some((artifact, behind)) = rest.split_first() {
        let position = artifacts.len() - rest.len();
        if !standing.allows(owner.term_length, artifact) {
            return Ok(Err(position));
        }
        if !verifies(scheme, &owner, artifact) {
            return Ok(Err(position));
        }
        standing.add(owner.term_length, artifact)?;
        rest = behind;
    }
    Ok(Ok(standing))
}

/// Whether the artifact verifies: an own vote by its attestation, a certificate by what it is made of.
fn verifies<S: Scheme<D>, D: Digest>(scheme: &S, owner: &Owner, artifact: &Artifact<S, D>) -> bool
    ensures { IsTrue result ↔ Verifies (S.attests scheme.now) (S.certifies scheme.now) owner.now artifact.now }
{
    match artifact {
        Artifact::Certification(_, _) => true,
        Artifact::Notarize(notarize) => {
            is_own(owner, notarize.epoch(), notarize.attestation.signer) && notarize.verify(scheme)
        }
        Artifact::Nullify(nullify) => {
            is_own(owner, nullify.epoch(), nullify.attestation.signer) && nullify.verify(scheme)
        }
        Artifact::Finalize(finalize) => {
            is_own(owner, finalize.epoch(), finalize.attestation.signer) && finalize.verify(scheme)
        }
        Artifact::Notarization(notarization) => {
            notarization.epoch() == owner.epoch && notarization.verify(scheme)
        }
        Artifact::Nullification(nullification) => {
            nullification.epoch() == owner.epoch && nullification.verify(scheme)
        }
        Artifact::Finalization(finalization) => {
            finalization.epoch() == owner.epoch && finalization.verify(scheme)
        }
    }
}

/// Whether a vote of this epoch and signer is the owner's.
fn is_own(owner: &Owner, epoch: Epoch, signer: Participant) -> bool
    ensures { IsTrue result ↔ ((epoch ≡ owner.now.epoch) × (signer ≡ owner.now.signer)) }
{
    epoch == owner.epoch && signer == owner.signer
}

/// Whether the artifact's view has room.
fn leaves_room<S: Scheme<D>, D: Digest>(length: TermLength, artifact: &Artifact<S, D>) -> bool
    ensures { IsTrue result ↔ LeavesRoom length (entry artifact.now) }
{
    match artifact {
        Artifact::Notarize(vote) => vote.view().has_room(length),
        Artifact::Notarization(certificate) => certificate.view().has_room(length),
        Artifact::Certification(round, _) => round.view.has_room(length),
        Artifact::Nullify(vote) => vote.view().has_room(length),
        Artifact::Nullification(certificate) => certificate.view().has_room(length),
        Artifact::Finalize(vote) => vote.view().has_room(length),
        Artifact::Finalization(certificate) => certificate.view().has_room(length),
    }
}

/// Whether the artifact is an own nullify.
fn is_nullify<S: Scheme<D>, D: Digest>(artifact: &Artifact<S, D>) -> bool
    ensures { IsTrue result ↔ IsNullify (entry artifact.now) }
{
    matches!(artifact, Artifact::Nullify(_))
}

/// The view that the artifact finalizes, or 0.
fn finalized_by<S: Scheme<D>, D: Digest>(artifact: &Artifact<S, D>) -> View
    ensures { result ≡ finalizes (entry artifact.now) }
{
    match artifact {
        Artifact::Finalization(certificate) => certificate.view(),
        Artifact::Notarize(_) => View::zero(),
        Artifact::Notarization(_) => View::zero(),
        Artifact::Certification(_, _) => View::zero(),
        Artifact::Nullify(_) => View::zero(),
        Artifact::Nullification(_) => View::zero(),
        Artifact::Finalize(_) => View::zero(),
    }
}

impl<D: Digest> Standing<D> {
    /// Whether the rules allow the artifact.
    pub fn allows<S: Scheme<D>>(&self, length: TermLength, artifact: &Artifact<S, D>) -> bool
        ensures lawful { (before : List (Entry D)) → Keeps length self.now before → IsTrue result ↔ MayFollow length before (entry artifact.now) }
        ensures room { IsTrue result → LeavesRoom length (entry artifact.now) }
    {
        match artifact {
            Artifact::Notarize(vote) => self.may_notarize(length, &vote.proposal),
            Artifact::Notarization(certificate) => {
                self.may_take_notarization(length, &certificate.proposal)
            }
            Artifact::Certification(round, _) => self.may_judge(length, *round),
            Artifact::Nullify(vote) => self.may_nullify(length, vote.round),
            Artifact::Nullification(certificate) => {
                self.may_take_nullification(length, certificate.round)
            }
            Artifact::Finalize(vote) => self.may_finalize(length, &vote.proposal),
            Artifact::Finalization(certificate) => {
                self.may_take_finalization(length, &certificate.proposal)
            }
        }
    }

    /// Adds an artifact: whether it was taken. What is of a view without room is not. What
    /// is kept is what the record tells with it, where the rules allow it there. Refused only where memory
    /// is: then what is kept tells nothing any more.
    pub fn add<S: Scheme<D>>(
        &mut self,
        length: TermLength,
        artifact: &Artifact<S, D>,
    ) -> Result<bool, AllocError>
        ensures taken { IfOk result (λ taken. IsTrue taken ↔ LeavesRoom length (entry artifact.now)) }
        ensures not_taken { IfOk result (λ taken. taken ≡ false → self.new ≡ self.old) }
        ensures keeps { OnOk result ((before : List (Entry D))
            → Keeps length self.old before
            → MayFollow length before (entry artifact.now)
            → Keeps length self.new (before ++ entry artifact.now ∷ [])) }
    {
        if !leaves_room(length, artifact) {
            return Ok(false);
        }
        self.take(length, artifact)?;
        self.numbering
            .pass(is_nullify(artifact), finalized_by(artifact))?;
        Ok(true)
    }

    /// Adds an artifact to what is kept of its view.
    fn take<S: Scheme<D>>(
        &mut self,
        length: TermLength,
        artifact: &Artifact<S, D>,
    ) -> Result<(), AllocError>
        requires { LeavesRoom length (entry artifact.now) }
        ensures keeps { OnOk result ((before : List (Entry D))
            → KeepsViews length self.old before
            → MayFollow length before (entry artifact.now)
            → KeepsViews length self.new (before ++ entry artifact.now ∷ [])) }
        ensures numbering { OnOk result (self.new.numbering ≡ self.old.numbering) }
    {
        match artifact {
            Artifact::Notarize(vote) => self.add_notarize(&vote.proposal),
            Artifact::Notarization(certificate) => self.add_notarization(&certificate.proposal),
            Artifact::Certification(round, verdict) => self.add_verdict(*round, *verdict),
            Artifact::Nullify(vote) => self.add_nullify(vote.round),
            Artifact::Nullification(certificate) => {
                self.add_nullification(length, certificate.round)
            }
            Artifact::Finalize(vote) => self.add_finalize(&vote.proposal),
            Artifact::Finalization(certificate) => self.add_finalization(&certificate.proposal),
        }
    }
}
