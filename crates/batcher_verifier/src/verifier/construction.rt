//! Certificates from the votes that a verifier holds.

ghost use Rattle.std.specs.Prelude.{◌≡◌, ◌∷◌, Bool, Option, Some, None, length, IfOk, IfSome, OnErr, MatchOption, is_some, true, false};
ghost use Rattle.std.specs.Option.{option_map};
ghost use Rattle.types_core.specs.Subject.{statement};
ghost use Rattle.batcher_verifier.specs.History.{context, statement_for, waiting, verified, are_one, is_ready, is_worth_judging, is_due};
ghost use Rattle.batcher_verifier.specs.ConstructionResult.{after, IsReadable, IsCertificateOf, IsOfVerified, IsOfWaiting, IsBatch};
ghost use Rattle.types_terms.specs.declared.kind.Kind.TheVariants.{Notarization, Nullification, Finalization};
ghost use Rattle.batcher_verifier.specs.Keeping.{VerifierKeeps, AtEachOf, selection_of};
ghost use Rattle.batcher_verifier.specs.History.{proposal_of};

use crate::batch::Batch;
use crate::certificate_kinds::{certificate_on, subject_of};
use crate::verifier::Verifier;
use batcher_assembly::{Judged, assemble_enough, judge};
use simplex_messages::Certificate;
use std::alloc::{AllocError, Global};
use types_core::{Digest, Proposal, Round, Scheme, Subject};
use types_terms::Kind;

/// What votes of a kind state that are counted.
fn subject_for<'a, D: Digest>(
    kind: Kind,
    round: Round,
    selected: &'a Option<Proposal<D>>,
) -> Option<Subject<'a, D>>
    ensures { option_map statement result ≡ statement_for kind round selected.now }
{
    match kind {
        Kind::Nullification => Some(Subject::Nullify(round)),
        Kind::Notarization => match selected {
            Some(proposal) => Some(Subject::Notarize(proposal)),
            None => None,
        },
        Kind::Finalization => match selected {
            Some(proposal) => Some(Subject::Finalize(proposal)),
            None => None,
        },
    }
}

impl<S: Scheme<D>, D: Digest> Verifier<S, D> {
    /// Makes a notarization, or judges the notarizes that wait, where one of the two is due. After an `Err` the call
    /// counts as not made.
    pub fn try_construct_notarization(
        &mut self,
        alloc: Global,
    ) -> Result<Option<Batch<Certificate<S, D>>>, AllocError>
        ensures due { IfOk result
            (λ made. AtEachOf D.PartialEq.eq S.Scheme S.batchable self.old (λ s h. is_some made ≡ is_due D.PartialEq.eq s Notarization h)) }
        ensures batch { IfOk result (λ made.
            IfSome made
            (λ batch. AtEachOf D.PartialEq.eq S.Scheme S.batchable self.old (λ s h. IsBatch S.Scheme D.PartialEq.eq s Notarization h batch))) }
        ensures readable { IfOk result (λ made.
            IfSome made (λ batch.
            AtEachOf D.PartialEq.eq S.Scheme S.batchable self.old (λ s h. IfSome batch.certificate (IsReadable S.Certificate.within s.members)))) }
        ensures keeps { IfOk result (λ made.
            AtEachOf D.PartialEq.eq S.Scheme S.batchable self.old
            (λ s h. VerifierKeeps D.PartialEq.eq S.Scheme S.batchable s self.new (after Notarization made h))) }
        ensures err { OnErr result
            (AtEachOf D.PartialEq.eq S.Scheme S.batchable self.old (λ s h. VerifierKeeps D.PartialEq.eq S.Scheme S.batchable s self.new h)) }
    {
        self.construct(alloc, Kind::Notarization)
    }

    /// Makes a nullification, or judges the nullifies that wait, where one of the two is due. After an `Err` the call
    /// counts as not made.
    pub fn try_construct_nullification(
        &mut self,
        alloc: Global,
    ) -> Result<Option<Batch<Certificate<S, D>>>, AllocError>
        ensures due { IfOk result
            (λ made. AtEachOf D.PartialEq.eq S.Scheme S.batchable self.old (λ s h. is_some made ≡ is_due D.PartialEq.eq s Nullification h)) }
        ensures batch { IfOk result (λ made.
            IfSome made
            (λ batch. AtEachOf D.PartialEq.eq S.Scheme S.batchable self.old (λ s h. IsBatch S.Scheme D.PartialEq.eq s Nullification h batch))) }
        ensures readable { IfOk result (λ made.
            IfSome made (λ batch.
            AtEachOf D.PartialEq.eq S.Scheme S.batchable self.old (λ s h. IfSome batch.certificate (IsReadable S.Certificate.within s.members)))) }
        ensures keeps { IfOk result (λ made.
            AtEachOf D.PartialEq.eq S.Scheme S.batchable self.old
            (λ s h. VerifierKeeps D.PartialEq.eq S.Scheme S.batchable s self.new (after Nullification made h))) }
        ensures err { OnErr result
            (AtEachOf D.PartialEq.eq S.Scheme S.batchable self.old (λ s h. VerifierKeeps D.PartialEq.eq S.Scheme S.batchable s self.new h)) }
    {
        self.construct(alloc, Kind::Nullification)
    }

    /// Makes a finalization, or judges the finalizes that wait, where one of the two is due. After an `Err` the call
    /// counts as not made.
    pub fn try_construct_finalization(
        &mut self,
        alloc: Global,
    ) -> Result<Option<Batch<Certificate<S, D>>>, AllocError>
        ensures due { IfOk result
            (λ made. AtEachOf D.PartialEq.eq S.Scheme S.batchable self.old (λ s h. is_some made ≡ is_due D.PartialEq.eq s Finalization h)) }
        ensures batch { IfOk result (λ made.
            IfSome made
            (λ batch. AtEachOf D.PartialEq.eq S.Scheme S.batchable self.old (λ s h. IsBatch S.Scheme D.PartialEq.eq s Finalization h batch))) }
        ensures readable { IfOk result (λ made.
            IfSome made (λ batch.
            AtEachOf D.PartialEq.eq S.Scheme S.batchable self.old (λ s h. IfSome batch.certificate (IsReadable S.Certificate.within s.members)))) }
        ensures keeps { IfOk result (λ made.
            AtEachOf D.PartialEq.eq S.Scheme S.batchable self.old
            (λ s h. VerifierKeeps D.PartialEq.eq S.Scheme S.batchable s self.new (after Finalization made h))) }
        ensures err { OnErr result
            (AtEachOf D.PartialEq.eq S.Scheme S.batchable self.old (λ s h. VerifierKeeps D.PartialEq.eq S.Scheme S.batchable s self.new h)) }
    {
        self.construct(alloc, Kind::Finalization)
    }

    /// Makes a certificate of a kind, or judges the votes of the kind that wait, where one of the two is due.
    pub fn construct(
        &mut self,
        alloc: Global,
        kind: Kind,
    ) -> Result<Option<Batch<Certificate<S, D>>>, AllocError>
        ensures due { IfOk result
            (λ made. AtEachOf D.PartialEq.eq S.Scheme S.batchable self.old (λ s h. is_some made ≡ is_due D.PartialEq.eq s kind h)) }
        ensures batch { IfOk result (λ made.
            IfSome made (λ batch. AtEachOf D.PartialEq.eq S.Scheme S.batchable self.old (λ s h. IsBatch S.Scheme D.PartialEq.eq s kind h batch))) }
        ensures readable { IfOk result (λ made.
            IfSome made (λ batch.
            AtEachOf D.PartialEq.eq S.Scheme S.batchable self.old (λ s h. IfSome batch.certificate (IsReadable S.Certificate.within s.members)))) }
        ensures keeps { IfOk result (λ made.
            AtEachOf D.PartialEq.eq S.Scheme S.batchable self.old
            (λ s h. VerifierKeeps D.PartialEq.eq S.Scheme S.batchable s self.new (after kind made h))) }
        ensures err { OnErr result
            (AtEachOf D.PartialEq.eq S.Scheme S.batchable self.old (λ s h. VerifierKeeps D.PartialEq.eq S.Scheme S.batchable s self.new h)) }
    {
        if self.is_ready(kind) {
            let made = self.construct_of_verified(alloc, kind)?;
            return Ok(made);
        }
        if !self.is_worth_judging(kind) {
            return Ok(None);
        }
        match self.construct_of_waiting(alloc, kind)? {
            Some(batch) => Ok(Some(batch)),
            None => Ok(None),
        }
    }

    /// Whether it is known what votes of the kind have to state.
    fn knows(&self, kind: Kind) -> bool
        ensures { AtEachOf D.PartialEq.eq S.Scheme S.batchable self.now (λ s h. result ≡ is_some (context s kind h)) }
    {
        match kind {
            Kind::Nullification => true,
            Kind::Notarization => self.proposal.proposal().is_some(),
            Kind::Finalization => self.proposal.proposal().is_some(),
        }
    }

    /// How many votes of the kind wait.
    fn waiting(&self, kind: Kind) -> usize
        ensures { AtEachOf D.PartialEq.eq S.Scheme S.batchable self.now (λ s h. result ≡ length (waiting D.PartialEq.eq s kind h)) }
    {
        self.rows.tally(kind).waiting
    }

    /// How many votes of the kind are known to attest.
    fn verified(&self, kind: Kind) -> usize
        ensures { AtEachOf D.PartialEq.eq S.Scheme S.batchable self.now (λ s h. result ≡ length (verified D.PartialEq.eq s kind h)) }
    {
        self.rows.tally(kind).verified
    }

    /// Whether all verified votes of the kind are for what the first is for.
    fn is_of_one(&self, kind: Kind) -> bool
        ensures { AtEachOf D.PartialEq.eq S.Scheme S.batchable self.now (λ s h. result ≡ are_one D.PartialEq.eq (verified D.PartialEq.eq s kind h)) }
    {
        self.rows.is_of_one(kind)
    }

    /// Whether the verified votes of the kind are enough for a certificate.
    fn is_ready(&self, kind: Kind) -> bool
        ensures { AtEachOf D.PartialEq.eq S.Scheme S.batchable self.now (λ s h. result ≡ is_ready D.PartialEq.eq s kind h) }
    {
        self.needed as usize <= self.verified(kind) && (self.knows(kind) || self.is_of_one(kind))
    }

    /// Whether the votes of the kind that wait are worth judging.
    fn is_worth_judging(&self, kind: Kind) -> bool
        ensures { AtEachOf D.PartialEq.eq S.Scheme S.batchable self.now (λ s h. result ≡ is_worth_judging D.PartialEq.eq s kind h) }
    {
        let waiting = self.waiting(kind);
        let missing = (self.needed as usize).saturating_sub(self.verified(kind));
        self.knows(kind) && 0 < waiting && (!self.scheme.is_batchable() || missing <= waiting)
    }

    /// Makes a certificate of all verified votes of the kind.
    fn construct_of_verified(
        &mut self,
        alloc: Global,
        kind: Kind,
    ) -> Result<Option<Batch<Certificate<S, D>>>, AllocError>
        ensures batch { IfOk result (λ made.
            AtEachOf D.PartialEq.eq S.Scheme S.batchable self.old
            (λ s h. is_ready D.PartialEq.eq s kind h ≡ true → MatchOption made ⊥ (λ batch. IsOfVerified S.Scheme D.PartialEq.eq s kind h batch))) }
        ensures readable { IfOk result (λ made.
            IfSome made (λ batch.
            AtEachOf D.PartialEq.eq S.Scheme S.batchable self.old (λ s h. IfSome batch.certificate (IsReadable S.Certificate.within s.members)))) }
        ensures keeps { IfOk result (λ made.
            AtEachOf D.PartialEq.eq S.Scheme S.batchable self.old
            (λ s h. is_ready D.PartialEq.eq s kind h ≡ true → VerifierKeeps D.PartialEq.eq S.Scheme S.batchable s self.new (after kind made h))) }
        ensures err { OnErr result
            (AtEachOf D.PartialEq.eq S.Scheme S.batchable self.old (λ s h. VerifierKeeps D.PartialEq.eq S.Scheme S.batchable s self.new h)) }
    {
        let Some(certificate) = self.assemble_verified(alloc, kind)? else {
            return Ok(None);
        };
        let _changed = self.record(&certificate);
        Ok(Some(Batch {
            certificate: Some(certificate),
            invalid: Vec::new(alloc),
            processed: 0,
            fallback: false,
        }))
    }

    /// The certificate of all verified votes of the kind.
    fn assemble_verified(
        &self,
        alloc: Global,
        kind: Kind,
    ) -> Result<Option<Certificate<S, D>>, AllocError>
        ensures made { IfOk result (λ made.
            AtEachOf D.PartialEq.eq S.Scheme S.batchable self.now (λ s h.
            is_ready D.PartialEq.eq s kind h ≡ true
            → MatchOption made ⊥ (λ c. IsCertificateOf S.Scheme s kind (verified D.PartialEq.eq s kind h) c))) }
        ensures readable { IfOk result (λ made.
            IfSome made (λ c. AtEachOf D.PartialEq.eq S.Scheme S.batchable self.now (λ s h. IsReadable S.Certificate.within s.members c))) }
    {
        let Some(first) = self.rows.first_verified(kind) else {
            return Ok(None);
        };
        let subject = subject_of(first);
        let given = self.rows.attestations(alloc, kind, true)?;
        match assemble_enough::<S, D>(
            alloc,
            &self.scheme,
            &subject,
            self.needed as usize,
            &given,
        )? {
            Some(certificate) => Ok(Some(certificate_on(&subject, certificate))),
            None => Ok(None),
        }
    }

    /// Judges the votes of the kind that wait.
    fn construct_of_waiting(
        &mut self,
        alloc: Global,
        kind: Kind,
    ) -> Result<Option<Batch<Certificate<S, D>>>, AllocError>
        ensures batch { IfOk result (λ made.
            AtEachOf D.PartialEq.eq S.Scheme S.batchable self.old
            (λ s h. is_some (context s kind h) ≡ true → MatchOption made ⊥ (λ batch. IsOfWaiting S.Scheme D.PartialEq.eq s kind h batch))) }
        ensures readable { IfOk result (λ made.
            IfSome made (λ batch.
            AtEachOf D.PartialEq.eq S.Scheme S.batchable self.old (λ s h. IfSome batch.certificate (IsReadable S.Certificate.within s.members)))) }
        ensures keeps { IfOk result (λ made.
            AtEachOf D.PartialEq.eq S.Scheme S.batchable self.old
            (λ s h. VerifierKeeps D.PartialEq.eq S.Scheme S.batchable s self.new (after kind made h))) }
        ensures err { OnErr result
            (AtEachOf D.PartialEq.eq S.Scheme S.batchable self.old (λ s h. VerifierKeeps D.PartialEq.eq S.Scheme S.batchable s self.new h)) }
    {
        let selected = match self.proposal.proposal() {
            Some(proposal) => Some(*proposal),
            None => None,
        };
        let Some(subject) = subject_for(kind, self.round, &selected) else {
            return Ok(None);
        };
        let batch = self.judge(alloc, kind, &subject)?;
        Ok(Some(batch))
    }

    /// Judges the votes of the kind that wait, which state the subject.
    fn judge(
        &mut self,
        alloc: Global,
        kind: Kind,
        subject: &Subject<'_, D>,
    ) -> Result<Batch<Certificate<S, D>>, AllocError>
        ensures batch { IfOk result (λ batch.
            AtEachOf D.PartialEq.eq S.Scheme S.batchable self.old
            (λ s h. context s kind h ≡ Some (statement subject.now) → IsOfWaiting S.Scheme D.PartialEq.eq s kind h batch)) }
        ensures readable { IfOk result (λ batch.
            AtEachOf D.PartialEq.eq S.Scheme S.batchable self.old (λ s h. IfSome batch.certificate (IsReadable S.Certificate.within s.members))) }
        ensures keeps { IfOk result (λ batch.
            AtEachOf D.PartialEq.eq S.Scheme S.batchable self.old (λ s h.
            context s kind h ≡ Some (statement subject.now)
            → VerifierKeeps D.PartialEq.eq S.Scheme S.batchable s self.new (after kind (Some batch) h))) }
        ensures err { OnErr result
            (AtEachOf D.PartialEq.eq S.Scheme S.batchable self.old (λ s h. VerifierKeeps D.PartialEq.eq S.Scheme S.batchable s self.new h)) }
    {
        let processed = self.waiting(kind);
        let verified = self.rows.attestations(alloc, kind, true)?;
        let waiting = self.rows.attestations(alloc, kind, false)?;
        let Judged {
            certificate,
            invalid,
            fallback,
        } = judge::<S, D>(
            alloc,
            &self.scheme,
            subject,
            self.needed as usize,
            &verified,
            &waiting,
        )?;
        match certificate {
            Some(certificate) => {
                let certificate = certificate_on(subject, certificate);
                let _changed = self.record(&certificate);
                Ok(Batch {
                    certificate: Some(certificate),
                    invalid,
                    processed,
                    fallback,
                })
            }
            None => {
                self.rows.settle(kind, &invalid);
                Ok(Batch {
                    certificate: None,
                    invalid,
                    processed,
                    fallback,
                })
            }
        }
    }
}
