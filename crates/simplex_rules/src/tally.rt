//! The count of an audit: what is kept of each signer's votes of each round.

ghost use Rattle.std.specs.Prelude.{◌≡◌, ◌++◌, ◌∷◌, [], List, OnOk, IfOk, slice_get};
ghost use Rattle.std.specs.BTreeSet.{BTreeSet};
ghost use Rattle.simplex_messages.specs.Activity.{conflicting_finalize_report, conflicting_notarize_report, notarize_report, nullify_finalize_report};
ghost use Rattle.simplex_messages.specs.declared.activity.Activity.{Activity};
ghost use Rattle.simplex_rules.specs.declared.cast.Suspect.{Suspect};
ghost use Rattle.simplex_rules.specs.Audit.{IsVerdict};
ghost use Rattle.simplex_rules.specs.Kept.{StandsAt};
ghost use Rattle.simplex_rules.specs.Survey.{HasGuilty};
ghost use Rattle.simplex_rules.specs.Tally.{AddsEvidence, AreApart, HoldsReports, IsBesideIn, conflict_in, evidence_at, reported};

use crate::ballots::Ballots;
use crate::cast::Suspect;
use crate::nullifies::Nullifies;
use crate::roster::Suspects;
use audit_evidence::{held_finalizes, held_notarizes, held_nullifies};
use simplex_messages::{Activity, Finalizing, Notarize, Notarizing, NullifyFinalize};
use std::alloc::{AllocError, Global};
use types_core::{Digest, Listing, Scheme};

/// What is kept of each suspect's votes.
#[derive(Drop)]
pub(crate) struct Tally<S: Scheme<D>, D: Digest> {
    notarizes: Ballots<Notarizing, S, D>,
    nullifies: Nullifies<S, D>,
    finalizes: Ballots<Finalizing, S, D>,
}

impl<S: Scheme<D>, D: Digest> Tally<S, D> {
    /// Nothing counted.
    pub(crate) fn new(alloc: Global) -> Self
        ensures { (scheme : S) (contested : BTreeSet Suspect) → HoldsReports S.lists (S.attests scheme) D.cmp contested [] result }
    {
        Tally {
            notarizes: Ballots::new(alloc),
            nullifies: Nullifies::new(alloc),
            finalizes: Ballots::new(alloc),
        }
    }

    /// The evidence against the guilty, who are among the contested, sorted by epoch, view, signer and kind.
    pub(crate) fn evidence(
        &self,
        alloc: Global,
        scheme: &S,
        contested: &Suspects,
    ) -> Result<Vec<Activity<S, D>>, AllocError>
        requires { (reports : List (Activity S D S.PublicKey S.Signature S.Certificate)) × HoldsReports S.lists (S.attests scheme.now) D.cmp
            contested.now reports self.now }
        ensures { IfOk result (λ evidence.
            (reports : List (Activity S D S.PublicKey S.Signature S.Certificate))
            → HasGuilty S.lists (S.attests scheme.now) reports contested.now
            → HoldsReports S.lists (S.attests scheme.now) D.cmp contested.now reports self.now
            → IsVerdict S.lists (S.attests scheme.now) D.cmp reports evidence.items) }
    {
        let mut evidence = Vec::new(alloc);
        let suspects = contested.as_slice();
        for place in 0..suspects.len() {
            self.push_evidence(scheme, place, &suspects[place], &mut evidence)?;
        }
        Ok(evidence)
    }

    /// Appends the evidence against the suspect at the place, in the order of kinds.
    fn push_evidence(
        &self,
        scheme: &S,
        place: usize,
        suspect: &Suspect,
        evidence: &mut Vec<Activity<S, D>>,
    ) -> Result<(), AllocError>
        requires notarizes { AreApart self.now.notarizes.kept.items place }
        requires finalizes { AreApart self.now.finalizes.kept.items place }
        ensures { OnOk result ((contested : BTreeSet Suspect)
            → StandsAt contested place suspect.now
            → AddsEvidence S.lists (S.attests scheme.now) D.cmp contested self.now suspect.now (evidence_at contested self.now suspect.now)
            evidence.old.items evidence.new.items) }
    {
        self.push_notarizes(place, suspect, evidence)?;
        self.push_finalizes(place, suspect, evidence)?;
        self.push_beside(scheme, place, suspect, evidence)
    }

    /// Appends the suspect's two notarizes, if they are kept.
    fn push_notarizes(
        &self,
        place: usize,
        suspect: &Suspect,
        evidence: &mut Vec<Activity<S, D>>,
    ) -> Result<(), AllocError>
        requires { AreApart self.now.notarizes.kept.items place }
        ensures { OnOk result (evidence.new.items ≡ evidence.old.items ++ reported conflicting_notarize_report
            (conflict_in suspect.now (slice_get self.now.notarizes.kept.items place))) }
    {
        match self.notarizes.conflict(place, suspect) {
            None => Ok(()),
            Some(votes) => push(evidence, Activity::ConflictingNotarize(votes)),
        }
    }

    /// Appends the suspect's two finalizes, if they are kept.
    fn push_finalizes(
        &self,
        place: usize,
        suspect: &Suspect,
        evidence: &mut Vec<Activity<S, D>>,
    ) -> Result<(), AllocError>
        requires { AreApart self.now.finalizes.kept.items place }
        ensures { OnOk result (evidence.new.items ≡ evidence.old.items ++ reported conflicting_finalize_report
            (conflict_in suspect.now (slice_get self.now.finalizes.kept.items place))) }
    {
        match self.finalizes.conflict(place, suspect) {
            None => Ok(()),
            Some(votes) => push(evidence, Activity::ConflictingFinalize(votes)),
        }
    }

    /// Appends the suspect's nullify beside its finalize, if it is guilty of that.
    fn push_beside(
        &self,
        scheme: &S,
        place: usize,
        suspect: &Suspect,
        evidence: &mut Vec<Activity<S, D>>,
    ) -> Result<(), AllocError>
        ensures { OnOk result ((contested : BTreeSet Suspect)
            → StandsAt contested place suspect.now
            → AddsEvidence S.lists (S.attests scheme.now) D.cmp contested self.now suspect.now (reported nullify_finalize_report)
            evidence.old.items evidence.new.items) }
    {
        match self.beside(scheme, place, suspect) {
            None => Ok(()),
            Some(votes) => push(evidence, Activity::NullifyFinalize(votes)),
        }
    }

    /// The suspect's first nullify that verifies, and beside it its first finalize for the least
    /// proposal that does.
    fn beside(&self, scheme: &S, place: usize, suspect: &Suspect) -> Option<NullifyFinalize<S, D>>
        ensures { (contested : BTreeSet Suspect)
            → StandsAt contested place suspect.now
            → IsBesideIn S.lists (S.attests scheme.now) D.cmp contested self.now suspect.now result }
    {
        if !self.finalizes.contains(place) {
            return None;
        }
        let nullify = self.nullifies.first(scheme, place, suspect)?;
        let finalize = self.finalizes.least(scheme, place, suspect)?;
        Some(NullifyFinalize::new(nullify, finalize))
    }
}

impl<S: Listing<D>, D: Digest> Tally<S, D> {
    /// Counts the votes that the report holds. Those of the contested are weighed.
    pub(crate) fn count_report(
        &mut self,
        scheme: &S,
        contested: &Suspects,
        report: &Activity<S, D>,
    ) -> Result<(), AllocError>
        ensures { OnOk result ((reports : List (Activity S D S.PublicKey S.Signature S.Certificate))
            → HoldsReports S.lists (S.attests scheme.now) D.cmp contested.now reports self.old
            → HoldsReports S.lists (S.attests scheme.now) D.cmp contested.now (reports ++ report.now ∷ []) self.new) }
    {
        self.notarizes
            .count_held(scheme, contested, held_notarizes(report))?;
        self.nullifies
            .count_held(scheme, contested, held_nullifies(report))?;
        self.finalizes
            .count_held(scheme, contested, held_finalizes(report))
    }

    /// Counts a loose notarize.
    #[inline(always)]
    pub(crate) fn count_notarize(
        &mut self,
        scheme: &S,
        contested: &Suspects,
        vote: &Notarize<S, D>,
    ) -> Result<(), AllocError>
        ensures { OnOk result ((reports : List (Activity S D S.PublicKey S.Signature S.Certificate))
            → HoldsReports S.lists (S.attests scheme.now) D.cmp contested.now reports self.old
            → HoldsReports S.lists (S.attests scheme.now) D.cmp contested.now (reports ++ notarize_report vote.now ∷ []) self.new) }
    {
        self.notarizes.count(scheme, contested, vote)
    }
}

/// Appends the item.
fn push<T: Drop>(items: &mut Vec<T>, item: T) -> Result<(), AllocError>
    ensures { OnOk result (items.new.items ≡ items.old.items ++ item ∷ []) }
{
    items.push(item)?;
    Ok(())
}
