//! What a record's member has certificates for.

ghost use Rattle.std.specs.Prelude.{◌≡◌, ◌↔◌, ℕ, Some, None, IsTrue, false};
ghost use Rattle.std.specs.Option.{option_copied};
ghost use Rattle.types_core.specs.LatestFirst.{holds, stored};
ghost use Rattle.simplex_record.specs.Coverage.{IsCovered};

use crate::coverage::Coverage;
use std::alloc::{AllocError, Global};
use std::cmp::Reverse;
use std::collections::{BTreeMap, BTreeSet};
use types_core::{Digest, Proposal, View};

/// What a record's member has certificates for, that of the latest view first.
#[derive(Drop)]
pub(crate) struct Certificates<D: Digest> {
    /// The proposals that are notarized, by their views.
    pub(crate) notarizations: BTreeMap<Reverse<View>, Proposal<D>>,
    /// The views that are nullified.
    pub(crate) nullifications: BTreeSet<Reverse<View>>,
    /// The views that are finalized.
    pub(crate) finalizations: BTreeSet<Reverse<View>>,
    /// The views that nullifications cover.
    pub(crate) covered: Coverage,
}

impl<D: Digest> Certificates<D> {
    /// No certificates.
    pub(crate) fn new(alloc: Global) -> Self
        ensures notarizations { (view : ℕ) → stored result.notarizations view ≡ None }
        ensures nullifications { (view : ℕ) → holds result.nullifications view ≡ false }
        ensures finalizations { (view : ℕ) → holds result.finalizations view ≡ false }
        ensures covered { (view : ℕ) → ¬ IsCovered result.covered view }
    {
        Certificates {
            notarizations: BTreeMap::new(alloc),
            nullifications: BTreeSet::new(alloc),
            finalizations: BTreeSet::new(alloc),
            covered: Coverage::new(alloc),
        }
    }

    /// The proposal of a view that is notarized.
    pub(crate) fn notarized(&self, view: View) -> Option<&Proposal<D>>
        ensures { option_copied result ≡ stored self.now.notarizations view }
    {
        self.notarizations.get(&Reverse(view))
    }

    /// Whether this proposal is.
    pub(crate) fn has_notarized(&self, proposal: &Proposal<D>) -> bool
        ensures { IsTrue result ↔ (stored self.now.notarizations proposal.now.round.view ≡ Some proposal.now) }
    {
        match self.notarized(proposal.round.view) {
            Some(notarized) => notarized == proposal,
            None => false,
        }
    }
}
