//! The views that a record's member voted in.

ghost use Rattle.std.specs.Prelude.{◌≡◌, ℕ, false};
ghost use Rattle.types_core.specs.LatestFirst.{holds};

use std::alloc::{AllocError, Global};
use std::cmp::Reverse;
use std::collections::BTreeSet;
use types_core::View;

/// The views that a record's member voted in, by what it voted for, the latest first.
#[derive(Drop)]
pub(crate) struct Votes {
    /// The views of its notarizes.
    pub(crate) notarizes: BTreeSet<Reverse<View>>,
    /// The views of its nullifies.
    pub(crate) nullifies: BTreeSet<Reverse<View>>,
    /// The views of its finalizes.
    pub(crate) finalizes: BTreeSet<Reverse<View>>,
}

impl Votes {
    /// No votes.
    pub(crate) fn new(alloc: Global) -> Self
        ensures notarizes { (view : ℕ) → holds result.notarizes view ≡ false }
        ensures nullifies { (view : ℕ) → holds result.nullifies view ≡ false }
        ensures finalizes { (view : ℕ) → holds result.finalizes view ≡ false }
    {
        Votes {
            notarizes: BTreeSet::new(alloc),
            nullifies: BTreeSet::new(alloc),
            finalizes: BTreeSet::new(alloc),
        }
    }
}
