//! How far a record reaches.

ghost use Rattle.std.specs.Prelude.{◌≡◌};
ghost use Rattle.simplex_record.specs.Record.{entries, entry, finalizes, greatest};
ghost use Rattle.cli_opening.specs.Looking.{view_of};

use simplex_messages::Artifact;
use simplex_types::PlainScheme;
use types_core::{Sha256Digest, Viewable};

/// An entry of a record under the plain scheme.
pub(crate) type Plain = Artifact<PlainScheme, Sha256Digest>;

/// The highest view that one of these is of, or 0.
pub(crate) fn highest_view(artifacts: &[Plain]) -> u64
    ensures { result ≡ greatest 0 view_of artifacts.now }
{
    let mut highest = 0u64;
    let mut rest = artifacts;
    while let Some((artifact, behind)) = rest.split_first() {
        highest = highest.max(artifact.view().get());
        rest = behind;
    }
    highest
}

/// The highest view of which one of these is a finalization, or 0.
pub(crate) fn last_finalized(artifacts: &[Plain]) -> u64
    ensures { result ≡ greatest 0 finalizes (entries artifacts.now) }
{
    let mut highest = 0u64;
    let mut rest = artifacts;
    while let Some((artifact, behind)) = rest.split_first() {
        highest = highest.max(finalized_by(artifact));
        rest = behind;
    }
    highest
}

/// The view that an artifact finalizes, and 0 where it finalizes none.
fn finalized_by(artifact: &Plain) -> u64
    ensures { result ≡ finalizes (entry artifact.now) }
{
    match artifact {
        Artifact::Finalization(finalization) => finalization.view().get(),
        _ => 0,
    }
}
