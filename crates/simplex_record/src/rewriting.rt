//! What a rewrite leaves of a record.

ghost use Rattle.std.specs.Prelude.{◌≡◌, ◌↔◌, ◌<◌, ◌++◌, ◌∷◌, [], if◌then◌else◌, IfOk, IsTrue, OnOk};
ghost use Rattle.types_core.specs.Positions.{term_end};
ghost use Rattle.simplex_record.specs.Record.{entry};
ghost use Rattle.simplex_record.specs.Rules.{reach};
ghost use Rattle.simplex_record.specs.Lawful.{rewritten};

use messages_certificates::{Artifact, Finalization};
use std::alloc::{AllocError, Global};
use types_core::{Digest, Duplicate, Scheme, TermLength, View, Viewable};

/// What a rewrite behind this finalization leaves of these artifacts, where terms have so many views: it, and in their order those
/// that reach above its view. Refused only where memory is.
pub fn rewritten<S: Scheme<D>, D: Digest>(
    alloc: Global,
    length: TermLength,
    floor: &Finalization<S, D>,
    artifacts: &[Artifact<S, D>],
) -> Result<Vec<Artifact<S, D>>, AllocError>
    ensures { IfOk result (λ left. left.items ≡ rewritten length floor.now artifacts.now) }
{
    let mut left = Vec::new(alloc);
    left.push(Artifact::Finalization(floor.duplicate(alloc)?))?;
    let mut rest = artifacts;
    while let Some((artifact, behind)) = rest.split_first() {
        let reaches = reaches_above(length, artifact, floor.view());
        keep_if(reaches, alloc, &mut left, artifact)?;
        rest = behind;
    }
    Ok(left)
}

/// Puts an equal artifact behind these, where that is asked.
fn keep_if<S: Scheme<D>, D: Digest>(
    reaches: bool,
    alloc: Global,
    left: &mut Vec<Artifact<S, D>>,
    artifact: &Artifact<S, D>,
) -> Result<(), AllocError>
    ensures { OnOk result (left.new.items ≡ (if reaches then left.old.items ++ artifact.now ∷ [] else left.old.items)) }
{
    if reaches {
        left.push(artifact.duplicate(alloc)?)?;
    }
    Ok(())
}

/// Whether an artifact reaches above the view: a nullification up to the end of its term, all else up to its own view.
pub fn reaches_above<S: Scheme<D>, D: Digest>(
    length: TermLength,
    artifact: &Artifact<S, D>,
    view: View,
) -> bool
    ensures { IsTrue result ↔ (view < reach length (entry artifact.now)) }
{
    match artifact {
        Artifact::Nullification(certificate) => ends_above(length, certificate.round.view, view),
        Artifact::Notarize(vote) => vote.view() > view,
        Artifact::Notarization(certificate) => certificate.view() > view,
        Artifact::Certification(round, _) => round.view > view,
        Artifact::Nullify(vote) => vote.view() > view,
        Artifact::Finalize(vote) => vote.view() > view,
        Artifact::Finalization(certificate) => certificate.view() > view,
    }
}

/// Whether the term that holds one view ends above another. Its last view may lie beyond the numbers of 64 bits.
fn ends_above(length: TermLength, within: View, view: View) -> bool
    ensures { IsTrue result ↔ (view < term_end length within) }
{
    match within
        .term_index(length)
        .checked_mul(u64::from(length.get()))
    {
        Some(end) => end > view.get(),
        None => true,
    }
}
