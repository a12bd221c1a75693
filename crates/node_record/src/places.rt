//! Where in a record the certificates of a view stand.

ghost use Rattle.std.specs.Prelude.{◌≡◌, ◌==◌, ◌++◌, ◌∷◌, [], ℕ, List, length, Some, None, IfOk, OnOk, if◌then◌else◌};
ghost use Rattle.std.specs.Option.{option_copied, option_or};
ghost use Rattle.types_core.specs.LatestFirst.{stored};
ghost use Rattle.messages_certificates.specs.declared.artifact.Artifact.{Artifact};
ghost use Rattle.node_record.specs.Places.{KeepsPlaces, as_finalization, as_notarization, as_nullify};

use messages_certificates::{Artifact, Finalization, Notarization, Nullify};
use std::alloc::{AllocError, Global};
use std::cmp::Reverse;
use std::collections::BTreeMap;
use types_core::{Digest, Scheme, View, Viewable};

/// Behind how many artifacts the first notarization of each view stands, and the first finalization.
#[derive(Drop)]
pub(crate) struct Places {
    /// Those of the notarizations.
    pub(crate) notarizations: BTreeMap<Reverse<View>, usize>,
    /// Those of the finalizations.
    pub(crate) finalizations: BTreeMap<Reverse<View>, usize>,
}

impl Places {
    /// Those of these artifacts.
    pub(crate) fn of<S: Scheme<D>, D: Digest>(
        alloc: Global,
        artifacts: &[Artifact<S, D>],
    ) -> Result<Self, AllocError>
        ensures { IfOk result (λ places. KeepsPlaces places artifacts.now) }
    {
        let mut places = Places {
            notarizations: BTreeMap::new(alloc),
            finalizations: BTreeMap::new(alloc),
        };
        for (place, artifact) in artifacts.iter().enumerate() {
            places.add(place, artifact)?;
        }
        Ok(places)
    }

    /// Adds an artifact behind so many others.
    pub(crate) fn add<S: Scheme<D>, D: Digest>(
        &mut self,
        place: usize,
        artifact: &Artifact<S, D>,
    ) -> Result<(), AllocError>
        ensures { OnOk result ((xs : List (Artifact S D S.PublicKey S.Signature S.Certificate))
            → place ≡ length xs
            → KeepsPlaces self.old xs
            → KeepsPlaces self.new (xs ++ artifact.now ∷ [])) }
    {
        if let Some(certificate) = notarization_of(artifact) {
            return add_first(&mut self.notarizations, certificate.view(), place);
        }
        if let Some(certificate) = finalization_of(artifact) {
            return add_first(&mut self.finalizations, certificate.view(), place);
        }
        Ok(())
    }
}

/// Puts a place under the view, where none is.
fn add_first(
    places: &mut BTreeMap<Reverse<View>, usize>,
    view: View,
    place: usize,
) -> Result<(), AllocError>
    ensures { OnOk result ((v : ℕ) → stored places.new v ≡ option_or (stored places.old v) (if view == v then Some place else None)) }
{
    if places.contains_key(&Reverse(view)) {
        return Ok(());
    }
    places.insert(Reverse(view), place)?;
    Ok(())
}

/// The notarization that an artifact is.
pub(crate) fn notarization_of<S: Scheme<D>, D: Digest>(
    artifact: &Artifact<S, D>,
) -> Option<&Notarization<S, D>>
    ensures { option_copied result ≡ as_notarization artifact.now }
{
    match artifact {
        Artifact::Notarization(certificate) => Some(certificate),
        Artifact::Notarize(_)
        | Artifact::Certification(..)
        | Artifact::Nullify(_)
        | Artifact::Nullification(_)
        | Artifact::Finalize(_)
        | Artifact::Finalization(_) => None,
    }
}

/// The finalization that an artifact is.
pub(crate) fn finalization_of<S: Scheme<D>, D: Digest>(
    artifact: &Artifact<S, D>,
) -> Option<&Finalization<S, D>>
    ensures { option_copied result ≡ as_finalization artifact.now }
{
    match artifact {
        Artifact::Finalization(certificate) => Some(certificate),
        Artifact::Notarize(_)
        | Artifact::Notarization(_)
        | Artifact::Certification(..)
        | Artifact::Nullify(_)
        | Artifact::Nullification(_)
        | Artifact::Finalize(_) => None,
    }
}

/// The own nullify that an artifact is.
pub(crate) fn nullify_of<S: Scheme<D>, D: Digest>(
    artifact: &Artifact<S, D>,
) -> Option<&Nullify<S, D>>
    ensures { option_copied result ≡ as_nullify artifact.now }
{
    match artifact {
        Artifact::Nullify(vote) => Some(vote),
        Artifact::Notarize(_)
        | Artifact::Notarization(_)
        | Artifact::Certification(..)
        | Artifact::Nullification(_)
        | Artifact::Finalize(_)
        | Artifact::Finalization(_) => None,
    }
}
