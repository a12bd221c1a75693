//! What a voter hands out.

ghost use Rattle.std.specs.Prelude.{◌≡◌, if◌then◌else◌, ◌∷◌, None, IfOk, is_some};
ghost use Rattle.types_terms.specs.declared.kind.Kind.TheVariants as kind;
ghost use Rattle.voter_history.specs.Past as past;
ghost use Rattle.voter_history.specs.History.{sent, seen};
ghost use Rattle.voter_views.specs.Views.{Keeps, AtEach};

use crate::views::Views;
use messages_certificates::{Finalization, Notarization, Nullification};
use std::alloc::{AllocError, Global};
use types_core::{Digest, Scheme, View};
use types_terms::Elector;

impl<S: Scheme<D> + Drop, L: Elector<S, D>, D: Digest> Views<S, L, D> {
    /// A copy of the notarization of the view to hand out, once.
    ///
    /// # Errors
    ///
    /// `AllocError` where memory ran out.
    pub fn broadcast_notarization(
        &mut self,
        alloc: Global,
        view: View,
    ) -> Result<Option<Notarization<S, D>>, AllocError>
        ensures keeps { IfOk result (λ copy.
            AtEach S.Scheme L.Elector self.old
            (λ s h. Keeps S.Scheme L.Elector s self.new (if is_some copy then sent kind.Notarization view ∷ h else h))) }
        ensures answer { IfOk result (λ copy.
            AtEach S.Scheme L.Elector self.old
            (λ s h. copy ≡ (if past.has_sent_notarization (seen s h view) then None else past.notarization (seen s h view)))) }
    {
        self.progress.tracked.broadcast_notarization(alloc, view)
    }

    /// A copy of the nullification of the view to hand out, once.
    ///
    /// # Errors
    ///
    /// `AllocError` where memory ran out.
    pub fn broadcast_nullification(
        &mut self,
        alloc: Global,
        view: View,
    ) -> Result<Option<Nullification<S, D>>, AllocError>
        ensures keeps { IfOk result (λ copy.
            AtEach S.Scheme L.Elector self.old
            (λ s h. Keeps S.Scheme L.Elector s self.new (if is_some copy then sent kind.Nullification view ∷ h else h))) }
        ensures answer { IfOk result (λ copy.
            AtEach S.Scheme L.Elector self.old
            (λ s h. copy ≡ (if past.has_sent_nullification (seen s h view) then None else past.nullification (seen s h view)))) }
    {
        self.progress.tracked.broadcast_nullification(alloc, view)
    }

    /// A copy of the finalization of the view to hand out, once.
    ///
    /// # Errors
    ///
    /// `AllocError` where memory ran out.
    pub fn broadcast_finalization(
        &mut self,
        alloc: Global,
        view: View,
    ) -> Result<Option<Finalization<S, D>>, AllocError>
        ensures keeps { IfOk result (λ copy.
            AtEach S.Scheme L.Elector self.old
            (λ s h. Keeps S.Scheme L.Elector s self.new (if is_some copy then sent kind.Finalization view ∷ h else h))) }
        ensures answer { IfOk result (λ copy.
            AtEach S.Scheme L.Elector self.old
            (λ s h. copy ≡ (if past.has_sent_finalization (seen s h view) then None else past.finalization (seen s h view)))) }
    {
        self.progress.tracked.broadcast_finalization(alloc, view)
    }
}
