//! By which certificate a voter's current view is entered.

ghost use Rattle.std.specs.Prelude.{◌≡◌, ◌==◌, ◌<◌, if◌then◌else◌, IfOk, None, option_copied};
ghost use Rattle.types_core.specs.Positions.{term_start};
ghost use Rattle.voter_rules.specs.Answers.{best_certificate, covering_nullification, entry_certificate};
ghost use Rattle.simplex_state.specs.State.{AtEach};

use crate::state::State;
use messages_certificates::{Certificate, Nullification};
use std::alloc::{AllocError, Global};
use types_core::{Digest, Duplicate, Scheme, View};
use types_terms::Elector;

impl<S: Scheme<D> + Drop, L: Elector<S, D>, D: Digest> State<S, L, D> {
    /// A copy of the best certificate by which others enter the current view: the finalization of the view before; or where a term
    /// starts the highest nullification of that view's term up to it, which shows that its rest was skipped; or the notarization of
    /// the view before. The cost is that of one copy and of some looks at ordered maps.
    ///
    /// # Errors
    ///
    /// `AllocError` where memory ran out.
    pub fn get_best_certificate(
        &self,
        alloc: Global,
    ) -> Result<Option<Certificate<S, D>>, AllocError>
        ensures { IfOk result (λ best. AtEach S.Scheme L.Elector self.now (λ s h. best ≡ best_certificate s h)) }
    {
        let view = self.views.current_view();
        let Some(before) = view.previous() else {
            return Ok(None);
        };
        if before.is_zero() {
            return Ok(None);
        }
        self.entry_certificate(alloc, view, before)
    }

    /// A copy of the best certificate to enter the view by, whose view before is this one, behind the start.
    fn entry_certificate(
        &self,
        alloc: Global,
        view: View,
        before: View,
    ) -> Result<Option<Certificate<S, D>>, AllocError>
        ensures { IfOk result (λ best. AtEach S.Scheme L.Elector self.now (λ s h. 0 < before → best ≡ entry_certificate s h view before)) }
    {
        if let Some(finalization) = self.views.finalization(before) {
            let copy = finalization.duplicate(alloc)?;
            return Ok(Some(Certificate::Finalization(copy)));
        }
        if let Some(nullification) = self.skipping_nullification(view, before) {
            let copy = nullification.duplicate(alloc)?;
            return Ok(Some(Certificate::Nullification(copy)));
        }
        match self.views.notarization(before) {
            Some(notarization) => {
                let copy = notarization.duplicate(alloc)?;
                Ok(Some(Certificate::Notarization(copy)))
            }
            None => Ok(None),
        }
    }

    /// The highest nullification that covers the view before, where this one starts a term.
    fn skipping_nullification(&self, view: View, before: View) -> Option<&Nullification<S, D>>
        ensures { AtEach S.Scheme L.Elector self.now
            (λ s h. option_copied result ≡ (if view == term_start s.length view then covering_nullification s h before else None)) }
    {
        if !view.is_term_start(self.views.lookahead().length) {
            return None;
        }
        self.views.covering_nullification(before)
    }
}
