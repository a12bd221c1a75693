//! What a voter has asked for: verifications, certificates that proposals wait for, verdicts.

ghost use Rattle.std.specs.Prelude.{◌≡◌, ◌↔◌, if◌then◌else◌, ◌∷◌, IsTrue, OnOk};
ghost use Rattle.voter_history.specs.Past.{MayVerify};
ghost use Rattle.voter_history.specs.History.{ancestry_asked, certify_asked, certify_waited, seen, verify_asked};
ghost use Rattle.voter_history.specs.Leaders.{leader};
ghost use Rattle.voter_views.specs.Views.{Keeps, AtEach};

use crate::views::Views;
use std::alloc::AllocError;
use types_core::{Digest, Proposal, Scheme, View};
use types_terms::Elector;
use voter_history::Token;
use voter_rounds::Notice;

impl<S: Scheme<D> + Drop, L: Elector<S, D>, D: Digest> Views<S, L, D> {
    /// Asks for a verification of the view's proposal over its parent's payload, and binds it to that: whether one may be asked
    /// for, since another member leads the view, this one has not given it up, and none was asked for. Else nothing changes.
    pub fn request_verify(&mut self, view: View, proposal: Proposal<D>, parent_payload: D) -> bool
        ensures keeps { AtEach S.Scheme L.Elector self.old
            (λ s h. Keeps S.Scheme L.Elector s self.new (if result then verify_asked view proposal parent_payload ∷ h else h)) }
        ensures answer { AtEach S.Scheme L.Elector self.old (λ s h. IsTrue result ↔ MayVerify s.me (leader s h view) (seen s h view)) }
    {
        self.progress
            .tracked
            .request_verify(view, proposal, parent_payload)
    }

    /// Takes it that the certificate of another view, for which the view's proposal waits, was asked for. Which one was last is
    /// told by the view's round (`is_requested`).
    ///
    /// # Errors
    ///
    /// `AllocError` where memory ran out.
    pub fn request(&mut self, view: View, missing: View) -> Result<(), AllocError>
        ensures { OnOk result (AtEach S.Scheme L.Elector self.old (λ s h. Keeps S.Scheme L.Elector s self.new (ancestry_asked view missing ∷ h))) }
    {
        self.tell(view, Notice::AncestryAsked(missing))
    }

    /// Takes it that a verdict on the view was asked for, under this name.
    ///
    /// # Errors
    ///
    /// `AllocError` where memory ran out.
    pub fn set_certify_handle(&mut self, view: View, handle: Token) -> Result<(), AllocError>
        ensures { OnOk result (AtEach S.Scheme L.Elector self.old (λ s h. Keeps S.Scheme L.Elector s self.new (certify_asked view handle ∷ h))) }
    {
        self.tell(view, Notice::CertifyAsked(handle))
    }

    /// Takes it that a verdict on the view was put off until its parent has one.
    ///
    /// # Errors
    ///
    /// `AllocError` where memory ran out.
    pub fn put_off_verdict(&mut self, view: View) -> Result<(), AllocError>
        ensures { OnOk result (AtEach S.Scheme L.Elector self.old (λ s h. Keeps S.Scheme L.Elector s self.new (certify_waited view ∷ h))) }
    {
        self.waiting.mark(view)
    }
}
