//! What a voter takes in from the record of its member, and what it drops.

ghost use Rattle.std.specs.Prelude.{◌≡◌, ◌↔◌, Bool, ◌∷◌, IfOk, IsTrue, OnOk};
ghost use Rattle.voter_rounds.specs.Rounds.{Takes};
ghost use Rattle.voter_history.specs.History.{pruned, seen};
ghost use Rattle.voter_rules.specs.Answers.{AreDropped};
ghost use Rattle.voter_views.specs.Views.{recalls};
ghost use Rattle.simplex_state.specs.LowestDue.{IsTrueVerdict};
ghost use Rattle.simplex_state.specs.State.{AtEach, Keeps};

use crate::state::State;
use crate::state::certifying::wake;
use messages_certificates::Artifact;
use std::alloc::{AllocError, Global};
use types_core::{Digest, Scheme, View, Viewable};
use types_terms::Elector;

impl<S: Scheme<D> + Drop, L: Elector<S, D>, D: Digest> State<S, L, D> {
    /// Takes in an artifact of this member's record, in the order of the record. No view is entered. A vote counts as its
    /// own: a notarize offers its proposal, where none or the same is held, and binds it to the payload that its parent
    /// holds, where that has no certificate. Of a certificate it only takes in that it was handed out: the certificate
    /// itself comes by its `add_` call, and a verdict by `certified`.
    ///
    /// # Errors
    ///
    /// `AllocError` where memory ran out.
    pub fn replay(&mut self, artifact: &Artifact<S, D>) -> Result<(), AllocError>
        ensures { OnOk result (AtEach S.Scheme L.Elector self.old
            (λ s h. (taken : Bool) × Takes (seen s h) artifact.now taken × Keeps S.Scheme L.Elector s self.new (recalls taken artifact.now ∷ h))) }
    {
        wake(&mut self.candidates, artifact.view())?;
        self.finalizes
            .add_if(artifact.view(), is_true_verdict(artifact))?;
        self.views.replay(artifact)
    }

    /// Drops what is known of the views that need not be kept, and answers those of which something was known, ascending. A
    /// nullification whose term ends above the last finalized view stays, and so does what is covered: a view that is kept may
    /// still be notarized over any parent below it. The cost is that of what is dropped.
    ///
    /// # Errors
    ///
    /// `AllocError` where memory ran out.
    pub fn prune(&mut self, alloc: Global) -> Result<Vec<View>, AllocError>
        ensures keeps { OnOk result (AtEach S.Scheme L.Elector self.old (λ s h. Keeps S.Scheme L.Elector s self.new (pruned ∷ h))) }
        ensures dropped { IfOk result (λ views. AtEach S.Scheme L.Elector self.old (λ s h. AreDropped s h views.items)) }
    {
        let floor = self.views.min_active();
        self.notarizes.forget_below(floor);
        self.finalizes.forget_below(floor);
        self.views.prune(alloc)
    }
}

/// Whether the artifact is a true verdict.
fn is_true_verdict<S: Scheme<D>, D: Digest>(artifact: &Artifact<S, D>) -> bool
    ensures { IsTrue result ↔ IsTrueVerdict artifact.now }
{
    match artifact {
        Artifact::Certification(_, is_success) => *is_success,
        _ => false,
    }
}
