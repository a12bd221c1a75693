//! Adding artifacts to what is kept of a record.

ghost use Rattle.std.specs.Prelude.{◌≡◌, ◌++◌, ◌∷◌, ◌+◌, ◌<◌, ◌^◌, [], ℕ, List, OnOk};
ghost use Rattle.types_core.specs.Positions.{HasRoom};
ghost use Rattle.types_core.specs.Subject.{notarize, nullify, finalize};
ghost use Rattle.simplex_record.specs.Record.{Entry, voted, taken, judged};
ghost use Rattle.simplex_record.specs.Rules.{MayTake, MayJudge};
ghost use Rattle.simplex_record.specs.CheckerState.{KeepsViews};

use crate::standing::Standing;
use std::alloc::AllocError;
use std::cmp::Reverse;
use types_core::{Digest, Proposal, Round, TermLength};

impl<D: Digest> Standing<D> {
    /// Adds the member's vote to notarize the proposal.
    pub(crate) fn add_notarize(&mut self, proposal: &Proposal<D>) -> Result<(), AllocError>
        ensures keeps { OnOk result ((views : ℕ) (before : List (Entry D))
            → KeepsViews views self.old before
            → KeepsViews views self.new (before ++ voted (notarize proposal.now) ∷ [])) }
        ensures numbering { OnOk result (self.new.numbering ≡ self.old.numbering) }
    {
        self.votes.notarizes.insert(Reverse(proposal.round.view))?;
        Ok(())
    }

    /// Adds its vote to nullify the round.
    pub(crate) fn add_nullify(&mut self, round: Round) -> Result<(), AllocError>
        ensures keeps { OnOk result ((views : ℕ) (before : List (Entry D))
            → KeepsViews views self.old before
            → KeepsViews views self.new (before ++ voted (nullify round) ∷ [])) }
        ensures numbering { OnOk result (self.new.numbering ≡ self.old.numbering) }
    {
        self.votes.nullifies.insert(Reverse(round.view))?;
        Ok(())
    }

    /// Adds its vote to finalize the proposal.
    pub(crate) fn add_finalize(&mut self, proposal: &Proposal<D>) -> Result<(), AllocError>
        ensures keeps { OnOk result ((views : ℕ) (before : List (Entry D))
            → KeepsViews views self.old before
            → KeepsViews views self.new (before ++ voted (finalize proposal.now) ∷ [])) }
        ensures numbering { OnOk result (self.new.numbering ≡ self.old.numbering) }
    {
        self.votes.finalizes.insert(Reverse(proposal.round.view))?;
        Ok(())
    }

    /// Adds a notarization of the proposal.
    pub(crate) fn add_notarization(&mut self, proposal: &Proposal<D>) -> Result<(), AllocError>
        ensures keeps { OnOk result ((views : ℕ) (before : List (Entry D))
            → KeepsViews views self.old before
            → MayTake views before (notarize proposal.now)
            → KeepsViews views self.new (before ++ taken (notarize proposal.now) ∷ [])) }
        ensures numbering { OnOk result (self.new.numbering ≡ self.old.numbering) }
    {
        self.certificates
            .notarizations
            .insert(Reverse(proposal.round.view), *proposal)?;
        Ok(())
    }

    /// Adds a nullification of the round, of which the view has room.
    pub(crate) fn add_nullification(
        &mut self,
        length: TermLength,
        round: Round,
    ) -> Result<(), AllocError>
        requires { HasRoom length round.view }
        ensures keeps { OnOk result ((before : List (Entry D))
            → KeepsViews length self.old before
            → MayTake length before (nullify round)
            → KeepsViews length self.new (before ++ taken (nullify round) ∷ [])) }
        ensures numbering { OnOk result (self.new.numbering ≡ self.old.numbering) }
    {
        let end = round.view.term_end(length);
        self.certificates.covered.cover(round.view, end)?;
        self.certificates
            .nullifications
            .insert(Reverse(round.view))?;
        self.current_view = self.current_view.max(end.next());
        Ok(())
    }

    /// Adds a finalization of the proposal, of which the view isn't the last number of 64 bits.
    pub(crate) fn add_finalization(&mut self, proposal: &Proposal<D>) -> Result<(), AllocError>
        requires { proposal.now.round.view + 1 < 2 ^ 64 }
        ensures keeps { OnOk result ((views : ℕ) (before : List (Entry D))
            → KeepsViews views self.old before
            → MayTake views before (finalize proposal.now)
            → KeepsViews views self.new (before ++ taken (finalize proposal.now) ∷ [])) }
        ensures numbering { OnOk result (self.new.numbering ≡ self.old.numbering) }
    {
        let view = proposal.round.view;
        self.certificates.finalizations.insert(Reverse(view))?;
        self.last_finalized = self.last_finalized.max(view);
        self.current_view = self.current_view.max(view.next());
        Ok(())
    }

    /// Adds a verdict on the round, of which the view isn't the last number of 64 bits.
    pub(crate) fn add_verdict(&mut self, round: Round, verdict: bool) -> Result<(), AllocError>
        requires { round.view + 1 < 2 ^ 64 }
        ensures keeps { OnOk result ((views : ℕ) (before : List (Entry D))
            → KeepsViews views self.old before
            → MayJudge before round
            → KeepsViews views self.new (before ++ judged round verdict ∷ [])) }
        ensures numbering { OnOk result (self.new.numbering ≡ self.old.numbering) }
    {
        self.verdicts.insert(Reverse(round.view), verdict)?;
        if verdict {
            self.current_view = self.current_view.max(round.view.next());
        }
        Ok(())
    }
}
