//! How a voter starts.

ghost use Rattle.std.specs.Prelude.{IfOk};
ghost use Rattle.simplex_state.specs.Floor.{StandsOn, StartsOn};
ghost use Rattle.simplex_state.specs.State.{AtEach};

use crate::state::State;
use messages_certificates::Finalization;
use std::alloc::{AllocError, Global};
use types_core::{Digest, Scheme, Viewable};
use types_terms::Elector;
use voter_rules::Floor;

impl<S: Scheme<D> + Drop, L: Elector<S, D>, D: Digest> State<S, L, D> {
    /// Starts on the payload of view 0, or on a proposal that is final already. That one's finalization is answered and counts as
    /// handed out, since whoever starts the voter reports it.
    ///
    /// # Errors
    ///
    /// `AllocError` where memory ran out.
    pub fn set_floor(
        &mut self,
        alloc: Global,
        now: u64,
        floor: Floor<S, D>,
    ) -> Result<Option<Finalization<S, D>>, AllocError>
        ensures { IfOk result (λ answer. AtEach S.Scheme L.Elector self.old (λ s h. StartsOn S.Scheme L.Elector s self.new now h floor answer)) }
    {
        match floor {
            Floor::Genesis(payload) => {
                self.set_genesis(now, payload)?;
                Ok(None)
            }
            Floor::Finalized(finalization) => self.stand_on(alloc, now, finalization),
        }
    }

    /// Takes a finalization, and hands out that of its view.
    fn stand_on(
        &mut self,
        alloc: Global,
        now: u64,
        finalization: Finalization<S, D>,
    ) -> Result<Option<Finalization<S, D>>, AllocError>
        ensures { IfOk result
            (λ answer. AtEach S.Scheme L.Elector self.old (λ s h. StandsOn S.Scheme L.Elector s self.new now h finalization answer)) }
    {
        let view = finalization.view();
        let _taken = self.add_finalization(now, finalization)?;
        self.broadcast_finalization(alloc, view)
    }
}
