//! What a member starts from, and what can be wrong with that.

ghost use Rattle.std.specs.Prelude.{◌≡◌, IfErr, OnOk};
ghost use Rattle.voter_rules.specs.declared.floor.FloorFault.{FloorFault};
ghost use Rattle.voter_rules.specs.Floor.{AppliesToFinal, AppliesToFloor, IsFirstOf, floor_fault_number, floor_view};

use messages_certificates::Finalization;
use std::alloc::{AllocError, Global};
use types_core::{Digest, Duplicate, Epoch, Epochable, Scheme, TermLength, View, Viewable};

/// What a member starts from.
#[derive_where(Debug; D, S::Certificate)]
#[derive(Drop)]
pub enum Floor<S: Scheme<D>, D: Digest> {
    /// The payload that view 0 stands for.
    Genesis(D),
    /// A proposal that is final already.
    Finalized(Finalization<S, D>),
}

impl<S: Scheme<D>, D: Digest> Floor<S, D> {
    /// Its view: 0, or the one that is finalized.
    pub fn view(&self) -> View
        ensures { result ≡ floor_view self.now }
    {
        match self {
            Floor::Genesis(_) => View::zero(),
            Floor::Finalized(finalization) => finalization.view(),
        }
    }
}

impl<S: Scheme<D>, D: Digest> Duplicate for Floor<S, D> {
    fn duplicate(&self, alloc: Global) -> Result<Self, AllocError> {
        match self {
            Floor::Genesis(payload) => Ok(Floor::Genesis(*payload)),
            Floor::Finalized(finalization) => {
                let copy = finalization.duplicate(alloc)?;
                Ok(Floor::Finalized(copy))
            }
        }
    }
}

/// What is wrong with a finalization that a member starts from.
#[derive(Clone, Copy, Debug, PartialEq, Eq)]
pub enum FloorFault {
    /// It is of another epoch.
    WrongEpoch,
    /// It is of view 0.
    ViewZero,
    /// It is of a view without room.
    NoRoom,
    /// The parent of its proposal doesn't lie below its view.
    ParentNotBelow,
    /// It doesn't certify.
    NotVerifying,
}

impl FloorFault {
    /// Its number, above those of a [`ConfigFault`](crate::config::ConfigFault). Of several faults the one with the least number is
    /// told.
    pub const fn number(self) -> u8
        ensures { result ≡ floor_fault_number self }
    {
        match self {
            FloorFault::WrongEpoch => 9,
            FloorFault::ViewZero => 10,
            FloorFault::NoRoom => 11,
            FloorFault::ParentNotBelow => 12,
            FloorFault::NotVerifying => 13,
        }
    }
}

/// The first fault of what a member of this epoch starts from, if there is one: by this scheme, where terms have so many views.
/// The payload of view 0 has none.
///
/// # Errors
///
/// That fault.
pub fn check_floor<S: Scheme<D>, D: Digest>(
    floor: &Floor<S, D>,
    epoch: Epoch,
    scheme: &S,
    length: TermLength,
) -> Result<(), FloorFault>
    ensures first { IfErr result (λ fault. IsFirstOf (AppliesToFloor (S.certifies scheme.now) length epoch floor.now) fault) }
    ensures good { OnOk result ((fault : FloorFault) → ¬ AppliesToFloor (S.certifies scheme.now) length epoch floor.now fault) }
{
    match floor {
        Floor::Genesis(_) => Ok(()),
        Floor::Finalized(finalization) => check_finalization(finalization, epoch, scheme, length),
    }
}

/// The first fault of the finalization that a member of this epoch starts from, if there is one.
fn check_finalization<S: Scheme<D>, D: Digest>(
    finalization: &Finalization<S, D>,
    epoch: Epoch,
    scheme: &S,
    length: TermLength,
) -> Result<(), FloorFault>
    ensures first { IfErr result (λ fault. IsFirstOf (AppliesToFinal (S.certifies scheme.now) length epoch finalization.now) fault) }
    ensures good { OnOk result ((fault : FloorFault) → ¬ AppliesToFinal (S.certifies scheme.now) length epoch finalization.now fault) }
{
    let view = finalization.view();
    if finalization.epoch() != epoch {
        return Err(FloorFault::WrongEpoch);
    }
    if view.is_zero() {
        return Err(FloorFault::ViewZero);
    }
    if !view.has_room(length) {
        return Err(FloorFault::NoRoom);
    }
    if finalization.proposal.parent >= view {
        return Err(FloorFault::ParentNotBelow);
    }
    if !finalization.verify(scheme) {
        return Err(FloorFault::NotVerifying);
    }
    Ok(())
}
