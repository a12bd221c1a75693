//! What members that join late start from.

ghost use Rattle.std.specs.Prelude.{◌≡◌, ◌⊎◌, max, IfOk};
ghost use Rattle.messages_certificates.specs.ProposalCertificate as certificates;
ghost use Rattle.simplex_messages.specs.declared.activity.Activity.TheVariants.{Finalization};
ghost use Rattle.voter_rules.specs.declared.floor.Floor.TheVariants.{Finalized};
ghost use Rattle.voter_rules.specs.Floor.{floor_view};

use simplex_messages::Activity;
use std::alloc::{AllocError, Global};
use test_words::Committee;
use types_core::{Duplicate, Sha256Digest, Viewable};
use voter_rules::Floor;
use world_network::genesis;

/// The last finalization that a correct member told, or genesis. Who joins late asks one of them for it.
#[derive(Drop)]
pub(crate) struct Latest<S: Committee> {
    alloc: Global,
    floor: Floor<S, Sha256Digest>,
}

impl<S: Committee> Latest<S> {
    /// Genesis.
    pub(crate) fn new(alloc: Global) -> Self {
        Latest {
            alloc,
            floor: Floor::Genesis(genesis()),
        }
    }

    /// Takes up what a correct member reports.
    pub(crate) fn take(&mut self, report: &Activity<S, Sha256Digest>) -> Result<(), AllocError>
        ensures told { IfOk result (λ _. (c : certificates.Finalization S Sha256Digest S.PublicKey S.Signature S.Certificate)
            → report.now ≡ Finalization c
            → floor_view self.new.floor ≡ max (floor_view self.old.floor) c.proposal.round.view) }
        ensures no_other { IfOk result (λ _. (self.new.floor ≡ self.old.floor)
            ⊎ ((c : certificates.Finalization S Sha256Digest S.PublicKey S.Signature S.Certificate)
            × (report.now ≡ Finalization c) × (self.new.floor ≡ Finalized c))) }
    {
        match report {
            Activity::Finalization(it) if it.view() > self.floor.view() => {
                self.floor = Floor::Finalized(it.duplicate(self.alloc)?);
                Ok(())
            }
            _ => Ok(()),
        }
    }

    /// What a member that joins now starts from.
    pub(crate) fn floor(&self) -> Result<Floor<S, Sha256Digest>, AllocError>
        ensures { IfOk result (λ floor. floor ≡ self.now.floor) }
    {
        self.floor.duplicate(self.alloc)
    }
}
