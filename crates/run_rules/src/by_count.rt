//! An elector that is no schedule.

ghost use Rattle.std.specs.Prelude.{◌≡◌, ◌<◌, ◌%◌, None, Some, length};
ghost use Rattle.std.specs.Option.{option_map_or};
ghost use Rattle.std.proofs.Common.{arith};
ghost use Rattle.types_terms.specs.Terms.{rotating};
ghost use Rattle.types_terms.specs.declared.elector.Mode.TheVariants.{Scheduled, Dynamic};

use simplex_types::{AttestationList, PlainScheme, PlainSignature};
use std::alloc::{AllocError, Global};
use types_core::{Digest, Duplicate, Participant, Round};
use types_terms::Terms;
use types_terms::elector::{Elector, Mode};

/// Leads by how many attestations the certificate lists.
#[derive(Drop)]
pub(crate) struct ByCount {
    pub(crate) participants: u32,
    ghost some: { 0 < participants },
}

impl Duplicate for ByCount {
    fn duplicate(&self, _alloc: Global) -> Result<Self, AllocError> {
        Ok(ByCount {
            participants: self.participants,
        })
    }
}

impl<D: Digest> Elector<PlainScheme, D> for ByCount {
    ghost built_for = { λ e n. (0 < n) × (e.participants ≡ n) };

    ghost mode_of = { λ _. Dynamic };

    ghost terms_of = { λ _. rotating };

    ghost leader = { λ e _ c. option_map_or (λ listed. length listed % e.participants) c 0 };

    fn mode(&self) -> Mode {
        Mode::Dynamic
    }

    fn terms(&self) -> Terms {
        Terms::rotating()
    }

    fn elect(
        &self,
        _round: Round,
        certificate: Option<&AttestationList<PlainSignature>>,
    ) -> Participant {
        match certificate {
            None => Participant::new(0),
            Some(certificate) => {
                let count = certificate.attestations().len() as u64;
                Participant::new((count % u64::from(self.participants)) as u32)
            }
        }
    }

    ghost participants_lead = { λ e n r. elim [ None ↦ λ built. built.0 | Some c ↦ λ built. Prim.omega (arith, built.0, built.1) ] };

    ghost schedule = { λ e r c d mode. absurd (let other : Dynamic ≡ Scheduled = mode in Prim.cc) };
}
