//! Who leads in the scripts: by a schedule, or so that certificates matter.

ghost use Rattle.std.specs.Prelude.{◌≡◌, ◌<◌, IfOk, refl, option_copied};
ghost use Rattle.types_terms.specs.Rotation.{IsOrder, view_leader};
ghost use Rattle.types_terms.specs.RotationLaws.{leader_within, IsOrder-from_IsOrderOf};
ghost use Rattle.run_state.specs.Leading.{passed, turn, turn-scheduled};

use simplex_types::{AttestationList, PlainScheme, PlainSignature};
use std::alloc::{AllocError, Global};
use types_core::{Duplicate, Participant, Round, Sha256Digest, TermLength, View, ViewDelta};
use types_terms::elector::{Config, Elector, Mode};
use types_terms::{RoundRobin, RoundRobinElector, Terms};

/// The members lead in turn: a term each, or a view each and so many turns on as members signed the certificate that the
/// view was entered by.
#[derive(Drop)]
pub struct Turns {
    order: RoundRobinElector,
    terms: Terms,
    mode: Mode,
}

impl Duplicate for Turns {
    fn duplicate(&self, alloc: Global) -> Result<Self, AllocError> {
        Ok(Turns {
            order: self.order.duplicate(alloc)?,
            terms: self.terms,
            mode: self.mode,
        })
    }
}

/// How many turns are passed over.
fn turns_passed(mode: Mode, certificate: Option<&AttestationList<PlainSignature>>) -> u64
    ensures { result ≡ passed mode (option_copied certificate.entry) }
{
    match (mode, certificate) {
        (Mode::Dynamic, Some(certificate)) => certificate.attestations().len() as u64,
        _ => 0,
    }
}

impl Elector<PlainScheme, Sha256Digest> for Turns {
    ghost built_for = { λ e n. (0 < n) × IsOrder n e.order.order };

    ghost mode_of = { λ e. e.mode };

    ghost terms_of = { λ e. e.terms };

    ghost leader = { λ e r c. view_leader e.order r.epoch (turn e.mode r.view c) };

    fn mode(&self) -> Mode {
        self.mode
    }

    fn terms(&self) -> Terms {
        self.terms
    }

    fn elect(
        &self,
        round: Round,
        certificate: Option<&AttestationList<PlainSignature>>,
    ) -> Participant {
        let passed = turns_passed(self.mode, certificate);
        let view = View::new(round.view.get().wrapping_add(passed));
        let turn = Round::new(round.epoch, view);
        Elector::<PlainScheme, Sha256Digest>::elect(&self.order, turn, None)
    }

    ghost participants_lead = { λ e n r c built. leader_within n e.order built.0 built.1 r.epoch (turn e.mode r.view c) };

    ghost schedule = { λ e r c d is. rw (turn-scheduled e.mode r.view c d is) refl };
}

/// The order of a seed, or by ascending index where there is none.
fn rotation(alloc: Global, seed: Option<&str>) -> Result<RoundRobin, AllocError> {
    match seed {
        Some(seed) => RoundRobin::shuffled(alloc, seed.as_bytes()),
        None => Ok(RoundRobin::default()),
    }
}

/// The members in that order, for terms of this length.
fn order(
    alloc: Global,
    seed: Option<&str>,
    length: TermLength,
    participants: u32,
) -> Result<RoundRobinElector, AllocError>
    requires { 0 < participants }
    ensures { IfOk result (λ e. IsOrder participants e.order) }
{
    let rotation = rotation(alloc, seed)?.with_term(length, 1, ViewDelta::zero());
    Config::<PlainScheme, Sha256Digest>::build(&rotation, alloc, participants)
}

impl Turns {
    /// The turns of so many members in the order of a seed.
    pub fn new(
        alloc: Global,
        mode: Mode,
        seed: Option<&str>,
        terms: Terms,
        participants: u32,
    ) -> Result<Self, AllocError>
        requires { 0 < participants }
        ensures { IfOk result (λ e. ⟦<Turns as Elector<PlainScheme, Sha256Digest>>⟧.built_for e participants) }
    {
        let length = match mode {
            Mode::Scheduled => terms.length(),
            Mode::Dynamic => TermLength::ONE,
        };
        let order = order(alloc, seed, length, participants)?;
        Ok(Turns { order, terms, mode })
    }
}
