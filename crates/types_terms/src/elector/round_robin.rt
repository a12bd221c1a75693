//! Leaders in turn.

ghost use Rattle.std.specs.Prelude.{◌≡◌, ◌<◌, None, Some, IfOk};
ghost use Rattle.types_terms.specs.Shuffle.{IsOrderOf};
ghost use Rattle.types_terms.specs.Terms.{rotating, stable};

use crate::elector::shuffle::{ascending, shuffled};
use crate::elector::{Config, Elector, Mode};
use crate::terms::Terms;
use std::alloc::{AllocError, Global};
use std::marker::Model;
use types_core::{Digest, Duplicate, Participant, Round, Scheme, TermLength, ViewDelta};

/// The participants lead in turn, a term each, by ascending index or in an order that a seed makes.
/// Each epoch starts one place further on than the epoch before it.
#[derive(Debug, Drop)]
pub struct RoundRobin {
    seed: Option<Vec<u8>>,
    terms: Terms,
}

impl Model for RoundRobin {
    ghost use Rattle.std.specs.Prelude.{option_map};
    ghost use Rattle.types_terms.specs.Shuffle.{Setting};

    ghost Value = { Setting };

    ghost view = { λ r. record { seed = option_map (λ v. v.items) r.seed; terms = r.terms } };
}

impl RoundRobin {
    /// By the order of this seed, with terms of one view. Refused only where memory is.
    pub fn shuffled(alloc: Global, seed: &[u8]) -> Result<Self, AllocError>
        ensures seed { IfOk result (λ r. r.seed ≡ Some seed.now) }
        ensures terms { IfOk result (λ r. r.terms ≡ rotating) }
    {
        let seed = Vec::from_slice(alloc, seed)?;
        Ok(RoundRobin {
            seed: Some(seed),
            terms: Terms::rotating(),
        })
    }

    /// The same order with the terms of `Terms::stable`.
    pub fn with_term(
        self,
        length: TermLength,
        stall_timeout: u64,
        optimistic_views: ViewDelta,
    ) -> Self
        requires { 0 < stall_timeout }
        ensures seed { result.seed ≡ self.seed }
        ensures terms { result.terms ≡ stable length stall_timeout optimistic_views }
    {
        RoundRobin {
            seed: self.seed,
            terms: Terms::stable(length, stall_timeout, optimistic_views),
        }
    }
}

impl RoundRobin {
    /// The order of so many participants. Refused only where memory is.
    fn order(&self, alloc: Global, participants: u32) -> Result<Vec<Participant>, AllocError>
        ensures { IfOk result (λ order. IsOrderOf self.now.seed participants order.items) }
    {
        match &self.seed {
            None => ascending(alloc, participants),
            Some(seed) => shuffled(alloc, seed, participants),
        }
    }
}

impl Default for RoundRobin {
    fn default() -> Self
        ensures seed { result.seed ≡ None }
        ensures terms { result.terms ≡ rotating }
    {
        RoundRobin {
            seed: None,
            terms: Terms::rotating(),
        }
    }
}

impl Duplicate for RoundRobin {
    fn duplicate(&self, alloc: Global) -> Result<Self, AllocError> {
        let seed = match &self.seed {
            None => None,
            Some(seed) => Some(Vec::from_slice(alloc, seed)?),
        };
        Ok(RoundRobin {
            seed,
            terms: self.terms,
        })
    }
}

impl<S: Scheme<D>, D: Digest> Config<S, D> for RoundRobin {
    type Elector = RoundRobinElector;

    fn build(&self, alloc: Global, participants: u32) -> Result<RoundRobinElector, AllocError>
        requires { 0 < participants }
        ensures order { IfOk result (λ e. IsOrderOf self.now.seed participants e.order) }
        ensures terms { IfOk result (λ e. e.terms ≡ self.now.terms) }
    {
        Ok(RoundRobinElector {
            order: self.order(alloc, participants)?,
            terms: self.terms,
        })
    }
}

/// Leaders in turn, a term each.
#[derive(Debug, Drop)]
pub struct RoundRobinElector {
    order: Vec<Participant>,
    terms: Terms,
}

impl Model for RoundRobinElector {
    ghost use Rattle.std.specs.Prelude.{◌<◌, length};
    ghost use Rattle.types_terms.specs.Rotation.{Rotation};

    ghost Value = { Rotation };

    ghost view = { λ e. record { order = e.order.items; terms = e.terms } };

    ghost invariant = { λ e. 0 < length e.order.items };
}

impl Duplicate for RoundRobinElector {
    fn duplicate(&self, alloc: Global) -> Result<Self, AllocError> {
        let order = Vec::from_slice(alloc, &self.order)?;
        Ok(RoundRobinElector {
            order,
            terms: self.terms,
        })
    }
}

impl<S: Scheme<D>, D: Digest> Elector<S, D> for RoundRobinElector {
    ghost use Rattle.std.specs.Prelude.{◌<◌, refl};
    ghost use Rattle.types_terms.specs.declared.elector.Mode.TheVariants.{Scheduled};
    ghost use Rattle.types_terms.specs.Rotation.{IsOrder, view_leader};
    ghost use Rattle.types_terms.specs.RotationLaws.{leader_within};

    ghost built_for = { λ e n. (0 < n) × IsOrder n e.order };

    ghost mode_of = { λ _. Scheduled };

    ghost terms_of = { λ e. e.terms };

    ghost leader = { λ e r _. view_leader e r.epoch r.view };

    fn mode(&self) -> Mode {
        Mode::Scheduled
    }

    fn terms(&self) -> Terms {
        self.terms
    }

    fn elect(&self, round: Round, _certificate: Option<&S::Certificate>) -> Participant {
        let turn = round.view.term_index(self.terms.length());
        let place = round.epoch.get().wrapping_add(turn) % self.order.len() as u64;
        self.order[place as usize]
    }

    ghost participants_lead = { λ e n r c built. leader_within n e built.0 built.1 r.epoch r.view };

    ghost schedule = { λ e r c d mode. refl };
}
