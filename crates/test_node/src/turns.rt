//! Who leads in the scripts.

ghost use Rattle.std.specs.Prelude.{◌<◌, IfOk};

use crate::setup::Setup;
use std::alloc::{AllocError, Global};
use types_core::{Digest, Scheme};
use types_terms::RoundRobinElector;
use types_terms::elector::{Config, Elector};

/// What a script can have decide who leads.
pub trait Turns<S: Scheme<D>, D: Digest>: Elector<S, D> {
    /// What decides among so many members that are set up so.
    fn among(alloc: Global, setup: &Setup, participants: u32) -> Result<Self, AllocError>
        requires { 0 < participants }
        ensures { IfOk result (λ e. Self.built_for e participants) };
}

impl<S: Scheme<D>, D: Digest> Turns<S, D> for RoundRobinElector {
    fn among(alloc: Global, setup: &Setup, participants: u32) -> Result<Self, AllocError> {
        Config::<S, D>::build(&setup.rotation(), alloc, participants)
    }
}
