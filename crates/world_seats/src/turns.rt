//! Who leads in the worlds.

ghost use Rattle.std.specs.Prelude.{◌<◌, IfOk};

use std::alloc::{AllocError, Global};
use types_core::{Scheme, Sha256Digest};
use types_terms::RoundRobinElector;
use types_terms::elector::{Config, Elector};
use world_members::rotation_of;
use world_network::Times;

/// What a scenario can have decide who leads.
pub trait Turns<S: Scheme<Sha256Digest>>: Elector<S, Sha256Digest> {
    /// What decides among so many members that are set up so.
    fn among(alloc: Global, times: &Times, participants: u32) -> Result<Self, AllocError>
        requires { 0 < participants }
        ensures { IfOk result (λ e. Self.built_for e participants) };
}

impl<S: Scheme<Sha256Digest>> Turns<S> for RoundRobinElector {
    fn among(alloc: Global, times: &Times, participants: u32) -> Result<Self, AllocError> {
        Config::<S, Sha256Digest>::build(&rotation_of(times), alloc, participants)
    }
}
