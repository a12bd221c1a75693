//! What a world asks of a member's node.

use simplex_member::{Action, Event, Reply};
use std::alloc::{AllocError, AllocFailed, Global};
use test_words::Committee;
use types_core::Sha256Digest;
use voter_rules::Floor;
use world_network::{Broken, Fuse, Scenario};

/// Why a seat has no answer.
#[derive(Clone, Copy)]
pub enum Halt {
    /// The member is down, or was up already where it was to be opened.
    Idle,
    /// The member crashed.
    Crashed,
    /// Its record wasn't opened again, though its disk kept what disks keep.
    Lost,
    /// The run can't go on.
    Broken(Broken),
}

impl From<AllocError> for Halt {
    fn from(_error: AllocError) -> Halt {
        Halt::Broken(Broken::Memory)
    }
}

impl<T: Drop> From<AllocFailed<T>> for Halt {
    fn from(_error: AllocFailed<T>) -> Halt {
        Halt::Broken(Broken::Memory)
    }
}

/// A member's node, or the disk that is left of it.
pub trait Seat<S: Committee>: Drop {
    /// A member that is down, with an empty disk under this fuse; or with two under it, where records are rewritten.
    fn new(alloc: Global, scenario: &Scenario, index: u32, fuse: Fuse) -> Result<Self, Broken>;

    /// From now on each opening brings this in the place of genesis.
    fn start_from(&mut self, floor: Floor<S, Sha256Digest>);

    /// Opens its record, where it is down: what is to be done.
    fn open(&mut self, now: u64) -> Result<Vec<Action<S, Sha256Digest>>, Halt>;

    /// Takes an event, where it is up.
    fn step(&mut self, event: Event<Sha256Digest>) -> Result<Reply<S, Sha256Digest>, Halt>;

    /// Rewrites its record, where it is up: the view of the finalization that it begins with from now on, or none where nothing changed.
    fn rewrite(&mut self) -> Result<Option<u64>, Halt>;

    /// Its node is closed, if it is up. What its disks hold stays, and so does how many calls these let through.
    fn close(&mut self);

    /// It is down from now on, and its disks let all calls through again. How many bytes they have.
    fn go_down(&mut self) -> usize;

    /// Whether it is up.
    fn is_up(&self) -> bool;

    /// Its current view, or 0 while it is down.
    fn current_view(&self) -> u64;

    /// Its last finalized view, or 0 while it is down.
    fn last_finalized(&self) -> u64;
}
