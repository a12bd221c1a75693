//! The scenarios of a text between two calls.

ghost use Rattle.std.specs.Prelude.{◌≡◌, [], IfOk, false, length, true};
ghost use Rattle.cli_calls.specs.Told.{AreTaken, WaitOn};
ghost use Rattle.world_page.specs.Lines.{GoesOn};

use crate::lines::Lines;
use cli_calls::Found;
use simplex_types::PlainScheme;
use std::alloc::Global;
use std::marker::Model;
use types_terms::RoundRobinElector;
use world_network::{Broken, TornDisk};
use world_playing::Stage;
use world_seats::Keeper;

/// A member of these worlds.
type Seated = Keeper<PlainScheme, RoundRobinElector, TornDisk>;

/// The scenarios of a text, and their lines that were not taken yet.
#[derive(Drop)]
pub(crate) struct Session {
    stage: Stage<PlainScheme, Seated>,
    lines: Lines,
}

// Of a world nothing is told but its lines that wait.
impl Model for Session {
    ghost use Rattle.std.specs.Prelude.{ℕ, List};

    ghost Value = { List ℕ };

    ghost view = { λ session. session.lines };
}

impl Session {
    /// The scenarios of this text, none of them begun.
    pub(crate) fn open(alloc: Global, is_json: bool, text: &[u8]) -> Result<Box<Session>, Broken>
        ensures { IfOk result (λ it. it.value ≡ []) }
    {
        let stage = Stage::open(alloc, is_json, text)?;
        boxed(
            alloc,
            Session {
                stage,
                lines: Lines::new(alloc),
            },
        )
    }

    /// Goes on for at most so many events; its lines wait behind those that do. Whether more is to come.
    pub(crate) fn go_on(&mut self, alloc: Global, events: u32) -> Result<bool, Broken>
        ensures { GoesOn self.old self.new }
    {
        let mut more = Vec::new(alloc);
        let gone = self.stage.go_on(events, &mut more);
        self.lines.keep(more, gone)
    }

    /// Ends the scenario that is played, if one is; its lines wait behind those that do.
    pub(crate) fn stop(&mut self, alloc: Global) -> Result<(), Broken>
        ensures { GoesOn self.old self.new }
    {
        let mut more = Vec::new(alloc);
        let ended = self.stage.stop(&mut more);
        self.lines.keep(more, ended)
    }

    /// The greatest status of the runs so far.
    pub(crate) fn status(&self) -> u8 {
        self.stage.status()
    }

    /// How many bytes of lines wait.
    pub(crate) fn waiting(&self) -> usize
        ensures { result ≡ length self.now }
    {
        self.lines.len()
    }

    /// Takes the lines that wait, where they fit at the front of the room, and tells their size. Whether they fit.
    pub(crate) fn take(&mut self, room: &mut [u8], found: &mut Found) -> bool
        ensures taken { result ≡ true → AreTaken self.old self.new room.old room.new }
        ensures no_room { result ≡ false → WaitOn self.old self.new room.old room.new }
        ensures length { found.new.length ≡ length self.old }
    {
        self.lines.take(room, found)
    }
}

/// A value in a box.
fn boxed<T: Drop>(alloc: Global, value: T) -> Result<Box<T>, Broken>
    ensures { IfOk result (λ it. it.value ≡ value) }
{
    match Box::new(alloc, value) {
        Ok(value) => Ok(value),
        Err(_) => Err(Broken::Memory),
    }
}
