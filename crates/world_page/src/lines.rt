//! The lines of runs that were not taken yet.

ghost use Rattle.std.specs.Prelude.{◌≡◌, ◌++◌, [], IfOk, OnErr, OnOk, false, length, true};
ghost use Rattle.cli_calls.specs.Told.{AreTaken, WaitOn};
ghost use Rattle.world_page.specs.Lines.{GoesOn};

use cli_calls::{Found, taken};
use std::alloc::{AllocError, Global};
use std::marker::Model;
use world_network::Broken;

/// The lines of runs that were not taken yet, one behind another.
#[derive(Drop)]
pub(crate) struct Lines {
    bytes: Vec<u8>,
    /// Whether some were lost for want of memory.
    lost: bool,
}

impl Model for Lines {
    ghost use Rattle.std.specs.Prelude.{ℕ, List};

    ghost Value = { List ℕ };

    ghost view = { λ lines. lines.bytes.items };
}

impl Lines {
    /// None.
    pub(crate) fn new(alloc: Global) -> Lines
        ensures { result ≡ [] }
    {
        Lines {
            bytes: Vec::new(alloc),
            lost: false,
        }
    }

    /// Has what a run has just written wait behind these, and answers how that run went on. Once some is lost nothing more is put here.
    pub(crate) fn keep<T: Drop>(
        &mut self,
        more: Vec<u8>,
        gone: Result<T, Broken>,
    ) -> Result<T, Broken>
        ensures kept { IfOk result (λ _. self.new ≡ self.old ++ more.items) }
        ensures goes_on { GoesOn self.old self.new }
    {
        if self.lost || append(&mut self.bytes, more).is_err() {
            self.lost = true;
            return Err(Broken::Memory);
        }
        gone
    }

    /// How many bytes wait.
    pub(crate) fn len(&self) -> usize
        ensures { result ≡ length self.now }
    {
        self.bytes.len()
    }

    /// Takes them, where they fit at the front of the room, and tells their size. Whether they fit.
    pub(crate) fn take(&mut self, room: &mut [u8], found: &mut Found) -> bool
        ensures taken { result ≡ true → AreTaken self.old self.new room.old room.new }
        ensures no_room { result ≡ false → WaitOn self.old self.new room.old room.new }
        ensures length { found.new.length ≡ length self.old }
    {
        taken(&mut self.bytes, room, found)
    }
}

/// Puts bytes behind bytes, or leaves them.
fn append(bytes: &mut Vec<u8>, more: Vec<u8>) -> Result<(), AllocError>
    ensures done { OnOk result (bytes.new.items ≡ bytes.old.items ++ more.items) }
    ensures same { OnErr result (bytes.new.items ≡ bytes.old.items) }
{
    if bytes.is_empty() {
        *bytes = more;
        return Ok(());
    }
    bytes.extend_from_slice(&more)
}
