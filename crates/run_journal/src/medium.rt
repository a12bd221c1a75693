//! The disks that a script can ask.

ghost use Rattle.std.specs.Prelude.{◌≤◌, IsTrue, length};

use journal_single::{Disk, FileDisk, MemoryDisk};

/// A disk that can be asked whether a place lies within it.
pub(crate) trait Medium: Disk {
    /// Whether no byte before this place is missing. A disk of which nothing is claimed may say so of any.
    fn reaches(&self, end: u64) -> bool
        ensures { IsTrue result → Self.keeps → end ≤ length (Self.seen self.now) };

    /// What the disk holds, where that can be told without asking it.
    fn image(&self) -> Option<&[u8]>;
}

impl Medium for MemoryDisk {
    fn reaches(&self, end: u64) -> bool {
        end <= self.bytes().len() as u64
    }

    fn image(&self) -> Option<&[u8]> {
        Some(self.bytes())
    }
}

/// What a file holds is asked of the system.
impl Medium for FileDisk {
    fn reaches(&self, _end: u64) -> bool {
        true
    }

    fn image(&self) -> Option<&[u8]> {
        None
    }
}
