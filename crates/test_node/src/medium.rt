//! The disks of scripts.

use journal_single::{Disk, MemoryDisk};
use std::alloc::{AllocError, Global};

/// A disk that a script fills, and has fail.
pub trait Medium: Disk {
    /// One that holds these bytes.
    fn holding(alloc: Global, bytes: &[u8]) -> Result<Self, AllocError>;

    /// What it holds.
    fn image(&self) -> &[u8];

    /// Lets so many calls through from now on, and has every later one fail.
    fn fuse(&mut self, calls: u64);

    /// Has the call behind so many others fail.
    fn fail_at(&mut self, calls: u64);
}

impl Medium for MemoryDisk {
    fn holding(alloc: Global, bytes: &[u8]) -> Result<Self, AllocError> {
        MemoryDisk::with(alloc, bytes)
    }

    fn image(&self) -> &[u8] {
        self.bytes()
    }

    fn fuse(&mut self, calls: u64) {
        self.fuse(calls);
    }

    fn fail_at(&mut self, calls: u64) {
        self.fail_at(calls);
    }
}
