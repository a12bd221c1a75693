//! The disks of members.

use journal_single::Disk;
use std::alloc::Global;
use world_network::{Fuse, TornDisk};

/// A disk that is cut off inside a call, and mended.
pub trait Medium: Disk {
    /// An empty one under this fuse. Which part of a write stands rests on the seed. An exact one loses in a crash nothing that stood there
    /// before the last write.
    fn under(alloc: Global, fuse: Fuse, seed: u64, is_exact: bool) -> Self;

    /// Lets all calls through again, over what a crash left.
    fn mend(&mut self);

    /// How many bytes it holds.
    fn size(&self) -> usize;
}

impl Medium for TornDisk {
    fn under(alloc: Global, fuse: Fuse, seed: u64, is_exact: bool) -> Self {
        TornDisk::new(alloc, fuse, seed, is_exact)
    }

    fn mend(&mut self) {
        self.mend();
    }

    fn size(&self) -> usize {
        self.size()
    }
}
