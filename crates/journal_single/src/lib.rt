//! A list of artifacts that survives a crash at any moment, on any disk that keeps the stated model.
#![tactic(auto)]

mod disk;
mod entries;
mod fault;
mod file_disk;
mod history;
mod journal;
mod laws;
mod memory_disk;
mod opening;

pub use disk::{Disk, DiskFault};
pub use entries::{BOUND, Entries, number_at, read_entries, read_entries_below};
pub use fault::JournalFault;
pub use file_disk::FileDisk;
pub use history::{Crash, Event, History, Request, run};
pub use journal::{Found, Journal, spelled};
pub use laws::a_disk_reads_as_one_record;
pub use memory_disk::MemoryDisk;
pub use opening::read_disk;
