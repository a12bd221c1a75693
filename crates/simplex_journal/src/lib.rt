//! A list of messages that survives a crash at any moment: on one disk, passed on from `journal_single`; and over two disks, so that it
//! can be made shorter: a rewrite puts another list in its place, and a crash at any moment leaves the old list or the new one. Of two
//! disks the one with the greater generation is read.
#![tactic(auto)]

mod choosing;
mod disks;
mod fault;
mod history;
mod laws;
mod number;
mod opening;
mod pair;
mod spelling;
mod steps;
mod writing;

pub use fault::PairFault;
pub use history::{PairEvent, PairHistory, PairRequest, run_pair};
pub use journal_single::{
    BOUND, Crash, Disk, DiskFault, Entries, Event, FileDisk, Found, History, Journal, JournalFault,
    MemoryDisk, Request, a_disk_reads_as_one_record, read_entries, run,
};
pub use laws::{a_pair_at_rest_leaves_its_record, two_disks_read_as_one_record};
pub use pair::{FoundPair, Pair};
