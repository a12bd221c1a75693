//! Plays scripts of calls on journals and disks: reads calls from standard input, one a line, makes them, and prints
//! one line for each. An artifact stands as the bytes that spell it.
//!
//! - `reset memory BYTES`, `reset torn BYTES`: a disk in memory, or one that the script tears, which holds these bytes;
//!   `reset file PATH`: a disk in a file; `reset nothing`: no disk, which lets a file go
//! - `open`: what was found, `opened ARTIFACTS`, or the fault; `append ARTIFACT`: `ok` or the fault; `close`,
//!   `is_failed`, `failures`; while no journal is open `bytes`, and of the disk `len`, `read AT COUNT`,
//!   `write_at AT BYTES`, `cut LEN`, `sync`: `DiskFault` where they fail
//! - in memory `fuse CALLS`, `fail_at CALLS`, `crash`, and `run` of `open`, `append ARTIFACT` and `crash`: the event
//!   that comes of each
//! - torn `stop CALLS BYTES`: lets so many calls through, the next leaves the bytes; `crash BYTES`; `calls`: the calls
//!   of the disk since they were told last
//! - at any time `finds BYTES`: what an opening of these bytes finds and leaves; `file open`, `file read`, `file remove`,
//!   `file make_folder`, `file remove_folder`, each with a path, and `file write PATH BYTES`; `laws`
#![tactic(auto)]

mod desk;
mod device;
mod files;
mod history;
mod item;
mod laws;
mod medium;
mod memory;
mod session;
mod torn;
mod torn_disk;

use crate::desk::Desk;
use messages_certificates::Artifact;
use simplex_types::PlainScheme;
use std::io;
use std::process::ExitCode;
use test_words::play;
use types_core::{EncodeSize, Read, Sha256Digest};

/// What the journals of the scripts keep: an artifact under the plain scheme, which stands there as the bytes that spell it.
type Item = Artifact<PlainScheme, Sha256Digest>;

/// Plays the script of standard input, whose journals keep such messages.
fn play_with<M: Read + EncodeSize + Drop>(rt: &HostRuntime) -> u8 {
    let mut desk = Desk::<M>::new(rt);
    play(rt.alloc(), &mut desk, rt.reader(), &mut io::writer(rt))
}

fn main(rt: HostRuntime) -> ExitCode {
    ExitCode::from(play_with::<Item>(&rt))
}
