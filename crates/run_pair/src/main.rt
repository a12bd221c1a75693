//! Plays scripts of calls on journals over two disks: reads calls from standard input, one a line, makes them, and
//! prints one line for each. An artifact stands as the bytes that spell it.
//!
//! - `reset memory BYTES BYTES`: two disks in memory that hold these bytes; `reset files PATH PATH`: two disks in files;
//!   `reset nothing`: no disks, which lets files go
//! - `open`: what was found, `opened ARTIFACTS`, or the fault; `append ARTIFACT`, `rewrite ARTIFACT ..`: `ok` or the
//!   fault; `close`, `is_failed`, `generation`; `failures` of the first disk and of the second
//! - in memory, while no journal is open, `bytes` of both disks; `fuse DISK CALLS`, `fail_at DISK CALLS`: DISK is 1 or 2;
//!   `run` of `open`, `append ARTIFACT`, `rewrite COUNT ARTIFACT ..` and `crash`: the event that comes of each, with the
//!   artifacts that it tells of
//! - at any time `file read PATH`, `file write PATH BYTES` and `file remove PATH`
#![tactic(auto)]

mod files;
mod item;
mod memory;
mod pair_desk;
mod pair_history;
mod session;

use crate::pair_desk::Desk;
use messages_certificates::Artifact;
use simplex_types::PlainScheme;
use std::io;
use std::process::ExitCode;
use test_words::play;
use types_core::{EncodeSize, Read, Sha256Digest};

/// What the journals of the scripts keep: an artifact under the plain scheme, which stands there as the bytes that spell it.
type Item = Artifact<PlainScheme, Sha256Digest>;

/// Plays the script of standard input, whose journals keep such messages.
fn play_with<M: Read + EncodeSize + Drop>(rt: &HostRuntime) -> u8 {
    let mut desk = Desk::<M>::new(rt);
    play(rt.alloc(), &mut desk, rt.reader(), &mut io::writer(rt))
}

fn main(rt: HostRuntime) -> ExitCode {
    ExitCode::from(play_with::<Item>(&rt))
}
