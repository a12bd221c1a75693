//! Plays scripts on the node of one member: reads calls from standard input, one a line, makes them, and prints one line
//! for each. What the calls are stands at the head of `test_node`.
#![tactic(auto)]

mod played;

use crate::played::play_nodes;
use journal_single::MemoryDisk;
use simplex_types::{PlainScheme, SaltedScheme};
use std::io;
use std::process::ExitCode;
use types_terms::RoundRobinElector;

fn main(rt: HostRuntime) -> ExitCode {
    ExitCode::from(play_nodes::<
        PlainScheme,
        SaltedScheme,
        RoundRobinElector,
        RoundRobinElector,
        MemoryDisk,
        _,
        _,
    >(rt.alloc(), rt.reader(), &mut io::writer(&rt)))
}
