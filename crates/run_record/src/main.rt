//! Plays scripts of calls on records: reads calls from standard input, one a line, makes them, and prints one line for
//! each.
//!
//! - `reset record N LENGTH MEMBER EPOCH`: an empty list of artifacts of this member of so many, in terms of so many
//!   views, under the plain scheme; `push ARTIFACT`, and `push_spelled BYTES` of one that is spelled;
//!   `first_refused`: the position of the first that a lawful record refuses, or `-`
//! - `check`: the same as `first_refused`; where the list is lawful, it is then what was added
//! - `allows ARTIFACT`, `add ARTIFACT`: whether the rules allow it behind those that were added, whoever signed it;
//!   adding asks for that, unless its view has no room, and says whether it was taken
//! - `verdict VIEW`, `has_certificate KIND VIEW`, `last_nullify`, `floor`: what was added: the view's verdict, or `-`;
//!   whether there is a certificate of the kind and view; the place of the last own nullify, or `-`; the view that it
//!   begins behind
//! - `rewrite`: the list becomes what a rewrite leaves of what was added, and that is then what was added; the view that it
//!   begins behind and how many are left, or `-` where none is dropped; `artifacts`: the list, spelled
//! - `reset coverage`: no view is covered; `cover FIRST LAST`, `covers_between PARENT VIEW`, `first_uncovered PARENT VIEW`
//! - at any time `laws`
#![tactic(auto)]

mod coverage;
mod laws;
mod record;
mod record_desk;

use crate::record_desk::Desk;
use std::io;
use std::process::ExitCode;
use test_words::play;

fn main(rt: HostRuntime) -> ExitCode {
    let mut desk = Desk::Nothing;
    ExitCode::from(play(rt.alloc(), &mut desk, rt.reader(), &mut io::writer(&rt)))
}
