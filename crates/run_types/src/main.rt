//! Plays scripts of calls on the types of `types_core`: each line is a call, and its answer a line.
//!
//! Values are told by TYPE and by the BYTES of their spelling: `view`, `epoch`, `truth`, `member`, `round`, `digest`,
//! `proposal`, `context`, `key`, `signature`, `attestation`, `list`.
//!
//! - `read TYPE BOUND BYTES`, `cuts TYPE BOUND BYTES`, `distinct TYPE BYTES..`, `equal TYPE BYTES BYTES`: what
//!   `test_values` asks; `order`, `belongs`, `most` of the types in `kinds.rt`; `digest BYTES`
//! - `term LENGTH VIEW`, `term_end`, `next_term_start`, `covers LENGTH NULLIFIED VIEW`, `next`, `previous`, `quorum
//!   MEMBERS`, `epoch`, `view`, `delta`, `length`: calls on numbers (`positions.rt`)
//! - `subject BASE INDEX SUBJECT`, where SUBJECT is `notarize PROPOSAL`, `nullify ROUND` or `finalize PROPOSAL`
//! - `list MEMBERS ATTESTATION..`, `listed LIST`, `distinct_members MEMBERS ATTESTATION..`, `within BOUND LIST`
//! - `scheme plain MEMBERS ME CALL`, `scheme serial MEMBERS ME CALL`, where CALL is one of `schemes.rt`
//! - `laws`: the laws are called
#![tactic(auto)]

mod calls;
mod kinds;
mod lists;
mod positions;
mod schemes;
mod subjects;

use std::alloc::Global;
use std::io;
use std::process::ExitCode;
use test_words::{Layer, Say, Trouble, Words, play};

/// Calls that leave nothing behind.
#[derive(Drop)]
struct Types;

impl Layer for Types {
    fn reset(&mut self, _words: &mut Words<'_>, _alloc: Global) -> Result<(), Trouble> {
        Err(Trouble::Unreadable)
    }

    fn call(&mut self, name: &str, words: &mut Words<'_>, say: &mut Say) -> Result<(), Trouble> {
        calls::answer(name, words, say)?;
        words.end()
    }
}

fn main(rt: HostRuntime) -> ExitCode {
    let status = play(rt.alloc(), &mut Types, rt.reader(), &mut io::writer(&rt));
    ExitCode::from(status)
}
