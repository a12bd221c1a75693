//! Plays scripts of calls of a voter, and of how a member is set up, by the lines of `test_words`.
//!
//! Behind `reset voter` stand the words of a [`Setup`], and the lines are calls of `State`, or of the views that it
//! lends (`voter/seeing.rt`). Behind `reset config` they are calls of what a member is set up with, starts from and asks
//! for, and `same REASON REASON` asks whether two reasons to give a handoff up are one.
#![tactic(auto)]

mod configuring;
mod reading;
mod setup;
mod turns;
mod voter;

use configuring::ask;
use setup::found;
use simplex_types::PlainScheme;
use std::alloc::Global;
use std::io;
use std::process::ExitCode;
use test_words::{Layer, Say, Trouble, Words, play};
use turns::Turns;
use voter::Voter;

/// What the lines are about.
#[derive(Drop)]
enum Layers {
    /// Nothing yet.
    Nothing,
    /// A voter.
    Voter(Voter<PlainScheme, Turns>),
    /// How a member is set up.
    Config,
}

impl Layer for Layers {
    fn reset(&mut self, words: &mut Words<'_>, alloc: Global) -> Result<(), Trouble> {
        match words.word() {
            "voter" => *self = Layers::Voter(found(alloc, words)?),
            "config" => {
                words.end()?;
                *self = Layers::Config;
            }
            _ => return Err(Trouble::Unreadable),
        }
        Ok(())
    }

    fn call(&mut self, name: &str, words: &mut Words<'_>, say: &mut Say) -> Result<(), Trouble> {
        match self {
            Layers::Nothing => Err(Trouble::Unreadable),
            Layers::Voter(voter) => voter.call(name, words, say),
            Layers::Config => ask(name, words, say),
        }
    }
}

fn main(rt: HostRuntime) -> ExitCode {
    let mut layers = Layers::Nothing;
    let status = play(rt.alloc(), &mut layers, rt.reader(), &mut io::writer(&rt));
    ExitCode::from(status)
}
