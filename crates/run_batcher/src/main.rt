//! Plays scripts on the votes of one round.
//!
//! `run CALL ..` has `run` make a list of calls on a round: what is answered to each, with ` , ` between two.
#![tactic(auto)]

mod answers;
mod desk;
mod flood;
mod lists;
mod rounds;

use crate::desk::Desk;
use crate::rounds::Votes;
use simplex_types::{PlainScheme, SaltedScheme};
use std::alloc::Global;
use std::io;
use std::process::ExitCode;
use test_schemes::OneByOne;
use test_words::{Layer, Say, Trouble, Words, play};

/// What a script plays on: a round under one of three schemes, or the votes of one that count for certificates.
#[derive(Drop)]
enum Layers {
    Nothing,
    Plain(Votes<PlainScheme>),
    Salted(Votes<SaltedScheme>),
    Serial(Votes<OneByOne>),
    Desk(Desk),
}

/// A round under the scheme of the next word.
fn opened(alloc: Global, words: &mut Words<'_>) -> Result<Layers, Trouble> {
    match words.word() {
        "plain" => Ok(Layers::Plain(Votes::new(alloc, words)?)),
        "salted" => Ok(Layers::Salted(Votes::new(alloc, words)?)),
        "serial" => Ok(Layers::Serial(Votes::new(alloc, words)?)),
        _ => Err(Trouble::Unreadable),
    }
}

impl Layer for Layers {
    fn reset(&mut self, words: &mut Words<'_>, alloc: Global) -> Result<(), Trouble> {
        let next = match words.word() {
            "batcher" => opened(alloc, words)?,
            "verifier" => Layers::Desk(Desk::new(alloc, words)?),
            _ => return Err(Trouble::Unreadable),
        };
        *self = next;
        Ok(())
    }

    fn call(&mut self, name: &str, words: &mut Words<'_>, say: &mut Say) -> Result<(), Trouble> {
        match self {
            Layers::Nothing => Err(Trouble::Unreadable),
            Layers::Plain(votes) => votes.call(name, words, say),
            Layers::Salted(votes) => votes.call(name, words, say),
            Layers::Serial(votes) => votes.call(name, words, say),
            Layers::Desk(desk) => desk.call(name, words, say),
        }
    }
}

fn main(rt: HostRuntime) -> ExitCode {
    let mut layers = Layers::Nothing;
    let status = play(rt.alloc(), &mut layers, rt.reader(), &mut io::writer(&rt));
    ExitCode::from(status)
}
