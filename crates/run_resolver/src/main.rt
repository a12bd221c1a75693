//! Plays scripts on what a member still has to fetch, and what it serves.
#![tactic(auto)]

mod asks;
mod effects;
mod repair;

use crate::asks::call_on_asks;
use crate::repair::Repair;
use std::alloc::Global;
use std::io;
use std::process::ExitCode;
use test_words::{Layer, Say, Trouble, Words, play};

/// What a script plays on.
#[derive(Drop)]
enum Layers {
    Nothing,
    Asks,
    Repair(Repair),
}

impl Layer for Layers {
    fn reset(&mut self, words: &mut Words<'_>, alloc: Global) -> Result<(), Trouble> {
        match words.word() {
            "asks" => {
                words.end()?;
                *self = Layers::Asks;
                Ok(())
            }
            "resolver" => {
                *self = Layers::Repair(Repair::new(alloc, words)?);
                Ok(())
            }
            _ => Err(Trouble::Unreadable),
        }
    }

    fn call(&mut self, name: &str, words: &mut Words<'_>, say: &mut Say) -> Result<(), Trouble> {
        match self {
            Layers::Nothing => Err(Trouble::Unreadable),
            Layers::Asks => call_on_asks(name, words, say),
            Layers::Repair(repair) => repair.call(name, words, say),
        }
    }
}

fn main(rt: HostRuntime) -> ExitCode {
    let mut layers = Layers::Nothing;
    let status = play(rt.alloc(), &mut layers, rt.reader(), &mut io::writer(&rt));
    ExitCode::from(status)
}
