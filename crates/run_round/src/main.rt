//! Plays scripts on the proposal of a view, and on a view's round.
#![tactic(auto)]

mod slots;
mod views;

use crate::slots::call_slot;
use crate::views::ViewRound;
use simplex_round::Slot;
use simplex_types::PlainScheme;
use std::alloc::Global;
use std::io;
use std::process::ExitCode;
use test_words::{Layer, Say, Trouble, Words, play};
use types_core::Sha256Digest;

/// What a script plays on.
#[derive(Drop)]
enum Layers {
    Nothing,
    Slot(Slot<Sha256Digest>),
    View(ViewRound<PlainScheme>),
}

impl Layer for Layers {
    fn reset(&mut self, words: &mut Words<'_>, alloc: Global) -> Result<(), Trouble> {
        match words.word() {
            "slot" => {
                words.end()?;
                *self = Layers::Slot(Slot::default());
                Ok(())
            }
            "round" => {
                *self = Layers::View(ViewRound::new(alloc, words)?);
                Ok(())
            }
            _ => Err(Trouble::Unreadable),
        }
    }

    fn call(&mut self, name: &str, words: &mut Words<'_>, say: &mut Say) -> Result<(), Trouble> {
        match self {
            Layers::Nothing => Err(Trouble::Unreadable),
            Layers::Slot(slot) => call_slot(slot, name, words, say),
            Layers::View(view) => view.call(name, words, say),
        }
    }
}

fn main(rt: HostRuntime) -> ExitCode {
    let mut layers = Layers::Nothing;
    let status = play(rt.alloc(), &mut layers, rt.reader(), &mut io::writer(&rt));
    ExitCode::from(status)
}
