//! The member of a script, by its scheme.

use crate::member::Answers;
use crate::setup::Setup;
use std::alloc::Global;
use std::io::{Read, Write};
use test_words::{Layer, Say, Trouble, Words, play};

/// The member of a script.
#[derive(Drop)]
pub(crate) enum Desk<P, Q> {
    /// Before the first `reset`.
    Nothing,
    /// Of the plain scheme.
    Plain(P),
    /// Of the salted scheme.
    Salted(Q),
}

impl<P: Answers, Q: Answers> Layer for Desk<P, Q> {
    fn reset(&mut self, words: &mut Words<'_>, alloc: Global) -> Result<(), Trouble> {
        let is_pair = match words.word() {
            "node" => false,
            "pair" => true,
            _ => return Err(Trouble::Unreadable),
        };
        let scheme = words.word();
        let setup = Setup::read(words)?;
        let desk = match scheme {
            "plain" => Desk::Plain(P::new(alloc, setup, is_pair)?),
            "salted" => Desk::Salted(Q::new(alloc, setup, is_pair)?),
            _ => return Err(Trouble::Unreadable),
        };
        *self = desk;
        Ok(())
    }

    fn call(&mut self, name: &str, words: &mut Words<'_>, say: &mut Say) -> Result<(), Trouble> {
        match self {
            Desk::Nothing => Err(Trouble::Unreadable),
            Desk::Plain(member) => member.answer(name, words, say),
            Desk::Salted(member) => member.answer(name, words, say),
        }
    }
}

/// Plays a script, and gives the status to end with: the member is a `P` where its scheme is `plain`, a `Q` where it is `salted`.
pub fn play_on<P: Answers, Q: Answers, R: Read + Drop, W: Write>(
    alloc: Global,
    input: R,
    output: &mut W,
) -> u8 {
    let mut desk = Desk::<P, Q>::Nothing;
    play(alloc, &mut desk, input, output)
}
