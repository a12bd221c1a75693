//! The calls of a voter, whatever its scheme and whoever leads: at one of each they would cost the prover several times as
//! much. What is left of a line tells calls of no word, of a number and of other words apart: a call that has a word to read in
//! its arm costs twice as much. Each group of them hands on to the next group what it doesn't know.

ghost use Rattle.std.specs.Prelude.{◌≡◌};

mod asking;
mod knowing;
mod learning;
mod looking;
mod owing;
mod seeing;
mod voting;

use crate::setup::Setup;
use simplex_state::State;
use simplex_types::PlainKey;
use std::alloc::{AllocError, Global};
use std::rc::Rc;
use test_words::{Committee, Left, Say, Trouble, Words};
use types_core::{Scheme, Sha256Digest};
use types_terms::Elector;

/// A voter of a committee of so many.
#[derive(Drop)]
pub struct Voter<S: Scheme<Sha256Digest>, L: Elector<S, Sha256Digest>> {
    participants: u32,
    state: State<S, L, Sha256Digest>,
}

impl<S: Committee + Scheme<Sha256Digest, PublicKey = PlainKey>, L: Elector<S, Sha256Digest>> Voter<
    S,
    L,
> {
    /// A voter of this setup, to which nothing has happened.
    pub fn new(alloc: Global, setup: &Setup, scheme: Rc<S>, elector: L) -> Result<Self, AllocError>
        requires { L.built_for elector (S.size scheme.value) }
    {
        Ok(Voter {
            participants: setup.participants,
            state: State::new(alloc, scheme, elector, &setup.config)?,
        })
    }

    /// Makes the call of this name.
    pub fn call(
        &mut self,
        name: &str,
        words: &mut Words<'_>,
        say: &mut Say,
    ) -> Result<(), Trouble> {
        match words.left() {
            Left::Nothing => self.standing(name, say),
            Left::Number(number) => self.at_once(name, number, say),
            Left::Others => self.learnt(name, words, say),
        }
    }
}
