//! Plays scripts of calls on messages under the plain scheme: each line is a call, and its answer a line.
//!
//! Messages are told by TYPE and by the BYTES of their spelling: `notarize`, `nullify`, `finalize`, `notarization`,
//! `nullification`, `finalization`, `two-notarizes`, `two-finalizes`, `nullify-finalize`, and behind a tag `vote`,
//! `certificate`, `artifact`, `report`.
//!
//! - `read TYPE BOUND BYTES`, `cuts TYPE BOUND BYTES`, `changes TYPE BOUND BITS BYTES`, `belongs TYPE BYTES`, `distinct
//!   TYPE BYTES..`, `equal TYPE BYTES BYTES`: what `test_values` asks; `signer`, `most`, `within`, `becomes`,
//!   `reports` and `certification` in `kinds.rt`
//! - `sign KIND MEMBERS ME PROPOSAL` (a round for a nullify), `can_assemble CERTIFICATE MEMBERS VOTE..`, `assemble
//!   CERTIFICATE OWNED MEMBERS VOTE..`
//! - `verify TYPE MEMBERS BYTES`, `verified REPORT`, `certificates MEMBERS CERTIFICATE..`
//! - `contradict KIND VOTE VOTE`, `conflict KIND VOTE VOTE`, `beside NULLIFY FINALIZE`, `nullify_finalize NULLIFY
//!   FINALIZE`
//! - `reset PARTICIPANTS`: a new map; `map CALL`, where CALL is one of `map.rt`
//! - `laws`: the laws are called
#![tactic(auto)]

mod calls;
mod evidence;
mod kinds;
mod making;
mod map;
mod types;
mod verdicts;

use simplex_messages::AttributableMap;
use simplex_types::PlainScheme;
use std::alloc::Global;
use std::io;
use std::process::ExitCode;
use test_words::{Layer, Say, Trouble, Words, play};
use types_core::Attestation;

/// The map that was asked for last. All other calls leave nothing behind.
#[derive(Drop)]
struct Messages {
    map: Option<AttributableMap<Attestation<u8>>>,
}

impl Layer for Messages {
    fn reset(&mut self, words: &mut Words<'_>, alloc: Global) -> Result<(), Trouble> {
        let participants = words.index()?;
        words.end()?;
        self.map = Some(AttributableMap::new(alloc, participants)?);
        Ok(())
    }

    fn call(&mut self, name: &str, words: &mut Words<'_>, say: &mut Say) -> Result<(), Trouble> {
        if name == "map" {
            return match &mut self.map {
                Some(map) => map::call(map, words, say),
                None => Err(Trouble::Unreadable),
            };
        }
        calls::answer::<PlainScheme>(name, words, say)?;
        words.end()
    }
}

fn main(rt: HostRuntime) -> ExitCode {
    let mut messages = Messages { map: None };
    let status = play(rt.alloc(), &mut messages, rt.reader(), &mut io::writer(&rt));
    ExitCode::from(status)
}
