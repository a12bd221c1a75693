//! Plays scripts on electors, windows, the salted scheme and the audit: each line is a call, answered by a line.
//!
//! | Line | Answer |
//! |---|---|
//! | `keep HEX` | the number under which the bytes are kept, from 0 on |
//! | `repeat TIMES LIST`, `front LENGTH LIST` | the same of what is kept under these numbers, one behind the other, so many times; of the first bytes of that, so many |
//! | `audit SCHEME N LIST` | `FAULT`, then the evidence, with ` , ` between two; `-` where there is none |
//! | `audit_sum SCHEME N LIST` | `FAULT LENGTH SUM` of the bytes that spell the evidence, one behind the other |
//! | `right N NUMBER` | whether the report that is kept there verifies in the plain scheme |
//! | `elector leads ORDER TERMS MEMBERS EPOCH VIEW COUNT` | who leads so many views of the epoch from this one on |
//! | `elector copies_lead ..`, `elector sets ORDER TERMS MEMBERS` | the same by duplicates of the rotation and its elector; the terms and the mode |
//! | `elector by_count MEMBERS EPOCH VIEW HEX` | the leader by an elector that goes by the length of the list of attestations, `-` for none |
//! | `lookahead in_admission_window L K CURRENT FIRST LAST`, `admits`, `admits_outbound` | which of these views |
//! | `lookahead admission_limit L K VIEW`, `after_nullification`, `issuance_floor` | a view, or `-` |
//! | `viewport floor FINALIZED CURRENT RETENTION L K`, `first_reaching` | a view |
//! | `viewport retains FINALIZED CURRENT RETENTION L K FIRST LAST`, `admits_vote`, `admits_certificate` | which of these views |
//! | `terms TERMS`, `kind KIND`, `laws` | `LENGTH STALL VIEWS`; the word it is printed as; `ok` |
//! | `salted N ME COUNTER SUBJECT ASKED` | what the salted scheme answers (see `salted.rt`) |
//! | `seat N ME`, `key N INDEX`, `assemble N HEX`, `signature HEX` | the same |
//!
//! SCHEME is `plain` or `salted`, N the committee's size, HEX bytes, ORDER `ascending` or `shuffled HEX`, TERMS
//! `rotating` or `stable LENGTH STALL VIEWS`, L and K the length of terms and how many views are optimistic. At most a
//! thousand views are asked for at once. `reset` forgets what is kept.
#![tactic(auto)]

mod audits;
mod by_count;
mod bytes;
mod electors;
mod salted;
mod windows;

use crate::audits::Pieces;
use std::alloc::Global;
use std::io;
use std::process::ExitCode;
use test_words::{Layer, Say, Trouble, Words, play};

/// What the calls are made on. All but the audit's bring what they need.
#[derive(Drop)]
struct Rules {
    pieces: Pieces,
}

impl Layer for Rules {
    fn reset(&mut self, words: &mut Words<'_>, alloc: Global) -> Result<(), Trouble> {
        words.end()?;
        self.pieces = Pieces::new(alloc);
        Ok(())
    }

    fn call(&mut self, name: &str, words: &mut Words<'_>, say: &mut Say) -> Result<(), Trouble> {
        match name {
            "keep" => self.pieces.keep(words, say),
            "repeat" => self.pieces.repeat(words, say),
            "front" => self.pieces.front(words, say),
            "audit" => self.pieces.audit(false, words, say),
            "audit_sum" => self.pieces.audit(true, words, say),
            "right" => self.pieces.right(words, say),
            _ => ask(name, words, say),
        }
    }
}

/// The calls that nothing is kept for.
fn ask(name: &str, words: &mut Words<'_>, say: &mut Say) -> Result<(), Trouble> {
    match name {
        "elector" => electors::ask(words, say),
        "lookahead" => windows::ask_lookahead(words, say),
        "viewport" => windows::ask_viewport(words, say),
        "salted" => salted::ask(words, say),
        _ => ask_more(name, words, say),
    }
}

fn ask_more(name: &str, words: &mut Words<'_>, say: &mut Say) -> Result<(), Trouble> {
    match name {
        "seat" => salted::seat(words, say),
        "key" => salted::key(words, say),
        "assemble" => salted::assemble(words, say),
        "signature" => salted::signature(words, say),
        "taken" => salted::taken(words, say),
        _ => ask_once(name, words, say),
    }
}

fn ask_once(name: &str, words: &mut Words<'_>, say: &mut Say) -> Result<(), Trouble> {
    match name {
        "terms" => electors::terms(words, say),
        "kind" => electors::kind(words, say),
        "laws" => laws(words, say),
        _ => Err(Trouble::Unreadable),
    }
}

/// The laws, which do nothing when they are called.
fn laws(words: &mut Words<'_>, say: &mut Say) -> Result<(), Trouble> {
    words.end()?;
    electors::laws();
    windows::laws();
    salted::laws();
    audits::laws();
    say.ok()
}

fn main(rt: HostRuntime) -> ExitCode {
    let alloc = rt.alloc();
    let mut rules = Rules {
        pieces: Pieces::new(alloc),
    };
    ExitCode::from(play(alloc, &mut rules, rt.reader(), &mut io::writer(&rt)))
}
