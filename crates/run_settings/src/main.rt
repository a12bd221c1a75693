//! Plays scripts on files of settings, on a member by such a file, and on what certificates certify for its committee.
//!
//! A script has a text, empty behind `reset`, and the file of settings that was read last, if it was one.
//!
//! | Call | Answer |
//! |---|---|
//! | `lines LINE ..` | how many bytes the text has with these lines behind it |
//! | `append COUNT BYTES` | the same with these bytes, so often |
//! | `file` | `STATUS FAULTS` of reading the text as a file of settings; then it is empty |
//! | `settings` | `STATUS OUTPUT FAULTS` of telling what it says; then it is what was told |
//! | `ask NAME WORD ..` | the path that the words name behind NAME, or `-` |
//! | `member CUTS DISK EVENTS` | `STATUS REPLIES FAULTS DISK` of the member of the file over a disk of these bytes; the first word is 1 to cut |
//! | `pair CUTS DISK DISK EVENTS` | `STATUS REPLIES FAULTS DISK DISK` of the same over two disks |
//! | `certifies BYTES` | what these bytes certify for the members of the file, or why nothing |
//! | `chain BYTES` | the proposals that these certificates make final, or `PLACE WHY` of the first that breaks the chain |
//!
//! A text is said in quotes with `\n` for each newline; one of more than 1,000 bytes by its length and sum. What a certificate
//! certifies is `notarization PROPOSAL`, `nullification ROUND` or `finalization PROPOSAL`; why nothing `End`, `Invalid`, `TooLong`,
//! `epoch`, `unsigned`, or for a chain also `-`: it is of another kind, or of no later view.
#![tactic(auto)]

mod files;
mod light;
mod member;

use crate::files::Files;
use std::alloc::Global;
use std::io;
use std::process::ExitCode;
use test_words::{Layer, Say, Trouble, Words, play};

impl Layer for Files {
    fn reset(&mut self, words: &mut Words<'_>, alloc: Global) -> Result<(), Trouble> {
        words.end()?;
        *self = Files::new(alloc);
        Ok(())
    }

    fn call(&mut self, name: &str, words: &mut Words<'_>, say: &mut Say) -> Result<(), Trouble> {
        match name {
            "lines" => self.lines(words, say),
            "append" => self.append(words, say),
            "file" => self.file(words, say),
            "settings" => self.settings(words, say),
            "ask" => files::ask(words, say),
            "member" => self.member(words, say),
            "pair" => self.pair(words, say),
            _ => self.light(name, words, say),
        }
    }
}

fn main(rt: HostRuntime) -> ExitCode {
    let alloc = rt.alloc();
    let mut files = Files::new(alloc);
    ExitCode::from(play(alloc, &mut files, rt.reader(), &mut io::writer(&rt)))
}
