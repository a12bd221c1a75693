//! Plays scripts on the command line programs: each line is a call, answered by a line. The streams of a call are fakes,
//! which the lines before it describe.
//!
//! | Line | Answer |
//! |---|---|
//! | `reset` | `ok`: an input without bytes, streams that move all at once and never fail, two empty disks |
//! | `append TIMES HEX` | how many bytes the input has with these behind it, so many times |
//! | `reader SIZE ROOM FAULT`, `output ..`, `faults ..` | `ok`: such is the stream of each call from here on |
//! | `audit COUNT` | `STATUS LEFT OUTPUT FAULTS` of `audit_over` |
//! | `run WORD ..` | the same of the program with these words |
//! | `tool WORD ..` | the same of the program of tools; the input is the file that the words name, too |
//! | `write COUNT` | what `write_audit` answers, then `LEFT OUTPUT` |
//! | `serve INDEX COUNT` | `STATUS LEFT OUTPUT FAULTS` of a node's program over the disks; the output in digits |
//! | `disk BYTES`, `disk BYTES BYTES` | `ok`: one such disk, or two |
//! | `fuse CALLS`, `fail_at CALLS` | `ok`: behind so many calls all or one of the disk fail; of two, DISK stands before CALLS, 1 or 2 |
//! | `bytes` | what the disk holds, or each of two |
//! | `report OUTCOME`, `unread KIND` | `STATUS FAULTS` of `report`, and of `words_unread` after such an error |
//! | `parse WORD ..` | `audit COUNT`, `node PATH INDEX COUNT`, or `-` |
//! | `number WORD` | the number, or `-` |
//! | `size KIND COUNT BYTES` | how many bytes the message at their front takes, or its refusal |
//! | `usage`, `line TROUBLE` | the text |
//!
//! SIZE is how many bytes a read or write moves at most, ROOM how many the stream has or takes in all: a reader ends
//! there, a writer then takes none; `-` is no bound. FAULT is `never`, or `KIND CALLS`: so the call (a read, write or
//! flush) behind so many fails, once. KIND is an `io::ErrorKind`: `interrupted`, `other`, `would-block`, `broken-pipe`,
//! `out-of-memory` or `invalid-data`. LEFT is how many bytes the reader has left.
//!
//! A WORD is as it stands, with `_` for a blank in it; `-` is the empty one. OUTCOME is `whole`, `place N` or a TROUBLE:
//! `memory`, `device`, `write`. A text stands in quotes with `\n` for each newline; one of more than a thousand bytes is
//! told by its length and its sum.
#![tactic(auto)]

mod commands;
mod fakes;
mod serving_node;
mod streams;

use crate::serving_node::Medium;
use crate::streams::Streams;
use std::alloc::Global;
use std::io;
use std::process::ExitCode;
use test_words::{Layer, Say, Trouble, Words, play};

/// What the calls are made on.
#[derive(Drop)]
struct Cli {
    streams: Streams,
    medium: Medium,
}

impl Layer for Cli {
    fn reset(&mut self, words: &mut Words<'_>, alloc: Global) -> Result<(), Trouble> {
        words.end()?;
        self.streams = Streams::new(alloc);
        self.medium = Medium::new(alloc);
        Ok(())
    }

    fn call(&mut self, name: &str, words: &mut Words<'_>, say: &mut Say) -> Result<(), Trouble> {
        match name {
            "append" => self.streams.append(words, say),
            "reader" => self.streams.set_reader(words, say),
            "output" => self.streams.set_output(words, say),
            "faults" => self.streams.set_faults(words, say),
            "serve" => self.medium.serve(&self.streams, words, say),
            "disk" | "bytes" | "fuse" | "fail_at" => self.medium.call(name, words, say),
            _ => ask(&self.streams, name, words, say),
        }
    }
}

/// The calls that leave the streams as they are described.
fn ask(streams: &Streams, name: &str, words: &mut Words<'_>, say: &mut Say) -> Result<(), Trouble> {
    match name {
        "audit" => streams.audit(words, say),
        "run" => streams.run(words, say),
        "tool" => streams.tool(words, say),
        "write" => streams.write(words, say),
        "report" => streams.report(words, say),
        "unread" => streams.unread(words, say),
        _ => ask_words(name, words, say),
    }
}

/// The calls that are given no stream.
fn ask_words(name: &str, words: &mut Words<'_>, say: &mut Say) -> Result<(), Trouble> {
    match name {
        "parse" => commands::parse(words, say),
        "number" => commands::number(words, say),
        "usage" => commands::usage(words, say),
        "line" => commands::line(words, say),
        "size" => commands::size(words, say),
        _ => Err(Trouble::Unreadable),
    }
}

fn main(rt: HostRuntime) -> ExitCode {
    let alloc = rt.alloc();
    let mut cli = Cli {
        streams: Streams::new(alloc),
        medium: Medium::new(alloc),
    };
    ExitCode::from(play(alloc, &mut cli, rt.reader(), &mut io::writer(&rt)))
}
