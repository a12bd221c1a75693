//! What a script works on.

use crate::session::Session;
use crate::{files, memory};
use journal_single::{FileDisk, MemoryDisk};
use std::alloc::Global;
use test_words::{Layer, Say, Trouble, Words};
use types_core::{EncodeSize, Read};

/// The disks of a script, with the journal on them.
#[derive(Drop)]
enum Thing<M: Read + EncodeSize> {
    Nothing,
    Memory(Session<M, MemoryDisk>),
    Files(Session<M, FileDisk>),
}

/// The disks of a script, and the system's files. What messages the journals keep is left open: at one type each call
/// would cost the prover several times as much.
#[derive(Drop)]
pub(crate) struct Desk<'a, M: Read + EncodeSize> {
    files: &'a HostRuntime,
    thing: Thing<M>,
}

impl<'a, M: Read + EncodeSize + Drop> Desk<'a, M> {
    /// No disks.
    pub(crate) fn new(files: &'a HostRuntime) -> Self {
        Desk {
            files,
            thing: Thing::Nothing,
        }
    }

    /// Puts this in the place of what stood there.
    fn put(&mut self, thing: Thing<M>) {
        self.thing = thing;
    }

    /// The calls of the disks that are there.
    fn ask(&mut self, name: &str, words: &mut Words<'_>, say: &mut Say) -> Result<(), Trouble> {
        match &mut self.thing {
            Thing::Nothing => Err(Trouble::Unreadable),
            Thing::Memory(session) => memory::answer(session, name, words, say),
            Thing::Files(session) => session.answer(name, words, say),
        }
    }
}

impl<M: Read + EncodeSize + Drop> Layer for Desk<'_, M> {
    /// `reset nothing`, `reset memory BYTES BYTES`, `reset files PATH PATH`.
    fn reset(&mut self, words: &mut Words<'_>, alloc: Global) -> Result<(), Trouble> {
        match words.word() {
            "nothing" => {
                words.end()?;
                self.put(Thing::Nothing);
            }
            "memory" => self.put(Thing::Memory(memory::session(words, alloc)?)),
            "files" => self.put(Thing::Files(files::session(self.files, words)?)),
            _ => return Err(Trouble::Unreadable),
        }
        Ok(())
    }

    fn call(&mut self, name: &str, words: &mut Words<'_>, say: &mut Say) -> Result<(), Trouble> {
        if name == "file" {
            return files::answer(self.files, words, say);
        }
        self.ask(name, words, say)
    }
}
