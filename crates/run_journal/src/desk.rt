//! What a script works on.

use crate::session::Session;
use crate::torn_disk::TornDisk;
use crate::{files, laws, memory, torn};
use journal_single::{FileDisk, MemoryDisk};
use std::alloc::Global;
use test_words::{Layer, Say, Trouble, Words};
use types_core::{EncodeSize, Read};

/// The disk of a script, with the journal on it.
#[derive(Drop)]
enum Thing<M: Read + EncodeSize> {
    Nothing,
    Memory(Session<M, MemoryDisk>),
    Torn(Session<M, TornDisk>),
    File(Session<M, FileDisk>),
}

/// The disk of a script, and the system's files. What messages the journals keep is left open: at one type each call
/// would cost the prover several times as much.
#[derive(Drop)]
pub(crate) struct Desk<'a, M: Read + EncodeSize> {
    files: &'a HostRuntime,
    thing: Thing<M>,
}

impl<'a, M: Read + EncodeSize + Drop> Desk<'a, M> {
    /// No disk.
    pub(crate) fn new(files: &'a HostRuntime) -> Self {
        Desk {
            files,
            thing: Thing::Nothing,
        }
    }

    /// Puts this in the place of what stood there.
    fn put(&mut self, thing: Thing<M>) {
        self.thing = thing;
    }

    /// The calls of the disk that is there.
    fn ask(&mut self, name: &str, words: &mut Words<'_>, say: &mut Say) -> Result<(), Trouble> {
        match &mut self.thing {
            Thing::Nothing => Err(Trouble::Unreadable),
            Thing::Memory(session) => memory::answer(session, name, words, say),
            Thing::Torn(session) => torn::answer(session, name, words, say),
            Thing::File(session) => session.answer(name, words, say),
        }
    }
}

impl<M: Read + EncodeSize + Drop> Layer for Desk<'_, M> {
    /// `reset nothing`, `reset memory BYTES`, `reset torn BYTES`, `reset file PATH`.
    fn reset(&mut self, words: &mut Words<'_>, alloc: Global) -> Result<(), Trouble> {
        match words.word() {
            "nothing" => {
                words.end()?;
                self.put(Thing::Nothing);
            }
            "memory" => self.put(Thing::Memory(memory::session(words, alloc)?)),
            "torn" => self.put(Thing::Torn(torn::session(words, alloc)?)),
            "file" => self.put(Thing::File(files::session(self.files, words)?)),
            _ => return Err(Trouble::Unreadable),
        }
        Ok(())
    }

    fn call(&mut self, name: &str, words: &mut Words<'_>, say: &mut Say) -> Result<(), Trouble> {
        match name {
            "file" => files::answer(self.files, words, say),
            "finds" => memory::finds::<M>(words, say),
            "laws" => laws::answer::<M>(words, say),
            _ => self.ask(name, words, say),
        }
    }
}
