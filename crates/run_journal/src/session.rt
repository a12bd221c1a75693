//! A disk, and the journal that is open on it.

use crate::device;
use crate::item::{message, say_fault, say_items};
use crate::medium::Medium;
use journal_single::Journal;
use test_words::{Say, Trouble, Words};
use types_core::{EncodeSize, Read, Write};

/// `opened`, and what was found.
fn say_found<M: Write>(say: &mut Say, found: &[M]) -> Result<(), Trouble> {
    say.text("opened ")?;
    say_items(say, found)
}

/// A disk with no journal open on it, or the journal that is open on one.
#[derive(Drop)]
pub(crate) struct Session<M: Read + EncodeSize, K: Medium> {
    disk: Option<K>,
    journal: Option<Journal<M, K>>,
}

impl<M: Read + EncodeSize + Drop, K: Medium> Session<M, K> {
    /// A disk with no journal open on it.
    pub(crate) fn new(disk: K) -> Self {
        Session {
            disk: Some(disk),
            journal: None,
        }
    }

    /// Closes the journal that is open.
    pub(crate) fn close(&mut self) {
        if let Some(journal) = self.journal.take() {
            self.disk = Some(journal.close());
        }
    }

    /// The disk, where no journal is open on it.
    pub(crate) fn disk(&mut self) -> Result<&mut K, Trouble> {
        match &mut self.disk {
            Some(disk) => Ok(disk),
            None => Err(Trouble::Condition),
        }
    }

    /// Takes the disk, where no journal is open on it.
    pub(crate) fn take(&mut self) -> Result<K, Trouble> {
        match self.disk.take() {
            Some(disk) => Ok(disk),
            None => Err(Trouble::Condition),
        }
    }

    /// Gives a disk back that was taken.
    pub(crate) fn put(&mut self, disk: K) {
        self.disk = Some(disk);
    }

    /// `open`: closes the journal that is open, opens the disk, and tells what was found.
    pub(crate) fn open(&mut self, say: &mut Say) -> Result<(), Trouble> {
        self.close();
        match Journal::open(say.alloc, self.take()?) {
            Ok((journal, found)) => {
                self.journal = Some(journal);
                say_found(say, &found)
            }
            Err((fault, disk)) => {
                self.disk = Some(disk);
                say_fault(say, fault)
            }
        }
    }

    /// `append MESSAGE`.
    fn append(&mut self, words: &mut Words<'_>, say: &mut Say) -> Result<(), Trouble> {
        let item: M = message(words, say.alloc)?;
        words.end()?;
        let Some(journal) = &mut self.journal else {
            return Err(Trouble::Condition);
        };
        match journal.append(&item) {
            Ok(()) => say.ok(),
            Err(fault) => say_fault(say, fault),
        }
    }

    /// `is_failed`: whether an append has failed for the disk.
    fn is_failed(&self, say: &mut Say) -> Result<(), Trouble> {
        match &self.journal {
            Some(journal) => say.truth(journal.is_failed()),
            None => Err(Trouble::Condition),
        }
    }

    /// `failures`: how often a call of the disk has failed.
    fn failures(&self, say: &mut Say) -> Result<(), Trouble> {
        if let Some(journal) = &self.journal {
            return say.number(journal.failures());
        }
        match &self.disk {
            Some(disk) => say.number(disk.failures()),
            None => Err(Trouble::Condition),
        }
    }

    /// `bytes`: what the disk holds, while no journal is open.
    pub(crate) fn bytes(&self, say: &mut Say) -> Result<(), Trouble> {
        let Some(disk) = &self.disk else {
            return Err(Trouble::Condition);
        };
        match disk.image() {
            Some(bytes) => say.bytes(bytes),
            None => Err(Trouble::Condition),
        }
    }

    /// The calls of a journal, and else those of its disk.
    pub(crate) fn answer(
        &mut self,
        name: &str,
        words: &mut Words<'_>,
        say: &mut Say,
    ) -> Result<(), Trouble> {
        match name {
            "append" => self.append(words, say),
            "open" | "close" | "is_failed" | "failures" | "bytes" => {
                words.end()?;
                self.ask(name, say)
            }
            _ => self.ask_disk(name, words, say),
        }
    }

    /// The calls that have no words.
    fn ask(&mut self, name: &str, say: &mut Say) -> Result<(), Trouble> {
        match name {
            "open" => self.open(say),
            "close" => {
                self.close();
                say.ok()
            }
            "is_failed" => self.is_failed(say),
            "failures" => self.failures(say),
            _ => self.bytes(say),
        }
    }

    /// The calls of the disk itself, while no journal is open.
    fn ask_disk(
        &mut self,
        name: &str,
        words: &mut Words<'_>,
        say: &mut Say,
    ) -> Result<(), Trouble> {
        let disk = self.disk()?;
        match name {
            "len" => device::len(disk, words, say),
            "read" => device::read(disk, words, say),
            "write_at" => device::write_at(disk, words, say),
            "cut" => device::cut(disk, words, say),
            "sync" => device::sync(disk, words, say),
            _ => Err(Trouble::Unreadable),
        }
    }
}
