//! Two disks, and the journal that is open on them.

ghost use Rattle.std.specs.Prelude.{All, IfOk};

use crate::item::{message, say_fault, say_items};
use journal_single::Disk;
use simplex_journal::Pair;
use std::alloc::Global;
use test_words::{Say, Trouble, Words};
use types_core::{EncodeSize, Read, Write};

/// Two disks with no journal open on them, or the journal that is open.
#[derive(Drop)]
pub(crate) struct Session<M: Read + EncodeSize, K: Disk> {
    disks: Option<(K, K)>,
    journal: Option<Pair<M, K>>,
}

/// The messages that the words left spell, so many at most, each of which can be read again.
pub(crate) fn messages<M: Read + Drop>(
    words: &mut Words<'_>,
    alloc: Global,
    most: u64,
) -> Result<Vec<M>, Trouble>
    ensures { IfOk result (λ list. All (M.within 65535) list.items) }
{
    let mut list = Vec::new(alloc);
    for _ in 0..most {
        if !words.more() {
            break;
        }
        let one: M = message(words, alloc)?;
        list.push(one)?;
    }
    Ok(list)
}

/// `opened`, and what was found.
fn say_found<M: Write>(say: &mut Say, found: &[M]) -> Result<(), Trouble> {
    say.text("opened ")?;
    say_items(say, found)
}

impl<M: Read + EncodeSize + Drop, K: Disk> Session<M, K> {
    /// Two disks with no journal open on them.
    pub(crate) fn new(first: K, second: K) -> Self {
        Session {
            disks: Some((first, second)),
            journal: None,
        }
    }

    /// Closes the journal that is open.
    fn close(&mut self) {
        if let Some(journal) = self.journal.take() {
            self.disks = Some(journal.close());
        }
    }

    /// The disks, where no journal is open on them.
    pub(crate) fn disks(&mut self) -> Result<&mut (K, K), Trouble> {
        match &mut self.disks {
            Some(disks) => Ok(disks),
            None => Err(Trouble::Condition),
        }
    }

    /// Takes the disks, where no journal is open on them.
    pub(crate) fn take(&mut self) -> Result<(K, K), Trouble> {
        match self.disks.take() {
            Some(disks) => Ok(disks),
            None => Err(Trouble::Condition),
        }
    }

    /// Gives disks back that were taken.
    pub(crate) fn put(&mut self, first: K, second: K) {
        self.disks = Some((first, second));
    }

    /// `open`: closes the journal that is open, opens the disks, and tells what was found.
    fn open(&mut self, say: &mut Say) -> Result<(), Trouble> {
        self.close();
        let (first, second) = self.take()?;
        match Pair::open(say.alloc, first, second) {
            Ok((journal, found)) => {
                self.journal = Some(journal);
                say_found(say, &found)
            }
            Err((fault, first, second)) => {
                self.put(first, second);
                say_fault(say, fault)
            }
        }
    }

    /// `append MESSAGE`.
    fn append(&mut self, words: &mut Words<'_>, say: &mut Say) -> Result<(), Trouble> {
        let item: M = message(words, say.alloc)?;
        words.end()?;
        let Some(journal) = &mut self.journal else {
            return Err(Trouble::Condition);
        };
        match journal.append(&item) {
            Ok(()) => say.ok(),
            Err(fault) => say_fault(say, fault),
        }
    }

    /// `rewrite MESSAGE ..`.
    fn rewrite(&mut self, words: &mut Words<'_>, say: &mut Say) -> Result<(), Trouble> {
        let list: Vec<M> = messages(words, say.alloc, u64::MAX)?;
        let Some(journal) = &mut self.journal else {
            return Err(Trouble::Condition);
        };
        match journal.rewrite(&list) {
            Ok(()) => say.ok(),
            Err(fault) => say_fault(say, fault),
        }
    }

    /// What the journal that is open tells of itself.
    fn ask_journal(&self, name: &str, say: &mut Say) -> Result<(), Trouble> {
        let Some(journal) = &self.journal else {
            return Err(Trouble::Condition);
        };
        if name == "is_failed" {
            return say.truth(journal.is_failed());
        }
        if name == "generation" {
            return say.number(journal.generation() as u64);
        }
        let (first, second) = journal.failures();
        say.number(first)?;
        say.gap()?;
        say.number(second)
    }

    /// The calls of a journal.
    pub(crate) fn answer(
        &mut self,
        name: &str,
        words: &mut Words<'_>,
        say: &mut Say,
    ) -> Result<(), Trouble> {
        match name {
            "append" => self.append(words, say),
            "rewrite" => self.rewrite(words, say),
            "open" => {
                words.end()?;
                self.open(say)
            }
            "close" => {
                words.end()?;
                self.close();
                say.ok()
            }
            "is_failed" | "generation" | "failures" => {
                words.end()?;
                self.ask_journal(name, say)
            }
            _ => Err(Trouble::Unreadable),
        }
    }
}
