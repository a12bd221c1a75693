//! The disks of a script, one or two, and a node's program over them.

use crate::streams::{Streams, count, short};
use journal_books::Disks;
use journal_single::MemoryDisk;
use std::alloc::Global;
use test_words::{Say, Trouble, Words};

/// The disks, which a node has while its program runs.
#[derive(Drop)]
pub(crate) struct Medium {
    disks: Option<Disks<MemoryDisk>>,
}

impl Medium {
    /// Two empty disks.
    pub(crate) fn new(alloc: Global) -> Self {
        Medium {
            disks: Some(Disks::Two(MemoryDisk::new(alloc), MemoryDisk::new(alloc))),
        }
    }

    /// `serve INDEX COUNT`.
    pub(crate) fn serve(
        &mut self,
        streams: &Streams,
        words: &mut Words<'_>,
        say: &mut Say,
    ) -> Result<(), Trouble> {
        let index = short(words)?;
        let count = count(words)?;
        if index >= count {
            return Err(Trouble::Condition);
        }
        let Some(disks) = self.disks.take() else {
            return Err(Trouble::Condition);
        };
        self.disks = Some(streams.serve(disks, index, count, say)?);
        Ok(())
    }

    /// The call on the disks of this name.
    pub(crate) fn call(
        &mut self,
        name: &str,
        words: &mut Words<'_>,
        say: &mut Say,
    ) -> Result<(), Trouble> {
        match name {
            "disk" => self.put(words, say),
            "bytes" => self.bytes(words, say),
            _ => self.fail(name, words, say),
        }
    }

    /// `disk BYTES`, `disk BYTES BYTES`.
    fn put(&mut self, words: &mut Words<'_>, say: &mut Say) -> Result<(), Trouble> {
        let first = words.bytes(say.alloc)?;
        let first = MemoryDisk::with(say.alloc, &first)?;
        if !words.more() {
            self.disks = Some(Disks::One(first));
            return say.ok();
        }
        let second = words.bytes(say.alloc)?;
        words.end()?;
        let second = MemoryDisk::with(say.alloc, &second)?;
        self.disks = Some(Disks::Two(first, second));
        say.ok()
    }

    /// `bytes`.
    fn bytes(&self, words: &Words<'_>, say: &mut Say) -> Result<(), Trouble> {
        words.end()?;
        match &self.disks {
            Some(Disks::One(disk)) => say.bytes(disk.bytes()),
            Some(Disks::Two(first, second)) => {
                say.bytes(first.bytes())?;
                say.gap()?;
                say.bytes(second.bytes())
            }
            None => Err(Trouble::Condition),
        }
    }

    /// `fuse CALLS`, `fail_at CALLS`: of this name. Of two disks the first word names one.
    fn fail(&mut self, name: &str, words: &mut Words<'_>, say: &mut Say) -> Result<(), Trouble> {
        let Some(disks) = &mut self.disks else {
            return Err(Trouble::Condition);
        };
        match disks {
            Disks::One(disk) => fail_disk(name, disk, words)?,
            Disks::Two(first, second) => match words.number()? {
                1 => fail_disk(name, first, words)?,
                2 => fail_disk(name, second, words)?,
                _ => return Err(Trouble::Unreadable),
            },
        }
        say.ok()
    }
}

/// `CALLS`, of this name, on one disk.
fn fail_disk(name: &str, disk: &mut MemoryDisk, words: &mut Words<'_>) -> Result<(), Trouble> {
    let calls = words.number()?;
    words.end()?;
    if name == "fuse" {
        disk.fuse(calls);
    } else {
        disk.fail_at(calls);
    }
    Ok(())
}
