//! The calls that read or write.

ghost use Rattle.std.specs.Prelude.{◌<◌};

use crate::commands;
use crate::fakes::{FakeReader, FakeWriter, Manner, kind_of};
use cli_audit::{audit_over, report, run_words, words_unread, write_audit};
use cli_tool::{misused, parse_call, run_request};
use journal_books::Disks;
use journal_single::MemoryDisk;
use node_wire::{CountedReader, CountedWriter};
use simplex_cli::{drive, tell};
use std::alloc::Global;
use std::io;
use test_words::{Say, Trouble, Words};

/// The input, and how the streams behave.
#[derive(Drop)]
pub(crate) struct Streams {
    input: Vec<u8>,
    reader: Manner,
    output: Manner,
    faults: Manner,
}

impl Streams {
    /// No bytes, moved all at once.
    pub(crate) fn new(alloc: Global) -> Self {
        Streams {
            input: Vec::new(alloc),
            reader: Manner::whole(),
            output: Manner::whole(),
            faults: Manner::whole(),
        }
    }

    /// `append TIMES HEX`.
    pub(crate) fn append(&mut self, words: &mut Words<'_>, say: &mut Say) -> Result<(), Trouble> {
        let times = words.index()?;
        if !words.more() {
            return Err(Trouble::Unreadable);
        }
        let bytes = words.bytes(say.alloc)?;
        words.end()?;
        for _ in 0..times {
            self.input.extend_from_slice(&bytes)?;
        }
        say.number(self.input.len() as u64)
    }

    /// `reader SIZE ROOM FAULT`.
    pub(crate) fn set_reader(
        &mut self,
        words: &mut Words<'_>,
        say: &mut Say,
    ) -> Result<(), Trouble> {
        self.reader = Manner::read(words)?;
        say.ok()
    }

    /// `output SIZE ROOM FAULT`.
    pub(crate) fn set_output(
        &mut self,
        words: &mut Words<'_>,
        say: &mut Say,
    ) -> Result<(), Trouble> {
        self.output = Manner::read(words)?;
        say.ok()
    }

    /// `faults SIZE ROOM FAULT`.
    pub(crate) fn set_faults(
        &mut self,
        words: &mut Words<'_>,
        say: &mut Say,
    ) -> Result<(), Trouble> {
        self.faults = Manner::read(words)?;
        say.ok()
    }

    /// The reader of a call.
    fn read(&self) -> FakeReader<'_> {
        FakeReader::new(&self.input, self.reader)
    }

    /// `audit COUNT`.
    pub(crate) fn audit(&self, words: &mut Words<'_>, say: &mut Say) -> Result<(), Trouble> {
        let count = count(words)?;
        if count == 0 {
            return Err(Trouble::Condition);
        }
        let mut input = self.read();
        let mut output = FakeWriter::new(say.alloc, self.output);
        let mut faults = FakeWriter::new(say.alloc, self.faults);
        let status = audit_over(say.alloc, count, &mut input, &mut output, &mut faults);
        say_all(status, &input, &output, &faults, say)
    }

    /// `run WORD ..`.
    pub(crate) fn run(&self, words: &mut Words<'_>, say: &mut Say) -> Result<(), Trouble> {
        let spoken = commands::spoken(words, say.alloc)?;
        let mut input = self.read();
        let mut output = FakeWriter::new(say.alloc, self.output);
        let mut faults = FakeWriter::new(say.alloc, self.faults);
        let status = run_words(say.alloc, &spoken, &mut input, &mut output, &mut faults);
        say_all(status, &input, &output, &faults, say)
    }

    /// `tool WORD ..`.
    pub(crate) fn tool(&self, words: &mut Words<'_>, say: &mut Say) -> Result<(), Trouble> {
        let spoken = commands::spoken(words, say.alloc)?;
        let mut input = self.read();
        let mut output = FakeWriter::new(say.alloc, self.output);
        let mut faults = FakeWriter::new(say.alloc, self.faults);
        let status = match parse_call(&spoken) {
            Some(call) => run_request(say.alloc, call, &mut input, &mut output, &mut faults),
            None => misused(&mut faults),
        };
        say_all(status, &input, &output, &faults, say)
    }

    /// A node's program over disks, which it hands back.
    pub(crate) fn serve(
        &self,
        disks: Disks<MemoryDisk>,
        index: u16,
        count: u16,
        say: &mut Say,
    ) -> Result<Disks<MemoryDisk>, Trouble>
        requires { index < count }
    {
        let mut input = CountedReader::new(self.read());
        let mut output = CountedWriter::new(FakeWriter::new(say.alloc, self.output));
        let mut faults = FakeWriter::new(say.alloc, self.faults);
        let (ended, disks) = drive(say.alloc, disks, index, count, &mut input, &mut output);
        let status = tell(say.alloc, ended, &mut faults);
        say.number(u64::from(status))?;
        say.gap()?;
        let input = input.into_inner();
        let output = output.into_inner();
        say.number(input.left() as u64)?;
        say.gap()?;
        say.bytes(output.taken())?;
        say.gap()?;
        say.quoted(faults.taken())?;
        Ok(disks)
    }

    /// `write COUNT`.
    pub(crate) fn write(&self, words: &mut Words<'_>, say: &mut Say) -> Result<(), Trouble> {
        let count = count(words)?;
        if count == 0 {
            return Err(Trouble::Condition);
        }
        let mut input = self.read();
        let mut output = FakeWriter::new(say.alloc, self.output);
        say_outcome(write_audit(say.alloc, count, &mut input, &mut output), say)?;
        say_moved(&input, &output, say)
    }

    /// `report OUTCOME`.
    pub(crate) fn report(&self, words: &mut Words<'_>, say: &mut Say) -> Result<(), Trouble> {
        let outcome = match words.word() {
            "whole" => Ok(None),
            "place" => Ok(Some(words.number()? as usize)),
            word => Err(commands::trouble_of(word)?),
        };
        words.end()?;
        let mut faults = FakeWriter::new(say.alloc, self.faults);
        let status = report(outcome, &mut faults);
        say_told(status, &faults, say)
    }

    /// `unread KIND`.
    pub(crate) fn unread(&self, words: &mut Words<'_>, say: &mut Say) -> Result<(), Trouble> {
        let kind = kind_of(words.word())?;
        words.end()?;
        let mut faults = FakeWriter::new(say.alloc, self.faults);
        let status = words_unread(&io::Error::from(kind), &mut faults);
        say_told(status, &faults, say)
    }
}

/// `STATUS LEFT OUTPUT FAULTS`.
fn say_all(
    status: u8,
    input: &FakeReader<'_>,
    output: &FakeWriter,
    faults: &FakeWriter,
    say: &mut Say,
) -> Result<(), Trouble> {
    say.number(u64::from(status))?;
    say_moved(input, output, say)?;
    say.gap()?;
    say.quoted(faults.taken())
}

/// `LEFT OUTPUT`, behind something.
fn say_moved(input: &FakeReader<'_>, output: &FakeWriter, say: &mut Say) -> Result<(), Trouble> {
    say.gap()?;
    say.number(input.left() as u64)?;
    say.gap()?;
    say.quoted(output.taken())
}

/// What an audit came to.
fn say_outcome(
    outcome: Result<Option<usize>, cli_audit::Trouble>,
    say: &mut Say,
) -> Result<(), Trouble> {
    match outcome {
        Ok(None) => say.text("whole"),
        Ok(Some(place)) => {
            say.text("place ")?;
            say.number(place as u64)
        }
        Err(trouble) => say.text(commands::name_of(trouble)),
    }
}

/// `STATUS FAULTS`.
fn say_told(status: u8, faults: &FakeWriter, say: &mut Say) -> Result<(), Trouble> {
    say.number(u64::from(status))?;
    say.gap()?;
    say.quoted(faults.taken())
}

/// The last word of a line, which spells a number below 65,536.
pub(crate) fn count(words: &mut Words<'_>) -> Result<u16, Trouble> {
    let number = short(words)?;
    words.end()?;
    Ok(number)
}

/// A word that spells a number below 65,536.
pub(crate) fn short(words: &mut Words<'_>) -> Result<u16, Trouble> {
    let number = words.number()?;
    match u16::try_from(number) {
        Ok(count) => Ok(count),
        Err(_) => Err(Trouble::Unreadable),
    }
}
