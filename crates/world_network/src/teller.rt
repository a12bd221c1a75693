//! The lines of a run, as words or as JSON.

use crate::broken::Broken;
use crate::scenario::Detail;
use std::alloc::{AllocError, Global};
use std::io::Write;

/// How many bytes of lines are held back at most before they are written.
const PIECE: usize = 16_384;

/// The lines of a run. A line is begun, gets its fields, and is ended.
#[derive(Drop)]
pub struct Teller {
    held: String,
    is_json: bool,
    detail: Detail,
}

impl Teller {
    /// Lines as words, or as JSON.
    pub fn new(alloc: Global, is_json: bool, detail: Detail) -> Self {
        Teller {
            held: String::new(alloc),
            is_json,
            detail,
        }
    }

    /// Whether each event that matters is told.
    pub fn tells_all(&self) -> bool {
        self.detail == Detail::All
    }

    /// Whether rare events are told.
    pub fn tells_some(&self) -> bool {
        self.detail != Detail::End
    }

    /// Begins a line on the whole run.
    pub fn begin(&mut self, event: &str) -> Result<(), AllocError> {
        if self.is_json {
            self.held.push_str("{\"event\":\"")?;
            self.held.push_str(event)?;
            return self.held.push_str("\"");
        }
        self.held.push_str(event)
    }

    /// Begins a line on what a member did at a moment.
    pub fn begin_at(&mut self, at: u64, member: u32, event: &str) -> Result<(), AllocError> {
        if self.is_json {
            write!(self.held, "{{\"at\":{at},\"member\":{member},\"event\":\"")?;
            self.held.push_str(event)?;
            return self.held.push_str("\"");
        }
        write!(self.held, "{at} member {member} ")?;
        self.held.push_str(event)
    }

    /// A field that is a number.
    pub fn number(&mut self, name: &str, number: u64) -> Result<(), AllocError> {
        self.name(name)?;
        write!(self.held, "{number}")
    }

    /// A field that is a number, or unknown.
    pub fn number_or(&mut self, name: &str, number: Option<u64>) -> Result<(), AllocError> {
        match number {
            Some(number) => self.number(name, number),
            None => {
                self.name(name)?;
                self.held.push_str(if self.is_json { "null" } else { "?" })
            }
        }
    }

    /// A field that is a word without quotes in it.
    pub fn word(&mut self, name: &str, word: &str) -> Result<(), AllocError> {
        self.name(name)?;
        if !self.is_json {
            return self.held.push_str(word);
        }
        self.held.push_str("\"")?;
        self.held.push_str(word)?;
        self.held.push_str("\"")
    }

    /// A word that stands for itself, which JSON has under the name `kind`.
    pub fn kind(&mut self, word: &str) -> Result<(), AllocError> {
        self.kind_named("kind", word)
    }

    /// A line of text as it is, which JSON has under the name `line`.
    pub fn line(&mut self, line: &str) -> Result<(), AllocError> {
        self.kind_named("line", line)
    }

    /// Why something is refused, which JSON has under the name `why`.
    pub fn why(&mut self, reason: &str) -> Result<(), AllocError> {
        self.kind_named("why", reason)
    }

    /// Ends the line.
    pub fn end(&mut self) -> Result<(), AllocError> {
        self.held.push_str(if self.is_json { "}\n" } else { "\n" })
    }

    /// Writes out what is held back, where it is much.
    pub fn write_much<W: Write>(&mut self, output: &mut W) -> Result<(), Broken> {
        if self.held.len() < PIECE {
            return Ok(());
        }
        self.write_all(output)
    }

    /// Writes out what is held back.
    pub fn write_all<W: Write>(&mut self, output: &mut W) -> Result<(), Broken> {
        output.write_all(self.held.as_bytes())?;
        self.held.clear();
        Ok(())
    }

    /// The name of a field.
    fn name(&mut self, name: &str) -> Result<(), AllocError> {
        if self.is_json {
            self.held.push_str(",\"")?;
            self.held.push_str(name)?;
            return self.held.push_str("\":");
        }
        self.held.push_str(" ")?;
        self.held.push_str(name)?;
        self.held.push_str(" ")
    }

    /// A word that stands for itself, which JSON has under this name.
    fn kind_named(&mut self, name: &str, word: &str) -> Result<(), AllocError> {
        if self.is_json {
            return self.word(name, word);
        }
        self.held.push_str(" ")?;
        self.held.push_str(word)
    }
}
