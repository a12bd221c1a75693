//! The words of a line, read.

use crate::committee::Signing;
use crate::trouble::Trouble;
use hex::FromHexError;
use simplex_types::PlainKey;
use std::alloc::Global;
use types_core::{
    Context, Epoch, Participant, Proposal, Read, Round, Sha256Digest, TermLength, View, decode_cfg,
};

/// What is left of a line, where that tells calls apart before a word is read.
#[derive(Clone, Copy)]
pub enum Left {
    /// No word.
    Nothing,
    /// One word, which spells this number.
    Number(u64),
    /// Anything else.
    Others,
}

/// What is left of a line: words with one blank between two.
#[derive(Drop)]
pub struct Words<'a> {
    /// `None` behind the last word.
    rest: Option<&'a str>,
}

impl<'a> Words<'a> {
    /// The words of a line.
    pub fn new(line: &'a str) -> Self {
        Words { rest: Some(line) }
    }

    /// The next word, which is empty behind the last one.
    pub fn word(&mut self) -> &'a str {
        let Some(rest) = self.rest else {
            return "";
        };
        match rest.split_once(' ') {
            Some((word, rest)) => {
                self.rest = Some(rest);
                word
            }
            None => {
                self.rest = None;
                rest
            }
        }
    }

    /// Whether a word is left.
    pub fn more(&self) -> bool {
        self.rest.is_some()
    }

    /// Whether nothing is left, or a number alone.
    pub fn left(&self) -> Left {
        let Some(rest) = self.rest else {
            return Left::Nothing;
        };
        match number_of(rest) {
            Ok(number) => Left::Number(number),
            Err(_) => Left::Others,
        }
    }

    /// Unreadable where a word is left.
    pub fn end(&self) -> Result<(), Trouble> {
        if self.more() {
            return Err(Trouble::Unreadable);
        }
        Ok(())
    }

    /// A number below 2^64.
    pub fn number(&mut self) -> Result<u64, Trouble> {
        number_of(self.word())
    }

    /// A number below 2^32.
    pub fn index(&mut self) -> Result<u32, Trouble> {
        index_of(self.word())
    }

    /// A number below 2^8.
    pub fn small(&mut self) -> Result<u8, Trouble> {
        match u8::try_from(self.number()?) {
            Ok(number) => Ok(number),
            Err(_) => Err(Trouble::Unreadable),
        }
    }

    /// A number, or `-`.
    pub fn optional(&mut self) -> Result<Option<u64>, Trouble> {
        let word = self.word();
        if word == "-" {
            return Ok(None);
        }
        Ok(Some(number_of(word)?))
    }

    /// `0` or `1`.
    pub fn truth(&mut self) -> Result<bool, Trouble> {
        match self.word() {
            "0" => Ok(false),
            "1" => Ok(true),
            _ => Err(Trouble::Unreadable),
        }
    }

    /// A member's index.
    pub fn member(&mut self) -> Result<Participant, Trouble> {
        Ok(Participant::new(self.index()?))
    }

    /// A member's index, or `-`.
    pub fn optional_member(&mut self) -> Result<Option<Participant>, Trouble> {
        let word = self.word();
        if word == "-" {
            return Ok(None);
        }
        Ok(Some(Participant::new(index_of(word)?)))
    }

    /// The index of the member whose key it is.
    pub fn key(&mut self) -> Result<PlainKey, Trouble> {
        Ok(PlainKey::new(self.member()?))
    }

    /// A view.
    pub fn view(&mut self) -> Result<View, Trouble> {
        Ok(View::new(self.number()?))
    }

    /// An epoch.
    pub fn epoch(&mut self) -> Result<Epoch, Trouble> {
        Ok(Epoch::new(self.number()?))
    }

    /// `EPOCH VIEW`.
    pub fn round(&mut self) -> Result<Round, Trouble> {
        let epoch = self.epoch()?;
        Ok(Round::new(epoch, self.view()?))
    }

    /// How many views a term has, from 1 on.
    pub fn term_length(&mut self) -> Result<TermLength, Trouble> {
        let length = self.index()?;
        if length == 0 {
            return Err(Trouble::Unreadable);
        }
        Ok(TermLength::new(length))
    }

    /// The byte of which all bytes of a payload are.
    pub fn payload(&mut self) -> Result<Sha256Digest, Trouble> {
        let byte = self.small()?;
        Ok(Sha256Digest::new([byte; 32]))
    }

    /// `EPOCH VIEW PARENT K`.
    pub fn proposal(&mut self) -> Result<Proposal<Sha256Digest>, Trouble> {
        let round = self.round()?;
        let parent = self.view()?;
        Ok(Proposal::new(round, parent, self.payload()?))
    }

    /// `EPOCH VIEW KEY PARENT_VIEW PARENT_K`.
    pub fn context(&mut self) -> Result<Context<Sha256Digest, PlainKey>, Trouble> {
        let round = self.round()?;
        let leader = self.key()?;
        let parent = (self.view()?, self.payload()?);
        Ok(Context {
            round,
            leader,
            parent,
        })
    }

    /// Twice the salt of a signature, and one more where it is broken.
    pub fn signing(&mut self) -> Result<Signing, Trouble> {
        let word = self.word();
        if !is_plain(word) {
            return Err(Trouble::Unreadable);
        }
        let Ok(number) = word.parse::<u128>() else {
            return Err(Trouble::Unreadable);
        };
        let Ok(salt) = u64::try_from(number / 2) else {
            return Err(Trouble::Unreadable);
        };
        let is_broken = number % 2 == 1;
        Ok(Signing { salt, is_broken })
    }

    /// Numbers below 2^32 with a comma between two, or `-`.
    pub fn numbers(&mut self, alloc: Global) -> Result<Vec<u32>, Trouble> {
        let mut numbers = Vec::new(alloc);
        let word = self.word();
        if word == "-" {
            return Ok(numbers);
        }
        for part in word.split(',') {
            numbers.push(index_of(part)?)?;
        }
        Ok(numbers)
    }

    /// Bytes as pairs of hexadecimal digits, or `-`.
    pub fn bytes(&mut self, alloc: Global) -> Result<Vec<u8>, Trouble> {
        let word = self.word();
        if word == "-" {
            return Ok(Vec::new(alloc));
        }
        if word.is_empty() {
            return Err(Trouble::Unreadable);
        }
        match hex::decode(alloc, word) {
            Ok(bytes) => Ok(bytes),
            Err(FromHexError::OutOfMemory) => Err(Trouble::Memory),
            Err(_) => Err(Trouble::Unreadable),
        }
    }

    /// The value that bytes spell, none of them left. `bound` is the committee's size.
    pub fn value<T: Read + Drop>(&mut self, alloc: Global, bound: u32) -> Result<T, Trouble> {
        let bytes = self.bytes(alloc)?;
        match decode_cfg(alloc, &bytes, bound)? {
            Some(value) => Ok(value),
            None => Err(Trouble::Unreadable),
        }
    }
}

/// The number that a word spells.
fn number_of(word: &str) -> Result<u64, Trouble> {
    if !is_plain(word) {
        return Err(Trouble::Unreadable);
    }
    match word.parse::<u64>() {
        Ok(number) => Ok(number),
        Err(_) => Err(Trouble::Unreadable),
    }
}

/// The same below 2^32.
fn index_of(word: &str) -> Result<u32, Trouble> {
    match u32::try_from(number_of(word)?) {
        Ok(index) => Ok(index),
        Err(_) => Err(Trouble::Unreadable),
    }
}

/// Whether a word that spells a number has no sign and no zero in front of it.
fn is_plain(word: &str) -> bool {
    match word.as_bytes() {
        [b'0'] => true,
        [b'1'..=b'9', ..] => true,
        _ => false,
    }
}
