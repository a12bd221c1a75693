//! Reports, and what an audit finds in them.

use crate::bytes::bytes_of;
use simplex_messages::Activity;
use simplex_rules::{Audit, a_contradicted_round_names_enough, audit, names_rest_on_the_reports};
use simplex_types::{PlainScheme, SaltedScheme};
use std::alloc::Global;
use test_messages::SayMessages;
use test_words::{Committee, Say, Trouble, Words};
use types_core::{Read, Sha256Digest, Write};

/// Pieces of streams of reports, by number.
#[derive(Drop)]
pub(crate) struct Pieces {
    kept: Vec<Vec<u8>>,
}

impl Pieces {
    /// None.
    pub(crate) fn new(alloc: Global) -> Self {
        Pieces {
            kept: Vec::new(alloc),
        }
    }

    /// Keeps a piece, and says its number.
    fn push(&mut self, piece: Vec<u8>, say: &mut Say) -> Result<(), Trouble> {
        let number = self.kept.len() as u64;
        self.kept.push(piece)?;
        say.number(number)
    }

    /// The pieces of these numbers, one behind the other.
    fn joined(&self, alloc: Global, numbers: &[u32]) -> Result<Vec<u8>, Trouble> {
        let mut bytes = Vec::new(alloc);
        for number in numbers {
            match self.kept.get(*number as usize) {
                Some(piece) => bytes.extend_from_slice(piece)?,
                None => return Err(Trouble::Unreadable),
            }
        }
        Ok(bytes)
    }

    /// `keep HEX`.
    pub(crate) fn keep(&mut self, words: &mut Words<'_>, say: &mut Say) -> Result<(), Trouble> {
        let piece = bytes_of(words, say.alloc)?;
        words.end()?;
        self.push(piece, say)
    }

    /// `repeat TIMES LIST`.
    pub(crate) fn repeat(&mut self, words: &mut Words<'_>, say: &mut Say) -> Result<(), Trouble> {
        let times = words.index()?;
        let numbers = words.numbers(say.alloc)?;
        words.end()?;
        let once = self.joined(say.alloc, &numbers)?;
        let piece = repeated(say.alloc, &once, times)?;
        self.push(piece, say)
    }

    /// `front LENGTH LIST`.
    pub(crate) fn front(&mut self, words: &mut Words<'_>, say: &mut Say) -> Result<(), Trouble> {
        let length = words.index()?;
        let numbers = words.numbers(say.alloc)?;
        words.end()?;
        let mut piece = self.joined(say.alloc, &numbers)?;
        piece.truncate(length as usize);
        self.push(piece, say)
    }

    /// `audit SCHEME N LIST`, or of `audit_sum` the same.
    pub(crate) fn audit(
        &self,
        is_sum: bool,
        words: &mut Words<'_>,
        say: &mut Say,
    ) -> Result<(), Trouble> {
        match words.word() {
            "plain" => self.audit_by::<PlainScheme>(is_sum, words, say),
            "salted" => self.audit_by::<SaltedScheme>(is_sum, words, say),
            _ => Err(Trouble::Unreadable),
        }
    }

    fn audit_by<S: Committee>(
        &self,
        is_sum: bool,
        words: &mut Words<'_>,
        say: &mut Say,
    ) -> Result<(), Trouble> {
        let members = words.index()?;
        let numbers = words.numbers(say.alloc)?;
        words.end()?;
        let bytes = self.joined(say.alloc, &numbers)?;
        let scheme = S::member_of(say.alloc, members, None, 0)?;
        let found: Audit<S, Sha256Digest> = audit(say.alloc, &scheme, &bytes)?;
        say_place(found.fault, say)?;
        if is_sum {
            say_sum(&found.evidence, say)
        } else {
            say_evidence(found.evidence, say)
        }
    }

    /// `right N NUMBER`.
    pub(crate) fn right(&self, words: &mut Words<'_>, say: &mut Say) -> Result<(), Trouble> {
        let members = words.index()?;
        let number = words.index()?;
        words.end()?;
        let bytes = self.joined(say.alloc, &[number])?;
        let scheme = PlainScheme::member_of(say.alloc, members, None, 0)?;
        let mut rest = bytes.as_slice();
        let read = Activity::<PlainScheme, Sha256Digest>::read_cfg(say.alloc, &mut rest, members);
        match read {
            Ok(report) => say.truth(report.verify(&scheme)),
            Err(error) => say.fault(error),
        }
    }
}

/// The bytes so many times, one behind the other.
fn repeated(alloc: Global, bytes: &[u8], times: u32) -> Result<Vec<u8>, Trouble> {
    let mut all = Vec::new(alloc);
    for _ in 0..times {
        all.extend_from_slice(bytes)?;
    }
    Ok(all)
}

/// Where no report stands, if there is such a place.
fn say_place(fault: Option<usize>, say: &mut Say) -> Result<(), Trouble> {
    match fault {
        Some(place) => say.number(place as u64),
        None => say.none(),
    }
}

/// The evidence in words.
fn say_evidence<S: Committee>(
    evidence: Vec<Activity<S, Sha256Digest>>,
    say: &mut Say,
) -> Result<(), Trouble> {
    if evidence.is_empty() {
        return say.text(" -");
    }
    let mut is_first = true;
    for piece in evidence {
        say.text(if is_first { " " } else { " , " })?;
        say.report(&Some(piece))?;
        is_first = false;
    }
    Ok(())
}

/// The length and the sum of the evidence's spelling.
fn say_sum<S: Committee>(
    evidence: &[Activity<S, Sha256Digest>],
    say: &mut Say,
) -> Result<(), Trouble> {
    let mut bytes = Vec::new(say.alloc);
    for piece in evidence {
        piece.write(&mut bytes)?;
    }
    say.gap()?;
    say.sum_of(&bytes)
}

/// The laws of the audit.
pub(crate) fn laws() {
    names_rest_on_the_reports::<PlainScheme, Sha256Digest>();
    a_contradicted_round_names_enough::<PlainScheme, Sha256Digest>();
}
