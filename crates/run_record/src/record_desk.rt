//! What a script works on.

use crate::record::Record;
use crate::{coverage, laws};
use simplex_record::Coverage;
use simplex_types::PlainScheme;
use std::alloc::Global;
use test_words::{Layer, Say, Trouble, Words};

/// A record, or views that are covered.
#[derive(Drop)]
pub(crate) enum Desk {
    /// Before the first `reset`.
    Nothing,
    /// The record of a member.
    Record(Record<PlainScheme>),
    /// Covered views alone.
    Coverage(Coverage),
}

impl Layer for Desk {
    /// `reset record N LENGTH MEMBER EPOCH`, `reset coverage`.
    fn reset(&mut self, words: &mut Words<'_>, alloc: Global) -> Result<(), Trouble> {
        let desk = match words.word() {
            "record" => Desk::Record(Record::new(words, alloc)?),
            "coverage" => {
                words.end()?;
                Desk::Coverage(Coverage::new(alloc))
            }
            _ => return Err(Trouble::Unreadable),
        };
        *self = desk;
        Ok(())
    }

    fn call(&mut self, name: &str, words: &mut Words<'_>, say: &mut Say) -> Result<(), Trouble> {
        if name == "laws" {
            return laws::answer(words, say);
        }
        match self {
            Desk::Nothing => Err(Trouble::Unreadable),
            Desk::Record(record) => record.answer(name, words, say),
            Desk::Coverage(covered) => coverage::answer(covered, name, words, say),
        }
    }
}
