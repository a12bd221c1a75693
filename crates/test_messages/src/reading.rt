//! Votes of any kind, read.

use crate::reading_certificates::CertificateWords;
use simplex_messages::Vote;
use std::alloc::Global;
use test_words::{Committee, Trouble, Words};
use types_core::Sha256Digest;

/// What the next words spell, of a committee of so many.
pub trait MessageWords {
    /// A vote of any kind, with the word of its kind.
    fn vote<S: Committee>(
        &mut self,
        alloc: Global,
        n: u32,
    ) -> Result<Vote<S, Sha256Digest>, Trouble>;
}

impl MessageWords for Words<'_> {
    fn vote<S: Committee>(
        &mut self,
        alloc: Global,
        n: u32,
    ) -> Result<Vote<S, Sha256Digest>, Trouble> {
        match self.word() {
            "notarize" => Ok(Vote::Notarize(self.notarize(alloc, n)?)),
            "nullify" => Ok(Vote::Nullify(self.nullify(alloc, n)?)),
            "finalize" => Ok(Vote::Finalize(self.finalize(alloc, n)?)),
            _ => Err(Trouble::Unreadable),
        }
    }
}
