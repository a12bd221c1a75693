//! Bytes that a call is given.

use std::alloc::Global;
use test_words::{Trouble, Words};

/// The bytes of the next word, which has to be there.
pub(crate) fn bytes_of(words: &mut Words<'_>, alloc: Global) -> Result<Vec<u8>, Trouble> {
    if !words.more() {
        return Err(Trouble::Unreadable);
    }
    words.bytes(alloc)
}
