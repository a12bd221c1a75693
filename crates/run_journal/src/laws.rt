//! The laws of journals, which hold of artifacts as of any messages.

use journal_single::a_disk_reads_as_one_record;
use test_words::{Say, Trouble, Words};
use types_core::{EncodeSize, Read};

/// `laws`: they are calls without arguments that do nothing.
pub(crate) fn answer<M: Read + EncodeSize + Drop>(
    words: &Words<'_>,
    say: &mut Say,
) -> Result<(), Trouble> {
    words.end()?;
    a_disk_reads_as_one_record::<M>();
    say.ok()
}
