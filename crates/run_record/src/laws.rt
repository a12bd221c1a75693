//! The laws of records, which hold at the plain scheme as at any.

use simplex_record::{
    a_lawful_record_grows, a_rewritten_record_is_lawful, agreement, chain,
    ever_lawful_members_vote_lawfully, lawful_records_leave_room, no_own_vote_stands_in_the_way,
    one_judgement, records_stand_on_ground, three_lists_go_on, verdicts_follow_their_notarizations,
    what_is_kept_is_lawful, whole_records_vote_lawfully,
};
use simplex_types::PlainScheme;
use test_words::{Say, Trouble, Words};
use types_core::Sha256Digest;

/// `laws`: they are calls without arguments that do nothing.
pub(crate) fn answer(words: &Words<'_>, say: &mut Say) -> Result<(), Trouble> {
    words.end()?;
    agreement::<PlainScheme, Sha256Digest>();
    chain::<PlainScheme, Sha256Digest>();
    records_stand_on_ground::<Sha256Digest>();
    a_rewritten_record_is_lawful::<PlainScheme, Sha256Digest>();
    what_is_kept_is_lawful::<PlainScheme, Sha256Digest>();
    one_judgement::<PlainScheme, Sha256Digest>();
    three_lists_go_on::<PlainScheme, Sha256Digest>();
    whole_records_vote_lawfully::<PlainScheme, Sha256Digest>();
    ever_lawful_members_vote_lawfully::<PlainScheme, Sha256Digest>();
    verdicts_follow_their_notarizations::<PlainScheme, Sha256Digest>();
    a_lawful_record_grows::<PlainScheme, Sha256Digest>();
    lawful_records_leave_room::<PlainScheme, Sha256Digest>();
    no_own_vote_stands_in_the_way::<Sha256Digest>();
    say.ok()
}
