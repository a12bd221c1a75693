//! The calls by their names.

use crate::kinds::{belongs, digest, most, order, value};
use crate::lists::{are_distinct, is_within, list_of, listed};
use crate::positions::{
    covers, delta, epoch, length, next, next_term_start, previous, quorums, term, term_end, view,
};
use crate::schemes::scheme;
use crate::subjects::subject;
use simplex_types::PlainKey;
use test_words::{Say, Trouble, Words};
use types_core::{
    Sha256Digest, equal_contexts_are_one, numbers_have_one_spelling, proposals_are_ordered,
    signed_bytes_name_one_subject, two_quorums_share_members,
};

/// Answers the call of a line.
pub fn answer(name: &str, words: &mut Words<'_>, say: &mut Say) -> Result<(), Trouble> {
    match name {
        "term" => term(words, say),
        "term_end" => term_end(words, say),
        "next_term_start" => next_term_start(words, say),
        "covers" => covers(words, say),
        "next" => next(words, say),
        "previous" => previous(words, say),
        _ => of_numbers(name, words, say),
    }
}

/// Calls on numbers alone.
fn of_numbers(name: &str, words: &mut Words<'_>, say: &mut Say) -> Result<(), Trouble> {
    match name {
        "epoch" => epoch(words, say),
        "view" => view(words, say),
        "delta" => delta(words, say),
        "length" => length(words, say),
        "quorum" => quorums(words, say),
        "laws" => laws(say),
        _ => of_what_is_signed(name, words, say),
    }
}

/// Calls on subjects, lists and schemes.
fn of_what_is_signed(name: &str, words: &mut Words<'_>, say: &mut Say) -> Result<(), Trouble> {
    match name {
        "subject" => subject(words, say),
        "list" => list_of(words, say),
        "listed" => listed(words, say),
        "distinct_members" => are_distinct(words, say),
        "scheme" => scheme(words, say),
        _ => of_any_type(name, words, say),
    }
}

/// Calls that the next word names the type of.
fn of_any_type(name: &str, words: &mut Words<'_>, say: &mut Say) -> Result<(), Trouble> {
    match name {
        "within" => is_within(words, say),
        "order" => order(words, say),
        "belongs" => belongs(words, say),
        "most" => most(words, say),
        "digest" => digest(words, say),
        _ => value(name, words, say),
    }
}

/// The laws can be called, and do nothing.
fn laws(say: &mut Say) -> Result<(), Trouble> {
    numbers_have_one_spelling();
    two_quorums_share_members();
    equal_contexts_are_one::<Sha256Digest, PlainKey>();
    proposals_are_ordered::<Sha256Digest>();
    signed_bytes_name_one_subject::<Sha256Digest>();
    say.text("ok")
}
