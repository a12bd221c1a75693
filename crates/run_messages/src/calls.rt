//! The calls by their names, whatever the scheme: at one scheme they would cost the prover several times as much.

use crate::evidence::{beside, conflict, contradict, nullify_finalize};
use crate::kinds::{becomes, certification, is_within, most, reports, signer, value};
use crate::making::{assemble, can_assemble, sign};
use crate::verdicts::{certificates, verified, verify};
use simplex_messages::{Finalizing, Notarizing, equal_messages_are_one, equal_reports_are_one};
use test_words::{Committee, Say, Trouble, Words};
use types_core::Sha256Digest;

/// Answers the call of a line.
pub fn answer<S: Committee>(
    name: &str,
    words: &mut Words<'_>,
    say: &mut Say,
) -> Result<(), Trouble> {
    match name {
        "sign" => sign::<S>(words, say),
        "verify" => verify::<S>(words, say),
        "verified" => verified::<S>(words, say),
        "certificates" => certificates::<S>(words, say),
        "assemble" => assemble::<S>(words, say),
        "can_assemble" => can_assemble::<S>(words, say),
        _ => of_votes::<S>(name, words, say),
    }
}

/// Calls on two votes.
fn of_votes<S: Committee>(name: &str, words: &mut Words<'_>, say: &mut Say) -> Result<(), Trouble> {
    match name {
        "contradict" => contradict::<S>(words, say),
        "beside" => beside::<S>(words, say),
        "conflict" => conflict::<S>(words, say),
        "nullify_finalize" => nullify_finalize::<S>(words, say),
        "laws" => laws::<S>(say),
        _ => of_any_type::<S>(name, words, say),
    }
}

/// Calls that the next word names the type of.
fn of_any_type<S: Committee>(
    name: &str,
    words: &mut Words<'_>,
    say: &mut Say,
) -> Result<(), Trouble> {
    match name {
        "signer" => signer::<S>(words, say),
        "most" => most::<S>(words, say),
        "within" => is_within::<S>(words, say),
        "becomes" => becomes::<S>(words, say),
        "reports" => reports::<S>(words, say),
        "certification" => certification::<S>(words, say),
        _ => value::<S>(name, words, say),
    }
}

/// The laws can be called, and do nothing.
fn laws<S: Committee>(say: &mut Say) -> Result<(), Trouble> {
    equal_messages_are_one::<Notarizing, S, Sha256Digest>();
    equal_messages_are_one::<Finalizing, S, Sha256Digest>();
    equal_reports_are_one::<S, Sha256Digest>();
    say.ok()
}
