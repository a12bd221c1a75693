//! A map of at most one item of each signer.

use simplex_messages::AttributableMap;
use test_words::{Say, Trouble, Words};
use types_core::Attestation;

type Items = AttributableMap<Attestation<u8>>;

/// A call on the map, by its name.
pub fn call(map: &mut Items, words: &mut Words<'_>, say: &mut Say) -> Result<(), Trouble> {
    match words.word() {
        "insert" => insert(map, words, say),
        "get" => get(map, words, say),
        "len" => len(map, words, say),
        "items" => items(map, words, say),
        "clear" => clear(map, words, say),
        _ => Err(Trouble::Unreadable),
    }
}

/// `insert SIGNER TAG`.
fn insert(map: &mut Items, words: &mut Words<'_>, say: &mut Say) -> Result<(), Trouble> {
    let signer = words.member()?;
    let signature = words.small()?;
    words.end()?;
    say.truth(map.insert(Attestation { signer, signature }))
}

/// `get SIGNER`: the tag of its item.
fn get(map: &Items, words: &mut Words<'_>, say: &mut Say) -> Result<(), Trouble> {
    let signer = words.member()?;
    words.end()?;
    match map.get(signer) {
        Some(item) => say.number(u64::from(item.signature)),
        None => say.none(),
    }
}

/// `len`: how many items there are, and whether there are none.
fn len(map: &Items, words: &Words<'_>, say: &mut Say) -> Result<(), Trouble> {
    words.end()?;
    say.number(map.len() as u64)?;
    say.gap()?;
    say.truth(map.is_empty())
}

/// `items`: how many are walked, and each one's signer and tag, as they are walked.
fn items(map: &Items, words: &Words<'_>, say: &mut Say) -> Result<(), Trouble> {
    words.end()?;
    say.number(map.iter().count() as u64)?;
    for item in map {
        say.gap()?;
        say.member(item.signer)?;
        say.gap()?;
        say.number(u64::from(item.signature))?;
    }
    Ok(())
}

/// `clear`.
fn clear(map: &mut Items, words: &Words<'_>, say: &mut Say) -> Result<(), Trouble> {
    words.end()?;
    map.clear();
    say.ok()
}
