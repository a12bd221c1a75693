//! Values beside one another.

use std::alloc::Global;
use std::cmp::Ordering;
use std::collections::HashSet;
use std::hash::Hash;
use test_words::{Say, Trouble, Words};
use types_core::{Duplicate, Read};

/// `BYTES..`: the values that all words spell which are left.
pub fn all<T: Read + Drop>(words: &mut Words<'_>, alloc: Global) -> Result<Vec<T>, Trouble> {
    let mut values = Vec::new(alloc);
    for _ in 0..u32::MAX {
        if !words.more() {
            break;
        }
        values.push(words.value(alloc, u32::MAX)?)?;
    }
    Ok(values)
}

/// `BYTES..`: how many of the values differ, as keys of a set.
pub fn distinct<T: Read + Eq + Hash + Drop>(
    words: &mut Words<'_>,
    say: &mut Say,
) -> Result<(), Trouble> {
    let mut seen = HashSet::new(say.alloc);
    for value in all::<T>(words, say.alloc)? {
        seen.insert(value)?;
    }
    say.number(seen.len() as u64)
}

/// `BYTES BYTES`: whether the values are equal, and whether a copy of the first is equal to the second.
pub fn equal<T: Read + Duplicate + PartialEq + Drop>(
    words: &mut Words<'_>,
    say: &mut Say,
) -> Result<(), Trouble> {
    let one: T = words.value(say.alloc, u32::MAX)?;
    let other: T = words.value(say.alloc, u32::MAX)?;
    say.truth(one == other)?;
    say.gap()?;
    let copy = one.duplicate(say.alloc)?;
    say.truth(copy == other)
}

/// `BYTES BYTES`: how the first value stands to the second.
pub fn order<T: Read + Ord + Drop>(words: &mut Words<'_>, say: &mut Say) -> Result<(), Trouble> {
    let one: T = words.value(say.alloc, u32::MAX)?;
    let other: T = words.value(say.alloc, u32::MAX)?;
    match one.cmp(&other) {
        Ordering::Less => say.text("Less"),
        Ordering::Equal => say.text("Equal"),
        Ordering::Greater => say.text("Greater"),
    }
}
