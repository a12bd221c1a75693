//! Lists of attestations.

use simplex_types::{AttestationList, PlainSignature};
use test_values as values;
use test_words::{Say, Trouble, Words};
use types_core::{Aggregate, Attestation, are_of_distinct_members};

/// `distinct_members MEMBERS ATTESTATION..`.
pub fn are_distinct(words: &mut Words<'_>, say: &mut Say) -> Result<(), Trouble> {
    let members = words.index()?;
    let given = values::all::<Attestation<PlainSignature>>(words, say.alloc)?;
    say.truth(are_of_distinct_members(say.alloc, members, &given)?)
}

/// `list MEMBERS ATTESTATION..`: the list of them.
pub fn list_of(words: &mut Words<'_>, say: &mut Say) -> Result<(), Trouble> {
    let members = words.index()?;
    let given = values::all::<Attestation<PlainSignature>>(words, say.alloc)?;
    if !are_of_distinct_members(say.alloc, members, &given)? {
        return Err(Trouble::Condition);
    }
    let list = AttestationList::new(say.alloc, members, &given)?;
    say.value(&list)
}

/// `listed LIST`: its attestations.
pub fn listed(words: &mut Words<'_>, say: &mut Say) -> Result<(), Trouble> {
    let list: AttestationList<PlainSignature> = words.value(say.alloc, u32::MAX)?;
    say.number(list.attestations().len() as u64)?;
    for attestation in list.attestations() {
        say.gap()?;
        say.value(attestation)?;
    }
    Ok(())
}

/// `within BOUND LIST`.
pub fn is_within(words: &mut Words<'_>, say: &mut Say) -> Result<(), Trouble> {
    let bound = words.index()?;
    let list: AttestationList<PlainSignature> = words.value(say.alloc, u32::MAX)?;
    say.truth(list.is_within(bound))
}
