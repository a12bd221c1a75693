//! Votes that are signed, and certificates that are made of votes.

use crate::types::{
    Finalization, Finalize, Notarization, Notarize, Nullification, Nullify, committee,
};
use simplex_messages::{Finalizing, Notarizing, ProposalCertificate, ProposalKind, ProposalVote};
use test_values as values;
use test_words::{Committee, Say, Trouble, Words};
use types_core::{AssemblyError, Round, Sha256Digest, Write};

/// A vote or a certificate, which is of a round.
trait OfRound: Write + Drop {
    /// That round.
    fn its_round(&self) -> Round;
}

impl<K: ProposalKind<Sha256Digest>, S: Committee> OfRound for ProposalVote<K, S, Sha256Digest> {
    fn its_round(&self) -> Round {
        self.round()
    }
}

impl<S: Committee> OfRound for Nullify<S> {
    fn its_round(&self) -> Round {
        self.round()
    }
}

impl<K: ProposalKind<Sha256Digest>, S: Committee> OfRound
    for ProposalCertificate<K, S, Sha256Digest> {
    fn its_round(&self) -> Round {
        self.round()
    }
}

impl<S: Committee> OfRound for Nullification<S> {
    fn its_round(&self) -> Round {
        self.round()
    }
}

/// Says a vote or a certificate, and its round.
fn say_made<T: OfRound>(made: &T, say: &mut Say) -> Result<(), Trouble> {
    say.value(made)?;
    say.gap()?;
    say.round(&made.its_round())
}

/// Says a vote and its round, or `-` without a key.
fn say_signed<T: OfRound>(vote: Option<T>, say: &mut Say) -> Result<(), Trouble> {
    match vote {
        Some(vote) => say_made(&vote, say),
        None => say.none(),
    }
}

/// Says a certificate and its round, or why there is none.
fn say_assembled<T: OfRound>(
    certificate: Result<T, AssemblyError>,
    say: &mut Say,
) -> Result<(), Trouble> {
    match certificate {
        Ok(certificate) => say_made(&certificate, say),
        Err(AssemblyError::Memory) => Err(Trouble::Memory),
        Err(error) => say.text(&format!(in say.alloc; "{error}")?),
    }
}

/// `sign KIND MEMBERS ME PROPOSAL`, or a round in its place: the vote, or `-` without a key.
pub fn sign<S: Committee>(words: &mut Words<'_>, say: &mut Say) -> Result<(), Trouble> {
    let kind = words.word();
    let members = words.index()?;
    let me = words.optional_member()?;
    let scheme = S::member_of(say.alloc, members, me, 0)?;
    sign_by(kind, &scheme, words, say)
}

fn sign_by<S: Committee>(
    kind: &str,
    scheme: &S,
    words: &mut Words<'_>,
    say: &mut Say,
) -> Result<(), Trouble> {
    match kind {
        "notarize" => sign_proposal::<Notarizing, S>(scheme, words, say),
        "finalize" => sign_proposal::<Finalizing, S>(scheme, words, say),
        "nullify" => sign_nullify(scheme, words, say),
        _ => Err(Trouble::Unreadable),
    }
}

fn sign_proposal<K: ProposalKind<Sha256Digest>, S: Committee>(
    scheme: &S,
    words: &mut Words<'_>,
    say: &mut Say,
) -> Result<(), Trouble> {
    let proposal = words.proposal()?;
    say_signed(
        ProposalVote::<K, S, Sha256Digest>::sign(scheme, proposal),
        say,
    )
}

fn sign_nullify<S: Committee>(
    scheme: &S,
    words: &mut Words<'_>,
    say: &mut Say,
) -> Result<(), Trouble> {
    let round = words.round()?;
    say_signed(Nullify::<S>::sign(scheme, round), say)
}

/// `can_assemble CERTIFICATE MEMBERS VOTE..`.
pub fn can_assemble<S: Committee>(words: &mut Words<'_>, say: &mut Say) -> Result<(), Trouble> {
    let kind = words.word();
    let members = words.index()?;
    match kind {
        "notarization" => can_certify::<Notarizing, S>(members, words, say),
        "finalization" => can_certify::<Finalizing, S>(members, words, say),
        "nullification" => can_nullify::<S>(members, words, say),
        _ => Err(Trouble::Unreadable),
    }
}

fn can_certify<K: ProposalKind<Sha256Digest>, S: Committee>(
    members: u32,
    words: &mut Words<'_>,
    say: &mut Say,
) -> Result<(), Trouble> {
    let votes = values::all::<ProposalVote<K, S, Sha256Digest>>(words, say.alloc)?;
    let answer = ProposalCertificate::<K, S, Sha256Digest>::can_certify(
        say.alloc, members, &votes,
    )?;
    say.truth(answer)
}

fn can_nullify<S: Committee>(
    members: u32,
    words: &mut Words<'_>,
    say: &mut Say,
) -> Result<(), Trouble> {
    let votes = values::all::<Nullify<S>>(words, say.alloc)?;
    let answer = Nullification::<S>::can_nullify(say.alloc, members, &votes)?;
    say.truth(answer)
}

/// `assemble CERTIFICATE OWNED MEMBERS VOTE..`: the certificate, or why there is none. The votes are handed
/// over where OWNED is `1`, and else lent.
pub fn assemble<S: Committee>(words: &mut Words<'_>, say: &mut Say) -> Result<(), Trouble> {
    let kind = words.word();
    let owned = words.truth()?;
    let scheme: S = committee(words, say)?;
    assemble_by(kind, &scheme, owned, words, say)
}

fn assemble_by<S: Committee>(
    kind: &str,
    scheme: &S,
    owned: bool,
    words: &mut Words<'_>,
    say: &mut Say,
) -> Result<(), Trouble> {
    match kind {
        "notarization" => notarization(scheme, owned, words, say),
        "finalization" => finalization(scheme, owned, words, say),
        "nullification" => nullification(scheme, owned, words, say),
        _ => Err(Trouble::Unreadable),
    }
}

fn notarization<S: Committee>(
    scheme: &S,
    owned: bool,
    words: &mut Words<'_>,
    say: &mut Say,
) -> Result<(), Trouble> {
    let votes = values::all::<Notarize<S>>(words, say.alloc)?;
    if !Notarization::<S>::can_certify(say.alloc, scheme.participants(), &votes)? {
        return Err(Trouble::Condition);
    }
    if owned {
        return say_assembled(
            Notarization::from_owned_notarizes(say.alloc, scheme, votes),
            say,
        );
    }
    say_assembled(Notarization::from_notarizes(say.alloc, scheme, &votes), say)
}

fn finalization<S: Committee>(
    scheme: &S,
    owned: bool,
    words: &mut Words<'_>,
    say: &mut Say,
) -> Result<(), Trouble> {
    let votes = values::all::<Finalize<S>>(words, say.alloc)?;
    if !Finalization::<S>::can_certify(say.alloc, scheme.participants(), &votes)? {
        return Err(Trouble::Condition);
    }
    if owned {
        return say_assembled(
            Finalization::from_owned_finalizes(say.alloc, scheme, votes),
            say,
        );
    }
    say_assembled(Finalization::from_finalizes(say.alloc, scheme, &votes), say)
}

fn nullification<S: Committee>(
    scheme: &S,
    owned: bool,
    words: &mut Words<'_>,
    say: &mut Say,
) -> Result<(), Trouble> {
    let votes = values::all::<Nullify<S>>(words, say.alloc)?;
    if !Nullification::<S>::can_nullify(say.alloc, scheme.participants(), &votes)? {
        return Err(Trouble::Condition);
    }
    if owned {
        return say_assembled(
            Nullification::from_owned_nullifies(say.alloc, scheme, votes),
            say,
        );
    }
    say_assembled(
        Nullification::from_nullifies(say.alloc, scheme, &votes),
        say,
    )
}
