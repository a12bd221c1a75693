//! Lists of calls, which one call makes.

use crate::answers::{kind_of, say_admission, say_batch, say_cast, say_fault};
use simplex_batcher::{Answer, Call, Question, Round, run};
use std::alloc::Global;
use test_messages::{CertificateWords, MessageWords};
use test_words::{Committee, Say, Trouble, Words};
use types_core::Sha256Digest;

/// `run CALL ..`: what is answered to each of the calls, which `run` makes on the round of a committee of so many.
pub(crate) fn answer<S: Committee>(
    round: &mut Round<S, Sha256Digest>,
    n: u32,
    words: &mut Words<'_>,
    say: &mut Say,
) -> Result<(), Trouble> {
    let calls = calls::<S>(n, words, say.alloc)?;
    let answers = run(say.alloc, round, calls)?;
    say_answers(&answers, say)
}

/// The calls that are left of the line.
fn calls<S: Committee>(
    n: u32,
    words: &mut Words<'_>,
    alloc: Global,
) -> Result<Vec<Call<S, Sha256Digest>>, Trouble> {
    let mut calls = Vec::new(alloc);
    for _ in 0..u64::MAX {
        if !words.more() {
            break;
        }
        calls.push(call(n, words, alloc)?)?;
    }
    Ok(calls)
}

/// A call's name and its words.
fn call<S: Committee>(
    n: u32,
    words: &mut Words<'_>,
    alloc: Global,
) -> Result<Call<S, Sha256Digest>, Trouble> {
    match words.word() {
        "add_network" => add_network(n, words, alloc),
        "accept_vote" => Ok(Call::AcceptVote(words.vote(alloc, n)?)),
        "record_certificate" => Ok(Call::RecordCertificate(words.certificate(alloc, n)?)),
        "set_leader" => Ok(Call::SetLeader(words.member()?)),
        "try_construct" => Ok(Call::TryConstruct),
        "try_forward_proposal" => Ok(Call::TryForwardProposal(words.member()?)),
        name => Ok(Call::Ask(question(name, n, words, alloc)?)),
    }
}

/// `add_network SENDER VOTE`.
fn add_network<S: Committee>(
    n: u32,
    words: &mut Words<'_>,
    alloc: Global,
) -> Result<Call<S, Sha256Digest>, Trouble> {
    let sender = words.member()?;
    let vote = words.vote(alloc, n)?;
    Ok(Call::AddNetwork(sender, vote))
}

/// A call that changes nothing, of this name.
fn question<S: Committee>(
    name: &str,
    n: u32,
    words: &mut Words<'_>,
    alloc: Global,
) -> Result<Question<S, Sha256Digest>, Trouble> {
    match name {
        "has_certificate" => Ok(Question::HasCertificate(kind_of(words.word())?)),
        "has_nullify" => Ok(Question::HasNullify(words.member()?)),
        "is_missing_voter" => is_missing_voter(words),
        "missing_voters" => Ok(Question::MissingVoters(words.proposal()?)),
        "belongs" => Ok(Question::Belongs(words.vote(alloc, n)?)),
        "belongs_certificate" => Ok(Question::BelongsCertificate(words.certificate(alloc, n)?)),
        _ => Err(Trouble::Unreadable),
    }
}

/// `is_missing_voter MEMBER PROPOSAL`.
fn is_missing_voter<S: Committee>(
    words: &mut Words<'_>,
) -> Result<Question<S, Sha256Digest>, Trouble> {
    let signer = words.member()?;
    let proposal = words.proposal()?;
    Ok(Question::IsMissingVoter(proposal, signer))
}

/// Answers with ` , ` between two.
fn say_answers<S: Committee>(
    answers: &[Answer<S, Sha256Digest>],
    say: &mut Say,
) -> Result<(), Trouble> {
    let Some((first, rest)) = answers.split_first() else {
        return say.none();
    };
    say_answer(first, say)?;
    for answer in rest {
        say.text(" , ")?;
        say_answer(answer, say)?;
    }
    Ok(())
}

/// What is answered to the call where it is made alone.
fn say_answer<S: Committee>(
    answer: &Answer<S, Sha256Digest>,
    say: &mut Say,
) -> Result<(), Trouble> {
    match answer {
        Answer::Admitted(admission) => say_admission(admission, say),
        Answer::Cast(report) => say_cast(report, say),
        Answer::Constructed(batch) => say_batch(batch, say),
        Answer::Refused(fault) => say_fault(*fault, say),
        Answer::Forward(proposal) => say.proposal_or(*proposal),
        _ => say_fact(answer, say),
    }
}

/// The same of an answer that has neither vote nor certificate.
fn say_fact<S: Committee>(answer: &Answer<S, Sha256Digest>, say: &mut Say) -> Result<(), Trouble> {
    match answer {
        Answer::Led => say.ok(),
        Answer::Is(is_so) => say.truth(*is_so),
        Answer::Recorded(selects) => say.truth(*selects),
        Answer::Members(members) => say.members(members),
        _ => Err(Trouble::Unreadable),
    }
}
