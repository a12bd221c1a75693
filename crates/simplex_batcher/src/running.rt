//! Lists of calls.

ghost use Rattle.std.specs.Prelude.{◌≡◌, ◌≤◌, List, All, IfOk, OnErr, length, false};
ghost use Rattle.batcher_verifier.specs.History.{taken};
ghost use Rattle.batcher_verifier.specs.Quorums.{AllCertified};
ghost use Rattle.simplex_batcher.specs.Rounds.{RoundKeeps, AtEach};
ghost use Rattle.simplex_batcher.specs.Run.{IsAsked, AnswersQuestion, Answers, AnswersAre, after_call, after_all, processed_in, EndsInConstructions};

use crate::call::{Answer, Call, Question};
use crate::round::Round;
use batcher_verifier::{
    BatcherFault, constructions_end, no_more_are_judged_than_came, no_quorum_is_lost,
};
use std::alloc::{AllocError, Global};
use types_core::{Digest, Scheme};

/// Answers a question.
fn answer<S: Scheme<D>, D: Digest>(
    alloc: Global,
    round: &Round<S, D>,
    question: &Question<S, D>,
) -> Answer<S, D>
    ensures { AtEach D.PartialEq.eq S.Scheme S.batchable round.now (λ s h. AnswersQuestion D.PartialEq.eq s h question.now result) }
{
    match question {
        Question::HasCertificate(kind) => Answer::Is(round.has_certificate(*kind)),
        Question::HasNullify(signer) => Answer::Is(round.has_nullify(*signer)),
        Question::IsMissingVoter(proposal, signer) => {
            Answer::Is(round.is_missing_voter(proposal, *signer))
        }
        Question::MissingVoters(proposal) => match round.missing_voters(alloc, proposal) {
            Ok(missing) => Answer::Members(missing),
            Err(AllocError) => Answer::Refused(BatcherFault::Memory),
        },
        Question::Belongs(vote) => Answer::Is(round.belongs(vote)),
        Question::BelongsCertificate(certificate) => {
            Answer::Is(round.belongs_certificate(certificate))
        }
    }
}

/// Makes one call.
fn make<S: Scheme<D>, D: Digest>(
    alloc: Global,
    round: &mut Round<S, D>,
    call: Call<S, D>,
) -> Answer<S, D>
    ensures answer { AtEach D.PartialEq.eq S.Scheme S.batchable round.old (λ s h. Answers S.Scheme D.PartialEq.eq s h call result) }
    ensures keeps { AtEach D.PartialEq.eq S.Scheme S.batchable round.old (λ s h.
        IsAsked S.attests s call → RoundKeeps D.PartialEq.eq S.Scheme S.batchable s round.new (after_call D.PartialEq.eq s h call result)) }
{
    match call {
        Call::AddNetwork(sender, vote) => match round.add_network(sender, vote) {
            Ok(admission) => Answer::Admitted(admission),
            Err(fault) => Answer::Refused(fault),
        },
        Call::AcceptVote(vote) => match round.accept_vote(vote) {
            Ok(report) => Answer::Cast(report),
            Err(fault) => Answer::Refused(fault),
        },
        Call::RecordCertificate(certificate) => match round.record_certificate(&certificate) {
            Ok(selects) => Answer::Recorded(selects),
            Err(fault) => Answer::Refused(fault),
        },
        Call::SetLeader(leader) => match round.set_leader(leader) {
            Ok(()) => Answer::Led,
            Err(fault) => Answer::Refused(fault),
        },
        Call::TryConstruct => match round.try_construct(alloc) {
            Ok(made) => Answer::Constructed(made),
            Err(AllocError) => Answer::Refused(BatcherFault::Memory),
        },
        Call::TryForwardProposal(me) => Answer::Forward(round.try_forward_proposal(me)),
        Call::Ask(question) => answer(alloc, round, &question),
    }
}

/// Makes the calls, one after the other, and hands back their answers. A call that is refused counts as not made. Own
/// votes among them have to attest. The constructions judge no more votes than were accepted from the network, and three of
/// them in a row leave no valid quorum without its certificate. After an `Err` no call was made.
pub fn run<S: Scheme<D>, D: Digest>(
    alloc: Global,
    round: &mut Round<S, D>,
    calls: Vec<Call<S, D>>,
) -> Result<Vec<Answer<S, D>>, AllocError>
    ensures answers { IfOk result (λ answers.
        AtEach D.PartialEq.eq S.Scheme S.batchable round.old
        (λ s h. All (IsAsked S.attests s) calls.items → AnswersAre S.Scheme D.PartialEq.eq s h calls.items answers.items)) }
    ensures keeps { IfOk result (λ answers.
        AtEach D.PartialEq.eq S.Scheme S.batchable round.old (λ s h.
        All (IsAsked S.attests s) calls.items
        → RoundKeeps D.PartialEq.eq S.Scheme S.batchable s round.new (after_all D.PartialEq.eq s h calls.items answers.items))) }
    ensures processed { IfOk result (λ answers.
        AtEach D.PartialEq.eq S.Scheme S.batchable round.old (λ s h.
        All (IsAsked S.attests s) calls.items
        → processed_in answers.items ≤ length (taken (after_all D.PartialEq.eq s h calls.items answers.items)))) }
    ensures certified { IfOk result (λ answers.
        AtEach D.PartialEq.eq S.Scheme S.batchable round.old (λ s h.
        All (IsAsked S.attests s) calls.items
        → s.is_skipped ≡ false
        → EndsInConstructions calls.items answers.items
        → AllCertified S.attests s (after_all D.PartialEq.eq s h calls.items answers.items))) }
    ensures err { OnErr result (round.new ≡ round.old) }
{
    no_quorum_is_lost::<S, D>();
    constructions_end::<S, D>();
    no_more_are_judged_than_came::<S, D>();
    let mut answers = Vec::with_capacity(alloc, calls.len())?;
    for call in calls {
        let answer = make(alloc, round, call);
        answers.push_reserved(answer);
    }
    Ok(answers)
}
