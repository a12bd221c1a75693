//! What the votes of the reports are for, round by round, and so whose votes may contradict each other.

ghost use Rattle.std.specs.Prelude.{◌≡◌, ◌∷◌, [], OnOk, IfOk, IsTrue, IsSome, Contains};
ghost use Rattle.std.specs.BTreeSet.{IsSubset, contains};
ghost use Rattle.types_core.specs.declared.attestation.Attestation.{Attestation};
ghost use Rattle.simplex_messages.specs.Activity.{notarize_report};
ghost use Rattle.simplex_messages.specs.Guilt.{nullifies_listed, votes_listed};
ghost use Rattle.audit_evidence.specs.Held.{nullifies_held, votes_held};
ghost use Rattle.simplex_rules.specs.declared.cast.Suspect.{Suspect};
ghost use Rattle.simplex_rules.specs.Choices.{choice_in};
ghost use Rattle.simplex_rules.specs.Kept.{suspect_cmp};
ghost use Rattle.simplex_rules.specs.Survey.{AreGivenUp, AreSurveyed, Notes, SurveysOne};

use crate::cast::Suspect;
use crate::choices::Choices;
use crate::roster::{Gathered, Suspects};
use audit_evidence::{HeldNullifies, HeldVotes, held_finalizes, held_notarizes, held_nullifies};
use simplex_messages::{
    Activity, ConflictingVotes, Notarize, Nullification, ProposalCertificate, ProposalKind,
    ProposalVote,
};
use std::alloc::{AllocError, Global};
use types_core::{Attestation, Digest, Listing, Round, Scheme};

/// What the votes of each round are for. Honest votes of a round are for one proposal, so it keeps one for all
/// of them, and of the others only whose they are.
#[derive(Drop)]
pub(crate) struct Survey<D: Digest> {
    /// The choice of each round's first notarize.
    notarized: Choices<D>,
    /// The choice of each round's first finalize.
    finalized: Choices<D>,
    /// Who voted to give which round up.
    nullified: Gathered,
    /// Whose votes may contradict each other.
    contested: Gathered,
}

impl<D: Digest> Survey<D> {
    /// Nothing noted.
    pub(crate) fn new<S: Listing<D>>(alloc: Global) -> Self
        ensures { AreSurveyed {S = S} {P = S.PublicKey} S.lists [] result }
    {
        Survey {
            notarized: Choices::new(alloc),
            finalized: Choices::new(alloc),
            nullified: Gathered::new(alloc),
            contested: Gathered::new(alloc),
        }
    }

    /// Notes what the votes that the report holds are for.
    pub(crate) fn note_report<S: Listing<D>>(
        &mut self,
        report: &Activity<S, D>,
    ) -> Result<(), AllocError>
        ensures { OnOk result (SurveysOne S.lists report.now self.old self.new) }
    {
        let notarizes = held_notarizes(report);
        note_held(&mut self.notarized, &mut self.contested, notarizes)?;
        let finalizes = held_finalizes(report);
        note_held(&mut self.finalized, &mut self.contested, finalizes)?;
        insert_held(&mut self.nullified, held_nullifies(report))
    }

    /// Notes what a loose notarize is for.
    #[inline(always)]
    pub(crate) fn note_notarize<S: Listing<D>>(
        &mut self,
        vote: &Notarize<S, D>,
    ) -> Result<(), AllocError>
        ensures { OnOk result (SurveysOne S.lists (notarize_report vote.now) self.old self.new) }
    {
        note(&mut self.notarized, &mut self.contested, vote)
    }

    /// Whose votes may contradict each other: also of those who voted to give up a round that was finalized.
    pub(crate) fn into_contested(self, alloc: Global) -> Result<Suspects, AllocError>
        ensures stay { IfOk result (λ contested. IsSubset suspect_cmp self.contested contested) }
        ensures added { IfOk result (λ contested.
            (q : Suspect)
            → IsTrue (contains suspect_cmp self.nullified q)
            → IsSome (choice_in self.finalized q.round)
            → IsTrue (contains suspect_cmp contested q)) }
    {
        let Survey {
            notarized: _,
            finalized,
            nullified,
            mut contested,
        } = self;
        let nullified = nullified.into_suspects(alloc)?;
        contest(nullified.as_slice(), &finalized, &mut contested)?;
        contested.into_suspects(alloc)
    }
}

/// Adds those who voted to give up a round that was finalized.
fn contest<D: Digest>(
    nullified: &[Suspect],
    finalized: &Choices<D>,
    contested: &mut Gathered,
) -> Result<(), AllocError>
    ensures stay { OnOk result (IsSubset suspect_cmp contested.old contested.new) }
    ensures added { OnOk result ((q : Suspect)
        → Contains nullified.now q
        → IsSome (choice_in finalized.now q.round)
        → IsTrue (contains suspect_cmp contested.new q)) }
{
    for suspect in nullified {
        if finalized.contains(&suspect.round) {
            contested.insert(suspect)?;
        }
    }
    Ok(())
}

/// Notes what a vote is for. It is inlined, since a report that is lent has to be laid down as a whole.
#[inline(always)]
fn note<K: ProposalKind<D>, S: Scheme<D>, D: Digest>(
    chosen: &mut Choices<D>,
    contested: &mut Gathered,
    vote: &ProposalVote<K, S, D>,
) -> Result<(), AllocError>
    ensures { OnOk result (Notes chosen.old chosen.new contested.old contested.new (vote.now ∷ [])) }
{
    // A copy, for the same reason.
    let proposal = vote.proposal;
    if !chosen.choose(&proposal)? {
        insert(contested, proposal.round, &vote.attestation)?;
    }
    Ok(())
}

/// Notes what the votes are for that a report holds.
fn note_held<K: ProposalKind<D>, S: Listing<D>, D: Digest>(
    chosen: &mut Choices<D>,
    contested: &mut Gathered,
    votes: HeldVotes<'_, K, S, D>,
) -> Result<(), AllocError>
    ensures { OnOk result (Notes chosen.old chosen.new contested.old contested.new (votes_held S.lists votes.entry)) }
{
    match votes {
        HeldVotes::Nothing => Ok(()),
        HeldVotes::One(vote) => note(chosen, contested, vote),
        HeldVotes::Listed(made) => note_listed(chosen, contested, made),
        HeldVotes::Both(both) => note_both(chosen, contested, both),
    }
}

/// Notes what both votes of evidence are for.
fn note_both<K: ProposalKind<D>, S: Scheme<D>, D: Digest>(
    chosen: &mut Choices<D>,
    contested: &mut Gathered,
    both: &ConflictingVotes<K, S, D>,
) -> Result<(), AllocError>
    ensures { OnOk result (Notes chosen.old chosen.new contested.old contested.new (both.now.0 ∷ both.now.1 ∷ [])) }
{
    note(chosen, contested, both.first())?;
    note(chosen, contested, both.second())
}

/// Notes what the votes are for that a certificate lists.
fn note_listed<K: ProposalKind<D>, S: Listing<D>, D: Digest>(
    chosen: &mut Choices<D>,
    contested: &mut Gathered,
    made: &ProposalCertificate<K, S, D>,
) -> Result<(), AllocError>
    ensures { OnOk result (Notes chosen.old chosen.new contested.old contested.new (votes_listed S.lists made.now)) }
{
    let certified = made.proposal;
    if !chosen.choose(&certified)? {
        let listed = S::attestations(&made.certificate);
        insert_all::<S, D>(contested, &certified.round, listed)?;
    }
    Ok(())
}

/// Adds those whose nullifies a report holds.
fn insert_held<S: Listing<D>, D: Digest>(
    nullified: &mut Gathered,
    votes: HeldNullifies<'_, S, D>,
) -> Result<(), AllocError>
    ensures stay { OnOk result (IsSubset suspect_cmp nullified.old nullified.new) }
    ensures given_up { OnOk result (AreGivenUp nullified.new (nullifies_held S.lists votes.entry)) }
{
    match votes {
        HeldNullifies::Nothing => Ok(()),
        HeldNullifies::One(vote) => insert(nullified, vote.round, &vote.attestation),
        HeldNullifies::Listed(made) => insert_listed(nullified, made),
    }
}

/// Adds those whose nullifies the certificate lists.
fn insert_listed<S: Listing<D>, D: Digest>(
    nullified: &mut Gathered,
    made: &Nullification<S, D>,
) -> Result<(), AllocError>
    ensures stay { OnOk result (IsSubset suspect_cmp nullified.old nullified.new) }
    ensures given_up { OnOk result (AreGivenUp nullified.new (nullifies_listed S.lists made.now)) }
{
    let listed = S::attestations(&made.certificate);
    insert_all::<S, D>(nullified, &made.round, listed)
}

/// Adds the signer in the round.
fn insert<G>(
    suspects: &mut Gathered,
    round: Round,
    attestation: &Attestation<G>,
) -> Result<(), AllocError>
    ensures stay { OnOk result (IsSubset suspect_cmp suspects.old suspects.new) }
    ensures added { OnOk result (IsTrue (contains suspect_cmp suspects.new (record { round = round; signer = attestation.now.signer }))) }
{
    let signer = attestation.signer;
    suspects.insert(&Suspect { round, signer })
}

/// Adds each signer of these in the round.
fn insert_all<S: Scheme<D>, D: Digest>(
    suspects: &mut Gathered,
    round: &Round,
    listed: &[Attestation<S::Signature>],
) -> Result<(), AllocError>
    ensures stay { OnOk result (IsSubset suspect_cmp suspects.old suspects.new) }
    ensures added { OnOk result ((a : Attestation S.Signature)
        → Contains listed.now a
        → IsTrue (contains suspect_cmp suspects.new (record { round = round.now; signer = a.signer }))) }
{
    for attestation in listed {
        insert(suspects, *round, attestation)?;
    }
    Ok(())
}
