//! What correct members agree on, and whom nobody ever blames.

ghost use Rattle.std.specs.Prelude.{◌<◌, ◌^◌, ℕ};
ghost use Rattle.types_codec.specs.Codec.{Readable};
ghost use Rattle.simplex_member.specs.Laws.{AreReadBack, IsExact, NoneIsBlamed};
ghost use Rattle.simplex_member.specs.Packet.{Formats};
ghost use Rattle.simplex_network.specs.Accountability.{AllIsInGrammar, ContradictionsNameEnough, JoinedAreAudited, NoneIsNamed, ReportedNameEnough};
ghost use Rattle.simplex_network.specs.Agreement.{AllAreSound, FinalizedViewsLieOnOneChain, NoFinalizedViewIsNullified, NoFinalizedViewIsSkipped, NoViewHasTwoProposals};

use simplex_member::{
    Speaks, accepted_votes_are_known, agreement_of_lives, deeds_are_done,
    deeds_are_of_their_points, finalized_views_lie_on_one_chain, histories_of_lives_are_gone_to,
    made_certificates_are_sound, never_foreign, none_is_blamed, own_votes_agree,
    packets_are_in_grammar, packets_are_read_back, reported_certificates_certify,
    reports_are_honest,
};
use simplex_messages::Activity;
use simplex_rules::{a_contradicted_round_names_enough, joined_reports_are_read};
use types_core::{Digest, Listing, Read, Write};

/// The law of agreement. In a committee of any size, with terms of any length, let no more members be excused from
/// all rules than may be faulty. Let each other member run one node after another, each with settings of its own,
/// through any number of openings, events, losses, rewrites and crashes inside any write, on one disk or two that
/// were empty at first, and let an opening bring a floor that certifies, which counts as bytes handed in;
/// let all of them have schemes of the committee's size, each its own, by which nothing attests that does not by the
/// committee's; and let no verifying vote that they are handed in a member's name be on what that member recorded no
/// vote for. Then over all
/// verifying certificates in bytes that they were handed, or that they made, and over all that a member's scheme
/// verifies wherever they stand, whose verifying votes are as those: no view is certified for two proposals, no
/// finalized view is nullified, and no notarized proposal skips a finalized view; and where all of them have one
/// elector, finalized views lie on one chain. Each such certificate is sound, however many are excused.
///
/// It holds however packets are spelled and read, where payloads that are compared as one are one.
pub fn agreement<S: Listing<D>, D: Digest>()
    ensures sound { (f : Formats S D S.PublicKey S.Signature S.Certificate) → IsExact f → AllAreSound S.Scheme f }
    ensures one_proposal_a_view { (f : Formats S D S.PublicKey S.Signature S.Certificate) → IsExact f → NoViewHasTwoProposals S.Scheme f }
    ensures no_finalized_view_nullified { (f : Formats S D S.PublicKey S.Signature S.Certificate)
        → IsExact f
        → NoFinalizedViewIsNullified S.Scheme f }
    ensures no_finalized_view_skipped { (f : Formats S D S.PublicKey S.Signature S.Certificate) → IsExact f → NoFinalizedViewIsSkipped S.Scheme f }
    ensures one_chain { (f : Formats S D S.PublicKey S.Signature S.Certificate) → IsExact f → FinalizedViewsLieOnOneChain S.Scheme f }
{
    agreement_of_lives::<S, D>();
    finalized_views_lie_on_one_chain::<S, D>();
    made_certificates_are_sound::<S, D>();
}

/// The law of accountability, however many members are excused. Of each member that isn't, let all be as for
/// agreement, but for the elector; and a scheme may sign one statement differently each time. Then none of these
/// members blocks another, neither by a refusal nor by a construction, where each packet in the name of one of them
/// was handed out by it, and what attests by one's scheme does by another's. Over reports that such members handed out an
/// audit names none of them; and where certificates among these contradict each other on a round, it names at least one
/// member more of that round than may be faulty: where they verify by the audit's scheme, and so always where that is of
/// the committee's size. Packets as members spell them, and reports, are in the grammar: what is sent and reported is built
/// of what was recorded, which can be read again, and of packets that were read. So joined reports are read to their end.
pub fn accountability<S: Listing<D>, D: Digest>()
    ensures none_blocked { (f : Formats S D S.PublicKey S.Signature S.Certificate) → IsExact f → AreReadBack f → NoneIsBlamed S.Scheme f }
    ensures none_named { (f : Formats S D S.PublicKey S.Signature S.Certificate) → IsExact f → NoneIsNamed S.Scheme f D.cmp }
    ensures read_to_the_end { (scheme : S)
        → S.size scheme < 2 ^ 32
        → JoinedAreAudited S.Scheme (⟦<S as Speaks<D>>⟧.formats (S.size scheme)) D.cmp scheme
        (Readable ⟦<Activity<S, D> as Write>⟧.fits (⟦<Activity<S, D> as Read>⟧.within (S.size scheme))) ⟦<Activity<S, D> as Write>⟧.spelling
        (⟦<Activity<S, D> as Read>⟧.reading (S.size scheme)) }
    ensures in_grammar { (n : ℕ) → n < 2 ^ 32 → AllIsInGrammar S.Scheme (⟦<S as Speaks<D>>⟧.formats n) }
    ensures enough_named { (f : Formats S D S.PublicKey S.Signature S.Certificate) → IsExact f → ContradictionsNameEnough S.Scheme f D.cmp }
    ensures reported_enough { (f : Formats S D S.PublicKey S.Signature S.Certificate) → IsExact f → ReportedNameEnough S.Scheme f D.cmp }
{
    none_is_blamed::<S, D>();
    reports_are_honest::<S, D>();
    own_votes_agree::<S, D>();
    joined_reports_are_read::<S, D>();
    packets_are_read_back::<S, D>();
    packets_are_in_grammar::<S, D>();
    never_foreign::<S, D>();
    deeds_are_done::<S, D>();
    deeds_are_of_their_points::<S, D>();
    histories_of_lives_are_gone_to::<S, D>();
    accepted_votes_are_known::<S, D>();
    a_contradicted_round_names_enough::<S, D>();
    reported_certificates_certify::<S, D>();
}
