//! The headline: what a network of nodes promises, in one place.

ghost use Rattle.std.specs.Prelude.{◌<◌, ◌^◌, ℕ};
ghost use Rattle.types_codec.specs.Codec.{Readable};
ghost use Rattle.simplex_member.specs.Laws.{NoneIsBlamed};
ghost use Rattle.simplex_member.specs.Sent.{EachVoteSentWasDue, NoneIsDueBehindAnswers};
ghost use Rattle.simplex_network.specs.Accountability.{AllIsInGrammar, JoinedAreAudited, ReportedNameEnough};
ghost use Rattle.simplex_network.specs.Agreement.{FinalizedViewsLieOnOneChain, NoFinalizedViewIsNullified, NoFinalizedViewIsSkipped, NoViewHasTwoProposals};

use crate::laws::{accountability, agreement};
use simplex_member::{Speaks, none_stays_unsent, packets_are_read_back, sent_votes_were_due};
use simplex_messages::Activity;
use types_core::{Digest, Listing, Read, Write};

/// Over every history of events, losses, lies and crashes within any write. Let each member that isn't excused from all
/// rules live by its nodes, each set up as it likes but for what is fixed for good; let packets be spelled as the
/// messages are, in a committee of n.
///
/// Where no more are excused than may be faulty, no view is certified for two proposals, no finalized view is nullified,
/// no notarized proposal skips a finalized view, and, by one elector, finalized views lie on one chain.
///
/// However many are excused: every vote that a correct member sends was due at the point that sends it, and none is due
/// where it has answered an event or an opening; no correct member blocks another; and where certificates among what
/// correct members reported contradict each other on a round, the audit of the reports names at least one member of that
/// round more than may be faulty, and none of these is correct. All packets and reports that correct members hand out are
/// in the grammar, and joined reports are read to their end.
///
/// What each asks of members stands in its sentence. So that none is blocked, packets in a correct member's name have to
/// come from its nodes, and what attests by one's scheme has to by another's.
pub fn headline<S: Listing<D>, D: Digest>()
    ensures one_proposal_a_view { (n : ℕ) → NoViewHasTwoProposals S.Scheme (⟦<S as Speaks<D>>⟧.formats n) }
    ensures no_finalized_view_nullified { (n : ℕ) → NoFinalizedViewIsNullified S.Scheme (⟦<S as Speaks<D>>⟧.formats n) }
    ensures no_finalized_view_skipped { (n : ℕ) → NoFinalizedViewIsSkipped S.Scheme (⟦<S as Speaks<D>>⟧.formats n) }
    ensures one_chain { (n : ℕ) → FinalizedViewsLieOnOneChain S.Scheme (⟦<S as Speaks<D>>⟧.formats n) }
    ensures every_vote_sent_was_due { (n : ℕ) → EachVoteSentWasDue S.Scheme (⟦<S as Speaks<D>>⟧.formats n) }
    ensures none_due_stays_unsent { (n : ℕ) → NoneIsDueBehindAnswers S.Scheme (⟦<S as Speaks<D>>⟧.formats n) }
    ensures none_blocked { (n : ℕ) → n < 2 ^ 32 → NoneIsBlamed S.Scheme (⟦<S as Speaks<D>>⟧.formats n) }
    ensures enough_named { (n : ℕ) → ReportedNameEnough S.Scheme (⟦<S as Speaks<D>>⟧.formats n) D.cmp }
    ensures in_grammar { (n : ℕ) → n < 2 ^ 32 → AllIsInGrammar S.Scheme (⟦<S as Speaks<D>>⟧.formats n) }
    ensures read_to_the_end { (scheme : S)
        → S.size scheme < 2 ^ 32
        → JoinedAreAudited S.Scheme (⟦<S as Speaks<D>>⟧.formats (S.size scheme)) D.cmp scheme
        (Readable ⟦<Activity<S, D> as Write>⟧.fits (⟦<Activity<S, D> as Read>⟧.within (S.size scheme))) ⟦<Activity<S, D> as Write>⟧.spelling
        (⟦<Activity<S, D> as Read>⟧.reading (S.size scheme)) }
{
    agreement::<S, D>();
    accountability::<S, D>();
    sent_votes_were_due::<S, D>();
    none_stays_unsent::<S, D>();
    packets_are_read_back::<S, D>();
}
