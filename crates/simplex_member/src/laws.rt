//! What follows from the member model.

ghost use Rattle.std.specs.Prelude.{◌≡◌, ◌<◌, ◌≤◌, ◌^◌, ℕ};
ghost use Rattle.types_codec.specs.Codec.{Readable};
ghost use Rattle.messages_certificates.specs.declared.artifact.Artifact.{Artifact};
ghost use Rattle.messages_certificates.specs.Artifact.{artifact_fits, artifact_spelling, artifact_within};
ghost use Rattle.simplex_member.specs.Doing.{ActsEnd, ActsEndAnyhow, NothingIsDoneTwice};
ghost use Rattle.simplex_member.specs.Floors.{DroppedAreUnknown, KeptIsLawful, KeptIsOfViews, KeptStandsForAll, KeptTellsAll, LawfulIsOpened, LivesLeaveAll, NextFitsKept, NoneIsDueBelow, ParentsLieFromFloor, RewritesAreSo, RewritesLeaveNothingDue};
ghost use Rattle.simplex_member.specs.Laws.{AcceptedAreKnown, Agree, AgreeIfHonest, AreReadBack, AwaitedIsJudgeable, AwaitedMayBeRecorded, BlockedByRefusalAlone, BroughtFloorsAreSound, CanBeSent, ConstructionsBlockNone, CorrectVotesAreSound, CorrectVotesContradictNone, DeedsAreDone, DeedsAreOfPoints, DueFinalizeMayBeRecorded, DueIsBound, DueMayBeRecorded, DueNullifyMayBeRecorded, EarlyIsInTime, EmptyIsOpened, FinalizeAlike, HandedCertificatesAreSound, IsExact, KnownNullifiesAreRecorded, LeftIsFound, LeftStandsOnGround, LieOnOneChain, LifeLaws, ListLaws, LivesLeaveLawful, LivesLeaveReadable, MadeAreHonest, MadeAreSound, MadeIsAllowed, MadeListVotes, NeverContradicts, NeverForeign, NextStandsOnGround, NoQuorumIsLost, NoneIsBlamed, OneIsRead, OwnVotesAgree, PacketsAreInGrammar, ProposalsLieInTheirViews, ReachedAreGoneTo, RecordLaws, RecordsGrow, RecordsStandOnGround, RecordsStayLawful, ReportedCertify, ReportsAreHonest, RequestsAreTracked, RoundLaws, RunsAreStretches, StepsOfSeveralRaiseLittle, StepsRaiseLittle, ViewsNeverFall, VotersAreOrderly, VotersTellTheRecord, VotesAreLawful, VotesAreRecorded, VotesWereDue};
ghost use Rattle.simplex_member.specs.Packet.{Formats, IsRecordable, formats};
ghost use Rattle.simplex_member.specs.Setup.{Setup};

use batcher_verifier::{
    batches_rest_on_accepted_votes, lawful_histories_are_consistent,
    no_quorum_is_lost as no_quorum_of_a_round_is_lost, verdicts_on_attestations_are_right,
    votes_are_of_the_round, votes_that_count_state_it, votes_that_count_were_accepted,
    what_is_due_has_no_certificate,
};
use journal_single::a_disk_reads_as_one_record;
use messages_certificates::Artifact;
use simplex_record::{
    a_lawful_record_grows, a_rewritten_record_is_lawful, agreement, chain,
    ever_lawful_members_vote_lawfully, no_own_vote_stands_in_the_way,
    records_stand_on_ground as ground, three_lists_go_on, what_is_kept_is_lawful,
};
use simplex_resolver::what_is_produced_came;
use types_core::{Digest, Listing, Scheme};
use voter_laws::{
    a_latch_changes_nothing_due, a_lone_member_stands_on_ground, what_is_due_may_be_recorded,
    what_is_due_stands_on_ground, what_is_known_is_recorded, what_is_recorded_is_known,
};

/// What the laws below take from those of the votes of a round.
pub(crate) fn rounds_obey<S: Scheme<D>, D: Digest>()
    ensures { (f : Formats S D S.PublicKey S.Signature S.Certificate) → IsExact f → RoundLaws S.Scheme f.same }
{
    lawful_histories_are_consistent::<S, D>();
    verdicts_on_attestations_are_right::<S, D>();
    batches_rest_on_accepted_votes::<S, D>();
    votes_are_of_the_round::<S, D>();
    what_is_due_has_no_certificate::<S, D>();
    votes_that_count_were_accepted::<S, D>();
    votes_that_count_state_it::<S, D>();
    no_quorum_of_a_round_is_lost::<S, D>();
}

/// What the laws below take from those of records.
pub(crate) fn records_obey<S: Scheme<D>, D: Digest>()
    ensures { RecordLaws S.Scheme }
{
    a_lawful_record_grows::<S, D>();
}

/// What they take from those of a member's lists.
pub(crate) fn lists_obey<S: Scheme<D>, D: Digest>()
    ensures { ListLaws S.Scheme }
{
    three_lists_go_on::<S, D>();
    what_is_kept_is_lawful::<S, D>();
    ever_lawful_members_vote_lawfully::<S, D>();
}

/// What the laws of lives take.
pub(crate) fn lives_obey<S: Scheme<D>, D: Digest>()
    ensures { LifeLaws S.Scheme }
{
    records_obey::<S, D>();
    lists_obey::<S, D>();
    what_is_known_is_recorded::<S, D>();
    what_is_recorded_is_known::<S, D>();
}

/// Points that are allowed keep a record lawful.
pub fn records_stay_lawful<S: Scheme<D>, D: Digest>()
    ensures { (f : Formats S D S.PublicKey S.Signature S.Certificate) (s : Setup S D S.Certificate) → RecordsStayLawful S.Scheme f s }
{
    records_obey::<S, D>();
}

/// A record only grows.
pub fn records_grow<S: Scheme<D>, D: Digest>()
    ensures { (f : Formats S D S.PublicKey S.Signature S.Certificate) (s : Setup S D S.Certificate) → RecordsGrow S.Scheme f s }
{}

/// What a member's lives leave is lawful.
pub fn lives_leave_lawful<S: Scheme<D>, D: Digest>()
    ensures { (f : Formats S D S.PublicKey S.Signature S.Certificate) (s : Setup S D S.Certificate) → LivesLeaveLawful S.Scheme f s }
{
    lives_obey::<S, D>();
}

/// No opening of what a member's lives left finds that it contradicts.
pub fn never_contradicts<S: Scheme<D>, D: Digest>()
    ensures { (f : Formats S D S.PublicKey S.Signature S.Certificate) (s : Setup S D S.Certificate) → NeverContradicts S.Scheme f s }
{
    lives_obey::<S, D>();
}

/// What a member ever recorded can be read again in its committee. So an opening of it is never answered that an entry is
/// foreign, and finds just that: what the disk takes for an artifact is read under the bound of the largest committee.
pub fn never_foreign<S: Scheme<D>, D: Digest>()
    ensures readable { (f : Formats S D S.PublicKey S.Signature S.Certificate) (s : Setup S D S.Certificate) → LivesLeaveReadable S.Scheme f s }
    ensures never { (n : ℕ)
        → n ≤ 65535
        → (s : Setup S D S.Certificate)
        → NeverForeign S.Scheme (formats D.PartialEq.eq D.spelling S.Signature.spelling S.Certificate.spelling D.reading S.Signature.reading
        S.Certificate.reading n) s (Readable (artifact_fits D.fits S.Signature.fits S.Certificate.fits)
        (artifact_within (S.Certificate.within 65535))) }
    ensures found { (n : ℕ)
        → n ≤ 65535
        → (s : Setup S D S.Certificate)
        → LeftIsFound S.Scheme (formats D.PartialEq.eq D.spelling S.Signature.spelling S.Certificate.spelling D.reading S.Signature.reading
        S.Certificate.reading n) s (Readable (artifact_fits D.fits S.Signature.fits S.Certificate.fits)
        (artifact_within (S.Certificate.within 65535))) }
{
    a_disk_reads_as_one_record::<Artifact<S, D>>();
}

/// A rewrite begins what is kept with the finalization of its last finalized view, and drops what doesn't reach above that. It
/// changes neither the current view nor the last finalized one, nothing else of what the voter knows of these, and hands
/// nothing out. A verdict on a view that it dropped is refused as one that nothing awaits, also where one was recorded.
pub fn rewrites_are_so<S: Scheme<D>, D: Digest>()
    ensures rewrites { (f : Formats S D S.PublicKey S.Signature S.Certificate) (s : Setup S D S.Certificate) → RewritesAreSo S.Scheme f s }
    ensures dropped { (f : Formats S D S.PublicKey S.Signature S.Certificate) (s : Setup S D S.Certificate) → DroppedAreUnknown S.Scheme f s }
{
    a_rewritten_record_is_lawful::<S, D>();
    what_is_known_is_recorded::<S, D>();
}

/// Where nothing is due, a rewrite leaves it so: it changes nothing of what is known but the view behind which the record begins.
pub fn rewrites_leave_nothing_due<S: Scheme<D>, D: Digest>()
    ensures { (f : Formats S D S.PublicKey S.Signature S.Certificate) (s : Setup S D S.Certificate) → RewritesLeaveNothingDue S.Scheme f s }
{
    a_latch_changes_nothing_due::<S, D>();
}

/// What is kept through rewrites is of what was recorded, and all of it that reaches above the last finalized view.
pub fn what_is_kept_tells_all<S: Scheme<D>, D: Digest>()
    ensures { (f : Formats S D S.PublicKey S.Signature S.Certificate) (s : Setup S D S.Certificate) → KeptTellsAll S.Scheme f s }
{
    what_is_known_is_recorded::<S, D>();
}

/// What is kept through rewrites stands for all that was recorded: it is lawful, of the same current view and the same last finalized
/// one, and what may come next fits behind it.
pub fn what_is_kept_stands_for_all<S: Scheme<D>, D: Digest>()
    ensures stands { (f : Formats S D S.PublicKey S.Signature S.Certificate) (s : Setup S D S.Certificate) → KeptStandsForAll S.Scheme f s }
    ensures views { (f : Formats S D S.PublicKey S.Signature S.Certificate) (s : Setup S D S.Certificate) → KeptIsOfViews S.Scheme f s }
    ensures lawful { (f : Formats S D S.PublicKey S.Signature S.Certificate) (s : Setup S D S.Certificate) → KeptIsLawful S.Scheme f s }
    ensures fits { (f : Formats S D S.PublicKey S.Signature S.Certificate) (s : Setup S D S.Certificate) → NextFitsKept S.Scheme f s }
{
    records_obey::<S, D>();
    a_rewritten_record_is_lawful::<S, D>();
    what_is_known_is_recorded::<S, D>();
}

/// No vote is due of a view at or below the one that the record begins behind, be it since the last rewrite.
pub fn none_is_due_below_the_floor<S: Scheme<D>, D: Digest>()
    ensures { (f : Formats S D S.PublicKey S.Signature S.Certificate) (s : Setup S D S.Certificate) → NoneIsDueBelow S.Scheme f s }
{
    what_is_known_is_recorded::<S, D>();
}

/// All that a member's lives ever recorded is lawful, through rewrites and floors that openings brought, and what they leave
/// stands for all of it: of the same current view and the same last finalized one, and with all that reaches above the floor.
pub fn lives_leave_all<S: Scheme<D>, D: Digest>()
    ensures { (f : Formats S D S.PublicKey S.Signature S.Certificate) (s : Setup S D S.Certificate) → LivesLeaveAll S.Scheme f s }
{
    lives_obey::<S, D>();
}

/// Each vote to notarize names a parent at or above the view behind which all begins that its member ever recorded.
pub fn parents_lie_from_the_floor<S: Scheme<D>, D: Digest>()
    ensures { (f : Formats S D S.PublicKey S.Signature S.Certificate) (s : Setup S D S.Certificate) → ParentsLieFromFloor S.Scheme f s }
{
    lives_obey::<S, D>();
}

/// An empty record is opened at any moment that lies early enough.
pub fn empty_records_are_opened<S: Scheme<D>, D: Digest>()
    ensures { (f : Formats S D S.PublicKey S.Signature S.Certificate) (s : Setup S D S.Certificate) → EmptyIsOpened S.Scheme f s }
{}

/// So is each lawful record, whatever stands in it: an opening goes through all of it.
pub fn lawful_records_are_opened<S: Scheme<D>, D: Digest>()
    ensures { (f : Formats S D S.PublicKey S.Signature S.Certificate) (s : Setup S D S.Certificate) → LawfulIsOpened S.Scheme f s }
{}

/// No deadline that is counted from a moment early enough is cut at the last moment of 64 bits.
pub fn early_moments_are_in_time<S: Scheme<D>, D: Digest>()
    ensures { (s : Setup S D S.Certificate) → EarlyIsInTime s }
{}

/// An image of a disk reads as one record alone: so what an opening finds is what was left.
pub fn one_record_is_read<S: Scheme<D>, D: Digest>()
    ensures { (f : Formats S D S.PublicKey S.Signature S.Certificate) (s : Setup S D S.Certificate)
        → f.artifact ≡ artifact_spelling D.spelling S.Signature.spelling S.Certificate.spelling
        → OneIsRead S.Scheme f s
        (Readable (artifact_fits D.fits S.Signature.fits S.Certificate.fits) (artifact_within (S.Certificate.within 65535))) }
{
    a_disk_reads_as_one_record::<Artifact<S, D>>();
}

/// A vote that is handed out stands in the record, and was due when it was made.
pub fn votes_are_recorded<S: Scheme<D>, D: Digest>()
    ensures due { (f : Formats S D S.PublicKey S.Signature S.Certificate) (s : Setup S D S.Certificate) → VotesWereDue S.Scheme f s }
    ensures recorded { (f : Formats S D S.PublicKey S.Signature S.Certificate) (s : Setup S D S.Certificate) → VotesAreRecorded S.Scheme f s }
{}

/// Behind one event nothing is done twice: no view is told its leader twice, none is voted in twice with one kind, nothing is asked of
/// one member twice, and so on. So acts end: there are no more of them than there are things to do with the views and members that
/// they are about, and numbers; and as views and numbers have 64 bits, that is a number that is known beforehand.
pub fn acts_end<S: Scheme<D>, D: Digest>()
    ensures once { (f : Formats S D S.PublicKey S.Signature S.Certificate) (s : Setup S D S.Certificate)
        → IsExact f
        → NothingIsDoneTwice S.Scheme f s }
    ensures ends { (f : Formats S D S.PublicKey S.Signature S.Certificate) (s : Setup S D S.Certificate) → IsExact f → ActsEnd S.Scheme f s }
    ensures anyhow { (f : Formats S D S.PublicKey S.Signature S.Certificate) (s : Setup S D S.Certificate)
        → IsExact f
        → ActsEndAnyhow S.Scheme f s }
{
    records_obey::<S, D>();
    rounds_obey::<S, D>();
    what_is_known_is_recorded::<S, D>();
}

/// A step raises the current view at most as often as there were views that were kept when it began, plus two: once
/// by the event, once where it stands then, and once by each view whose votes had come up, or that the voter tracked.
/// It is so in a committee of any size, where deadlines lie ahead of the moments from which they count; else a member
/// alone, whose own vote is a quorum, would give up view after view at one moment. In a committee of more than one
/// deadlines don't matter, and only views whose votes had come up count.
pub fn steps_raise_little<S: Listing<D>, D: Digest>()
    ensures all { (f : Formats S D S.PublicKey S.Signature S.Certificate) (s : Setup S D S.Certificate) → IsExact f → StepsRaiseLittle S.Scheme f s }
    ensures of_several { (f : Formats S D S.PublicKey S.Signature S.Certificate) (s : Setup S D S.Certificate)
        → IsExact f
        → StepsOfSeveralRaiseLittle S.Scheme f s }
{
    records_obey::<S, D>();
    rounds_obey::<S, D>();
    what_is_known_is_recorded::<S, D>();
    what_is_recorded_is_known::<S, D>();
}

/// The current view and the last finalized one never fall.
pub fn views_never_fall<S: Scheme<D>, D: Digest>()
    ensures { (f : Formats S D S.PublicKey S.Signature S.Certificate) (s : Setup S D S.Certificate) → ViewsNeverFall S.Scheme f s }
{}

/// A run is a stretch of a life.
pub fn runs_are_stretches<S: Scheme<D>, D: Digest>()
    ensures { (f : Formats S D S.PublicKey S.Signature S.Certificate) (s : Setup S D S.Certificate) → RunsAreStretches S.Scheme f s }
{}

/// The voter's part of a history is orderly, so that the voter's laws hold of it.
pub fn voters_are_orderly<S: Scheme<D>, D: Digest>()
    ensures { (f : Formats S D S.PublicKey S.Signature S.Certificate) (s : Setup S D S.Certificate) → VotersAreOrderly S.Scheme f s }
{}

/// The voter's part of a history says what the node records.
pub fn voters_tell_the_record<S: Scheme<D>, D: Digest>()
    ensures { (f : Formats S D S.PublicKey S.Signature S.Certificate) (s : Setup S D S.Certificate) → VotersTellTheRecord S.Scheme f s }
{}

/// Each proposal that came to the voter is of the epoch, and of the view for which it came: so are those that it votes on.
pub fn proposals_lie_in_their_views<S: Scheme<D>, D: Digest>()
    ensures { (f : Formats S D S.PublicKey S.Signature S.Certificate) (s : Setup S D S.Certificate)
        → IsExact f
        → ProposalsLieInTheirViews S.Scheme f s }
{
    rounds_obey::<S, D>();
}

/// An own nullify that the voter knows of a view is recorded.
pub fn known_nullifies_are_recorded<S: Scheme<D>, D: Digest>()
    ensures { (f : Formats S D S.PublicKey S.Signature S.Certificate) (s : Setup S D S.Certificate) → KnownNullifiesAreRecorded S.Scheme f s }
{}

/// The repair has the last finalized view that the voter has.
pub fn repair_and_voter_finalize_alike<S: Scheme<D>, D: Digest>()
    ensures { (f : Formats S D S.PublicKey S.Signature S.Certificate) (s : Setup S D S.Certificate) → FinalizeAlike f s }
{}

/// A proposal on which a notarize is due was bound to its parent's payload.
pub fn due_is_bound<S: Scheme<D>, D: Digest>()
    ensures { (f : Formats S D S.PublicKey S.Signature S.Certificate) (s : Setup S D S.Certificate) → IsExact f → DueIsBound S.Scheme f s }
{
    rounds_obey::<S, D>();
}

/// Each vote that is due may be recorded, whatever else is asked of what is recorded; and so may a verdict
/// that was asked for.
pub fn due_may_be_recorded<S: Scheme<D>, D: Digest>()
    ensures finalize { (f : Formats S D S.PublicKey S.Signature S.Certificate) (s : Setup S D S.Certificate) → DueFinalizeMayBeRecorded S.Scheme f s }
    ensures nullify { (f : Formats S D S.PublicKey S.Signature S.Certificate) (s : Setup S D S.Certificate) → DueNullifyMayBeRecorded S.Scheme f s }
    ensures verdict { (f : Formats S D S.PublicKey S.Signature S.Certificate) (s : Setup S D S.Certificate) → AwaitedMayBeRecorded S.Scheme f s }
    ensures votes { (f : Formats S D S.PublicKey S.Signature S.Certificate) (s : Setup S D S.Certificate)
        → IsExact f
        → DueMayBeRecorded S.Scheme f s }
{
    rounds_obey::<S, D>();
    what_is_known_is_recorded::<S, D>();
    what_is_due_may_be_recorded::<S, D>();
}

/// A verdict that is awaited may be recorded, its view has room, and the notarization that it is on is recorded, and is the one that
/// the voter has.
pub fn awaited_verdicts_may_be_taken<S: Scheme<D>, D: Digest>()
    ensures { (f : Formats S D S.PublicKey S.Signature S.Certificate) (s : Setup S D S.Certificate) → AwaitedIsJudgeable S.Scheme f s }
{
    what_is_known_is_recorded::<S, D>();
    what_is_recorded_is_known::<S, D>();
}

/// The view of a build or a verification that stands is tracked while it is kept: so an answer finds nothing of its view only where
/// that was dropped.
pub fn requests_are_tracked<S: Scheme<D>, D: Digest>()
    ensures { (f : Formats S D S.PublicKey S.Signature S.Certificate) (s : Setup S D S.Certificate) → IsExact f → RequestsAreTracked S.Scheme f s }
{
    rounds_obey::<S, D>();
}

/// What a member of a committee of more than one records stands on ground: a notarize for a term's start on
/// an explicit parent, unless a schedule names this member for it, and a true verdict inside a term too.
pub fn records_stand_on_ground<S: Scheme<D>, D: Digest>()
    ensures { (f : Formats S D S.PublicKey S.Signature S.Certificate) (s : Setup S D S.Certificate) → IsExact f → RecordsStandOnGround S.Scheme f s }
{
    rounds_obey::<S, D>();
    what_is_known_is_recorded::<S, D>();
    what_is_due_stands_on_ground::<D>();
}

/// What a member's lives leave stands on ground, in a committee of any size, and so does whatever may come next on
/// their way. (A member that is alone takes no packet of anybody, so each notarization that it has is of a proposal
/// that it voted for.)
pub fn lives_stand_on_ground<S: Listing<D>, D: Digest>()
    ensures left { (f : Formats S D S.PublicKey S.Signature S.Certificate) → IsExact f → LeftStandsOnGround S.Scheme f }
    ensures next { (f : Formats S D S.PublicKey S.Signature S.Certificate) → IsExact f → NextStandsOnGround S.Scheme f }
{
    rounds_obey::<S, D>();
    ground::<D>();
    what_is_known_is_recorded::<S, D>();
    what_is_due_stands_on_ground::<D>();
    a_lone_member_stands_on_ground::<D>();
}

/// The votes of each view that is kept are lawful.
pub fn votes_are_lawful<S: Scheme<D>, D: Digest>()
    ensures { (f : Formats S D S.PublicKey S.Signature S.Certificate) (s : Setup S D S.Certificate) → IsExact f → VotesAreLawful S.Scheme f s }
{
    rounds_obey::<S, D>();
}

/// No quorum is lost: where nothing is due, each kind with a valid quorum has its certificate.
pub fn no_quorum_is_lost<S: Scheme<D>, D: Digest>()
    ensures { (f : Formats S D S.PublicKey S.Signature S.Certificate) (s : Setup S D S.Certificate) → IsExact f → NoQuorumIsLost S.Scheme f s }
{
    rounds_obey::<S, D>();
}

/// Each accepted vote of a view was heard, or is an own one that is recorded.
pub fn accepted_votes_are_known<S: Scheme<D>, D: Digest>()
    ensures { (f : Formats S D S.PublicKey S.Signature S.Certificate) (s : Setup S D S.Certificate) → AcceptedAreKnown S.Scheme f s }
{}

/// Each attestation that a made certificate lists is that of a vote that was heard, or of an own one that is
/// recorded, which states what the certificate states.
pub fn made_certificates_list_votes<S: Scheme<D>, D: Digest>()
    ensures { (f : Formats S D S.PublicKey S.Signature S.Certificate) (s : Setup S D S.Certificate) → IsExact f → MadeListVotes S.Scheme f s }
{
    rounds_obey::<S, D>();
}

/// What a construction gives of a kind that is due, where the votes of a view are kept, may be taken: the record may take its
/// certificate, which certifies, of a view with room, the first of its kind there, with its parent below.
pub fn what_is_made_may_be_recorded<S: Scheme<D>, D: Digest>()
    ensures { (f : Formats S D S.PublicKey S.Signature S.Certificate) (s : Setup S D S.Certificate) → IsExact f → MadeIsAllowed S.Scheme f s }
{
    records_obey::<S, D>();
    rounds_obey::<S, D>();
}

/// The law of agreement for members that live by their nodes, over openings, events and crashes of any kind.
/// It speaks of each certificate that one of them recorded, and of each that came in to one of them, or that an
/// opening brought as its floor, and certifies: those that are made are honest, as what came in is.
pub fn agreement_of_lives<S: Listing<D>, D: Digest>()
    ensures agree { (f : Formats S D S.PublicKey S.Signature S.Certificate) → AgreeIfHonest S.Scheme f }
    ensures handed { (f : Formats S D S.PublicKey S.Signature S.Certificate) → HandedCertificatesAreSound S.Scheme f }
    ensures brought { (f : Formats S D S.PublicKey S.Signature S.Certificate) → BroughtFloorsAreSound S.Scheme f }
    ensures made { (f : Formats S D S.PublicKey S.Signature S.Certificate) → IsExact f → MadeAreHonest S.Scheme f }
    ensures all_agree { (f : Formats S D S.PublicKey S.Signature S.Certificate) → IsExact f → Agree S.Scheme f }
{
    lives_obey::<S, D>();
    rounds_obey::<S, D>();
    agreement::<S, D>();
}

/// From each finalized proposal the parents lead down to each that is finalized of a view no higher, in a
/// committee whose members live by their nodes and go by one schedule of leaders, also of a member that is alone.
pub fn finalized_views_lie_on_one_chain<S: Listing<D>, D: Digest>()
    ensures { (f : Formats S D S.PublicKey S.Signature S.Certificate) → IsExact f → LieOnOneChain S.Scheme f }
{
    lives_obey::<S, D>();
    rounds_obey::<S, D>();
    chain::<S, D>();
    lives_stand_on_ground::<S, D>();
}

/// Why a point hands something out: it records a vote or a certificate that it sends, or what it reports, or heard the vote that it
/// reports; or a nullify is repeated, with the best certificate; a view is asked for, or served from what the repair has.
pub fn deeds_are_of_their_points<S: Scheme<D>, D: Digest>()
    ensures { (f : Formats S D S.PublicKey S.Signature S.Certificate) (s : Setup S D S.Certificate) → DeedsAreOfPoints S.Scheme f s }
{}

/// Each history that a correct member's lives led to was gone to point by point, each vote that it heard came in by its
/// signer, and what it recorded the member recorded.
pub fn histories_of_lives_are_gone_to<S: Scheme<D>, D: Digest>()
    ensures { (f : Formats S D S.PublicKey S.Signature S.Certificate) → ReachedAreGoneTo S.Scheme f }
{}

/// What a correct member handed out it did at a point of one of its lives, or when it refused an event.
pub fn deeds_are_done<S: Scheme<D>, D: Digest>()
    ensures { (f : Formats S D S.PublicKey S.Signature S.Certificate) → DeedsAreDone S.Scheme f }
{}

/// A certificate that a correct member makes is sound, whether or not it comes to record it.
pub fn made_certificates_are_sound<S: Listing<D>, D: Digest>()
    ensures { (f : Formats S D S.PublicKey S.Signature S.Certificate) → IsExact f → MadeAreSound S.Scheme f }
{
    rounds_obey::<S, D>();
}

/// What correct members report holds no verifying vote in a correct member's name but on what that member recorded a vote
/// for: in no loose vote, certificate or evidence.
pub fn reports_are_honest<S: Scheme<D>, D: Digest>()
    ensures { (f : Formats S D S.PublicKey S.Signature S.Certificate) → IsExact f → ReportsAreHonest S.Scheme f }
{
    lives_obey::<S, D>();
    rounds_obey::<S, D>();
}

/// A certificate that a correct member reports certifies, by each scheme of the committee's size by which all attests
/// that does by the member's.
pub fn reported_certificates_certify<S: Listing<D>, D: Digest>()
    ensures { (f : Formats S D S.PublicKey S.Signature S.Certificate) → ReportedCertify S.Scheme f }
{
    lives_obey::<S, D>();
}

/// A correct member recorded votes for no two statements of which one stands in the other's way.
pub fn own_votes_agree<S: Scheme<D>, D: Digest>()
    ensures { (f : Formats S D S.PublicKey S.Signature S.Certificate) → OwnVotesAgree S.Scheme f }
{
    lives_obey::<S, D>();
    no_own_vote_stands_in_the_way::<D>();
}

/// A vote that comes in to a correct member by a correct one is one that this recorded: it names its signer,
/// and has its parent below. So it is refused for neither; nor does it contradict what was heard, nor fail
/// where it is judged by a scheme that attests alike.
pub fn correct_votes_are_sound<S: Scheme<D>, D: Digest>()
    ensures sound { (f : Formats S D S.PublicKey S.Signature S.Certificate) → AreReadBack f → CorrectVotesAreSound S.Scheme f }
    ensures no_contradiction { (f : Formats S D S.PublicKey S.Signature S.Certificate) → AreReadBack f → CorrectVotesContradictNone S.Scheme f }
    ensures none_invalid { (f : Formats S D S.PublicKey S.Signature S.Certificate) → IsExact f → AreReadBack f → ConstructionsBlockNone S.Scheme f }
{
    lives_obey::<S, D>();
    rounds_obey::<S, D>();
}

/// A correct member blocks a correct one by a refusal alone, of a packet that holds no vote, and never by a
/// construction.
pub fn blocked_by_refusal_alone<S: Scheme<D>, D: Digest>()
    ensures { (f : Formats S D S.PublicKey S.Signature S.Certificate) → IsExact f → AreReadBack f → BlockedByRefusalAlone S.Scheme f }
{
    lives_obey::<S, D>();
    rounds_obey::<S, D>();
}

/// No correct member blocks a correct one, where what attests by one's scheme does by the other's: neither by a refusal nor
/// by a construction, whatever the members do that are excused.
pub fn none_is_blamed<S: Listing<D>, D: Digest>()
    ensures { (f : Formats S D S.PublicKey S.Signature S.Certificate) → IsExact f → AreReadBack f → NoneIsBlamed S.Scheme f }
{
    lives_obey::<S, D>();
    rounds_obey::<S, D>();
    what_is_known_is_recorded::<S, D>();
    what_is_produced_came();
}

/// The bytes of each packet that a correct member hands out are in the grammar: they read as that packet, and those that it
/// serves as a certificate.
pub fn packets_are_in_grammar<S: Scheme<D>, D: Digest>()
    ensures { (f : Formats S D S.PublicKey S.Signature S.Certificate) → AreReadBack f → PacketsAreInGrammar S.Scheme f }
{
    lives_obey::<S, D>();
    what_is_known_is_recorded::<S, D>();
    what_is_produced_came();
}

/// Packets as the messages spell them: payloads that are compared as one are one; and in a committee of each size that
/// 32 bits can tell, what can be read is read back from its own bytes, and each artifact that can be written, and is within
/// the committee's bound, can be recorded; each vote and certificate of these can be read as a packet.
pub fn packets_are_read_back<S: Scheme<D>, D: Digest>()
    ensures exact { (n : ℕ)
        → IsExact (formats {S = S} {P = S.PublicKey} D.PartialEq.eq D.spelling S.Signature.spelling S.Certificate.spelling D.reading
        S.Signature.reading S.Certificate.reading n) }
    ensures read_back { (n : ℕ)
        → n < 2 ^ 32
        → AreReadBack (formats {S = S} {P = S.PublicKey} D.PartialEq.eq D.spelling S.Signature.spelling S.Certificate.spelling D.reading
        S.Signature.reading S.Certificate.reading n) }
    ensures readable { (n : ℕ)
        → n < 2 ^ 32
        → CanBeSent (Readable (artifact_fits D.fits S.Signature.fits S.Certificate.fits) (artifact_within (S.Certificate.within n)))
        (formats {S = S} {P = S.PublicKey} D.PartialEq.eq D.spelling S.Signature.spelling S.Certificate.spelling D.reading
        S.Signature.reading S.Certificate.reading n) }
    ensures recordable { (n : ℕ)
        → n < 2 ^ 32
        → (x : Artifact S D S.PublicKey S.Signature S.Certificate)
        → Readable (artifact_fits D.fits S.Signature.fits S.Certificate.fits) (artifact_within (S.Certificate.within n)) x
        → IsRecordable (formats {S = S} {P = S.PublicKey} D.PartialEq.eq D.spelling S.Signature.spelling S.Certificate.spelling D.reading
        S.Signature.reading S.Certificate.reading n) x }
{}
