//! What follows from the definitions of what a voter knows, and of what is due by it.

ghost use Rattle.voter_laws.specs.Matching.{DueMayBeNotarized, DueMayBeFinalized, DueMayBeNullified, DueNotarizeIsOnGround, DueVerdictIsOnGround, LatchChangesNothing, ScanChangesNothing, ScanLeavesNothing, LeadersAreClosed, EachHistoryMatches, BaseChangesFloorAlone, WhatAgreesIsDueAlike, PruneChangesNothing, PruneKeepsTimeouts, WindowsAgree, PollChangesNothing, SendChangesNothing, RepetitionChangesNothing, ScanGivesUp, ScanLeavesNoReason, WholeScanLeavesNothing};
ghost use Rattle.voter_laws.specs.Alone.{DueNotarizeIsOnGroundOrNext, DueVerdictOfOneIsOnGround, GroundStays};
ghost use Rattle.voter_laws.specs.StaysKnown.{PruneKeepsUses, ViewsNeverFall, WhatIsKnownStays};
ghost use Rattle.voter_laws.specs.Timeouts.{CurrentHasTimeout, CurrentIsSeen, PolledOnceIsPolled, PollKeepsTimeout, TimeoutIsEarliest};
ghost use Rattle.voter_laws.specs.Recording.{EachRecordIsKnown};
ghost use Rattle.voter_laws.specs.Placing.{DueNotarizeIsBound, HeldLiesInItsView};

use types_core::{Digest, Scheme};

/// What is due may be recorded, where what is known is what the record says: a notarize of a proposal that
/// was bound to its parent's payload, a finalize, and a nullify that is no repetition.
pub fn what_is_due_may_be_recorded<S: Scheme<D>, D: Digest>()
    ensures notarize { DueMayBeNotarized D }
    ensures finalize { DueMayBeFinalized D }
    ensures nullify { DueMayBeNullified S D S.PublicKey S.Signature S.Certificate }
{}

/// What is due stands on ground, where what is known is what the record says: a notarize of a proposal that
/// was bound to its parent's payload; and, in a committee of more than one, a true verdict on a proposal on
/// which one is to be asked for.
pub fn what_is_due_stands_on_ground<D: Digest>()
    ensures notarize { DueNotarizeIsOnGround D }
    ensures verdict { DueVerdictIsOnGround D }
{}

/// That a view is given up for a reason changes nothing of what is known, so nothing else that is due; nor
/// does a look at the next timeout, a certificate that is handed out, or a nullify that is voted once more; and
/// that the record begins behind a view changes that alone. Of who leads nothing more is to be learnt: whoever
/// leads a view leads the next one too, where that inherits.
pub fn a_latch_changes_nothing_due<S: Scheme<D>, D: Digest>()
    ensures latch { LatchChangesNothing S D S.PublicKey S.Signature S.Certificate }
    ensures poll { PollChangesNothing S D S.PublicKey S.Signature S.Certificate }
    ensures sent { SendChangesNothing S D S.PublicKey S.Signature S.Certificate }
    ensures repetition { RepetitionChangesNothing S D S.PublicKey S.Signature S.Certificate }
    ensures based { BaseChangesFloorAlone S D S.PublicKey S.Signature S.Certificate }
    ensures leaders { LeadersAreClosed S D S.PublicKey S.Signature S.Certificate }
{}

/// A look at the proposals that wait changes nothing of what is known, though it may give up some: those that can never stand, each
/// for that, where it is the first reason; behind the look no other would be. For those that it passed nothing is to be asked,
/// neither a verification nor a certificate; and where it passed all that may be spoken of, for none at all.
pub fn a_look_leaves_nothing_to_ask<S: Scheme<D>, D: Digest>()
    ensures unchanged { ScanChangesNothing S D S.PublicKey S.Signature S.Certificate }
    ensures passed { ScanLeavesNothing S D S.PublicKey S.Signature S.Certificate }
    ensures given_up { ScanGivesUp S D S.PublicKey S.Signature S.Certificate }
    ensures no_reason { ScanLeavesNoReason S D S.PublicKey S.Signature S.Certificate }
    ensures whole { WholeScanLeavesNothing S D S.PublicKey S.Signature S.Certificate }
{}

/// What is known at the end of an orderly history is what its record says, as far as votes rest on it: the
/// current view and the last finalized one, what is covered, the own votes, certificates and verdicts.
pub fn what_is_known_is_recorded<S: Scheme<D>, D: Digest>()
    ensures { EachHistoryMatches S D S.PublicKey S.Signature S.Certificate }
{}

/// And what the record says is known: of exactly the views of its nullifications one is known, and of each view that is kept
/// there is a notarization, a finalization or a verdict, where the record has one.
pub fn what_is_recorded_is_known<S: Scheme<D>, D: Digest>()
    ensures { EachRecordIsKnown S D S.PublicKey S.Signature S.Certificate }
{}

/// Where the same is known from the last finalized view on, the same votes and requests are due above it. So
/// a prune, which drops only views below, changes nothing that is due there; nor when the current view is
/// given up.
pub fn a_prune_changes_nothing_due<S: Scheme<D>, D: Digest>()
    ensures agreeing { WhatAgreesIsDueAlike D }
    ensures pruned { PruneChangesNothing S D S.PublicKey S.Signature S.Certificate }
    ensures timeouts { PruneKeepsTimeouts S D S.PublicKey S.Signature S.Certificate }
{}

/// The issuance window in which leaders are handed on is the one in which votes and requests are due.
pub fn windows_are_one<S: Scheme<D>, D: Digest>()
    ensures { WindowsAgree S D S.PublicKey S.Signature S.Certificate }
{}

/// Where each proposal that came was of the epoch, and of the view for which it came, the held one of each view is.
pub fn held_lies_in_its_view<S: Scheme<D>, D: Digest>()
    ensures { HeldLiesInItsView S D S.PublicKey S.Signature S.Certificate }
{}

/// Where that is so, and the held proposal was bound to its parent's payload whenever one was found good, a notarize is due
/// only of a proposal that is bound.
pub fn what_is_found_good_is_bound<S: Scheme<D>, D: Digest>()
    ensures { DueNotarizeIsBound S D S.PublicKey S.Signature S.Certificate }
{}

/// Behind the start something happened to the current view. Behind a look at its timeout it has one, while it is not finalized, no
/// finalize of it was voted and its verdict isn't true. What the timeout names is the earliest moment: from now on a nullify is due
/// just from there on. A look changes nothing of it where it is known when a nullify that was voted is due again; so a second one
/// never does.
pub fn the_timeout_is_the_earliest<S: Scheme<D>, D: Digest>()
    ensures seen { CurrentIsSeen S D S.PublicKey S.Signature S.Certificate }
    ensures there { CurrentHasTimeout S D S.PublicKey S.Signature S.Certificate }
    ensures earliest { TimeoutIsEarliest S D S.PublicKey S.Signature S.Certificate }
    ensures kept { PollKeepsTimeout S D S.PublicKey S.Signature S.Certificate }
    ensures once { PolledOnceIsPolled S D S.PublicKey S.Signature S.Certificate }
{}

/// Whatever happens, the current view, the last finalized one and the least that is kept never fall; and unless a view is dropped,
/// what is known of it stays known. Where views are dropped that need not be kept, above the last finalized one the same parents may
/// be used, the same bindings stand, and the same verdicts are put off.
pub fn what_is_known_stays<S: Scheme<D>, D: Digest>()
    ensures known { WhatIsKnownStays S D S.PublicKey S.Signature S.Certificate }
    ensures views { ViewsNeverFall S D S.PublicKey S.Signature S.Certificate }
    ensures pruned { PruneKeepsUses S D S.PublicKey S.Signature S.Certificate }
{}

/// The same for a committee of one: a notarize that is due stands on ground, or is on the view before, of which a schedule hands over
/// to this member; and where the only member voted for a proposal so, a true verdict on it stands on ground, if one is to be asked
/// for. Ground stays ground, whatever is recorded behind it.
pub fn a_lone_member_stands_on_ground<D: Digest>()
    ensures notarize { DueNotarizeIsOnGroundOrNext D }
    ensures verdict { DueVerdictOfOneIsOnGround D }
    ensures stays { GroundStays D }
{}
