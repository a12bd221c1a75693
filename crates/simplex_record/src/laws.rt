//! Agreement of members whose records are lawful, and the chain that what they finalize is.

ghost use Rattle.std.specs.Prelude.{◌≡◌, ◌<◌, ℕ, Bool, List, [], ◌∷◌, ◌++◌, Contains, Option};
ghost use Rattle.messages_certificates.specs.declared.artifact.Artifact.{Artifact};
ghost use Rattle.simplex_record.specs.declared.owner.Owner.{Owner};
ghost use Rattle.simplex_record.specs.Chain.{StandsOnGround, MayFollowOnGround, AllStandOnGround, OneChain};
ghost use Rattle.types_core.specs.declared.position.Round.{Round};
ghost use Rattle.types_core.specs.declared.proposal.Proposal.{Proposal};
ghost use Rattle.types_core.specs.Subject.{Statement, notarize};
ghost use Rattle.types_core.specs.Positions.{HasRoom};
ghost use Rattle.messages_certificates.specs.Artifact.{artifact_round};
ghost use Rattle.messages_certificates.specs.declared.artifact.Artifact.TheVariants as artifact;
ghost use Rattle.messages_certificates.specs.ProposalCertificate.{Finalization};
ghost use Rattle.simplex_record.specs.Record.{Entry, voted, entry, entries, floor, last_finalized, current_view, HasVoted, HasTaken};
ghost use Rattle.simplex_record.specs.Kept.{StandsForAll, IsFrom, IsBehind, AreOfOneMember};
ghost use Rattle.simplex_record.specs.Rules.{MayFollow, StandsInTheWay};
ghost use Rattle.simplex_record.specs.Lawful.{Fits, IsLawful, EverFits, IsRecorded, IsEverLawful, VotesLawfully, rewritten};
ghost use Rattle.simplex_record.specs.World.{World, IsWorld};
ghost use Rattle.simplex_record.specs.Agreement.{OneProposalAView, NoFinalizedViewNullified, NoFinalizedViewSkipped};

use types_core::{Digest, Listing, Scheme};

/// The law of agreement. In a committee of any size, with terms of any length, let no more members be
/// excused from all rules than may be faulty. Of each other member let the scheme be of the committee's
/// size, and what attests by it attest by the committee's; let it vote lawfully by its own scheme; and let
/// each verifying vote that a certificate lists in its name be on a statement for
/// which it recorded a vote. Then over all certificates that list attestations of a quorum, recorded or
/// not: no view has notarizations or finalizations for two proposals, no finalized view is nullified, and
/// no notarized proposal skips a finalized view. Whatever verifies under a scheme of this kind lists such
/// attestations.
pub fn agreement<S: Listing<D>, D: Digest>()
    ensures one_proposal_a_view { (scheme : S) (schemes : ℕ → S) (world : World S D S.PublicKey S.Signature S.Certificate)
        → IsWorld (S.attests scheme) (λ i. S.size (schemes i)) (λ i. S.attests (schemes i)) (λ i. S.certifies (schemes i)) S.lists world
        → OneProposalAView (S.attests scheme) S.lists world }
    ensures no_finalized_view_nullified { (scheme : S) (schemes : ℕ → S) (world : World S D S.PublicKey S.Signature S.Certificate)
        → IsWorld (S.attests scheme) (λ i. S.size (schemes i)) (λ i. S.attests (schemes i)) (λ i. S.certifies (schemes i)) S.lists world
        → NoFinalizedViewNullified (S.attests scheme) S.lists world }
    ensures no_finalized_view_skipped { (scheme : S) (schemes : ℕ → S) (world : World S D S.PublicKey S.Signature S.Certificate)
        → IsWorld (S.attests scheme) (λ i. S.size (schemes i)) (λ i. S.attests (schemes i)) (λ i. S.certifies (schemes i)) S.lists world
        → NoFinalizedViewSkipped (S.attests scheme) S.lists world }
{}

/// The law of the chain. Let also each correct member's record stand on ground, by one schedule of leaders:
/// of each view that it judged true it took a notarization, whose parent it knew to be finalized or judged
/// true, unless the view starts a term; and where it voted to notarize a view that starts a term, it knew
/// that of the parent, or leads the view by the schedule. (A member that is alone knows it of each view
/// that it judged true.) Then from each finalized proposal the parents lead down to each that is finalized
/// of a view no higher, through proposals that are notarized.
pub fn chain<S: Listing<D>, D: Digest>()
    ensures { (scheme : S) (schemes : ℕ → S) (world : World S D S.PublicKey S.Signature S.Certificate) (leader : ℕ → Option ℕ)
        → IsWorld (S.attests scheme) (λ i. S.size (schemes i)) (λ i. S.attests (schemes i)) (λ i. S.certifies (schemes i)) S.lists world
        → AllStandOnGround leader world
        → OneChain (S.attests scheme) S.lists world }
{}

/// An empty record stands on ground, and so does one that did with an entry more that may follow on ground.
pub fn records_stand_on_ground<D: Digest>()
    ensures first { (size views : ℕ) (leader : ℕ → Option ℕ) (member : ℕ) → StandsOnGround {D = D} size views leader member [] }
    ensures further { (size views : ℕ) (leader : ℕ → Option ℕ) (member : ℕ) (before : List (Entry D)) (e : Entry D)
        → StandsOnGround size views leader member before
        → MayFollowOnGround size views leader member before e
        → StandsOnGround size views leader member (before ++ e ∷ []) }
{}

/// An empty record is lawful, and so is a lawful one with one more artifact that fits behind it.
pub fn a_lawful_record_grows<S: Scheme<D>, D: Digest>()
    ensures first { (scheme : S) (owner : Owner) → IsLawful {S = S} {P = S.PublicKey} (S.attests scheme) (S.certifies scheme) owner [] }
    ensures further { (scheme : S) (owner : Owner) (before : List (Artifact S D S.PublicKey S.Signature S.Certificate))
        (x : Artifact S D S.PublicKey S.Signature S.Certificate)
        → IsLawful (S.attests scheme) (S.certifies scheme) owner before
        → Fits (S.attests scheme) (S.certifies scheme) owner before x
        → IsLawful (S.attests scheme) (S.certifies scheme) owner (before ++ x ∷ []) }
{}

/// No vote that a record has stands in the way of an own vote that may follow it.
pub fn no_own_vote_stands_in_the_way<D: Digest>()
    ensures { (views : ℕ) (before : List (Entry D)) (s t : Statement D)
        → MayFollow views before (voted s)
        → HasVoted before t
        → ¬ StandsInTheWay s t }
{}

/// A member votes lawfully, of whom all that it ever recorded is lawful.
pub fn ever_lawful_members_vote_lawfully<S: Scheme<D>, D: Digest>()
    ensures { (scheme : S) (owner : Owner) (artifacts : List (Artifact S D S.PublicKey S.Signature S.Certificate))
        → IsEverLawful (S.attests scheme) (S.certifies scheme) owner artifacts
        → VotesLawfully (S.attests scheme) (S.certifies scheme) owner artifacts }
{}

/// So does one of whose lawful record nothing was ever dropped.
pub fn whole_records_vote_lawfully<S: Scheme<D>, D: Digest>()
    ensures { (scheme : S) (owner : Owner) (artifacts : List (Artifact S D S.PublicKey S.Signature S.Certificate))
        → IsLawful (S.attests scheme) (S.certifies scheme) owner artifacts
        → VotesLawfully (S.attests scheme) (S.certifies scheme) owner artifacts }
{}

/// Where all that was ever recorded is lawful, a notarization of a verdict's round stands before it.
pub fn verdicts_follow_their_notarizations<S: Scheme<D>, D: Digest>()
    ensures { (scheme : S) (owner : Owner) (before after : List (Artifact S D S.PublicKey S.Signature S.Certificate)) (round : Round)
        (verdict : Bool)
        → IsEverLawful (S.attests scheme) (S.certifies scheme) owner (before ++ artifact.Certification round verdict ∷ after)
        → (p : Proposal D) × (p.round ≡ round) × HasTaken (entries before) (notarize p) }
{}

/// Each artifact of a lawful record is of a view with room.
pub fn lawful_records_leave_room<S: Scheme<D>, D: Digest>()
    ensures { (scheme : S) (owner : Owner) (before after : List (Artifact S D S.PublicKey S.Signature S.Certificate))
        (x : Artifact S D S.PublicKey S.Signature S.Certificate)
        → IsLawful (S.attests scheme) (S.certifies scheme) owner (before ++ x ∷ after)
        → HasRoom owner.term_length (artifact_round x).view }
{}

/// What a rewrite leaves of a lawful record, behind the finalization of its last finalized view, is lawful, of
/// the same last finalized view and the same current view; and its floor is that last finalized view.
pub fn a_rewritten_record_is_lawful<S: Scheme<D>, D: Digest>()
    ensures lawful { (scheme : S) (owner : Owner) (record_ : List (Artifact S D S.PublicKey S.Signature S.Certificate))
        (c : Finalization S D S.PublicKey S.Signature S.Certificate)
        → 0 < owner.term_length
        → IsLawful (S.attests scheme) (S.certifies scheme) owner record_
        → Contains record_ (artifact.Finalization c)
        → c.proposal.round.view ≡ last_finalized (entries record_)
        → IsLawful (S.attests scheme) (S.certifies scheme) owner (rewritten owner.term_length c record_) }
    ensures same { (views : ℕ) (record_ : List (Artifact S D S.PublicKey S.Signature S.Certificate))
        (c : Finalization S D S.PublicKey S.Signature S.Certificate)
        → c.proposal.round.view ≡ last_finalized (entries record_)
        → (last_finalized (entries (rewritten views c record_)) ≡ last_finalized (entries record_))
        × (current_view views (entries (rewritten views c record_)) ≡ current_view views (entries record_)) }
    ensures floor { (views : ℕ) (record_ : List (Artifact S D S.PublicKey S.Signature S.Certificate))
        (c : Finalization S D S.PublicKey S.Signature S.Certificate)
        → floor (entries (rewritten views c record_)) ≡ c.proposal.round.view }
{}

/// What a member keeps of all that it ever recorded is lawful, and stands for all of that: it was recorded;
/// all that reaches above its floor is there; and both are of one last finalized view and one current view.
pub fn what_is_kept_is_lawful<S: Scheme<D>, D: Digest>()
    ensures lawful { (scheme : S) (owner : Owner) (ever kept : List (Artifact S D S.PublicKey S.Signature S.Certificate))
        → 0 < owner.term_length
        → IsRecorded (S.attests scheme) (S.certifies scheme) owner ever kept
        → IsLawful (S.attests scheme) (S.certifies scheme) owner kept }
    ensures stands { (scheme : S) (owner : Owner) (ever kept : List (Artifact S D S.PublicKey S.Signature S.Certificate))
        → 0 < owner.term_length
        → IsRecorded (S.attests scheme) (S.certifies scheme) owner ever kept
        → StandsForAll owner.term_length (entries ever) (entries kept) }
{}

/// What fits behind what a member keeps fits behind all that it ever recorded, where a vote to notarize names a
/// parent at or above the floor of what is kept. So a member that has forgotten the rest goes by the same rules.
pub fn one_judgement<S: Scheme<D>, D: Digest>()
    ensures { (scheme : S) (owner : Owner) (ever kept : List (Artifact S D S.PublicKey S.Signature S.Certificate))
        (x : Artifact S D S.PublicKey S.Signature S.Certificate)
        → 0 < owner.term_length
        → IsRecorded (S.attests scheme) (S.certifies scheme) owner ever kept
        → IsFrom (floor (entries kept)) (entry x)
        → Fits (S.attests scheme) (S.certifies scheme) owner kept x
        → EverFits (S.attests scheme) (S.certifies scheme) owner ever kept x }
{}

/// The three lists of a member go on together: all that it ever recorded, what its opening found and recorded
/// since, and what its record has since the last rewrite. Each artifact that fits behind the second goes behind
/// all three, where a vote to notarize names a parent at or above the second's floor, and it or a verdict is of a
/// view behind the third's; a rewrite leaves the first two; and the next opening finds the third.
pub fn three_lists_go_on<S: Scheme<D>, D: Digest>()
    ensures first { (scheme : S) (owner : Owner) → AreOfOneMember {S = S} {P = S.PublicKey} (S.attests scheme) (S.certifies scheme) owner [] [] [] }
    ensures opens { (scheme : S) (owner : Owner) (ever opened kept : List (Artifact S D S.PublicKey S.Signature S.Certificate))
        → AreOfOneMember (S.attests scheme) (S.certifies scheme) owner ever opened kept
        → AreOfOneMember (S.attests scheme) (S.certifies scheme) owner ever kept kept }
    ensures records { (scheme : S) (owner : Owner) (ever opened kept : List (Artifact S D S.PublicKey S.Signature S.Certificate))
        (x : Artifact S D S.PublicKey S.Signature S.Certificate)
        → 0 < owner.term_length
        → AreOfOneMember (S.attests scheme) (S.certifies scheme) owner ever opened kept
        → IsFrom (floor (entries opened)) (entry x)
        → IsBehind (floor (entries kept)) (entry x)
        → Fits (S.attests scheme) (S.certifies scheme) owner opened x
        → AreOfOneMember (S.attests scheme) (S.certifies scheme) owner (ever ++ x ∷ []) (opened ++ x ∷ []) (kept ++ x ∷ []) }
    ensures rewrites { (scheme : S) (owner : Owner) (ever opened kept : List (Artifact S D S.PublicKey S.Signature S.Certificate))
        (c : Finalization S D S.PublicKey S.Signature S.Certificate)
        → AreOfOneMember (S.attests scheme) (S.certifies scheme) owner ever opened kept
        → Contains kept (artifact.Finalization c)
        → c.proposal.round.view ≡ last_finalized (entries kept)
        → AreOfOneMember (S.attests scheme) (S.certifies scheme) owner ever opened (rewritten owner.term_length c kept) }
{}
