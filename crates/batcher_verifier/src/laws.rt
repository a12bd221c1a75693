//! Laws of the votes of a round.

ghost use Rattle.std.specs.Prelude.{◌≡◌, ◌≤◌, ◌<◌, ◌∷◌, ℕ, List, Option, None, Some, IfSome, All, Contains, true, false, length, map};
ghost use Rattle.types_core.specs.declared.position.Round.{Round};
ghost use Rattle.types_core.specs.declared.proposal.Proposal.{Proposal};
ghost use Rattle.types_core.specs.Subject.{Statement};
ghost use Rattle.types_core.specs.Batching.{AreFailing};
ghost use Rattle.simplex_messages.specs.VoteParts.{vote_round};
ghost use Rattle.simplex_messages.specs.declared.vote.Vote.{Vote};
ghost use Rattle.messages_certificates.specs.declared.certificate.Certificate.{Certificate};
ghost use Rattle.types_terms.specs.declared.kind.Kind.{Kind};
ghost use Rattle.batcher_verifier.specs.declared.batch.Batch.{Batch};
ghost use Rattle.batcher_verifier.specs.declared.verifier.Verifier.{Verifier};
ghost use Rattle.batcher_verifier.specs.Votes.{is_kind, vote_kind, vote_statement, vote_attestation};
ghost use Rattle.batcher_verifier.specs.History.{Event, Forwarded, History, Setup, accepted, context, counting, has_forwarded, is_candidate, is_complete, is_due, next_kind, selected, statement_for, taken, verified, waiting};
ghost use Rattle.batcher_verifier.specs.Lawful.{IsConsistent, IsLawful, IsNew, IsRight, MayBeAdded};
ghost use Rattle.batcher_verifier.specs.Keeping.{VerifierKeeps};
ghost use Rattle.batcher_verifier.specs.ConstructionResult.{after, kinds_left, HasFailed, IsBatch, IsFounded};
ghost use Rattle.batcher_verifier.specs.Quorums.{AllCertified};
ghost use Rattle.batcher_verifier.specs.Spending.{waits, Spends};

use types_core::{Digest, Scheme};

/// No quorum is lost: where no construction is due, each kind with a valid quorum has its certificate, of notarizes and
/// finalizes where the selected proposal replaced no other.
pub fn no_quorum_is_lost<S: Scheme<D>, D: Digest>()
    ensures { (s : Setup S) (h : History S D S.PublicKey S.Signature S.Certificate)
        → s.is_skipped ≡ false
        → IsConsistent D.PartialEq.eq S.attests s h
        → next_kind D.PartialEq.eq s h ≡ None
        → AllCertified S.attests s h }
{}

/// After a construction of the first kind of which one was due a later one is due, or none.
pub fn constructions_end<S: Scheme<D>, D: Digest>()
    ensures { (s : Setup S) (h : History S D S.PublicKey S.Signature S.Certificate) (kind : Kind)
        (batch : Batch (Certificate S D S.PublicKey S.Signature S.Certificate))
        → 0 < s.needed
        → IsConsistent D.PartialEq.eq S.attests s h
        → next_kind D.PartialEq.eq s h ≡ Some kind
        → IsBatch S.Scheme D.PartialEq.eq s kind h batch
        → kinds_left (next_kind D.PartialEq.eq s (after kind (Some batch) h)) < kinds_left (Some kind) }
{}

/// No more votes are judged than came from the network: no event lets more wait than waited and came with it, and what a
/// construction judges waits no longer.
pub fn no_more_are_judged_than_came<S: Scheme<D>, D: Digest>()
    ensures events { (s : Setup S) (h : History S D S.PublicKey S.Signature S.Certificate)
        (e : Event (Vote S D S.PublicKey S.Signature S.Certificate) (Certificate S D S.PublicKey S.Signature S.Certificate))
        → Spends D.PartialEq.eq s 0 h (e ∷ h) }
    ensures batches { (s : Setup S) (h : History S D S.PublicKey S.Signature S.Certificate) (kind : Kind)
        (batch : Batch (Certificate S D S.PublicKey S.Signature S.Certificate))
        → IsBatch S.Scheme D.PartialEq.eq s kind h batch
        → Spends D.PartialEq.eq s batch.processed h (after kind (Some batch) h) }
    ensures waiting { (s : Setup S) (h : History S D S.PublicKey S.Signature S.Certificate) → waits D.PartialEq.eq s h ≤ length (taken h) }
{}

/// That the selected proposal is forwarded changes nothing of the votes.
pub fn forwarding_changes_no_votes<S: Scheme<D>, D: Digest>()
    ensures { (s : Setup S) (verifier : Verifier S D S.PublicKey S.Signature S.Certificate)
        (h : History S D S.PublicKey S.Signature S.Certificate)
        → VerifierKeeps D.PartialEq.eq S.Scheme S.batchable s verifier h
        → has_forwarded h ≡ false
        → VerifierKeeps D.PartialEq.eq S.Scheme S.batchable s verifier (Forwarded ∷ h) }
{}

/// What comes of a construction rests on accepted votes. A certificate is of the round and of the kind, certifies what it
/// states, and lists attestations alone of accepted votes of the kind that state the same. Of each signer that is called
/// invalid a vote of the kind was accepted that does not attest what it states.
pub fn batches_rest_on_accepted_votes<S: Scheme<D>, D: Digest>()
    ensures certificates { (s : Setup S) (h : History S D S.PublicKey S.Signature S.Certificate) (kind : Kind)
        (batch : Batch (Certificate S D S.PublicKey S.Signature S.Certificate))
        → IsConsistent D.PartialEq.eq S.attests s h
        → IsBatch S.Scheme D.PartialEq.eq s kind h batch
        → IfSome batch.certificate (IsFounded S.Scheme s kind h) }
    ensures invalid { (s : Setup S) (h : History S D S.PublicKey S.Signature S.Certificate) (kind : Kind)
        (batch : Batch (Certificate S D S.PublicKey S.Signature S.Certificate))
        → IsConsistent D.PartialEq.eq S.attests s h
        → IsBatch S.Scheme D.PartialEq.eq s kind h batch
        → All (HasFailed S.attests s kind h) batch.invalid.items }
{}

/// A construction is due of a kind alone that has no certificate.
pub fn what_is_due_has_no_certificate<S: Scheme<D>, D: Digest>()
    ensures { (s : Setup S) (h : History S D S.PublicKey S.Signature S.Certificate) (kind : Kind)
        → 0 < s.needed
        → is_due D.PartialEq.eq s kind h ≡ true
        → is_complete kind h ≡ false }
{}

/// Each vote that waits or is known to attest was accepted, and is of its kind.
pub fn votes_that_count_were_accepted<S: Scheme<D>, D: Digest>()
    ensures waiting { (s : Setup S) (h : History S D S.PublicKey S.Signature S.Certificate) (kind : Kind)
        (v : Vote S D S.PublicKey S.Signature S.Certificate)
        → Contains (waiting D.PartialEq.eq s kind h) v
        → Contains (accepted h) v }
    ensures verified { (s : Setup S) (h : History S D S.PublicKey S.Signature S.Certificate) (kind : Kind)
        (v : Vote S D S.PublicKey S.Signature S.Certificate)
        → Contains (verified D.PartialEq.eq s kind h) v
        → Contains (accepted h) v }
    ensures waiting_kind { (s : Setup S) (h : History S D S.PublicKey S.Signature S.Certificate) (kind : Kind)
        (v : Vote S D S.PublicKey S.Signature S.Certificate)
        → Contains (waiting D.PartialEq.eq s kind h) v
        → is_kind kind (vote_kind v) ≡ true }
    ensures verified_kind { (s : Setup S) (h : History S D S.PublicKey S.Signature S.Certificate) (kind : Kind)
        (v : Vote S D S.PublicKey S.Signature S.Certificate)
        → Contains (verified D.PartialEq.eq s kind h) v
        → is_kind kind (vote_kind v) ≡ true }
{}

/// The votes that wait, and those that are known to attest, are for the selected proposal, and of a kind without a
/// certificate: to count them once more changes nothing.
pub fn votes_count_once_more<S: Scheme<D>, D: Digest>()
    ensures waiting { (s : Setup S) (h : History S D S.PublicKey S.Signature S.Certificate) (kind : Kind)
        → counting D.PartialEq.eq s kind h (waiting D.PartialEq.eq s kind h) ≡ waiting D.PartialEq.eq s kind h }
    ensures verified { (s : Setup S) (h : History S D S.PublicKey S.Signature S.Certificate) (kind : Kind)
        → counting D.PartialEq.eq s kind h (verified D.PartialEq.eq s kind h) ≡ verified D.PartialEq.eq s kind h }
{}

/// Accepted votes and the selected proposal are of the round.
pub fn votes_are_of_the_round<S: Scheme<D>, D: Digest>()
    ensures accepted { (s : Setup S) (h : History S D S.PublicKey S.Signature S.Certificate)
        (v : Vote S D S.PublicKey S.Signature S.Certificate)
        → IsConsistent D.PartialEq.eq S.attests s h
        → Contains (accepted h) v
        → vote_round v ≡ s.round }
    ensures selected { (s : Setup S) (h : History S D S.PublicKey S.Signature S.Certificate)
        → IsConsistent D.PartialEq.eq S.attests s h
        → IfSome (selected h) (λ p. p.round ≡ s.round) }
{}

/// Where it is known what votes of a kind have to state, each that waits or is known to attest states it; and so does each
/// vote of the kind and of the round that is for the selected proposal.
pub fn votes_that_count_state_it<S: Scheme<D>, D: Digest>()
    ensures candidates { (kind : Kind) (round : Round) (p : Option (Proposal D)) (x : Statement D)
        (v : Vote S D S.PublicKey S.Signature S.Certificate)
        → statement_for kind round p ≡ Some x
        → is_kind kind (vote_kind v) ≡ true
        → vote_round v ≡ round
        → is_candidate D.PartialEq.eq p v ≡ true
        → vote_statement v ≡ x }
    ensures waiting { (s : Setup S) (h : History S D S.PublicKey S.Signature S.Certificate) (kind : Kind) (x : Statement D)
        → IsConsistent D.PartialEq.eq S.attests s h
        → context s kind h ≡ Some x
        → All (λ v. vote_statement v ≡ x) (waiting D.PartialEq.eq s kind h) }
    ensures verified { (s : Setup S) (h : History S D S.PublicKey S.Signature S.Certificate) (kind : Kind) (x : Statement D)
        → IsConsistent D.PartialEq.eq S.attests s h
        → context s kind h ≡ Some x
        → All (λ v. vote_statement v ≡ x) (verified D.PartialEq.eq s kind h) }
{}

/// A verdict on the attestations of the votes that wait is right of the votes.
pub fn verdicts_on_attestations_are_right<S: Scheme<D>, D: Digest>()
    ensures { (s : Setup S) (h : History S D S.PublicKey S.Signature S.Certificate) (kind : Kind) (x : Statement D) (failing : List ℕ)
        → IsConsistent D.PartialEq.eq S.attests s h
        → context s kind h ≡ Some x
        → AreFailing (λ i a. S.attests s.scheme i x a) (map vote_attestation (waiting D.PartialEq.eq s kind h)) failing
        → IsRight D.PartialEq.eq S.attests s h kind failing }
{}

/// A lawful history is consistent: what stands in the way of no accepted vote stands in the way of none that waits or
/// counts.
pub fn lawful_histories_are_consistent<S: Scheme<D>, D: Digest>()
    ensures { (s : Setup S) (h : History S D S.PublicKey S.Signature S.Certificate)
        → IsLawful D.PartialEq.eq S.attests s h
        → IsConsistent D.PartialEq.eq S.attests s h }
{}

/// A vote that no accepted one stands in the way of may be added.
pub fn what_is_new_may_be_added<S: Scheme<D>, D: Digest>()
    ensures { (s : Setup S) (h : History S D S.PublicKey S.Signature S.Certificate) (v : Vote S D S.PublicKey S.Signature S.Certificate)
        → IsNew s h v
        → MayBeAdded D.PartialEq.eq s h v }
{}
