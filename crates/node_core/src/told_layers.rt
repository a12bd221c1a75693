//! What voter and repair learn of a certificate or a verdict.

ghost use Rattle.std.specs.Prelude.{◌≡◌, ◌≢◌, ◌∷◌, [], Bool, true, false, None, IfErr, OnOk, is_none};
ghost use Rattle.types_core.specs.Positions.{HasRoom};
ghost use Rattle.messages_certificates.specs.Certificate.{any_certificate_spelling, as_notarization, certificate_round, certificate_statement};
ghost use Rattle.messages_certificates.specs.declared.certificate.Certificate.{Certificate};
ghost use Rattle.simplex_messages.specs.declared.vote.Vote.{Vote};
ghost use Rattle.simplex_messages.specs.VoteParts.{vote_artifact, vote_round};
ghost use Rattle.types_terms.specs.Windows.{Retains};
ghost use Rattle.batcher_verifier.specs.History.{recorded};
ghost use Rattle.voter_history.specs.History.{notarized, nullified, finalized, nullification, seen};
ghost use Rattle.voter_history.specs.Past as past;
ghost use Rattle.simplex_state.specs.State as voting;
ghost use Rattle.simplex_resolver.specs.Keeps as repairing;
ghost use Rattle.simplex_resolver.specs.RepairHistory.{Judged, item_of};
ghost use Rattle.simplex_member.specs.declared.fault.NodeFault.TheVariants as step_fault;
ghost use Rattle.simplex_member.specs.Allowed.{AreAllowed};
ghost use Rattle.simplex_member.specs.Laws.{IsExact};
ghost use Rattle.simplex_member.specs.Layers.{finalized_of, given, voter_of, votes_of};
ghost use Rattle.simplex_member.specs.Packet.{Formats};
ghost use Rattle.simplex_member.specs.Point.{Found, History, Votes};
ghost use Rattle.simplex_member.specs.Refusals.{HasNoneLike};
ghost use Rattle.simplex_member.specs.Setup.{Setup};
ghost use Rattle.node_core.specs.Learning.{IsUnknown};

use messages_certificates::{Certificate, Finalization, Notarization, Nullification};
use simplex_member::{NodeFault, voters_are_orderly, voters_tell_the_record, votes_are_lawful};
use simplex_resolver::State as Repair;
use simplex_state::State as Voter;
use std::alloc::{AllocError, Global};
use types_core::{Digest, Duplicate, Scheme};
use types_terms::Elector;
use voter_laws::{what_is_known_is_recorded, what_is_recorded_is_known};

/// Of a kind and view of which no certificate is recorded the voter knows none.
pub fn what_is_not_recorded_is_unknown<S: Scheme<D>, D: Digest>()
    ensures { (f : Formats S D S.PublicKey S.Signature S.Certificate) (s : Setup S D S.Certificate)
        (h : History S D S.PublicKey S.Signature S.Certificate) (c : Certificate S D S.PublicKey S.Signature S.Certificate)
        → AreAllowed S.Scheme f s h
        → h ≢ []
        → HasNoneLike S.Scheme f s h (certificate_statement c)
        → IsUnknown s.voter (voter_of s h) c }
{
    voters_are_orderly::<S, D>();
    voters_tell_the_record::<S, D>();
    what_is_known_is_recorded::<S, D>();
    what_is_recorded_is_known::<S, D>();
}

/// Where the voter knows no certificate of a kind and a view that it keeps, none is recorded.
pub fn what_is_unknown_is_not_recorded<S: Scheme<D>, D: Digest>()
    ensures { (f : Formats S D S.PublicKey S.Signature S.Certificate) (s : Setup S D S.Certificate)
        (h : History S D S.PublicKey S.Signature S.Certificate) (c : Certificate S D S.PublicKey S.Signature S.Certificate)
        → AreAllowed S.Scheme f s h
        → h ≢ []
        → Retains (finalized_of s h) s.voter.retention (certificate_round c).view
        → IsUnknown s.voter (voter_of s h) c
        → HasNoneLike S.Scheme f s h (certificate_statement c) }
{
    voters_are_orderly::<S, D>();
    voters_tell_the_record::<S, D>();
    what_is_known_is_recorded::<S, D>();
    what_is_recorded_is_known::<S, D>();
}

/// No vote that was accepted stands in the way of an own one that comes next, from the record or newly made, of a view with room.
pub fn own_votes_come_free<S: Scheme<D>, D: Digest>()
    ensures found { (f : Formats S D S.PublicKey S.Signature S.Certificate) (s : Setup S D S.Certificate)
        (h : History S D S.PublicKey S.Signature S.Certificate) (v : Vote S D S.PublicKey S.Signature S.Certificate) (taken : Bool)
        → IsExact f
        → AreAllowed S.Scheme f s (Found (vote_artifact v) taken ∷ h)
        → HasRoom s.voter.length (vote_round v).view
        → is_none (recorded (votes_of s h (vote_round v).view) v) ≡ true }
    ensures made { (f : Formats S D S.PublicKey S.Signature S.Certificate) (s : Setup S D S.Certificate)
        (h : History S D S.PublicKey S.Signature S.Certificate) (v : Vote S D S.PublicKey S.Signature S.Certificate)
        → IsExact f
        → AreAllowed S.Scheme f s (Votes v ∷ h)
        → HasRoom s.voter.length (vote_round v).view
        → is_none (recorded (votes_of s h (vote_round v).view) v) ≡ true }
{
    votes_are_lawful::<S, D>();
}

/// Gives the voter a notarization, of whose view it knows none.
fn give_notarization<S: Scheme<D> + Drop, L: Elector<S, D>, D: Digest>(
    alloc: Global,
    certificate: &Notarization<S, D>,
    voter: &mut Voter<S, L, D>,
) -> Result<(), AllocError>
    ensures { OnOk result (voting.AtEach S.Scheme L.Elector voter.old (λ s h.
        HasRoom s.length certificate.now.proposal.round.view
        → past.notarization (seen s h certificate.now.proposal.round.view) ≡ None
        → voting.Keeps S.Scheme L.Elector s voter.new (notarized certificate.now ∷ h))) }
{
    let copy = certificate.duplicate(alloc)?;
    let _ = voter.add_notarization(copy)?;
    Ok(())
}

/// Gives the voter a nullification, of whose view it knows none.
fn give_nullification<S: Scheme<D> + Drop, L: Elector<S, D>, D: Digest>(
    alloc: Global,
    now: u64,
    certificate: &Nullification<S, D>,
    voter: &mut Voter<S, L, D>,
) -> Result<(), AllocError>
    ensures { OnOk result (voting.AtEach S.Scheme L.Elector voter.old (λ s h.
        HasRoom s.length certificate.now.round.view
        → nullification s h certificate.now.round.view ≡ None
        → voting.Keeps S.Scheme L.Elector s voter.new (nullified now certificate.now ∷ h))) }
{
    let copy = certificate.duplicate(alloc)?;
    let _ = voter.add_nullification(now, copy)?;
    Ok(())
}

/// Gives the voter a finalization, of whose view it knows none.
fn give_finalization<S: Scheme<D> + Drop, L: Elector<S, D>, D: Digest>(
    alloc: Global,
    now: u64,
    certificate: &Finalization<S, D>,
    voter: &mut Voter<S, L, D>,
) -> Result<(), AllocError>
    ensures { OnOk result (voting.AtEach S.Scheme L.Elector voter.old (λ s h.
        HasRoom s.length certificate.now.proposal.round.view
        → past.finalization (seen s h certificate.now.proposal.round.view) ≡ None
        → voting.Keeps S.Scheme L.Elector s voter.new (finalized now certificate.now ∷ h))) }
{
    let copy = certificate.duplicate(alloc)?;
    let _ = voter.add_finalization(now, copy)?;
    Ok(())
}

/// Gives the voter a certificate, of whose kind and view it knows none.
///
/// # Errors
///
/// `AllocError` where memory ran out.
pub fn give<S: Scheme<D> + Drop, L: Elector<S, D>, D: Digest>(
    alloc: Global,
    now: u64,
    certificate: &Certificate<S, D>,
    voter: &mut Voter<S, L, D>,
) -> Result<(), AllocError>
    ensures { OnOk result (voting.AtEach S.Scheme L.Elector voter.old (λ s h.
        HasRoom s.length (certificate_round certificate.now).view
        → IsUnknown s h certificate.now
        → voting.Keeps S.Scheme L.Elector s voter.new (given now certificate.now ∷ h))) }
{
    match certificate {
        Certificate::Notarization(notarization) => give_notarization(alloc, notarization, voter),
        Certificate::Nullification(nullification) => {
            give_nullification(alloc, now, nullification, voter)
        }
        Certificate::Finalization(finalization) => {
            give_finalization(alloc, now, finalization, voter)
        }
    }
}

/// Whether the voter knows a certificate of this one's kind and view.
pub fn knows_like<S: Scheme<D> + Drop, L: Elector<S, D>, D: Digest>(
    voter: &Voter<S, L, D>,
    certificate: &Certificate<S, D>,
) -> bool
    ensures known { result ≡ true → voting.AtEach S.Scheme L.Elector voter.now (λ s h. ¬ IsUnknown s h certificate.now) }
    ensures unknown { result ≡ false → voting.AtEach S.Scheme L.Elector voter.now (λ s h. IsUnknown s h certificate.now) }
{
    let views = voter.views();
    match certificate {
        Certificate::Notarization(notarization) => {
            views
                .notarization(notarization.proposal.round.view)
                .is_some()
        }
        Certificate::Nullification(nullification) => {
            views.nullification(nullification.round.view).is_some()
        }
        Certificate::Finalization(finalization) => {
            views
                .finalization(finalization.proposal.round.view)
                .is_some()
        }
    }
}

/// Tells the repair of a certificate of a view with room.
///
/// # Errors
///
/// [`NodeFault::Memory`].
pub fn update_repair<S: Scheme<D>, D: Digest>(
    alloc: Global,
    certificate: &Certificate<S, D>,
    repair: &mut Repair,
) -> Result<(), NodeFault>
    ensures told { OnOk result (repairing.AtEach repair.old (λ views h.
        HasRoom views (certificate_round certificate.now).view
        → repairing.Keeps views repair.new (item_of (any_certificate_spelling D.spelling S.Certificate.spelling) certificate.now ∷ h))) }
    ensures fault { IfErr result (λ why. why ≡ step_fault.Memory) }
{
    let Ok(_) = repair.updated(alloc, certificate) else {
        return Err(NodeFault::Memory);
    };
    Ok(())
}

/// Tells the repair of a verdict on a notarization of a view with room.
///
/// # Errors
///
/// [`NodeFault::Memory`].
pub fn judge_repair<S: Scheme<D>, D: Digest>(
    alloc: Global,
    notarization: Notarization<S, D>,
    ok: bool,
    repair: &mut Repair,
) -> Result<(), NodeFault>
    ensures told { OnOk result (repairing.AtEach repair.old (λ views h.
        HasRoom views notarization.proposal.round.view
        → repairing.Keeps views repair.new (Judged notarization.proposal.round.view
        (any_certificate_spelling D.spelling S.Certificate.spelling (as_notarization notarization)) ok ∷ h))) }
    ensures fault { IfErr result (λ why. why ≡ step_fault.Memory) }
{
    let Ok(_) = repair.certified(alloc, notarization, ok) else {
        return Err(NodeFault::Memory);
    };
    Ok(())
}
