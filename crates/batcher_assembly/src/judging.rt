//! Judging the attestations of one statement.

ghost use Rattle.std.specs.Prelude.{◌≡◌, ◌↔◌, ◌≤◌, ◌<◌, ◌++◌, ℕ, List, None, true, length, All, Contains, IsTrue, IfOk, IfSome, MatchOption};
ghost use Rattle.std.specs.List.Sorted.{IsStrictlyIncreasing};
ghost use Rattle.types_core.specs.Quorum.{AreDistinct};
ghost use Rattle.types_core.specs.Subject.{statement};
ghost use Rattle.batcher_assembly.specs.Judging.{is_among, without, IsJudged, IsOneByOne, IsSound, IsWhole};

use std::alloc::{AllocError, Global};
use types_core::{
    AssemblyError, Attestation, Digest, Participant, Scheme, Signature, Subject,
    are_of_distinct_members,
};

/// What came of attestations that waited.
#[derive(Drop)]
pub struct Judged<C> {
    /// The certificate, where one was made.
    pub certificate: Option<C>,
    /// The signers whose attestations fail, ascending.
    pub invalid: Vec<Participant>,
    /// Whether the scheme was asked for a certificate at once and gave none.
    pub fallback: bool,
}

/// Whether the signer is one of these, which ascend.
pub fn is_listed(signers: &[Participant], signer: Participant) -> bool
    ensures { IsStrictlyIncreasing signers.now → result ≡ is_among signers.now signer }
{
    signers.binary_search(&signer).is_ok()
}

/// The verified attestations, and those of the waiting that are of none of these signers, which ascend.
fn backers<G: Signature>(
    alloc: Global,
    verified: &[Attestation<G>],
    waiting: &[Attestation<G>],
    invalid: &[Participant],
) -> Result<Vec<Attestation<G>>, AllocError>
    ensures { IfOk result (λ v. IsStrictlyIncreasing invalid.now → v.items ≡ verified.now ++ without invalid.now waiting.now) }
{
    let mut backers = Vec::from_slice(alloc, verified)?;
    for attestation in waiting {
        if !is_listed(invalid, attestation.signer) {
            backers.push(*attestation)?;
        }
    }
    Ok(backers)
}

/// The certificate of the attestations, where they are as many as needed, and of distinct members.
pub fn assemble_enough<S: Scheme<D>, D: Digest>(
    alloc: Global,
    scheme: &S,
    subject: &Subject<'_, D>,
    needed: usize,
    given: &[Attestation<S::Signature>],
) -> Result<Option<S::Certificate>, AllocError>
    ensures made { IfOk result (λ made.
        AreDistinct given.now
        → All (λ a. S.attests scheme.now a.signer (statement subject.now) a.signature) given.now
        → MatchOption made (length given.now < needed)
        (λ c. (needed ≤ length given.now) × IsWhole (S.certifies scheme.now (statement subject.now)) S.lists S.enumerates given.now c)) }
    ensures readable { IfOk result (λ made. IfSome made (λ c. S.Certificate.within (S.size scheme.now) c)) }
    ensures within { IfOk result (λ made. IfSome made (λ c. S.Certificate.within 65535 c)) }
{
    if given.len() < needed {
        return Ok(None);
    }
    if !are_of_distinct_members(alloc, scheme.participants(), given)? {
        return Ok(None);
    }
    match scheme.assemble(alloc, given) {
        Ok(certificate) => Ok(Some(certificate)),
        // A quorum at least is needed wherever it is asked for: too few never come here.
        Err(AssemblyError::Memory | AssemblyError::InsufficientAttestations(..)) => Err(AllocError),
    }
}

/// The certificate that a scheme makes of all at once, where it judges many at once.
fn assemble_at_once<S: Scheme<D>, D: Digest>(
    alloc: Global,
    scheme: &S,
    subject: &Subject<'_, D>,
    verified: &[Attestation<S::Signature>],
    waiting: &[Attestation<S::Signature>],
) -> Result<Option<S::Certificate>, AllocError>
    ensures batchable { IfOk result (λ made. IfSome made (λ c. S.batchable scheme.now ≡ true)) }
    ensures sound { IfOk result
        (λ made. IfSome made (λ c. IsSound (S.certifies scheme.now (statement subject.now)) S.lists (verified.now ++ waiting.now) c)) }
    ensures readable { IfOk result (λ made. IfSome made (λ c. S.Certificate.within (S.size scheme.now) c)) }
    ensures within { IfOk result (λ made. IfSome made (λ c. S.Certificate.within 65535 c)) }
    ensures declined { IfOk result (λ made.
        made ≡ None → S.batchable scheme.now ≡ true → S.may_decline scheme.now (statement subject.now) (verified.now ++ waiting.now)) }
{
    if !scheme.is_batchable() {
        return Ok(None);
    }
    let mut all = Vec::from_slice(alloc, verified)?;
    all.extend_from_slice(waiting)?;
    let made = scheme.optimistic_assemble(alloc, subject, &all)?;
    Ok(made)
}

/// Judges each of the waiting, where the scheme was asked for a certificate of all at once, if it judges many at once.
fn judge_each<S: Scheme<D>, D: Digest>(
    alloc: Global,
    scheme: &S,
    subject: &Subject<'_, D>,
    needed: usize,
    verified: &[Attestation<S::Signature>],
    waiting: &[Attestation<S::Signature>],
) -> Result<Judged<S::Certificate>, AllocError>
    requires declined { S.batchable scheme.now ≡ true → S.may_decline scheme.now (statement subject.now) (verified.now ++ waiting.now) }
    ensures verdict { IfOk result (λ judged.
        AreDistinct (verified.now ++ waiting.now)
        → All (λ a. S.attests scheme.now a.signer (statement subject.now) a.signature) verified.now
        → IsOneByOne (S.certifies scheme.now (statement subject.now)) S.lists (S.batchable scheme.now)
        (S.may_decline scheme.now (statement subject.now)) (λ i a. S.attests scheme.now i (statement subject.now) a) S.enumerates needed
        verified.now waiting.now judged) }
    ensures readable { IfOk result (λ judged. IfSome judged.certificate (λ c. S.Certificate.within (S.size scheme.now) c)) }
    ensures within { IfOk result (λ judged. IfSome judged.certificate (λ c. S.Certificate.within 65535 c)) }
{
    let invalid = scheme.verify_attestations(alloc, subject, waiting)?;
    let given = backers(alloc, verified, waiting, &invalid)?;
    let certificate = assemble_enough(alloc, scheme, subject, needed, &given)?;
    let fallback = scheme.is_batchable();
    Ok(Judged {
        certificate,
        invalid,
        fallback,
    })
}

/// Judges attestations of one statement that wait, beside those that are verified. A scheme that judges many at once is
/// asked for a certificate of all at once before each is judged.
pub fn judge<S: Scheme<D>, D: Digest>(
    alloc: Global,
    scheme: &S,
    subject: &Subject<'_, D>,
    needed: usize,
    verified: &[Attestation<S::Signature>],
    waiting: &[Attestation<S::Signature>],
) -> Result<Judged<S::Certificate>, AllocError>
    ensures verdict { IfOk result (λ judged.
        AreDistinct (verified.now ++ waiting.now)
        → All (λ a. S.attests scheme.now a.signer (statement subject.now) a.signature) verified.now
        → IsJudged (S.certifies scheme.now (statement subject.now)) S.lists (S.batchable scheme.now)
        (S.may_decline scheme.now (statement subject.now)) (λ i a. S.attests scheme.now i (statement subject.now) a) S.enumerates needed
        verified.now waiting.now judged) }
    ensures readable { IfOk result (λ judged. IfSome judged.certificate (λ c. S.Certificate.within (S.size scheme.now) c)) }
    ensures within { IfOk result (λ judged. IfSome judged.certificate (λ c. S.Certificate.within 65535 c)) }
{
    if let Some(certificate) = assemble_at_once(alloc, scheme, subject, verified, waiting)? {
        return Ok(Judged {
            certificate: Some(certificate),
            invalid: Vec::new(alloc),
            fallback: false,
        });
    }
    let judged = judge_each(alloc, scheme, subject, needed, verified, waiting)?;
    Ok(judged)
}
