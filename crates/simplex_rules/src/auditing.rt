//! The audit of reports: whose votes contradict each other.

ghost use Rattle.std.specs.Prelude.{◌≡◌, ℕ, Option, ◌+◌, ◌++◌, ◌∷◌, [], List, IfOk, IfSome, IsErr, MatchBool};
ghost use Rattle.types_codec.specs.Codec.{Gives, Readable};
ghost use Rattle.types_quorum.specs.Committee.{faults};
ghost use Rattle.types_core.specs.declared.position.Round.{Round};
ghost use Rattle.simplex_messages.specs.declared.activity.Activity.{Activity};
ghost use Rattle.simplex_rules.specs.Accountability.{IsContradicted, NamesAtLeast};
ghost use Rattle.simplex_rules.specs.Audit.{IsAudit, IsRead, IsVerdict};
ghost use Rattle.simplex_rules.specs.Counted.{Counts, CountsOne, CountsRead};
ghost use Rattle.simplex_rules.specs.Survey.{AreSurveyed, HasGuilty, SurveysOne};
ghost use Rattle.simplex_rules.specs.Tally.{HoldsReports};

use crate::roster::Suspects;
use crate::survey::Survey;
use crate::tally::Tally;
use crate::verdict::Audit;
use simplex_messages::{Activity, Notarize};
use std::alloc::{AllocError, Global};
use types_core::{CodecError, Digest, Listing, Read, Write};

/// Finds the signers of which two verifying votes contradict each other, among the reports that the
/// bytes hold up to the first place where none stands. Loose votes count, both votes of
/// evidence, and one vote for each attestation that a certificate lists.
///
/// Evidence of two notarizes or two finalizes is of the least two proposals that the signer voted for
/// in the round, and of each the vote that was read first and verifies. A nullify is the first that
/// verifies, and the finalize beside it such a vote for the least proposal. Refused only where memory
/// is.
pub fn audit<S: Listing<D>, D: Digest>(
    alloc: Global,
    scheme: &S,
    bytes: &[u8],
) -> Result<Audit<S, D>, AllocError>
    ensures exact { IfOk result (λ a.
        IsAudit S.lists (S.attests scheme.now) D.cmp
        (Readable ⟦<Activity<S, D> as Write>⟧.fits (⟦<Activity<S, D> as Read>⟧.within (S.size scheme.now)))
        ⟦<Activity<S, D> as Write>⟧.spelling (⟦<Activity<S, D> as Read>⟧.reading (S.size scheme.now)) bytes.now a.evidence.items a.fault) }

    // Where certificates among the reports contradict each other, at least one member more is named than
    // may be faulty.
    ensures accountable { IfOk result (λ a.
        (reports : List (Activity S D S.PublicKey S.Signature S.Certificate))
        → IsVerdict S.lists (S.attests scheme.now) D.cmp reports a.evidence.items
        → (round : Round)
        → IsContradicted (S.certifies scheme.now) reports round
        → NamesAtLeast (faults (S.size scheme.now) + 1) (S.size scheme.now) a.evidence.items round) }
{
    let participants = scheme.participants();
    let (contested, fault) = contested(alloc, scheme, participants, bytes)?;
    let evidence = evidence_among(alloc, scheme, participants, &contested, bytes)?;
    Ok(Audit { evidence, fault })
}

/// Whose votes among the reports may contradict each other, and the place of the first byte at which no report
/// stands. An honest signer's don't, so few votes are left to be weighed, and the reports are read again in place
/// of being kept.
fn contested<S: Listing<D>, D: Digest>(
    alloc: Global,
    scheme: &S,
    participants: u32,
    bytes: &[u8],
) -> Result<(Suspects, Option<usize>), AllocError>
    requires bound { participants ≡ S.size scheme.now }
    ensures { IfOk result (λ found.
        Counts (HasGuilty S.lists (S.attests scheme.now))
        (Readable ⟦<Activity<S, D> as Write>⟧.fits (⟦<Activity<S, D> as Read>⟧.within (S.size scheme.now)))
        ⟦<Activity<S, D> as Write>⟧.spelling (⟦<Activity<S, D> as Read>⟧.reading (S.size scheme.now)) bytes.now found.1 found.0) }
{
    let mut survey: Survey<D> = Survey::new::<S>(alloc);
    let fault = survey_reports(alloc, scheme, participants, bytes, &mut survey)?;
    let contested = survey.into_contested(alloc)?;
    Ok((contested, fault))
}

/// The evidence against the guilty, who are among the contested. Where nobody is, the reports aren't read again.
fn evidence_among<S: Listing<D>, D: Digest>(
    alloc: Global,
    scheme: &S,
    participants: u32,
    contested: &Suspects,
    bytes: &[u8],
) -> Result<Vec<Activity<S, D>>, AllocError>
    requires bound { participants ≡ S.size scheme.now }
    ensures { IfOk result (λ evidence.
        (reports : List (Activity S D S.PublicKey S.Signature S.Certificate)) (fault : Option ℕ)
        → IsRead (Readable ⟦<Activity<S, D> as Write>⟧.fits (⟦<Activity<S, D> as Read>⟧.within (S.size scheme.now)))
        ⟦<Activity<S, D> as Write>⟧.spelling (⟦<Activity<S, D> as Read>⟧.reading (S.size scheme.now)) bytes.now reports fault
        → HasGuilty S.lists (S.attests scheme.now) reports contested.now
        → IsVerdict S.lists (S.attests scheme.now) D.cmp reports evidence.items) }
{
    if contested.as_slice().is_empty() {
        return Ok(Vec::new(alloc));
    }
    let mut tally = Tally::new(alloc);
    let _fault = count_reports(alloc, scheme, participants, contested, bytes, &mut tally)?;
    tally.evidence(alloc, scheme, contested)
}

/// Notes the votes of the reports, and tells the place of the first byte at which none stands.
fn survey_reports<S: Listing<D>, D: Digest>(
    alloc: Global,
    scheme: &S,
    participants: u32,
    bytes: &[u8],
    survey: &mut Survey<D>,
) -> Result<Option<usize>, AllocError>
    requires bound { participants ≡ S.size scheme.now }
    requires empty { AreSurveyed {S = S} {P = S.PublicKey} S.lists [] survey.old }
    ensures { IfOk result (λ fault.
        Counts (AreSurveyed {S = S} {P = S.PublicKey} S.lists)
        (Readable ⟦<Activity<S, D> as Write>⟧.fits (⟦<Activity<S, D> as Read>⟧.within (S.size scheme.now)))
        ⟦<Activity<S, D> as Write>⟧.spelling (⟦<Activity<S, D> as Read>⟧.reading (S.size scheme.now)) bytes.now fault survey.new) }
{
    let mut rest = bytes;
    while !rest.is_empty() {
        if !survey_next(alloc, scheme, participants, &mut rest, survey)? {
            return Ok(Some(bytes.len() - rest.len()));
        }
    }
    Ok(None)
}

/// Notes the votes of the next report, or tells that none stands there. Most reports are loose notarizes, whose tag is 0. Each is read as
/// such, since it would be laid down twice to become a report, which has room for the widest.
fn survey_next<S: Listing<D>, D: Digest>(
    alloc: Global,
    scheme: &S,
    participants: u32,
    rest: &mut &[u8],
    survey: &mut Survey<D>,
) -> Result<bool, AllocError>
    requires bound { participants ≡ S.size scheme.now }
    ensures { IfOk result (λ counted.
        MatchBool counted (CountsOne (AreSurveyed {S = S} {P = S.PublicKey} S.lists)
        (Readable ⟦<Activity<S, D> as Write>⟧.fits (⟦<Activity<S, D> as Read>⟧.within (S.size scheme.now)))
        ⟦<Activity<S, D> as Write>⟧.spelling rest.old.now rest.new.now survey.old survey.new) (IsErr
        (⟦<Activity<S, D> as Read>⟧.reading (S.size scheme.now) rest.old.now) × (rest.new.now ≡ rest.old.now) × (survey.new ≡ survey.old))) }
{
    match behind_notarize(rest) {
        Some(behind) => {
            let mut after = behind;
            let read: Result<Notarize<S, D>, CodecError> = next_message(
                alloc,
                &mut after,
                participants,
            );
            match &read {
                Ok(vote) => {
                    survey.note_notarize(vote)?;
                    *rest = after;
                    Ok(true)
                }
                Err(CodecError::Memory) => Err(AllocError),
                Err(_) => Ok(false),
            }
        }
        None => survey_report(alloc, scheme, participants, rest, survey),
    }
}

/// Notes the votes of the next report, of any kind, or tells that none stands there.
#[inline(never)]
fn survey_report<S: Listing<D>, D: Digest>(
    alloc: Global,
    scheme: &S,
    participants: u32,
    rest: &mut &[u8],
    survey: &mut Survey<D>,
) -> Result<bool, AllocError>
    requires bound { participants ≡ S.size scheme.now }
    ensures { IfOk result (λ counted.
        MatchBool counted (CountsOne (AreSurveyed {S = S} {P = S.PublicKey} S.lists)
        (Readable ⟦<Activity<S, D> as Write>⟧.fits (⟦<Activity<S, D> as Read>⟧.within (S.size scheme.now)))
        ⟦<Activity<S, D> as Write>⟧.spelling rest.old.now rest.new.now survey.old survey.new) (IsErr
        (⟦<Activity<S, D> as Read>⟧.reading (S.size scheme.now) rest.old.now) × (rest.new.now ≡ rest.old.now) × (survey.new ≡ survey.old))) }
{
    let read: Result<Activity<S, D>, CodecError> = next_message(alloc, rest, participants);
    let noted = survey_read(&read, survey);
    drop(read);
    noted
}

/// Notes the votes of the report that was read, or tells that none was.
fn survey_read<S: Listing<D>, D: Digest>(
    read: &Result<Activity<S, D>, CodecError>,
    survey: &mut Survey<D>,
) -> Result<bool, AllocError>
    ensures { IfOk result (CountsRead (AreSurveyed {S = S} {P = S.PublicKey} S.lists) read.now survey.old survey.new) }
{
    match read {
        Ok(report) => {
            survey.note_report(report)?;
            Ok(true)
        }
        Err(CodecError::Memory) => Err(AllocError),
        Err(_) => Ok(false),
    }
}

/// Counts the votes of the reports, and tells the place of the first byte at which none stands.
fn count_reports<S: Listing<D>, D: Digest>(
    alloc: Global,
    scheme: &S,
    participants: u32,
    contested: &Suspects,
    bytes: &[u8],
    tally: &mut Tally<S, D>,
) -> Result<Option<usize>, AllocError>
    requires bound { participants ≡ S.size scheme.now }
    requires empty { HoldsReports S.lists (S.attests scheme.now) D.cmp contested.now [] tally.old }
    ensures { IfOk result (λ fault.
        Counts (HoldsReports S.lists (S.attests scheme.now) D.cmp contested.now)
        (Readable ⟦<Activity<S, D> as Write>⟧.fits (⟦<Activity<S, D> as Read>⟧.within (S.size scheme.now)))
        ⟦<Activity<S, D> as Write>⟧.spelling (⟦<Activity<S, D> as Read>⟧.reading (S.size scheme.now)) bytes.now fault tally.new) }
{
    let mut rest = bytes;
    while !rest.is_empty() {
        if !count_next(alloc, scheme, participants, contested, &mut rest, tally)? {
            return Ok(Some(bytes.len() - rest.len()));
        }
    }
    Ok(None)
}

/// Counts the votes of the next report, or tells that none stands there. A loose notarize is read as such here too.
fn count_next<S: Listing<D>, D: Digest>(
    alloc: Global,
    scheme: &S,
    participants: u32,
    contested: &Suspects,
    rest: &mut &[u8],
    tally: &mut Tally<S, D>,
) -> Result<bool, AllocError>
    requires bound { participants ≡ S.size scheme.now }
    ensures { IfOk result (λ counted.
        MatchBool counted (CountsOne (HoldsReports S.lists (S.attests scheme.now) D.cmp contested.now)
        (Readable ⟦<Activity<S, D> as Write>⟧.fits (⟦<Activity<S, D> as Read>⟧.within (S.size scheme.now)))
        ⟦<Activity<S, D> as Write>⟧.spelling rest.old.now rest.new.now tally.old tally.new) (IsErr
        (⟦<Activity<S, D> as Read>⟧.reading (S.size scheme.now) rest.old.now) × (rest.new.now ≡ rest.old.now) × (tally.new ≡ tally.old))) }
{
    match behind_notarize(rest) {
        Some(behind) => {
            let mut after = behind;
            let read: Result<Notarize<S, D>, CodecError> = next_message(
                alloc,
                &mut after,
                participants,
            );
            match &read {
                Ok(vote) => {
                    tally.count_notarize(scheme, contested, vote)?;
                    *rest = after;
                    Ok(true)
                }
                Err(CodecError::Memory) => Err(AllocError),
                Err(_) => Ok(false),
            }
        }
        None => count_report(alloc, scheme, participants, contested, rest, tally),
    }
}

/// Counts the votes of the next report, of any kind, or tells that none stands there.
#[inline(never)]
fn count_report<S: Listing<D>, D: Digest>(
    alloc: Global,
    scheme: &S,
    participants: u32,
    contested: &Suspects,
    rest: &mut &[u8],
    tally: &mut Tally<S, D>,
) -> Result<bool, AllocError>
    requires bound { participants ≡ S.size scheme.now }
    ensures { IfOk result (λ counted.
        MatchBool counted (CountsOne (HoldsReports S.lists (S.attests scheme.now) D.cmp contested.now)
        (Readable ⟦<Activity<S, D> as Write>⟧.fits (⟦<Activity<S, D> as Read>⟧.within (S.size scheme.now)))
        ⟦<Activity<S, D> as Write>⟧.spelling rest.old.now rest.new.now tally.old tally.new) (IsErr
        (⟦<Activity<S, D> as Read>⟧.reading (S.size scheme.now) rest.old.now) × (rest.new.now ≡ rest.old.now) × (tally.new ≡ tally.old))) }
{
    let read = next_message(alloc, rest, participants);
    let counted = count_read(scheme, contested, &read, tally);
    drop(read);
    counted
}

/// Counts the votes of the report that was read, or tells that none was.
fn count_read<S: Listing<D>, D: Digest>(
    scheme: &S,
    contested: &Suspects,
    read: &Result<Activity<S, D>, CodecError>,
    tally: &mut Tally<S, D>,
) -> Result<bool, AllocError>
    ensures { IfOk result (CountsRead (HoldsReports S.lists (S.attests scheme.now) D.cmp contested.now) read.now tally.old tally.new) }
{
    match read {
        Ok(report) => {
            tally.count_report(scheme, contested, report)?;
            Ok(true)
        }
        Err(CodecError::Memory) => Err(AllocError),
        Err(_) => Ok(false),
    }
}

/// What stands behind the tag of a loose notarize, if that tag stands next.
#[inline(always)]
fn behind_notarize<'a>(bytes: &'a [u8]) -> Option<&'a [u8]>
    ensures { IfSome result (λ behind. bytes.now ≡ 0 ∷ behind.now) }
{
    match bytes {
        [0, behind @ ..] => Some(behind),
        _ => None,
    }
}

/// Reads one message, and tells that it can be read again and that what was read is its spelling. It is inlined, since a report that is
/// handed back is laid down once more.
#[inline(always)]
fn next_message<M: Read>(alloc: Global, input: &mut &[u8], bound: u32) -> Result<M, CodecError>
    ensures exact { Gives (M.reading bound) input.old.now input.new.now result }
    ensures fitting { IfOk result (Readable M.fits (M.within bound)) }
    ensures spelled { IfOk result (λ message. input.old.now ≡ M.spelling message ++ input.new.now) }
{
    M::read_cfg(alloc, input, bound)
}
