//! What is answered to each request, about bytes that were read.

ghost use Rattle.std.specs.Prelude.{◌≡◌, ◌<◌, IfOk, string_bytes};
ghost use Rattle.std.specs.List.{flat_map};
ghost use Rattle.cli_tool.specs.ToolAnswers.{AreReports, IsAnswerTo, IsChecked, IsEvidence, IsRecordTold, IsSaid, lawful_line, refused_line};
ghost use Rattle.cli_tool.specs.Command.{IsAsked};

use crate::checking::{Checked, check_record};
use crate::command::{HELP, Request, VERSION};
use crate::dumping::{dumped_messages, foreign_line, lines_of};
use crate::parts::{push_end, push_kind, push_number};
use crate::reading::entries_of;
use crate::style::Style;
use cli_audit::plain_audit;
use journal_single::JournalFault;
use simplex_messages::Activity;
use simplex_record::Owner;
use simplex_types::PlainScheme;
use std::alloc::{AllocError, Global};
use types_core::{Epoch, Participant, Sha256Digest, TermLength, Write};

/// How many views a term of the program's members has.
const TERM: u32 = 4;

/// The bytes of values, one behind the other.
fn spelled<M: Write>(alloc: Global, values: &[M]) -> Result<Vec<u8>, AllocError>
    ensures { IfOk result (λ bytes. bytes.items ≡ flat_map M.spelling values.now) }
{
    let mut bytes = Vec::new(alloc);
    for value in values {
        value.append(&mut bytes)?;
    }
    Ok(bytes)
}

/// The evidence that an audit of these bytes finds, as reports, and the place of the first byte at which no whole report
/// stands, if there is one. Refused only where memory is.
pub fn evidence_in(
    alloc: Global,
    count: u16,
    bytes: &[u8],
) -> Result<(Vec<u8>, Option<usize>), AllocError>
    requires { 0 < count }
    ensures { IfOk result (λ answer. IsEvidence count bytes.now answer.0.items answer.1) }
{
    let found = plain_audit(alloc, count, bytes)?;
    let written = spelled(alloc, &found.evidence)?;
    Ok((written, found.fault))
}

/// The lines of the reports of a committee of so many that the bytes hold, then the line of the first byte at which none
/// stands, if there is one, and its place. Refused only where memory is.
pub fn dumped_reports(
    alloc: Global,
    style: Style,
    count: u16,
    bytes: &[u8],
) -> Result<(String, Option<usize>), AllocError>
    ensures { IfOk result (λ answer. AreReports style count bytes.now (string_bytes answer.0) answer.1) }
{
    dumped_messages::<Activity<PlainScheme, Sha256Digest>>(alloc, style, u32::from(count), bytes)
}

/// The lines of the record that the bytes hold; where an entry is foreign, the line of its place alone, and the place.
/// Refused only where memory is.
pub fn dumped_record(
    alloc: Global,
    style: Style,
    bytes: &[u8],
) -> Result<(String, Option<usize>), AllocError>
    ensures { IfOk result (λ answer. IsRecordTold style bytes.now (string_bytes answer.0) answer.1) }
{
    match entries_of(alloc, bytes) {
        Ok(entries) => Ok((lines_of(alloc, style, &entries)?, None)),
        Err(JournalFault::Foreign(place)) => {
            Ok((foreign_line(alloc, style, place)?, Some(place as usize)))
        }
        Err(_) => Err(AllocError),
    }
}

/// The line of a lawful record of so many entries.
fn lawful_text(alloc: Global, style: Style, entries: usize) -> Result<String, AllocError>
    ensures { IfOk result (λ text. string_bytes text ≡ lawful_line style entries) }
{
    let mut text = String::new(alloc);
    push_kind(&mut text, style, "lawful")?;
    push_number(&mut text, style, "entries", entries as u64)?;
    push_end(&mut text, style)?;
    Ok(text)
}

/// The line of a record whose first entry that may not stand there is this one.
fn refused_text(alloc: Global, style: Style, entry: usize) -> Result<String, AllocError>
    ensures { IfOk result (λ text. string_bytes text ≡ refused_line style entry) }
{
    let mut text = String::new(alloc);
    push_kind(&mut text, style, "refused")?;
    push_number(&mut text, style, "entry", entry as u64)?;
    push_end(&mut text, style)?;
    Ok(text)
}

/// Whether the bytes hold a lawful record of this member of so many: its line, and what it names, which is the first entry
/// that may not stand there, counted from 0, or the place of a foreign one. Refused only where memory is.
pub fn checked(
    alloc: Global,
    style: Style,
    index: u16,
    count: u16,
    bytes: &[u8],
) -> Result<(String, Option<usize>), AllocError>
    requires { 0 < count }
    ensures { IfOk result (λ answer. IsChecked style index count bytes.now (string_bytes answer.0) answer.1) }
{
    let owner = Owner {
        epoch: Epoch::new(0),
        term_length: TermLength::new(TERM),
        signer: Participant::new(u32::from(index)),
    };
    let found = check_record(alloc, count, owner, bytes)?;
    said(alloc, style, found)
}

/// The line of what was found of a record, and what it names.
fn said(alloc: Global, style: Style, found: Checked) -> Result<(String, Option<usize>), AllocError>
    ensures { IfOk result (λ answer. IsSaid style found (string_bytes answer.0) answer.1) }
{
    match found {
        Checked::Lawful { entries } => Ok((lawful_text(alloc, style, entries)?, None)),
        Checked::Refused { entry, .. } => Ok((refused_text(alloc, style, entry)?, Some(entry))),
        Checked::Foreign { place } => {
            Ok((foreign_line(alloc, style, place)?, Some(place as usize)))
        }
    }
}

/// The bytes of a text, and the place beside it.
fn in_bytes(answer: (String, Option<usize>)) -> (Vec<u8>, Option<usize>)
    ensures bytes { result.0.items ≡ string_bytes answer.0 }
    ensures place { result.1 ≡ answer.1 }
{
    let (text, place) = answer;
    (text.into_bytes(), place)
}

/// What is answered to a request about these bytes, and the place that is named, if there is one. Refused only where
/// memory is.
pub fn answer_to(
    alloc: Global,
    style: Style,
    request: Request<'_>,
    bytes: &[u8],
) -> Result<(Vec<u8>, Option<usize>), AllocError>
    requires { IsAsked request }
    ensures { IfOk result (λ answer. IsAnswerTo style request.entry bytes.now answer.0.items answer.1) }
{
    match request {
        Request::Evidence { count } => evidence_in(alloc, count, bytes),
        Request::Reports { count } => { Ok(in_bytes(dumped_reports(alloc, style, count, bytes)?)) }
        Request::Record { .. } => Ok(in_bytes(dumped_record(alloc, style, bytes)?)),
        Request::Check { index, count, .. } => {
            Ok(in_bytes(checked(alloc, style, index, count, bytes)?))
        }
        Request::Help => Ok((Vec::from_slice(alloc, HELP.as_bytes())?, None)),
        Request::Version => Ok((Vec::from_slice(alloc, VERSION.as_bytes())?, None)),
    }
}
