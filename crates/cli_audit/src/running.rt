//! The program over any streams.

ghost use Rattle.std.specs.Prelude.{◌≡◌, ◌≢◌, ◌<◌, ◌⊎◌, None, Some, Ok, ℕ, IfSome, IfOk, IfErr, string_bytes};
ghost use Rattle.cli_audit.specs.Lines.{trouble_line};
ghost use Rattle.cli_audit.specs.Running.{AuditsOver, BreaksOff, IsAnswer};
ghost use Rattle.cli_audit.specs.declared.trouble.Trouble.{Trouble};
ghost use Rattle.cli_audit.specs.declared.trouble.Trouble.TheVariants.{Write};
ghost use Rattle.types_codec.specs.Front.{AppendsFront};

use crate::auditing::plain_audit;
use crate::input::read_all;
use crate::lines::text_of;
use crate::trouble::Trouble;
use std::alloc::{AllocError, Global};
use std::io::{Read, Write};
use types_codec::write_whole;

/// Audits the reports of `input` under the plain scheme of `count` members, and writes the lines of
/// the audit to `output`.
///
/// The status, and the line on `faults`, are [`report`] of what [`write_audit`] answers: 0 where the
/// input is whole reports, 3 where a place was named at which none stands, and 1, with the line of
/// the [`Trouble`], where there is no answer.
pub fn audit_over<R: Read, W: Write, F: Write>(
    alloc: Global,
    count: u16,
    input: &mut R,
    output: &mut W,
    faults: &mut F,
) -> u8
    requires { 0 < count }
    ensures statuses { (result ≡ 0) ⊎ ((result ≡ 1) ⊎ (result ≡ 3)) }
    ensures whole { result ≡ 0
        → IfSome (R.remaining input.old) (λ bytes. AuditsOver count bytes None (W.contents output.old) (W.contents output.new)) }
    ensures faulty { result ≡ 3
        → IfSome (R.remaining input.old)
        (λ bytes. (place : ℕ) × AuditsOver count bytes (Some place) (W.contents output.old) (W.contents output.new)) }
    ensures silent { result ≢ 1 → faults.new ≡ faults.old }

    // With status 1 the line of one trouble, or a front of it, stands on `faults`, and unless a write
    // failed the output is untouched.
    ensures troubled { result ≡ 1
        → (trouble : Trouble) × (trouble ≢ Write → output.new ≡ output.old) × AppendsFront (F.contents faults.old) (F.contents faults.new)
        (trouble_line trouble) }
    ensures broken_off { result ≡ 1
        → (output.new ≡ output.old) ⊎ IfSome (R.remaining input.old)
        (λ bytes. BreaksOff count bytes (W.contents output.old) (W.contents output.new)) }
{
    report(write_audit(alloc, count, input, output), faults)
}

/// Tells what came of an audit: answers the status, and writes the line of the trouble, if there is
/// one, to `faults`.
///
/// The status is 0 after a whole input, 3 after one with a fault, and 1 after a trouble. It is the
/// same where `faults` fails: then a front of the line may have been written.
pub fn report<F: Write>(outcome: Result<Option<usize>, Trouble>, faults: &mut F) -> u8
    ensures whole { outcome ≡ Ok None → result ≡ 0 }
    ensures faulty { (place : ℕ) → outcome ≡ Ok (Some place) → result ≡ 3 }
    ensures silent { IfOk outcome (λ _. faults.new ≡ faults.old) }
    ensures troubled { IfErr outcome (λ _. result ≡ 1) }
    ensures told { IfErr outcome (λ trouble. AppendsFront (F.contents faults.old) (F.contents faults.new) (trouble_line trouble)) }
{
    match outcome {
        Ok(None) => 0,
        Ok(Some(_)) => 3,
        Err(trouble) => {
            let _ = write_whole(faults, trouble.line().as_bytes());
            1
        }
    }
}

/// Audits the reports of `input` under the plain scheme of `count` members, writes the lines of the
/// audit to `output`, and answers the place, counted from 0, of the first byte at which no whole
/// report stands, if there is one.
///
/// # Errors
///
/// [`Trouble::Memory`] where memory ran out and [`Trouble::Device`] where a read failed, or the input
/// had not ended after 2^32 reads: then nothing was written. [`Trouble::Write`] where a write failed:
/// then a front of the lines may have been written.
pub fn write_audit<R: Read, W: Write>(
    alloc: Global,
    count: u16,
    input: &mut R,
    output: &mut W,
) -> Result<Option<usize>, Trouble>
    requires { 0 < count }
    ensures written { IfOk result
        (λ fault. IfSome (R.remaining input.old) (λ bytes. AuditsOver count bytes fault (W.contents output.old) (W.contents output.new))) }
    ensures unwritten { IfErr result (λ trouble. trouble ≢ Write → output.new ≡ output.old) }
    ensures broken_off { IfErr result (λ trouble.
        trouble ≡ Write → IfSome (R.remaining input.old) (λ bytes. BreaksOff count bytes (W.contents output.old) (W.contents output.new))) }
{
    let bytes = read_all(alloc, input)?;
    let (text, fault) = answer_to(alloc, count, bytes)?;
    if write_whole(output, text.as_bytes()).is_err() {
        return Err(Trouble::Write);
    }
    Ok(fault)
}

/// The lines of the audit of these bytes, and the place that it named. The bytes are given back before the lines are made, which may take
/// more room than they.
fn answer_to(
    alloc: Global,
    count: u16,
    bytes: Vec<u8>,
) -> Result<(String, Option<usize>), AllocError>
    requires { 0 < count }
    ensures { IfOk result (λ answer. IsAnswer count bytes.items answer.1 (string_bytes answer.0)) }
{
    let found = plain_audit(alloc, count, &bytes)?;
    drop(bytes);
    let text = text_of(alloc, &found)?;
    Ok((text, found.fault))
}
