//! The program over any streams.

ghost use Rattle.std.specs.Prelude.{◌≡◌, ◌≢◌, ◌⊎◌, None, Some, Ok, ℕ, IfSome, IfOk, IfErr};
ghost use Rattle.cli_audit.specs.Lines.{trouble_line};
ghost use Rattle.cli_audit.specs.declared.trouble.Trouble.{Trouble};
ghost use Rattle.cli_audit.specs.declared.trouble.Trouble.TheVariants.{Device, Memory, Write};
ghost use Rattle.types_codec.specs.Front.{AppendsFront};
ghost use Rattle.std.specs.IoError.{error_kind};
ghost use Rattle.std.specs.declared.io.ErrorKind.TheVariants.{OutOfMemory};
ghost use Rattle.cli_tool.specs.ToolAnswers.{AnswersOver, BreaksOff, NeedsInput};
ghost use Rattle.cli_tool.specs.Command.{IsAsked, help_text};

use crate::answers::answer_to;
use crate::command::{Call, HELP, Request};
use cli_audit::{InputError, Trouble, read_all, report};
use std::alloc::Global;
use std::io;
use std::io::{Read, Write};
use types_codec::write_whole;

/// The bytes that a request is about: nothing is read where it is about none.
fn asked_about<R: Read>(
    alloc: Global,
    request: Request<'_>,
    input: &mut R,
) -> Result<Vec<u8>, InputError>
    ensures { IfOk result (λ all. NeedsInput request.entry → IfSome (R.remaining input.old) (λ bytes. all.items ≡ bytes)) }
{
    match request {
        Request::Help | Request::Version => Ok(Vec::new(alloc)),
        _ => read_all(alloc, input),
    }
}

/// Answers a call about the bytes of `input` on `output`, and tells the place that the answer names, if there is one.
///
/// # Errors
///
/// [`Trouble::Memory`] where memory ran out and [`Trouble::Device`] where a read failed, or the input had not ended after
/// 2^32 reads: then nothing was written. [`Trouble::Write`] where a write failed: then a front of the answer may have been
/// written.
pub fn write_answer<R: Read, W: Write>(
    alloc: Global,
    call: Call<'_>,
    input: &mut R,
    output: &mut W,
) -> Result<Option<usize>, Trouble>
    requires { IsAsked call.request }
    ensures written { IfOk result (λ named.
        IfSome (R.remaining input.old) (λ bytes. AnswersOver call.entry bytes named (W.contents output.old) (W.contents output.new))) }
    ensures unwritten { IfErr result (λ trouble. trouble ≢ Write → output.new ≡ output.old) }
    ensures broken_off { IfErr result (λ trouble.
        trouble ≡ Write
        → IfSome (R.remaining input.old) (λ bytes. BreaksOff call.entry bytes (W.contents output.old) (W.contents output.new))) }
{
    let bytes = asked_about(alloc, call.request, input)?;
    let (text, named) = answer_to(alloc, call.style, call.request, &bytes)?;
    if write_whole(output, &text).is_err() {
        return Err(Trouble::Write);
    }
    Ok(named)
}

/// Answers a call about the bytes of `input` on `output`, and gives the status: 0 where no place was named, 3 where one
/// was, and 1, with the line of the trouble on `faults`, where there is no answer.
pub fn run_request<R: Read, W: Write, F: Write>(
    alloc: Global,
    call: Call<'_>,
    input: &mut R,
    output: &mut W,
    faults: &mut F,
) -> u8
    requires { IsAsked call.request }
    ensures statuses { (result ≡ 0) ⊎ ((result ≡ 1) ⊎ (result ≡ 3)) }
    ensures whole { result ≡ 0
        → IfSome (R.remaining input.old) (λ bytes. AnswersOver call.entry bytes None (W.contents output.old) (W.contents output.new)) }
    ensures named { result ≡ 3
        → IfSome (R.remaining input.old)
        (λ bytes. (place : ℕ) × AnswersOver call.entry bytes (Some place) (W.contents output.old) (W.contents output.new)) }
    ensures silent { result ≢ 1 → faults.new ≡ faults.old }
    ensures troubled { result ≡ 1
        → (trouble : Trouble) × (trouble ≢ Write → output.new ≡ output.old) × AppendsFront (F.contents faults.old) (F.contents faults.new)
        (trouble_line trouble) }
{
    report(write_answer(alloc, call, input, output), faults)
}

/// The status where the words are no call: 2, with how the program is called on `faults`.
pub fn misused<F: Write>(faults: &mut F) -> u8
    ensures status { result ≡ 2 }
    ensures told { AppendsFront (F.contents faults.old) (F.contents faults.new) help_text }
{
    let _ = write_whole(faults, HELP.as_bytes());
    2
}

/// The status where the words could not be read: 1, with a line on `faults`, where memory ran out, and 2, with how the
/// program is called, where one of them is no text.
pub fn words_unread<F: Write>(error: &io::Error, faults: &mut F) -> u8
    ensures memory { error_kind error.now ≡ OutOfMemory → result ≡ 1 }
    ensures usage { error_kind error.now ≢ OutOfMemory → result ≡ 2 }
    ensures memory_told { result ≡ 1 → AppendsFront (F.contents faults.old) (F.contents faults.new) (trouble_line Memory) }
    ensures usage_told { result ≡ 2 → AppendsFront (F.contents faults.old) (F.contents faults.new) help_text }
{
    if error.kind() == io::ErrorKind::OutOfMemory {
        return report(Err(Trouble::Memory), faults);
    }
    misused(faults)
}

/// The status where the file that is asked about can't be opened: 1, with the line of a device on `faults`.
pub fn unopened<F: Write>(faults: &mut F) -> u8
    ensures status { result ≡ 1 }
    ensures told { AppendsFront (F.contents faults.old) (F.contents faults.new) (trouble_line Device) }
{
    report(Err(Trouble::Device), faults)
}
