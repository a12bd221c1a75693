//! The program over its words and streams.

ghost use Rattle.std.specs.Prelude.{◌≡◌, ◌≢◌, ◌⊎◌, ℕ, None, Some, IfSome, map, string_bytes};
ghost use Rattle.std.specs.IoError.{error_kind};
ghost use Rattle.std.specs.declared.io.ErrorKind.TheVariants.{OutOfMemory};
ghost use Rattle.cli_audit.specs.Command.{SpellsCommand};
ghost use Rattle.cli_audit.specs.Lines.{trouble_line, usage_line};
ghost use Rattle.cli_audit.specs.Running.{AuditsOver, BreaksOff};
ghost use Rattle.cli_audit.specs.declared.command.Command.{Command};
ghost use Rattle.cli_audit.specs.declared.command.Command.TheVariants.{Audit};
ghost use Rattle.cli_audit.specs.declared.trouble.Trouble.{Trouble};
ghost use Rattle.cli_audit.specs.declared.trouble.Trouble.TheVariants.{Memory, Write};
ghost use Rattle.types_codec.specs.Front.{AppendsFront};

use crate::command::{Command, USAGE, parse_words};
use crate::running::{audit_over, report};
use crate::trouble::Trouble;
use std::alloc::Global;
use std::io;
use std::io::{Read, Write};
use types_codec::write_whole;

/// Runs the command that the words after the program's name spell, and answers the status: 2, with
/// the usage on `faults`, where they spell none.
///
/// The command `node` wants a disk, and is run by another library: here it is answered as words that spell none.
pub fn run_words<R: Read, W: Write, F: Write>(
    alloc: Global,
    words: &[String],
    input: &mut R,
    output: &mut W,
    faults: &mut F,
) -> u8
    ensures refused { ((count : ℕ) → ¬ SpellsCommand (map string_bytes words.now) (Audit count)) → result ≡ 2 }
    ensures unread { result ≡ 2 → input.new ≡ input.old }
    ensures unwritten { result ≡ 2 → output.new ≡ output.old }
    ensures usage { result ≡ 2 → AppendsFront (F.contents faults.old) (F.contents faults.new) usage_line }

    // An audit answers as `audit_over` does.
    ensures audit { (count : ℕ) → SpellsCommand (map string_bytes words.now) (Audit count) → (result ≡ 0) ⊎ ((result ≡ 1) ⊎ (result ≡ 3)) }
    ensures whole { (count : ℕ)
        → SpellsCommand (map string_bytes words.now) (Audit count)
        → result ≡ 0
        → IfSome (R.remaining input.old) (λ bytes. AuditsOver count bytes None (W.contents output.old) (W.contents output.new)) }
    ensures faulty { (count : ℕ)
        → SpellsCommand (map string_bytes words.now) (Audit count)
        → result ≡ 3
        → IfSome (R.remaining input.old)
        (λ bytes. (place : ℕ) × AuditsOver count bytes (Some place) (W.contents output.old) (W.contents output.new)) }
    ensures silent { (count : ℕ) → SpellsCommand (map string_bytes words.now) (Audit count) → result ≢ 1 → faults.new ≡ faults.old }
    ensures troubled { result ≡ 1
        → (trouble : Trouble) × (trouble ≢ Write → output.new ≡ output.old) × AppendsFront (F.contents faults.old) (F.contents faults.new)
        (trouble_line trouble) }
    ensures broken_off { (count : ℕ)
        → SpellsCommand (map string_bytes words.now) (Audit count)
        → result ≡ 1
        → (output.new ≡ output.old) ⊎ IfSome (R.remaining input.old)
        (λ bytes. BreaksOff count bytes (W.contents output.old) (W.contents output.new)) }
{
    match parse_words(words) {
        Some(Command::Audit { count }) => audit_over(alloc, count, input, output, faults),
        Some(Command::Node { .. }) => usage(faults),
        None => usage(faults),
    }
}

/// The status where the words could not be read: 1, with a line on `faults`, where memory ran out,
/// and 2, with the usage, where one of them is no text.
pub fn words_unread<F: Write>(error: &io::Error, faults: &mut F) -> u8
    ensures memory { error_kind error.now ≡ OutOfMemory → result ≡ 1 }
    ensures usage { error_kind error.now ≢ OutOfMemory → result ≡ 2 }
    ensures memory_told { result ≡ 1 → AppendsFront (F.contents faults.old) (F.contents faults.new) (trouble_line Memory) }
    ensures usage_told { result ≡ 2 → AppendsFront (F.contents faults.old) (F.contents faults.new) usage_line }
{
    if error.kind() == io::ErrorKind::OutOfMemory {
        return report(Err(Trouble::Memory), faults);
    }
    usage(faults)
}

/// Writes how the program is called, and answers the status 2.
fn usage<F: Write>(faults: &mut F) -> u8
    ensures status { result ≡ 2 }
    ensures told { AppendsFront (F.contents faults.old) (F.contents faults.new) usage_line }
{
    let _ = write_whole(faults, USAGE.as_bytes());
    2
}
