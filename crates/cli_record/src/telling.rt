//! What is said of a record's file that no node is opened over.

ghost use Rattle.std.specs.Prelude.{◌≡◌, ◌≢◌};
ghost use Rattle.std.specs.IoError.{error_kind};
ghost use Rattle.std.specs.declared.io.ErrorKind.TheVariants.{OutOfMemory};
ghost use Rattle.cli_audit.specs.declared.trouble.Trouble.TheVariants.{Device, Memory};
ghost use Rattle.cli_record.specs.Telling.{TellsLeft, TellsUnopened, fault_of};

use cli_audit::{Trouble, report};
use cli_opening::{Barred, say_barred_by};
use simplex_cli::{Ending, tell};
use simplex_member::OpenFault;
use std::alloc::{AllocError, Global};
use std::io;
use std::io::Write;
use types_codec::write_whole;

/// The trouble that an error is whose file was not opened.
fn trouble_of(error: &io::Error) -> Trouble
    ensures memory { error_kind error.now ≡ OutOfMemory → result ≡ Memory }
    ensures device { error_kind error.now ≢ OutOfMemory → result ≡ Device }
{
    match error.kind() {
        io::ErrorKind::OutOfMemory => Trouble::Memory,
        _ => Trouble::Device,
    }
}

/// Ends the text with the words of why a file was not opened.
fn push_cause(text: &mut String, path: &str, error: &io::Error) -> Result<(), AllocError> {
    match error.kind() {
        io::ErrorKind::OutOfMemory => Ok(()),
        io::ErrorKind::WouldBlock => writeln!(
            text,
            "record: {path}: it is locked: another process has it open, and only one may"
        ),
        io::ErrorKind::InvalidInput => writeln!(
            text,
            "record: {path}: it is no file, but a folder, a device or a pipe"
        ),
        _ => writeln!(
            text,
            "record: {path}: it can't be opened, made or locked: {error}"
        ),
    }
}

/// Those words, or none where there is no memory for them.
fn cause_of(alloc: Global, path: &str, error: &io::Error) -> String {
    let mut words = String::new(alloc);
    match push_cause(&mut words, path, error) {
        Ok(()) => words,
        Err(_) => String::new(alloc),
    }
}

/// Tells why the record's file at this path was not opened, and answers the status.
pub fn unopened<F: Write>(alloc: Global, path: &str, error: &io::Error, faults: &mut F) -> u8
    ensures status { result ≡ 1 }
    ensures memory { error_kind error.now ≡ OutOfMemory → TellsUnopened Memory (F.contents faults.old) (F.contents faults.new) }
    ensures device { error_kind error.now ≢ OutOfMemory → TellsUnopened Device (F.contents faults.old) (F.contents faults.new) }
{
    let status = report(Err(trouble_of(error)), faults);
    let words = cause_of(alloc, path, error);
    let _ = write_whole(faults, words.as_bytes());
    status
}

/// The fault of an opening that a file is left for.
fn as_fault(barred: Barred) -> OpenFault
    ensures { result ≡ fault_of barred }
{
    match barred {
        Barred::Memory => OpenFault::Memory,
        Barred::Foreign(place) => OpenFault::Foreign(place),
        Barred::Unlawful(position) => OpenFault::Contradiction(position),
        Barred::Device | Barred::NoRecord | Barred::Unclosed(_) | Barred::Behind(_) => {
            OpenFault::Device
        }
    }
}

/// Tells why the file at this path is left as it is, behind the line of the fault that it is, and answers the status. What else may
/// have been said of its record is asked in these words.
pub fn left<F: Write>(alloc: Global, path: &str, asked: &str, barred: Barred, faults: &mut F) -> u8
    ensures status { result ≡ 1 }
    ensures told { TellsLeft path.now asked.now barred (F.contents faults.old) (F.contents faults.new) }
{
    let fault = Ending::Open(as_fault(barred));
    let status = tell(alloc, Err(fault), faults);
    say_barred_by(alloc, path, asked, barred, faults);
    status
}
