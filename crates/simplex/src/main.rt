//! `simplex audit COUNT` and `simplex node RECORD INDEX COUNT`: hands the program's words and streams to the libraries, and has the
//! two files of a record looked at before they are opened.
#![tactic(auto)]

ghost use Rattle.std.specs.Prelude.{◌<◌};

use cli_opening::{HELP, VERSION, look_over_half, say_found};
use cli_record::{hold_streams, left, record_at, second_path, unopened, written_into_either};
use journal_single::FileDisk;
use simplex_cli::{Command, Trouble, node_over, parse_words, report, run_words, words_unread};
use simplex_node::{CountedReader, CountedWriter, Disks};
use std::io::Write;
use std::process::ExitCode;
use std::{env, io};
use types_codec::write_whole;

/// What else may have been said of a record that isn't this member's.
const ASKED: &str = "another INDEX or COUNT";

/// The words after the program's name.
fn words(rt: &HostRuntime) -> io::Result<Vec<String>> {
    let words = env::args(rt)?.skip(1).collect(rt.alloc())?;
    Ok(words)
}

/// One of the two disks of a record, in the file at this path, of which is said what was found. What can't be of this member's record,
/// and where not `cuts` also what a crash doesn't leave, stays as it is.
///
/// # Errors
///
/// The status, with words of why on `faults`.
fn half_at<F: Write>(
    rt: &HostRuntime,
    path: &str,
    index: u16,
    count: u16,
    cuts: bool,
    faults: &mut F,
) -> Result<FileDisk, u8>
    requires { index < count }
{
    let mut disk = match record_at(rt.alloc(), rt, path, faults) {
        Ok(disk) => disk,
        Err(status) => return Err(status),
    };
    match look_over_half(rt.alloc(), &mut disk, index, count, cuts) {
        Ok(found) => {
            say_found(rt.alloc(), path, found, faults);
            Ok(disk)
        }
        Err(barred) => Err(left(rt.alloc(), path, ASKED, barred, faults)),
    }
}

/// Runs the member of this index, of so many, over the record in the files at this path and behind it, and answers the status. Where
/// `cuts`, all that stands behind the record's last whole entry is cut; else no more than a crash leaves.
fn run_node(rt: &HostRuntime, path: &str, index: u16, count: u16, cuts: bool) -> u8
    requires { index < count }
{
    let mut faults = rt.stderr();
    // Else replies might be written into the record.
    let _held = match hold_streams(rt) {
        Ok(held) => held,
        Err(error) => return unopened(rt.alloc(), path, &error, &mut faults),
    };
    let Ok(other) = second_path(rt.alloc(), path) else {
        return report(Err(Trouble::Memory), &mut faults);
    };
    // What is told of one file mustn't be written into the other.
    if let Some(status) = written_into_either(rt.alloc(), rt, path, other.as_str(), &mut faults) {
        return status;
    }
    let first = match half_at(rt, path, index, count, cuts, &mut faults) {
        Ok(disk) => disk,
        Err(status) => return status,
    };
    let second = match half_at(rt, other.as_str(), index, count, cuts, &mut faults) {
        Ok(disk) => disk,
        Err(status) => return status,
    };
    let mut input = CountedReader::new(rt.stdin());
    let mut output = CountedWriter::new(rt.stdout());
    node_over(
        rt.alloc(),
        Disks::Two(first, second),
        index,
        count,
        &mut input,
        &mut output,
        &mut faults,
    )
}

/// Writes a text to standard output, and answers the status.
fn told(rt: &HostRuntime, text: &str) -> u8 {
    match write_whole(&mut rt.stdout(), text.as_bytes()) {
        Ok(()) => 0,
        Err(_) => report(Err(Trouble::Write), &mut rt.stderr()),
    }
}

/// Runs the command that the words spell, and answers the status.
fn run(rt: &HostRuntime, words: &[String]) -> u8 {
    match words {
        [word] if word.as_str() == "--help" => return told(rt, HELP),
        [word] if word.as_str() == "--version" => return told(rt, VERSION),
        [command @ .., last] if last.as_str() == "--cut" => {
            if let Some(Command::Node { path, index, count }) = parse_words(command) {
                return run_node(rt, path, index, count, true);
            }
        }
        _ => {}
    }
    match parse_words(words) {
        Some(Command::Node { path, index, count }) => run_node(rt, path, index, count, false),
        _ => run_words(
            rt.alloc(),
            words,
            &mut rt.stdin(),
            &mut rt.stdout(),
            &mut rt.stderr(),
        ),
    }
}

fn main(rt: HostRuntime) -> ExitCode {
    let status = match words(&rt) {
        Ok(words) => run(&rt, &words),
        Err(error) => words_unread(&error, &mut rt.stderr()),
    };
    ExitCode::from(status)
}
