//! A member by a file of its settings: the files that it names are opened.

ghost use Rattle.cli_settings.specs.Checking.{IsGood};

use cli_audit::{Trouble, report};
use cli_file::{fault_text, read_file};
use cli_member::{half_for, pair_over};
use cli_record::{hold_streams, record_at, second_path, written_into_either};
use cli_settings::Settings;
use cli_toml::{FileFault, Key, MemberFile};
use cli_tool::unopened;
use journal_single::FileDisk;
use simplex_node::{CountedReader, CountedWriter};
use std::fs::File;
use std::io::Write;
use types_codec::write_whole;

/// Runs the member whose settings are in the file at this path, and answers the status. Where `cuts`, all that stands behind its record's
/// last whole entry is cut; else no more than a crash leaves.
pub(crate) fn run_file(rt: &HostRuntime, path: &str, cuts: bool) -> u8 {
    let mut faults = rt.stderr();
    // Else replies might be written into the record.
    let Ok(_held) = hold_streams(rt) else {
        return unopened(&mut faults);
    };
    let read = match File::open(rt, path) {
        Ok(mut file) => read_file(rt.alloc(), &mut file, &mut faults),
        Err(_) => return unopened(&mut faults),
    };
    match read {
        Ok(file) => run_member(rt, &file, cuts),
        Err(status) => status,
    }
}

/// Runs the member of this file over the record that it names, and answers the status.
fn run_member(rt: &HostRuntime, file: &MemberFile, cuts: bool) -> u8
    requires { IsGood file.now.settings }
{
    match &file.record {
        Some(path) => run_over(rt, &file.settings, path, cuts),
        None => unnamed(rt),
    }
}

/// The status of a file that names no record, with the line of that.
fn unnamed(rt: &HostRuntime) -> u8 {
    let fault = FileFault::Missing(Key::Record);
    match fault_text(rt.alloc(), None, &fault) {
        Ok(line) => {
            let _ = write_whole(&mut rt.stderr(), &line);
            3
        }
        Err(_) => report(Err(Trouble::Memory), &mut rt.stderr()),
    }
}

/// One of the two disks of a record, in the file at this path, of which is said what was found. What can't be of this member's record,
/// and where not `cuts` also what a crash doesn't leave, stays as it is.
///
/// # Errors
///
/// The status, with words of why on `faults`.
fn half_at<F: Write>(
    rt: &HostRuntime,
    settings: &Settings,
    path: &str,
    cuts: bool,
    faults: &mut F,
) -> Result<FileDisk, u8>
    requires { IsGood settings.now }
{
    let mut disk = match record_at(rt.alloc(), rt, path, faults) {
        Ok(disk) => disk,
        Err(status) => return Err(status),
    };
    match half_for(rt.alloc(), settings, path, cuts, &mut disk, faults) {
        Ok(()) => Ok(disk),
        Err(status) => Err(status),
    }
}

/// Runs the member of these settings over the record in the files at this path and behind it, and answers the status.
fn run_over(rt: &HostRuntime, settings: &Settings, path: &str, cuts: bool) -> u8
    requires { IsGood settings.now }
{
    let mut faults = rt.stderr();
    let Ok(other) = second_path(rt.alloc(), path) else {
        return report(Err(Trouble::Memory), &mut faults);
    };
    // What is told of one file mustn't be written into the other.
    if let Some(status) = written_into_either(rt.alloc(), rt, path, other.as_str(), &mut faults) {
        return status;
    }
    let first = match half_at(rt, settings, path, cuts, &mut faults) {
        Ok(disk) => disk,
        Err(status) => return status,
    };
    let second = match half_at(rt, settings, other.as_str(), cuts, &mut faults) {
        Ok(disk) => disk,
        Err(status) => return status,
    };
    let mut input = CountedReader::new(rt.stdin());
    let mut output = CountedWriter::new(rt.stdout());
    let (status, disks) = pair_over(
        rt.alloc(),
        settings,
        first,
        second,
        &mut input,
        &mut output,
        &mut faults,
    );
    drop(disks);
    status
}
