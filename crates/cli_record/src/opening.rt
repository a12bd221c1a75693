//! The file of a record that is opened for a node.

ghost use Rattle.std.specs.Prelude.{◌≡◌, ◌++◌, codes, false, IfErr, IfOk, IfSome, IsNone, OnOk, string_bytes};

use crate::telling::unopened;
use cli_audit::{Trouble, report};
use journal_single::FileDisk;
use std::alloc::{AllocError, Global};
use std::fs::{self, File, OpenOptions};
use std::io;
use std::io::Write;
use std::os::unix::fs::{MetadataExt, OpenOptionsExt};
use std::rt::Files;
use types_codec::write_whole;

/// Three files that are open, in the places of standard streams that whoever called this had closed, if any: the next that is
/// opened is none of them. They can't be read or written, so whoever tries it is told.
pub fn hold_streams<R: Files<File = File>>(files: &R) -> io::Result<(File, File, File)> {
    let first = File::open(files, "/")?;
    let second = File::open(files, "/")?;
    let third = File::open(files, "/")?;
    Ok((first, second, third))
}

/// The disk in the file at this path, which is no folder, device or pipe. A file that has to be made is its owner's alone: whoever
/// can open it can lock it.
pub fn disk_at<R: Files<File = File>>(files: &R, path: &str) -> io::Result<FileDisk>
    ensures failures { IfOk result (λ disk. disk.failures ≡ 0) }
    ensures whole { IfOk result (λ disk. disk.broken ≡ false) }
{
    match fs::metadata(files, path) {
        Ok(found) if !found.is_file() => return Err(io::Error::from(io::ErrorKind::InvalidInput)),
        _ => {}
    }
    let made = OpenOptions::new()
        .read(true)
        .write(true)
        .create(true)
        .mode(0o600)
        .open(files, path)?;
    drop(made);
    FileDisk::open(files, path)
}

/// The path of the second file of a record: that of the first, and `.2` behind it.
pub fn second_path(alloc: Global, path: &str) -> Result<String, AllocError>
    ensures { IfOk result (λ second. string_bytes second ≡ path.now ++ codes ".2") }
{
    let mut second = String::new(alloc);
    second.push_str(path)?;
    second.push_str(".2")?;
    Ok(second)
}

/// Whether what stands at the first path is the file at the second.
fn is_same<R: Files<File = File>>(files: &R, stream: &str, path: &str) -> io::Result<bool> {
    let record = fs::metadata(files, path)?;
    let stream = fs::metadata(files, stream)?;
    Ok(record.dev() == stream.dev() && record.ino() == stream.ino())
}

/// The status where the record at this path is also a stream of this program: what is written there would end in it. Where it is
/// standard error, nothing can be told.
fn written_into<R: Files<File = File>, F: Write>(
    alloc: Global,
    files: &R,
    path: &str,
    faults: &mut F,
) -> Option<u8>
    ensures status { IfSome result (λ status. status ≡ 1) }
    ensures silent { IsNone result → faults.new ≡ faults.old }
{
    if let Ok(true) = is_same(files, "/dev/stderr", path) {
        return Some(1);
    }
    if let Ok(true) = is_same(files, "/dev/stdout", path) {
        let status = report(Err(Trouble::Write), faults);
        if let Ok(words) = format!(in alloc;
            "record: {path}: left as it is, since standard output is written into it\n"
        ) {
            let _ = write_whole(faults, words.as_bytes());
        }
        return Some(status);
    }
    None
}

/// The status where one of the two files of a record is also a stream of this program, with words of why on `faults` where that is in
/// neither of them: before the first is known to be apart from standard error, nothing may be told of the second.
pub fn written_into_either<R: Files<File = File>, F: Write>(
    alloc: Global,
    files: &R,
    path: &str,
    second: &str,
    faults: &mut F,
) -> Option<u8>
    ensures status { IfSome result (λ status. status ≡ 1) }
    ensures silent { IsNone result → faults.new ≡ faults.old }
{
    if let Ok(true) = is_same(files, "/dev/stderr", second) {
        return Some(1);
    }
    if let Some(status) = written_into(alloc, files, path, faults) {
        return Some(status);
    }
    written_into(alloc, files, second, faults)
}

/// The disk in the file of the record at this path.
///
/// # Errors
///
/// The status, with words of why on `faults` as far as it can be told, where the file is also a stream of this program, or can't be
/// opened, made or locked. Then it is as it was.
pub fn record_at<R: Files<File = File>, F: Write>(
    alloc: Global,
    files: &R,
    path: &str,
    faults: &mut F,
) -> Result<FileDisk, u8>
    ensures failures { IfOk result (λ disk. disk.failures ≡ 0) }
    ensures whole { IfOk result (λ disk. disk.broken ≡ false) }
    ensures silent { OnOk result (faults.new ≡ faults.old) }
    ensures status { IfErr result (λ status. status ≡ 1) }
{
    if let Some(status) = written_into(alloc, files, path, faults) {
        return Err(status);
    }
    match disk_at(files, path) {
        Ok(disk) => Ok(disk),
        Err(error) => Err(unopened(alloc, path, &error, faults)),
    }
}
