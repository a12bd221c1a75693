//! A file of settings that is read from a stream, and told.

ghost use Rattle.std.specs.Prelude.{◌≡◌, ◌≢◌, ◌<◌, ◌≤◌, ◌⊎◌, IfErr, IfNone, IfOk, IfSome, OnOk, length};
ghost use Rattle.std.specs.Io.KnownBytes.{Appends};
ghost use Rattle.cli_settings.specs.Checking.{IsGood};
ghost use Rattle.cli_file.specs.Filed.{IsFile, TellsFault, TellsRefused, TellsSettings, TellsTrouble};
ghost use Rattle.cli_file.specs.Lines.{settings_lines};

use crate::placing::{fault_text, line_of_fault};
use crate::telling::settings_text;
use cli_audit::{InputError, Trouble, report};
use cli_toml::{FileFault, MemberFile, read_member};
use std::alloc::Global;
use std::io;
use std::io::{Read, Write};
use types_codec::write_whole;

/// The most bytes of a file of settings.
const MOST: usize = 65_536;

/// The most bytes that one read gives.
const PIECE: usize = 4_096;

/// The reads after which a file that has not ended is given up.
const MOST_READS: u64 = 131_072;

/// The bytes that the reader has left, or nothing where they are more than those of a file of settings.
fn read_text<R: Read>(alloc: Global, reader: &mut R) -> Result<Option<Vec<u8>>, InputError>
    ensures whole { IfOk result (λ found. IfSome found (λ all. IfSome (R.remaining reader.old) (λ bytes. all.items ≡ bytes))) }
    ensures long { IfOk result (λ found. IfNone found (IfSome (R.remaining reader.old) (λ bytes. 65536 < length bytes))) }
{
    let mut all = Vec::new(alloc);
    let mut piece = [0; PIECE];
    for _ in 0..MOST_READS {
        match reader.read(&mut piece) {
            Ok(0) => return Ok(Some(all)),
            Ok(count) => {
                all.extend_from_slice(&piece[..count])?;
                if all.len() > MOST {
                    return Ok(None);
                }
            }
            Err(error) if error.kind() == io::ErrorKind::Interrupted => {}
            Err(_) => return Err(InputError::Device),
        }
    }
    Err(InputError::Device)
}

/// What a file of settings says. Where it says none, a line on `faults` tells why, and the status is answered: 1 where memory ran
/// out or a read failed, else 3.
pub fn read_file<R: Read, F: Write>(
    alloc: Global,
    input: &mut R,
    faults: &mut F,
) -> Result<MemberFile, u8>
    ensures said { IfOk result (λ file. IfSome (R.remaining input.old) (λ bytes. IsFile bytes file)) }
    ensures good { IfOk result (λ file. IsGood file.settings) }
    ensures silent { OnOk result (faults.new ≡ faults.old) }
    ensures statuses { IfErr result (λ status. (status ≡ 1) ⊎ (status ≡ 3)) }
    ensures refused { IfErr result (λ status.
        status ≡ 3
        → IfSome (R.remaining input.old) (λ bytes. TellsRefused bytes (F.contents faults.old) (F.contents faults.new))) }
    ensures troubled { IfErr result (λ status. status ≡ 1 → TellsTrouble (F.contents faults.old) (F.contents faults.new)) }
{
    match read_text(alloc, input) {
        Ok(Some(text)) => read_bytes(alloc, &text, faults),
        Ok(None) => {
            let _ = write_whole(faults, b"fault: more than 65536 bytes\n");
            Err(3)
        }
        Err(InputError::Memory) => Err(report(Err(Trouble::Memory), faults)),
        Err(InputError::Device) => Err(report(Err(Trouble::Device), faults)),
    }
}

/// The same of its bytes.
#[tactic(auto, using(crate::proofs::Told::tells_refused))]
fn read_bytes<F: Write>(alloc: Global, text: &[u8], faults: &mut F) -> Result<MemberFile, u8>
    ensures said { IfOk result (IsFile text.now) }
    ensures good { IfOk result (λ file. IsGood file.settings) }
    ensures silent { OnOk result (faults.new ≡ faults.old) }
    ensures statuses { IfErr result (λ status. (status ≡ 1) ⊎ (status ≡ 3)) }
    ensures refused { IfErr result (λ status. status ≡ 3 → TellsRefused text.now (F.contents faults.old) (F.contents faults.new)) }
    ensures troubled { IfErr result (λ status. status ≡ 1 → TellsTrouble (F.contents faults.old) (F.contents faults.new)) }
{
    match read_member(alloc, text) {
        Ok(file) => Ok(file),
        Err(FileFault::Memory) => Err(report(Err(Trouble::Memory), faults)),
        Err(fault) => Err(tell_fault(alloc, text, &fault, faults)),
    }
}

/// Tells what is wrong with a file of this text, and answers the status.
#[tactic(auto, using(crate::proofs::Told::tells_fault))]
fn tell_fault<F: Write>(alloc: Global, text: &[u8], fault: &FileFault, faults: &mut F) -> u8
    ensures statuses { (result ≡ 1) ⊎ (result ≡ 3) }
    ensures told { result ≡ 3 → TellsFault text.now fault.now (F.contents faults.old) (F.contents faults.new) }
    ensures troubled { result ≡ 1 → TellsTrouble (F.contents faults.old) (F.contents faults.new) }
{
    match fault_text(alloc, line_of_fault(text, fault), fault) {
        Ok(line) => {
            let _ = write_whole(faults, &line);
            3
        }
        Err(_) => report(Err(Trouble::Memory), faults),
    }
}

/// Writes what a file of settings says to `output`, each key with its value, and answers the status: 0 where it was written, 1 where
/// memory ran out or a read or write failed, and 3 where the file says none; each but 0 with a line on `faults`.
pub fn tell_settings<R: Read, W: Write, F: Write>(
    alloc: Global,
    input: &mut R,
    output: &mut W,
    faults: &mut F,
) -> u8
    ensures statuses { (result ≡ 0) ⊎ ((result ≡ 1) ⊎ (result ≡ 3)) }
    ensures silent { result ≡ 0 → faults.new ≡ faults.old }
    ensures written { result ≡ 0
        → IfSome (R.remaining input.old) (λ bytes. TellsSettings bytes (W.contents output.old) (W.contents output.new)) }
    ensures unwritten { result ≡ 3 → output.new ≡ output.old }
    ensures refused { result ≡ 3
        → IfSome (R.remaining input.old) (λ bytes. TellsRefused bytes (F.contents faults.old) (F.contents faults.new)) }
    ensures troubled { result ≡ 1 → TellsTrouble (F.contents faults.old) (F.contents faults.new) }
{
    match read_file(alloc, input, faults) {
        Ok(file) => write_settings(alloc, &file, output, faults),
        Err(status) => status,
    }
}

/// Writes what a file says, and answers the status.
fn write_settings<W: Write, F: Write>(
    alloc: Global,
    file: &MemberFile,
    output: &mut W,
    faults: &mut F,
) -> u8
    ensures statuses { (result ≡ 0) ⊎ (result ≡ 1) }
    ensures silent { result ≡ 0 → faults.new ≡ faults.old }
    ensures written { result ≡ 0 → Appends (W.contents output.old) (W.contents output.new) (settings_lines file.now) }
    ensures troubled { result ≡ 1 → TellsTrouble (F.contents faults.old) (F.contents faults.new) }
{
    match settings_text(alloc, file) {
        Ok(text) => match write_whole(output, &text) {
            Ok(()) => 0,
            Err(_) => report(Err(Trouble::Write), faults),
        },
        Err(_) => report(Err(Trouble::Memory), faults),
    }
}
