//! What is said of a record's file, on a line of its own.

ghost use Rattle.std.specs.Prelude.{◌≡◌, ◌++◌, OnOk, string_bytes};
ghost use Rattle.types_codec.specs.Front.{AppendsFront};
ghost use Rattle.cli_opening.specs.Saying.{barred_words, barred_words_by, found_words};

use crate::looking::{Barred, Found};
use std::alloc::{AllocError, Global};
use std::io::Write;
use types_codec::write_whole;

/// How the program is called, for a person who asks.
pub const HELP: &str =
    "usage: simplex COMMAND, under the plain scheme over the base simplex\n  audit COUNT                     who of COUNT members contradicts itself in reports on standard input, a line for each evidence\n  node RECORD INDEX COUNT         member INDEX of COUNT over the files RECORD and RECORD.2: events on standard input, replies on standard output\n  node RECORD INDEX COUNT --cut   the same; what stands behind the last whole entry of its record is cut, whatever it is\n  --help, --version\n";

/// Which version of the formats the program reads.
pub const VERSION: &str = "simplex: version 1 of the formats\n";

/// Says what is found in the record at this path.
#[tactic(auto, using(crate::proofs::Nothing::nothing_written))]
pub fn say_found<F: Write>(alloc: Global, path: &str, found: Found, faults: &mut F)
    ensures told { AppendsFront (F.contents faults.old) (F.contents faults.new) (found_words path.now found) }
{
    let mut text = String::new(alloc);
    if push_found(&mut text, path, found).is_ok() {
        let _ = write_whole(faults, text.as_bytes());
    }
}

/// Says why the file at this path is left as it is, where an index and a count were said.
pub fn say_barred<F: Write>(alloc: Global, path: &str, barred: Barred, faults: &mut F)
    ensures told { AppendsFront (F.contents faults.old) (F.contents faults.new) (barred_words path.now barred) }
{
    say_barred_by(alloc, path, "another INDEX or COUNT", barred, faults);
}

/// The same, where what else may have been said of its record is asked in these words.
#[tactic(auto, using(crate::proofs::Nothing::nothing_written))]
pub fn say_barred_by<F: Write>(
    alloc: Global,
    path: &str,
    asked: &str,
    barred: Barred,
    faults: &mut F,
)
    ensures told { AppendsFront (F.contents faults.old) (F.contents faults.new) (barred_words_by path.now asked.now barred) }
{
    let mut text = String::new(alloc);
    if push_barred(&mut text, path, asked, barred).is_ok() {
        let _ = write_whole(faults, text.as_bytes());
    }
}

/// Ends the text with the line of what is found.
#[tactic(auto, unfolding(crate::specs::Saying::found_words))]
fn push_found(text: &mut String, path: &str, found: Found) -> Result<(), AllocError>
    ensures { OnOk result (string_bytes text.new ≡ string_bytes text.old ++ found_words path.now found) }
{
    let Found {
        entries,
        reaches,
        finalized,
        cut,
    } = found;
    writeln!(
        text,
        "record: {path}: {entries} entries, up to view {reaches}, finalized up to view {finalized}; {cut} bytes behind them are left out"
    )
}

/// Ends the text with the words of why a file is left as it is.
#[tactic(auto, unfolding(crate::specs::Saying::barred_words_by))]
fn push_barred(text: &mut String, path: &str, asked: &str, barred: Barred) -> Result<(), AllocError>
    ensures { OnOk result (string_bytes text.new ≡ string_bytes text.old ++ barred_words_by path.now asked.now barred) }
{
    match barred {
        Barred::Memory => Ok(()),
        Barred::Device => writeln!(text, "record: {path}: it can't be read"),
        Barred::NoRecord => writeln!(
            text,
            "record: {path}: left as it is, since no record begins with its first byte; does the path name another file?"
        ),
        Barred::Foreign(place) => writeln!(
            text,
            "record: {path}: left as it is, since no artifact stands at byte {place}; does the path name another file?"
        ),
        Barred::Unlawful(position) => writeln!(
            text,
            "record: {path}: left as it is, since no record of this member has entry {position}, counted from 0; was it written with {asked}?"
        ),
        Barred::Unclosed(place) => writeln!(
            text,
            "record: {path}: left as it is, since its end is gone: no whole entry stands behind the gate at byte {place}, which isn't closed; --cut cuts there, and may take votes that were sent"
        ),
        Barred::Behind(place) => writeln!(
            text,
            "record: {path}: left as it is, since more than a crash leaves stands behind the gate at byte {place}; --cut cuts there, and may take votes that were sent"
        ),
    }
}
