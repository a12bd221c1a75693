//! What is wrong with a file of settings, as a line of text.

ghost use Rattle.std.specs.Prelude.{◌≡◌, ◌++◌, IfOk, IfSome, OnOk, codes, map};
ghost use Rattle.cli_file.specs.Lines.{Tells, config_key, key_of, no_toml_line, place_line, place_words, range_words, shown_byte, told_name};
ghost use Rattle.cli_file.specs.Placing.{IsLineOf};
ghost use Rattle.cli_toml.specs.Keys.{key_name};

use crate::finding::line_of_key;
use crate::telling::is_hidden;
use cli_settings::SettingsFault;
use cli_toml::{FileFault, Key};
use std::alloc::{AllocError, Global};
use voter_rules::config::ConfigFault;

/// The line of the text where the key stands that the fault is about, counted from 1, if it is found.
pub fn line_of_fault(text: &[u8], fault: &FileFault) -> Option<usize>
    ensures { IfSome result (λ line. IsLineOf (told_name fault.now) line text.now) }
{
    match fault {
        FileFault::Memory => None,
        FileFault::NoToml(_, _) => None,
        FileFault::Unknown(name) => line_of_key(text, name.as_bytes()),
        FileFault::Missing(key) => line_of_key(text, key.name().as_bytes()),
        FileFault::Unfit(key) => line_of_key(text, key.name().as_bytes()),
        FileFault::Settings(fault) => line_of_key(text, about(*fault).name().as_bytes()),
    }
}

/// The line of what is wrong with a file, where this is the line of its text at which the key stands.
#[tactic(auto, using(crate::proofs::Told::tells_no_toml))]
pub fn fault_text(
    alloc: Global,
    line: Option<usize>,
    fault: &FileFault,
) -> Result<Vec<u8>, AllocError>
    ensures { IfOk result (λ text. Tells line fault.now text.items) }
{
    match fault {
        FileFault::Memory => Vec::from_slice(alloc, b"error: memory\n"),
        FileFault::NoToml(error, line) => unread(alloc, *line, error.message()),
        FileFault::Unknown(name) => placed(alloc, line, name, "no such key"),
        FileFault::Missing(key) => placed(alloc, line, key.name(), "missing"),
        FileFault::Unfit(key) => placed(alloc, line, key.name(), range_of(*key)),
        FileFault::Settings(fault) => { placed(alloc, line, about(*fault).name(), fault.name()) }
    }
}

/// The line of a place that is no TOML.
#[tactic(auto, unfolding(crate::specs::Lines::no_toml_line))]
fn unread(alloc: Global, line: usize, why: &str) -> Result<Vec<u8>, AllocError>
    ensures { IfOk result (λ text. text.items ≡ no_toml_line line why.now) }
{
    let line = format!(in alloc; "fault at line {line}: no TOML: {why}\n")?;
    Vec::from_slice(alloc, line.as_bytes())
}

/// The line of a name, and why it is refused.
#[tactic(auto, unfolding(crate::specs::Lines::place_line))]
fn placed(alloc: Global, line: Option<usize>, name: &str, why: &str) -> Result<Vec<u8>, AllocError>
    ensures { IfOk result (λ text. text.items ≡ place_line line name.now why.now) }
{
    let mut text = front(alloc, line)?;
    push_shown(&mut text, name.as_bytes())?;
    text.extend_from_slice(b": ")?;
    text.extend_from_slice(why.as_bytes())?;
    text.extend_from_slice(b"\n")?;
    Ok(text)
}

/// What the line begins with.
fn front(alloc: Global, line: Option<usize>) -> Result<Vec<u8>, AllocError>
    ensures { IfOk result (λ text. text.items ≡ place_words line) }
{
    match line {
        Some(line) => {
            let words = format!(in alloc; "fault at line {line}: ")?;
            Vec::from_slice(alloc, words.as_bytes())
        }
        None => Vec::from_slice(alloc, b"fault: "),
    }
}

/// The byte as a line shows it.
fn shown(byte: u8) -> u8
    ensures { result ≡ shown_byte byte }
{
    if is_hidden(byte) { b'?' } else { byte }
}

/// Ends the text with a name, as a line shows it.
fn push_shown(text: &mut Vec<u8>, name: &[u8]) -> Result<(), AllocError>
    ensures { OnOk result (text.new.items ≡ text.old.items ++ map shown_byte name.now) }
{
    for byte in name {
        text.extend_from_slice(&[shown(*byte)])?;
    }
    Ok(())
}

/// The key whose value a fault is about.
fn about(fault: SettingsFault) -> Key
    ensures { result ≡ key_of fault }
{
    match fault {
        SettingsFault::Config(fault) => about_config(fault),
        SettingsFault::TermLengthZero => Key::TermLength,
        SettingsFault::StallTimeoutZero => Key::StallTimeout,
        SettingsFault::BaseTooLong => Key::Base,
        SettingsFault::SeedTooLong => Key::Seed,
        SettingsFault::NoSuchMember => Key::Member,
        SettingsFault::TooManyOptimistic => Key::OptimisticViews,
    }
}

/// The key whose value a configuration's fault is about.
fn about_config(fault: ConfigFault) -> Key
    ensures { result ≡ config_key fault }
{
    match fault {
        ConfigFault::NoParticipants | ConfigFault::TooManyParticipants => Key::Members,
        ConfigFault::LeaderTimeoutZero => Key::LeaderTimeout,
        ConfigFault::CertificationNotAboveLeader => Key::CertificationTimeout,
        ConfigFault::SkipNotAboveCertification => Key::SkipTimeout,
        ConfigFault::SkipNotAboveRetry => Key::SkipTimeout,
        ConfigFault::RetryZero => Key::RetryTimeout,
        ConfigFault::RetentionZero => Key::Retention,
    }
}

/// What a key can have.
fn range_of(key: Key) -> &'static str
    ensures { result.now ≡ range_words key }
{
    match key {
        Key::Genesis => "not 64 hexadecimal digits",
        Key::Seed => "not an even number of hexadecimal digits",
        Key::Base | Key::Record => "no text",
        Key::Skips | Key::HistoricalVotes => "neither true nor false",
        Key::Forwarding => "none of disabled, silent-voters and silent-leader",
        Key::Repair => "neither once nor with-nullify",
        Key::Members | Key::Member | Key::TermLength => "no whole number from 0 to 4294967295",
        _ => "no whole number from 0 to 9223372036854775807",
    }
}
