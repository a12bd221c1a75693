//! The words of the command line, the names of troubles, and the sizes of messages.

use cli_audit::{Command, USAGE, number_of, parse_words};
use cli_tool::{Kind, message_size};
use std::alloc::Global;
use test_words::{Say, Trouble, Words};

/// How many words a command line has at most.
const MOST: usize = 64;

/// The words that are left, as a command line.
pub(crate) fn spoken(words: &mut Words<'_>, alloc: Global) -> Result<Vec<String>, Trouble> {
    let mut spoken = Vec::new(alloc);
    for _ in 0..MOST {
        if !words.more() {
            break;
        }
        let word = meant(words.word(), alloc)?;
        spoken.push(word)?;
    }
    words.end()?;
    Ok(spoken)
}

/// What a word stands for: `-` for nothing, `_` for a blank.
fn meant(word: &str, alloc: Global) -> Result<String, Trouble> {
    let mut meant = String::new(alloc);
    if word.is_empty() {
        return Err(Trouble::Unreadable);
    }
    if word == "-" {
        return Ok(meant);
    }
    for sign in word.chars() {
        meant.push(if sign == '_' { ' ' } else { sign })?;
    }
    Ok(meant)
}

/// `parse WORD ..`.
pub(crate) fn parse(words: &mut Words<'_>, say: &mut Say) -> Result<(), Trouble> {
    let spoken = spoken(words, say.alloc)?;
    match parse_words(&spoken) {
        Some(Command::Audit { count }) => {
            say.text("audit ")?;
            say.number(u64::from(count))
        }
        Some(Command::Node { path, index, count }) => {
            say.text("node ")?;
            say.quoted(path.as_bytes())?;
            say.gap()?;
            say.number(u64::from(index))?;
            say.gap()?;
            say.number(u64::from(count))
        }
        None => say.none(),
    }
}

/// `number WORD`.
pub(crate) fn number(words: &mut Words<'_>, say: &mut Say) -> Result<(), Trouble> {
    let word = meant(words.word(), say.alloc)?;
    words.end()?;
    match number_of(&word) {
        Some(number) => say.number(u64::from(number)),
        None => say.none(),
    }
}

/// `usage`.
pub(crate) fn usage(words: &mut Words<'_>, say: &mut Say) -> Result<(), Trouble> {
    words.end()?;
    say.quoted(USAGE.as_bytes())
}

/// The trouble of a name.
pub(crate) fn trouble_of(word: &str) -> Result<cli_audit::Trouble, Trouble> {
    match word {
        "memory" => Ok(cli_audit::Trouble::Memory),
        "device" => Ok(cli_audit::Trouble::Device),
        "write" => Ok(cli_audit::Trouble::Write),
        _ => Err(Trouble::Unreadable),
    }
}

/// The name of a trouble.
pub(crate) fn name_of(trouble: cli_audit::Trouble) -> &'static str {
    match trouble {
        cli_audit::Trouble::Memory => "memory",
        cli_audit::Trouble::Device => "device",
        cli_audit::Trouble::Write => "write",
    }
}

/// `line TROUBLE`.
pub(crate) fn line(words: &mut Words<'_>, say: &mut Say) -> Result<(), Trouble> {
    let trouble = trouble_of(words.word())?;
    words.end()?;
    say.quoted(trouble.line().as_bytes())
}

/// The kind of message of a name.
fn kind_of(word: &str) -> Result<Kind, Trouble> {
    match word {
        "vote" => Ok(Kind::Vote),
        "certificate" => Ok(Kind::Certificate),
        "artifact" => Ok(Kind::Artifact),
        "report" => Ok(Kind::Report),
        _ => Err(Trouble::Unreadable),
    }
}

/// `size KIND COUNT BYTES`.
pub(crate) fn size(words: &mut Words<'_>, say: &mut Say) -> Result<(), Trouble> {
    let kind = kind_of(words.word())?;
    let members = words.index()?;
    let bytes = words.bytes(say.alloc)?;
    words.end()?;
    match message_size(say.alloc, kind, members, &bytes) {
        Ok(size) => say.number(size as u64),
        Err(refusal) => say.fault(refusal),
    }
}
