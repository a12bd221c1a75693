//! Files of settings.

ghost use Rattle.cli_settings.specs.Checking.{IsGood};

use crate::light::{chain, one};
use crate::member::{member_of, pair_of};
use cli_file::{path_behind, read_file, tell_settings};
use cli_settings::Settings;
use cli_toml::MemberFile;
use std::alloc::Global;
use test_words::{Say, Trouble, Words};

/// The most bytes of a text.
const MOST: usize = 20_000_000;

/// The most words of a command.
const MOST_WORDS: usize = 64;

/// A text, and the file of settings that was read last, if it was one.
#[derive(Drop)]
pub(crate) struct Files {
    text: Vec<u8>,
    file: Option<MemberFile>,
}

impl Files {
    /// No text, and no file.
    pub(crate) fn new(alloc: Global) -> Self {
        Files {
            text: Vec::new(alloc),
            file: None,
        }
    }

    /// `lines LINE ..`.
    pub(crate) fn lines(&mut self, words: &mut Words<'_>, say: &mut Say) -> Result<(), Trouble> {
        for _ in 0..MOST_WORDS {
            if !words.more() {
                break;
            }
            self.text.extend_from_slice(words.word().as_bytes())?;
            self.text.extend_from_slice(b"\n")?;
        }
        words.end()?;
        say.number(self.text.len() as u64)
    }

    /// `append COUNT BYTES`.
    pub(crate) fn append(&mut self, words: &mut Words<'_>, say: &mut Say) -> Result<(), Trouble> {
        let count = words.number()?;
        let bytes = words.bytes(say.alloc)?;
        words.end()?;
        for _ in 0..count {
            if self.text.len() > MOST {
                return Err(Trouble::Condition);
            }
            self.text.extend_from_slice(&bytes)?;
        }
        say.number(self.text.len() as u64)
    }

    /// `file`.
    pub(crate) fn file(&mut self, words: &mut Words<'_>, say: &mut Say) -> Result<(), Trouble> {
        words.end()?;
        let mut faults = Vec::new(say.alloc);
        let read = read_file(say.alloc, &mut self.text.as_slice(), &mut faults);
        let status = match read {
            Ok(file) => {
                self.file = Some(file);
                0
            }
            Err(status) => status,
        };
        self.text = Vec::new(say.alloc);
        say.number(u64::from(status))?;
        say.gap()?;
        say.quoted(&faults)
    }

    /// `settings`.
    pub(crate) fn settings(&mut self, words: &mut Words<'_>, say: &mut Say) -> Result<(), Trouble> {
        words.end()?;
        let mut told = Vec::new(say.alloc);
        let mut faults = Vec::new(say.alloc);
        let status = tell_settings(say.alloc, &mut self.text.as_slice(), &mut told, &mut faults);
        say.number(u64::from(status))?;
        say.gap()?;
        say.quoted(&told)?;
        say.gap()?;
        say.quoted(&faults)?;
        self.text = told;
        Ok(())
    }

    /// `member CUTS DISK EVENTS`.
    pub(crate) fn member(&mut self, words: &mut Words<'_>, say: &mut Say) -> Result<(), Trouble> {
        let Some(file) = &self.file else {
            return Err(Trouble::Condition);
        };
        match file.settings.check() {
            Ok(()) => member_of(&file.settings, words, say),
            Err(_) => Err(Trouble::Condition),
        }
    }

    /// `pair CUTS DISK DISK EVENTS`.
    pub(crate) fn pair(&mut self, words: &mut Words<'_>, say: &mut Say) -> Result<(), Trouble> {
        let Some(file) = &self.file else {
            return Err(Trouble::Condition);
        };
        match file.settings.check() {
            Ok(()) => pair_of(&file.settings, words, say),
            Err(_) => Err(Trouble::Condition),
        }
    }

    /// The calls about certificates.
    pub(crate) fn light(
        &mut self,
        name: &str,
        words: &mut Words<'_>,
        say: &mut Say,
    ) -> Result<(), Trouble> {
        let bytes = words.bytes(say.alloc)?;
        words.end()?;
        let Some(file) = &self.file else {
            return Err(Trouble::Condition);
        };
        match file.settings.check() {
            Ok(()) => told(name, &file.settings, &bytes, say),
            Err(_) => Err(Trouble::Condition),
        }
    }
}

/// What bytes certify for the members of these settings.
fn told(name: &str, settings: &Settings, bytes: &[u8], say: &mut Say) -> Result<(), Trouble>
    requires { IsGood settings.now }
{
    match name {
        "certifies" => one(&settings.committee, bytes, say),
        "chain" => chain(&settings.committee, bytes, say),
        _ => Err(Trouble::Unreadable),
    }
}

/// `ask NAME WORD ..`.
pub(crate) fn ask(words: &mut Words<'_>, say: &mut Say) -> Result<(), Trouble> {
    let name = words.word();
    let mut spoken = Vec::new(say.alloc);
    for _ in 0..MOST_WORDS {
        if !words.more() {
            break;
        }
        spoken.push(String::from_str(say.alloc, words.word())?)?;
    }
    words.end()?;
    match path_behind(name, &spoken) {
        Some(path) => say.quoted(path.as_bytes()),
        None => say.none(),
    }
}
