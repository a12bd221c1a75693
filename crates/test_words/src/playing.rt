//! Scripts, played line by line.

use crate::say::Say;
use crate::trouble::Trouble;
use crate::words::Words;
use std::alloc::{AllocError, Global};
use std::io::{self, BufRead, BufReader, Read, Write};

/// What makes the calls of scripts.
pub trait Layer {
    /// Makes a new object, as the words behind `reset` tell, in place of the one that stood there. After an error that
    /// one stands.
    fn reset(&mut self, words: &mut Words<'_>, alloc: Global) -> Result<(), Trouble>;

    /// Makes the call of this name, and says its answer. After an error the object is as it was.
    fn call(&mut self, name: &str, words: &mut Words<'_>, say: &mut Say) -> Result<(), Trouble>;
}

/// Why a script is broken off.
#[derive(Clone, Copy)]
enum Broken {
    Memory,
    Device,
}

impl From<io::Error> for Broken {
    fn from(error: io::Error) -> Broken {
        if error.kind() == io::ErrorKind::OutOfMemory {
            Broken::Memory
        } else {
            Broken::Device
        }
    }
}

impl From<AllocError> for Broken {
    fn from(_error: AllocError) -> Broken {
        Broken::Memory
    }
}

/// How many bytes of answers are held back at most before they are written.
const PIECE: usize = 16_384;

/// Plays the lines of the input, writes a line for each to the output, and gives the status to end with: 0 where all
/// were played, 3 where memory ran out, with `memory` as the last line, and 4 where reading or writing failed.
pub fn play<L: Layer, R: Read + Drop, W: Write>(
    alloc: Global,
    layer: &mut L,
    input: R,
    output: &mut W,
) -> u8 {
    let mut held = String::new(alloc);
    let broken = play_lines(alloc, layer, input, output, &mut held);
    if write_out(output, &mut held).is_err() {
        return 4;
    }
    match broken {
        Ok(()) => 0,
        Err(Broken::Device) => 4,
        Err(Broken::Memory) => match output.write_all(b"memory\n") {
            Ok(()) => 3,
            Err(_) => 4,
        },
    }
}

/// The same, with answers held back.
fn play_lines<L: Layer, R: Read + Drop, W: Write>(
    alloc: Global,
    layer: &mut L,
    input: R,
    output: &mut W,
    held: &mut String,
) -> Result<(), Broken> {
    let mut say = Say::new(alloc);
    for line in BufReader::new(alloc, input)?.lines(alloc) {
        play_line(layer, &line?, &mut say, output, held)?;
    }
    Ok(())
}

/// Plays a line, whose answer is held back whole or not at all.
fn play_line<L: Layer, W: Write>(
    layer: &mut L,
    line: &str,
    say: &mut Say,
    output: &mut W,
    held: &mut String,
) -> Result<(), Broken> {
    say.clear();
    let answer = answer_to(layer, line, say)?;
    held.try_reserve(answer.len().saturating_add(1))?;
    held.push_str(answer)?;
    held.push('\n')?;
    if held.len() >= PIECE {
        write_out(output, held)?;
    }
    Ok(())
}

/// Writes out what was held back.
fn write_out<W: Write>(output: &mut W, held: &mut String) -> io::Result<()> {
    output.write_all(held.as_bytes())?;
    held.clear();
    Ok(())
}

/// What is answered to a line.
fn answer_to<'a, L: Layer>(
    layer: &mut L,
    line: &str,
    say: &'a mut Say,
) -> Result<&'a str, AllocError> {
    match answer(layer, line, say) {
        Ok(()) => Ok(say.line()),
        Err(Trouble::Unreadable) => Ok("unreadable"),
        Err(Trouble::Condition) => Ok("condition"),
        Err(Trouble::Memory) => Err(AllocError),
    }
}

/// Answers a line.
fn answer<L: Layer>(layer: &mut L, line: &str, say: &mut Say) -> Result<(), Trouble> {
    if line.starts_with('#') {
        return say.text(line);
    }
    let mut words = Words::new(line);
    let name = words.word();
    if name == "reset" {
        layer.reset(&mut words, say.alloc)?;
        return say.ok();
    }
    layer.call(name, &mut words, say)
}
