//! Scenarios of an input, run one behind the other.

use crate::world::World;
use std::alloc::Global;
use std::io::{self, BufRead, BufReader, ErrorKind, Read, Write};
use test_words::Committee;
use voter_rules::config::check_config;
use world_members::{Seat, config_of};
use world_network::{Broken, Detail, Refusal, Scenario, Teller};

/// The status where a line was refused.
pub(crate) const REFUSED: u8 = 2;

/// Runs the scenarios of the input, with nodes on seats of this kind, writes their lines to the output, and gives the status to end
/// with: the greatest of the runs, 2 where a line was refused, 3 where memory ran out, 4 where reading or writing failed.
pub fn play<S: Committee, M: Seat<S>, R: Read + Drop, W: Write>(
    alloc: Global,
    is_json: bool,
    input: R,
    output: &mut W,
) -> u8 {
    match play_lines::<S, M, R, W>(alloc, is_json, input, output) {
        Ok(status) => status,
        Err(Broken::Memory) => 3,
        Err(Broken::Device) => 4,
        Err(Broken::Setup) => 5,
    }
}

/// The same, up to what breaks it off.
fn play_lines<S: Committee, M: Seat<S>, R: Read + Drop, W: Write>(
    alloc: Global,
    is_json: bool,
    input: R,
    output: &mut W,
) -> Result<u8, Broken> {
    let mut script = Script::new(alloc, is_json);
    let mut status = 0;
    for line in BufReader::new(alloc, input)?.lines(alloc) {
        let taken = match line {
            Ok(line) => script.take(&line, output)?,
            Err(error) => script.miss(&error, output)?,
        };
        match play_taken::<S, M, W>(alloc, taken, status, output)? {
            Some(greatest) => status = greatest,
            None => return Ok(REFUSED),
        }
    }
    let taken = script.end(output)?;
    match play_taken::<S, M, W>(alloc, taken, status, output)? {
        Some(greatest) => Ok(greatest),
        None => Ok(REFUSED),
    }
}

/// Runs a scenario that is whole. The greatest status so far, or none where a line is refused.
fn play_taken<S: Committee, M: Seat<S>, W: Write>(
    alloc: Global,
    taken: Taken,
    status: u8,
    output: &mut W,
) -> Result<Option<u8>, Broken> {
    match taken {
        Taken::Line => Ok(Some(status)),
        Taken::Scenario(scenario) => {
            let ended = run_world::<S, M, W>(alloc, scenario, output)?;
            Ok(Some(ended.max(status)))
        }
        Taken::Refused => Ok(None),
    }
}

/// What a line comes to.
#[derive(Drop)]
pub(crate) enum Taken {
    /// No scenario is whole by it.
    Line,
    /// This scenario is whole, and its times fit a node.
    Scenario(Scenario),
    /// It is refused.
    Refused,
}

/// The scenario that is read.
#[derive(Drop)]
pub(crate) struct Script {
    alloc: Global,
    is_json: bool,
    scenario: Scenario,
    /// Whether it is to run though no line `run` comes. An input without a line is a scenario too.
    is_begun: bool,
    /// How many lines were read.
    lines: u64,
}

impl Script {
    /// Before the first line.
    pub(crate) fn new(alloc: Global, is_json: bool) -> Self {
        Script {
            alloc,
            is_json,
            scenario: Scenario::new(alloc, is_json),
            is_begun: true,
            lines: 0,
        }
    }

    /// Takes a line up.
    pub(crate) fn take<W: Write>(&mut self, line: &str, output: &mut W) -> Result<Taken, Broken> {
        self.lines = self.lines.saturating_add(1);
        if line.is_empty() || line.starts_with('#') {
            return Ok(Taken::Line);
        }
        if line == "run" {
            self.is_begun = false;
            return self.close(output);
        }
        self.is_begun = true;
        match self.scenario.take_line(self.alloc, line) {
            Ok(()) => Ok(Taken::Line),
            Err(refusal) => self.refuse(refusal, output),
        }
    }

    /// Takes it up that a line couldn't be read. It answers that the line is refused, where it is no text.
    pub(crate) fn miss<W: Write>(
        &mut self,
        error: &io::Error,
        output: &mut W,
    ) -> Result<Taken, Broken> {
        match error.kind() {
            ErrorKind::InvalidData => {
                self.lines = self.lines.saturating_add(1);
                self.refuse(Refusal::NoText, output)
            }
            ErrorKind::OutOfMemory => Err(Broken::Memory),
            _ => Err(Broken::Device),
        }
    }

    /// Gives the last scenario, where no line did.
    pub(crate) fn end<W: Write>(&mut self, output: &mut W) -> Result<Taken, Broken> {
        if self.is_begun {
            return self.close(output);
        }
        Ok(Taken::Line)
    }

    /// Gives the scenario that was read, where its times fit a node.
    fn close<W: Write>(&mut self, output: &mut W) -> Result<Taken, Broken> {
        let next = Scenario::new(self.alloc, self.is_json);
        let scenario = std::mem::replace(&mut self.scenario, next);
        if check_config(&config_of(&scenario.times, ()), scenario.members).is_err() {
            self.scenario.json = scenario.json;
            return self.refuse(Refusal::Times, output);
        }
        Ok(Taken::Scenario(scenario))
    }

    /// Tells that the last line is refused, and why. It answers that it is.
    fn refuse<W: Write>(&mut self, refusal: Refusal, output: &mut W) -> Result<Taken, Broken> {
        if let Refusal::Memory = refusal {
            return Err(Broken::Memory);
        }
        let mut teller = Teller::new(self.alloc, self.scenario.json, Detail::All);
        teller.begin("refused")?;
        teller.number("line", self.lines)?;
        teller.why(refusal.text())?;
        teller.end()?;
        teller.write_all(output)?;
        Ok(Taken::Refused)
    }
}

/// Runs a scenario, and gives its status.
fn run_world<S: Committee, M: Seat<S>, W: Write>(
    alloc: Global,
    scenario: Scenario,
    output: &mut W,
) -> Result<u8, Broken> {
    let mut world: World<S, M> = World::new(alloc, scenario)?;
    world.run(output)
}
