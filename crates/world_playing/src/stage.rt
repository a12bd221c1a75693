//! Scenarios of a text, gone on with event by event: for who looks on while they are played.

use crate::playing::{REFUSED, Script, Taken};
use crate::world::World;
use std::alloc::Global;
use std::io::{BufRead, Write};
use test_words::Committee;
use world_members::Seat;
use world_network::{Broken, Scenario};

/// The scenarios of a text, one behind the other. What they write, `play` writes over the same text; it ends a run behind 10^9 events.
#[derive(Drop)]
pub struct Stage<S: Committee, M: Seat<S>> {
    alloc: Global,
    /// Those to come, the next one last.
    waiting: Vec<Scenario>,
    /// What is written behind them: why a line is refused, if one is.
    refusal: Vec<u8>,
    /// The one that is played.
    world: Option<World<S, M>>,
    /// The greatest status so far.
    status: u8,
    /// Why nothing goes on any more, if nothing does.
    broken: Option<Broken>,
}

impl<S: Committee, M: Seat<S>> Stage<S, M> {
    /// The scenarios of this text, none of them begun.
    pub fn open(alloc: Global, is_json: bool, text: &[u8]) -> Result<Self, Broken> {
        let mut stage = Stage {
            alloc,
            waiting: Vec::new(alloc),
            refusal: Vec::new(alloc),
            world: None,
            status: 0,
            broken: None,
        };
        stage.read(is_json, text)?;
        stage.waiting.reverse();
        Ok(stage)
    }

    /// Reads the text, up to a line that is refused.
    fn read(&mut self, is_json: bool, text: &[u8]) -> Result<(), Broken> {
        let mut script = Script::new(self.alloc, is_json);
        for line in text.lines(self.alloc) {
            let taken = match line {
                Ok(line) => script.take(&line, &mut self.refusal)?,
                Err(error) => script.miss(&error, &mut self.refusal)?,
            };
            if !self.keeps(taken)? {
                return Ok(());
            }
        }
        let taken = script.end(&mut self.refusal)?;
        self.keeps(taken)?;
        Ok(())
    }

    /// Keeps a scenario that is whole. Whether the text is read on.
    fn keeps(&mut self, taken: Taken) -> Result<bool, Broken> {
        match taken {
            Taken::Line => Ok(true),
            Taken::Scenario(scenario) => {
                self.waiting.push(scenario)?;
                Ok(true)
            }
            Taken::Refused => Ok(false),
        }
    }

    /// Goes on for at most so many events, and writes their lines. Whether more is to come. Once it is broken off it stays so.
    pub fn go_on<W: Write>(&mut self, events: u32, output: &mut W) -> Result<bool, Broken> {
        self.still()?;
        let gone = self.go_on_for(events, output);
        self.note(gone)
    }

    /// Ends the scenario that is played, if one is: its table, and what the audit finds so far.
    pub fn stop<W: Write>(&mut self, output: &mut W) -> Result<(), Broken> {
        self.still()?;
        let ended = self.end(output);
        self.note(ended)
    }

    /// The greatest status of the runs so far.
    pub fn status(&self) -> u8 {
        self.status
    }

    /// Why it was broken off, if it was.
    fn still(&self) -> Result<(), Broken> {
        match self.broken {
            Some(broken) => Err(broken),
            None => Ok(()),
        }
    }

    /// Notes why it is broken off, if it is.
    fn note<T>(&mut self, done: Result<T, Broken>) -> Result<T, Broken> {
        if let Err(broken) = &done {
            self.broken = Some(*broken);
        }
        done
    }

    /// Goes on for at most so many events. Whether more is to come.
    fn go_on_for<W: Write>(&mut self, events: u32, output: &mut W) -> Result<bool, Broken> {
        for _ in 0..events {
            if !self.go_on_once(output)? {
                return Ok(false);
            }
        }
        Ok(true)
    }

    /// Does what comes next: an event, the end of a scenario, or the beginning of one. Whether more is to come.
    fn go_on_once<W: Write>(&mut self, output: &mut W) -> Result<bool, Broken> {
        let Some(world) = &mut self.world else {
            return self.begin(output);
        };
        if world.goes_on()? {
            world.chronicle.write_all(output)?;
            return Ok(true);
        }
        self.end(output)?;
        Ok(true)
    }

    /// Begins the next scenario, or tells of the line that is refused. Whether there is one.
    fn begin<W: Write>(&mut self, output: &mut W) -> Result<bool, Broken> {
        let Some(scenario) = self.waiting.pop() else {
            self.tell_refused(output)?;
            return Ok(false);
        };
        let mut world: World<S, M> = World::new(self.alloc, scenario)?;
        world.start()?;
        world.chronicle.write_all(output)?;
        self.world = Some(world);
        Ok(true)
    }

    /// Tells once of the line that is refused, if one is.
    fn tell_refused<W: Write>(&mut self, output: &mut W) -> Result<(), Broken> {
        if self.refusal.is_empty() {
            return Ok(());
        }
        output.write_all(&self.refusal)?;
        self.refusal.clear();
        self.status = REFUSED;
        Ok(())
    }

    /// Ends the scenario that is played, if one is.
    fn end<W: Write>(&mut self, output: &mut W) -> Result<(), Broken> {
        let Some(mut world) = self.world.take() else {
            return Ok(());
        };
        let status = world.finish(output)?;
        self.status = self.status.max(status);
        Ok(())
    }
}
