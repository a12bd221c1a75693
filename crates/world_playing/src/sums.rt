//! The lines at the end of a run.

use crate::chronicle::Chronicle;
use std::alloc::AllocError;
use world_members::Upkeep;

/// Where a member stands.
#[derive(Clone, Copy)]
pub struct Standing {
    /// The member.
    pub member: u32,
    /// Its current view.
    pub view: u64,
    /// Its last finalized view.
    pub finalized: u64,
    /// How many proposals it told to be final.
    pub finals: u64,
    /// How often it was opened.
    pub lives: u64,
    /// Of how many events a test refused.
    pub refused: u64,
    /// How many others it blocked.
    pub blocked: u64,
    /// How many packets were lies, if it is a liar.
    pub lies: Option<u64>,
    /// What its host did for its record.
    pub upkeep: Upkeep,
}

/// The sums of a run.
#[derive(Clone, Copy)]
pub struct Sums {
    /// The least view that a correct member has finalized, of those that aren't down past the run's end.
    pub reached: u64,
    /// How many proposals the chain of what is final has.
    pub chain: u64,
    /// How many events were handed to nodes.
    pub events: u64,
    /// How many packets were sent.
    pub packets: u64,
    /// How many of them were lost.
    pub lost: u64,
    /// How many lines the audit has.
    pub evidence: u64,
    /// How many members it names.
    pub named: u64,
    /// How often a correct member told a proposal to be final that isn't on one chain with all others.
    pub contradictions: u64,
    /// How often a correct member was named, or blocked by a correct one.
    pub blamed: u64,
    /// How often a record wasn't opened again.
    pub unopened: u64,
}

impl Chronicle {
    /// A line of the table of members.
    pub fn tell_standing(&mut self, standing: &Standing) -> Result<(), AllocError> {
        let word = match standing.lies {
            Some(_) => "liar",
            None => "correct",
        };
        self.teller.begin("stands")?;
        self.teller.number("member", u64::from(standing.member))?;
        self.teller.word("is", word)?;
        self.teller.number("view", standing.view)?;
        self.teller.number("finalized", standing.finalized)?;
        self.tell_rest(standing)
    }

    /// The rest of that line.
    fn tell_rest(&mut self, standing: &Standing) -> Result<(), AllocError> {
        self.teller.number("finals", standing.finals)?;
        self.teller.number("lives", standing.lives)?;
        self.teller.number("refused", standing.refused)?;
        self.teller.number("blocked", standing.blocked)?;
        self.teller.number("lies", standing.lies.unwrap_or(0))?;
        self.tell_upkeep(&standing.upkeep)?;
        self.teller.end()
    }

    /// Where records are rewritten: behind which view its own begins, how often it was rewritten, and how often a crash came inside that.
    fn tell_upkeep(&mut self, upkeep: &Upkeep) -> Result<(), AllocError> {
        if !upkeep.is_on() {
            return Ok(());
        }
        self.teller.number("floor", upkeep.floor)?;
        self.teller.number("rewrites", upkeep.rewrites)?;
        self.teller.number("torn", upkeep.torn)
    }

    /// The last line: the sums, and the status.
    pub fn tell_end(&mut self, sums: &Sums, status: u8) -> Result<(), AllocError> {
        self.teller.begin("ended")?;
        self.teller.number("at", self.now)?;
        self.teller.number("reached", sums.reached)?;
        self.teller.number("chain", sums.chain)?;
        self.teller.number("events", sums.events)?;
        self.teller.number("packets", sums.packets)?;
        self.teller.number("lost", sums.lost)?;
        self.tell_blame(sums)?;
        self.teller.number("status", u64::from(status))?;
        self.teller.end()
    }

    /// What the audit named, and what was broken.
    fn tell_blame(&mut self, sums: &Sums) -> Result<(), AllocError> {
        self.teller.number("evidence", sums.evidence)?;
        self.teller.number("named", sums.named)?;
        self.teller.number("contradictions", sums.contradictions)?;
        self.teller.number("blamed", sums.blamed)?;
        self.teller.number("unopened", sums.unopened)
    }
}
