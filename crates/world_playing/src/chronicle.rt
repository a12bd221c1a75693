//! The lines on what happens.

use std::alloc::{AllocError, Global};
use std::io::Write;
use types_core::{Proposal, Scheme, Sha256Digest, Viewable, faults};
use voter_rules::Floor;
use world_members::Upkeep;
use world_network::{Broken, Ground, Scenario, Teller, Ways, number_of};

/// The lines of a run.
#[derive(Drop)]
pub struct Chronicle {
    pub(crate) teller: Teller,
    /// The moment, in milliseconds.
    pub now: u64,
}

impl Chronicle {
    /// No line, at moment 0.
    pub fn new(alloc: Global, scenario: &Scenario) -> Self {
        Chronicle {
            teller: Teller::new(alloc, scenario.json, scenario.detail),
            now: 0,
        }
    }

    /// Writes out what is held back, where it is much.
    pub fn write_much<W: Write>(&mut self, output: &mut W) -> Result<(), Broken> {
        self.teller.write_much(output)
    }

    /// Writes out what is held back.
    pub fn write_all<W: Write>(&mut self, output: &mut W) -> Result<(), Broken> {
        self.teller.write_all(output)
    }

    /// Whether each event that matters is told.
    pub fn tells_all(&self) -> bool {
        self.teller.tells_all()
    }

    /// How the world begins: the committee, and who lies how.
    pub fn tell_begin(&mut self, scenario: &Scenario) -> Result<(), AllocError> {
        self.tell_world(scenario)?;
        for (member, ways) in &scenario.liars {
            self.tell_liar(*member, ways)?;
        }
        Ok(())
    }

    /// The committee.
    fn tell_world(&mut self, scenario: &Scenario) -> Result<(), AllocError> {
        let members = scenario.members;
        self.teller.begin("world")?;
        self.teller.number("members", u64::from(members))?;
        self.teller.number("faults", u64::from(faults(members)))?;
        self.teller.number("seed", scenario.seed)?;
        self.teller.number("views", scenario.views)?;
        self.tell_rewriting(scenario)?;
        self.teller.end()
    }

    /// Where records are rewritten: how many views a term has, and behind how many final ones each is.
    fn tell_rewriting(&mut self, scenario: &Scenario) -> Result<(), AllocError> {
        let Some(rewrite) = scenario.rewrite else {
            return Ok(());
        };
        self.teller.number("term", scenario.times.length)?;
        self.teller.number("rewrite", rewrite)
    }

    /// A line for each way in which a member lies.
    fn tell_liar(&mut self, member: u32, ways: &Ways) -> Result<(), AllocError> {
        self.tell_way(member, ways.silent, "silent")?;
        self.tell_way(member, ways.two_votes, "two-votes")?;
        self.tell_way(member, ways.two_proposals, "two-proposals")?;
        self.tell_way(member, ways.forged, "forged")?;
        self.tell_way(member, ways.withheld, "withheld")?;
        self.tell_way(member, ways.two_faced, "two-faced")?;
        self.tell_way(member, ways.asking, "asking")?;
        self.tell_way(member, ways.stale, "stale")
    }

    /// A member lies in this way, if it does.
    fn tell_way(&mut self, member: u32, does: bool, way: &str) -> Result<(), AllocError> {
        if !does {
            return Ok(());
        }
        self.teller.begin("liar")?;
        self.teller.number("member", u64::from(member))?;
        self.teller.word("way", way)?;
        self.teller.end()
    }

    /// A member was opened, in which view; and where records are rewritten, behind which view its own begins.
    pub fn tell_opened(
        &mut self,
        member: u32,
        life: u64,
        view: u64,
        upkeep: &Upkeep,
    ) -> Result<(), AllocError> {
        if !self.teller.tells_some() {
            return Ok(());
        }
        self.begin(member, "opened")?;
        self.teller.number("life", life)?;
        self.teller.number("view", view)?;
        if upkeep.is_on() {
            self.teller.number("floor", upkeep.floor)?;
        }
        self.teller.end()
    }

    /// A member's host rewrote its record, which begins behind this view from now on.
    pub fn tell_rewrote(&mut self, member: u32, floor: u64) -> Result<(), AllocError> {
        if !self.teller.tells_some() {
            return Ok(());
        }
        self.tell_number(member, "rewrote", "floor", floor)
    }

    /// A member entered a view.
    pub fn tell_entered(&mut self, member: u32, view: u64) -> Result<(), AllocError> {
        if !self.teller.tells_all() {
            return Ok(());
        }
        self.tell_number(member, "entered", "view", view)
    }

    /// A member crashed, inside a rewrite of its record or not, and its disks have so many bytes.
    pub fn tell_crashed(
        &mut self,
        member: u32,
        bytes: u64,
        is_rewriting: bool,
    ) -> Result<(), AllocError> {
        if !self.teller.tells_some() {
            return Ok(());
        }
        self.begin(member, "crashed")?;
        self.teller.number("bytes", bytes)?;
        if is_rewriting {
            self.teller.word("in", "rewrite")?;
        }
        self.teller.end()
    }

    /// A member is dead from now on, or hasn't joined yet, and is opened at that moment.
    pub fn tell_down(
        &mut self,
        member: u32,
        until: u64,
        is_joining: bool,
    ) -> Result<(), AllocError> {
        if !self.teller.tells_some() {
            return Ok(());
        }
        let event = if is_joining { "away" } else { "down" };
        self.tell_number(member, event, "until", until)
    }

    /// A member joins, and starts from this at each opening: the finalization of a view, or genesis.
    pub fn tell_joined<S: Scheme<Sha256Digest>>(
        &mut self,
        member: u32,
        floor: &Floor<S, Sha256Digest>,
    ) -> Result<(), AllocError> {
        if !self.teller.tells_some() {
            return Ok(());
        }
        let payload = match floor {
            Floor::Genesis(payload) => number_of(payload),
            Floor::Finalized(it) => number_of(&it.proposal.payload),
        };
        self.begin(member, "joined")?;
        self.teller.number("view", floor.view().get())?;
        self.teller.number_or("payload", payload)?;
        self.teller.end()
    }

    /// A member's host closed its node, which stood in this view, and had entered none for so long.
    pub fn tell_closed(&mut self, member: u32, view: u64, waited: u64) -> Result<(), AllocError> {
        if !self.teller.tells_some() {
            return Ok(());
        }
        self.begin(member, "closed")?;
        self.teller.number("view", view)?;
        self.teller.number("waited", waited)?;
        self.teller.end()
    }

    /// A member blocked another.
    pub fn tell_blocked(&mut self, member: u32, other: u32) -> Result<(), AllocError> {
        if !self.teller.tells_some() {
            return Ok(());
        }
        self.tell_number(member, "blocked", "other", u64::from(other))
    }

    /// A record wasn't opened again.
    pub fn tell_lost(&mut self, member: u32) -> Result<(), AllocError> {
        self.begin(member, "lost")?;
        self.teller.end()
    }

    /// A liar lied.
    pub fn tell_lied(&mut self, member: u32, way: &str, view: u64) -> Result<(), AllocError> {
        if !self.teller.tells_all() {
            return Ok(());
        }
        self.tell_view(member, "lied", way, view)
    }

    /// The application built a payload for a member.
    pub fn tell_built(
        &mut self,
        member: u32,
        ground: &Ground,
        payload: &Sha256Digest,
    ) -> Result<(), AllocError> {
        if !self.teller.tells_all() {
            return Ok(());
        }
        self.begin(member, "built")?;
        self.teller.number("view", ground.view)?;
        self.teller.number_or("payload", number_of(payload))?;
        self.teller.number("parent", ground.parent_view)?;
        self.teller.number_or("on", number_of(&ground.parent))?;
        self.teller.end()
    }

    /// A member told a proposal to be final.
    pub fn tell_finalized(
        &mut self,
        member: u32,
        proposal: &Proposal<Sha256Digest>,
    ) -> Result<(), AllocError> {
        if !self.teller.tells_some() {
            return Ok(());
        }
        self.tell_proposal(member, "finalized", proposal)
    }

    /// What a member told to be final lies on no one chain with what others did.
    pub fn tell_contradiction(
        &mut self,
        member: u32,
        proposal: &Proposal<Sha256Digest>,
    ) -> Result<(), AllocError> {
        self.tell_proposal(member, "contradicts", proposal)
    }

    /// A line on a proposal.
    pub(crate) fn tell_proposal(
        &mut self,
        member: u32,
        event: &str,
        proposal: &Proposal<Sha256Digest>,
    ) -> Result<(), AllocError> {
        self.begin(member, event)?;
        self.teller.number("view", proposal.view().get())?;
        self.teller
            .number_or("payload", number_of(&proposal.payload))?;
        self.teller.number("parent", proposal.parent.get())?;
        self.teller.end()
    }

    /// A line of some kind on a proposal.
    pub(crate) fn tell_on(
        &mut self,
        member: u32,
        event: &str,
        kind: &str,
        proposal: &Proposal<Sha256Digest>,
    ) -> Result<(), AllocError> {
        self.begin(member, event)?;
        self.teller.kind(kind)?;
        self.teller.number("view", proposal.view().get())?;
        self.teller
            .number_or("payload", number_of(&proposal.payload))?;
        self.teller.end()
    }

    /// A line of some kind on a view.
    pub(crate) fn tell_view(
        &mut self,
        member: u32,
        event: &str,
        kind: &str,
        view: u64,
    ) -> Result<(), AllocError> {
        self.begin(member, event)?;
        self.teller.kind(kind)?;
        self.teller.number("view", view)?;
        self.teller.end()
    }

    /// A line with one number.
    fn tell_number(
        &mut self,
        member: u32,
        event: &str,
        name: &str,
        number: u64,
    ) -> Result<(), AllocError> {
        self.begin(member, event)?;
        self.teller.number(name, number)?;
        self.teller.end()
    }

    /// Begins a line on a member.
    fn begin(&mut self, member: u32, event: &str) -> Result<(), AllocError> {
        self.teller.begin_at(self.now, member, event)
    }
}
