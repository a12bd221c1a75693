//! The world of a scenario: its members, what is under way, and what comes next.

use crate::chronicle::Chronicle;
use crate::latest::Latest;
use crate::reports::Reports;
use simplex_member::{Action, Event, Reply};
use simplex_messages::Activity;
use std::alloc::Global;
use std::io::Write;
use test_schemes::Chance;
use test_words::Committee;
use types_core::{Sha256Digest, Viewable};
use world_members::{Halt, Member, Seat, Turn};
use world_network::{Broken, Chain, Network, Payloads, Scenario};

/// The most events of a run.
const MOST_EVENTS: u64 = 1_000_000_000;

/// What is counted against what was promised.
#[derive(Clone, Copy)]
pub(crate) struct Broke {
    /// How often a correct member told a proposal to be final that isn't on one chain with all others.
    pub(crate) contradictions: u64,
    /// How often a correct member blocked a correct one.
    pub(crate) blocks: u64,
    /// How often a record wasn't opened again.
    pub(crate) records: u64,
}

/// The world of a scenario.
#[derive(Drop)]
pub(crate) struct World<S: Committee, M: Seat<S>> {
    pub(crate) alloc: Global,
    pub(crate) scenario: Scenario,
    pub(crate) members: Vec<Member<S, M>>,
    pub(crate) network: Network,
    pub(crate) payloads: Payloads,
    pub(crate) chain: Chain,
    /// The reports of all correct members.
    pub(crate) reports: Reports,
    /// What members that join late start from.
    pub(crate) latest: Latest<S>,
    /// The lines, and the moment.
    pub(crate) chronicle: Chronicle,
    pub(crate) chance: Chance,
    /// Whether what is reported was found on a disk.
    pub(crate) is_opening: bool,
    pub(crate) broke: Broke,
    /// How many events were handed to nodes.
    pub(crate) events: u64,
}

impl<S: Committee, M: Seat<S>> World<S, M> {
    /// The world before its first moment.
    pub(crate) fn new(alloc: Global, scenario: Scenario) -> Result<Self, Broken> {
        let members = members_of(alloc, &scenario)?;
        let seed = scenario.seed;
        let chronicle = Chronicle::new(alloc, &scenario);
        Ok(World {
            alloc,
            scenario,
            members,
            network: Network::new(alloc, seed),
            payloads: Payloads::new(alloc),
            chain: Chain::new(alloc),
            reports: Reports::new(alloc),
            latest: Latest::new(alloc),
            chronicle,
            chance: Chance::seeded(seed.wrapping_add(1_000_003)),
            is_opening: false,
            broke: Broke {
                contradictions: 0,
                blocks: 0,
                records: 0,
            },
            events: 0,
        })
    }

    /// Runs to the end, and gives the status to end with.
    pub(crate) fn run<W: Write>(&mut self, output: &mut W) -> Result<u8, Broken> {
        self.start()?;
        for _ in 0..MOST_EVENTS {
            if !self.goes_on()? {
                break;
            }
            self.chronicle.write_much(output)?;
        }
        self.finish(output)
    }

    /// Comes to its first moment: each member is opened.
    pub(crate) fn start(&mut self) -> Result<(), Broken> {
        self.chronicle.tell_begin(&self.scenario)?;
        self.open_all()
    }

    /// Does what comes next. Whether the run goes on.
    pub(crate) fn goes_on(&mut self) -> Result<bool, Broken> {
        if self.is_done() {
            return Ok(false);
        }
        self.go_on()
    }

    /// Ends here: the table, the audit, and the status.
    pub(crate) fn finish<W: Write>(&mut self, output: &mut W) -> Result<u8, Broken> {
        let status = self.end()?;
        self.chronicle.write_all(output)?;
        Ok(status)
    }

    /// Opens each member for the first time, but those that are dead from the beginning.
    fn open_all(&mut self) -> Result<(), Broken> {
        for place in 0..self.members.len() {
            if self.is_killed(place) {
                self.kill(place)?;
            } else {
                self.open(place)?;
            }
        }
        Ok(())
    }

    /// Whether a member is to be killed at this moment.
    fn is_killed(&self, place: usize) -> bool {
        match self.members.get(place) {
            Some(member) => member.is_killed_by(self.chronicle.now),
            None => false,
        }
    }

    /// Whether each member that is waited for is up and has finalized what it is to.
    fn is_done(&self) -> bool {
        for member in &self.members {
            if member.is_awaited(self.scenario.until) {
                let seat = &member.seat;
                if !seat.is_up() || seat.last_finalized() < self.scenario.views {
                    return false;
                }
            }
        }
        true
    }

    /// The member to which something comes first that nobody sends, and when.
    fn first_due(&self) -> Option<(u64, usize)> {
        let mut first: Option<(u64, usize)> = None;
        for (place, member) in self.members.iter().enumerate() {
            if let Some(due) = member.next_due() {
                let is_first = match first {
                    Some((earliest, _)) => due < earliest,
                    None => true,
                };
                if is_first {
                    first = Some((due, place));
                }
            }
        }
        first
    }

    /// The same, where that is before anything is received.
    fn woken_next(&self) -> Option<(u64, usize)> {
        let (moment, place) = self.first_due()?;
        match self.network.next_moment() {
            Some(coming) if coming <= moment => None,
            _ => Some((moment, place)),
        }
    }

    /// Does what comes next. Whether anything does, before the run's end.
    fn go_on(&mut self) -> Result<bool, Broken> {
        match self.woken_next() {
            Some((moment, place)) => self.wake(place, moment),
            None => self.receive(),
        }
    }

    /// Comes to a moment, unless it lies behind the run's end.
    pub(crate) fn comes_to(&mut self, moment: u64) -> bool {
        if moment > self.scenario.until {
            return false;
        }
        self.chronicle.now = self.chronicle.now.max(moment);
        true
    }

    /// Does what comes to a member then that nobody sends.
    fn wake(&mut self, place: usize, moment: u64) -> Result<bool, Broken> {
        if !self.comes_to(moment) {
            return Ok(false);
        }
        let now = self.chronicle.now;
        let Some(member) = self.members.get(place) else {
            return Ok(false);
        };
        match member.turn(now) {
            Turn::Killed => self.kill(place)?,
            Turn::Reopened => self.reopen(place)?,
            Turn::Woken => self.ring(place, now)?,
            Turn::Opened => self.open_due(place)?,
        }
        Ok(true)
    }

    /// Tells a member the moment, for which it asked.
    fn ring(&mut self, place: usize, now: u64) -> Result<(), Broken> {
        if let Some(member) = self.members.get_mut(place) {
            member.due = None;
            let _ = member.wants_moment(now, 0);
        }
        self.step(place, Event::Moment(now))
    }

    /// Opens a member again whose time has come.
    fn open_due(&mut self, place: usize) -> Result<(), Broken> {
        if let Some(member) = self.members.get_mut(place) {
            member.due = None;
        }
        self.open(place)
    }

    /// A member is dead from now on.
    fn kill(&mut self, place: usize) -> Result<(), Broken> {
        if let Some(member) = self.members.get_mut(place) {
            let until = member.kill();
            self.chronicle
                .tell_down(member.index, until, member.is_joining())?;
        }
        Ok(())
    }

    /// A member's host gives its node up, and opens the record again.
    fn reopen(&mut self, place: usize) -> Result<(), Broken> {
        if let Some(member) = self.members.get_mut(place) {
            let waited = member.close();
            self.chronicle
                .tell_closed(member.index, member.view, waited)?;
        }
        self.open(place)
    }

    /// Opens a member, unless it runs no node.
    fn open(&mut self, place: usize) -> Result<(), Broken> {
        let now = self.chronicle.now;
        let Some(member) = self.members.get_mut(place) else {
            return Ok(());
        };
        if member.is_silent() {
            return Ok(());
        }
        if member.is_joining() {
            let floor = self.latest.floor()?;
            self.chronicle.tell_joined(member.index, &floor)?;
            member.seat.start_from(floor);
        }
        member.begin_life(now);
        match member.seat.open(now) {
            Ok(deeds) => self.begin(place, &deeds),
            Err(halt) => self.halt(place, halt),
        }
    }

    /// A member was opened, and this is to be done.
    fn begin(&mut self, place: usize, deeds: &[Action<S, Sha256Digest>]) -> Result<(), Broken> {
        self.tell_opened(place, floor_of(deeds))?;
        self.is_opening = true;
        let done = self.follow(place, deeds);
        self.is_opening = false;
        done
    }

    /// A member was opened, over a record that begins behind this view.
    fn tell_opened(&mut self, place: usize, floor: u64) -> Result<(), Broken> {
        let Some(member) = self.members.get_mut(place) else {
            return Ok(());
        };
        member.begin_behind(floor);
        self.chronicle.tell_opened(
            member.index,
            member.life,
            member.seat.current_view(),
            &member.upkeep,
        )?;
        Ok(())
    }

    /// Hands an event to a member's node.
    pub(crate) fn step(&mut self, place: usize, event: Event<Sha256Digest>) -> Result<(), Broken> {
        self.events = self.events.saturating_add(1);
        let Some(member) = self.members.get_mut(place) else {
            return Ok(());
        };
        match member.seat.step(event) {
            Ok(reply) => self.take(place, &reply),
            Err(halt) => self.halt(place, halt),
        }
    }

    /// Does what a step answers.
    fn take(&mut self, place: usize, reply: &Reply<S, Sha256Digest>) -> Result<(), Broken> {
        if reply.refused.is_some() {
            self.count_refused(place);
            return self.act_all(place, &reply.actions);
        }
        self.follow(place, &reply.actions)
    }

    /// Does what follows where a seat has no answer.
    fn halt(&mut self, place: usize, halt: Halt) -> Result<(), Broken> {
        match halt {
            Halt::Idle => Ok(()),
            Halt::Crashed => self.crash(place, false),
            Halt::Lost => self.lose(place),
            Halt::Broken(broken) => Err(broken),
        }
    }

    /// Does what was handed out, sees whether the member has entered a view, and has its host rewrite the record if that is due.
    fn follow(&mut self, place: usize, deeds: &[Action<S, Sha256Digest>]) -> Result<(), Broken> {
        if let Some(member) = self.members.get_mut(place) {
            member.due = None;
        }
        self.act_all(place, deeds)?;
        self.look_at(place)?;
        self.keep_short(place)
    }

    /// Has a member's host rewrite its record, where enough became final since it last did.
    fn keep_short(&mut self, place: usize) -> Result<(), Broken> {
        let Some(member) = self.members.get_mut(place) else {
            return Ok(());
        };
        let index = member.index;
        match member.keep_short() {
            Ok(None) => Ok(()),
            Ok(Some(floor)) => {
                self.chronicle.tell_rewrote(index, floor)?;
                Ok(())
            }
            Err(Halt::Crashed) => self.crash(place, true),
            Err(halt) => self.halt(place, halt),
        }
    }

    /// Counts an event that a test refused.
    fn count_refused(&mut self, place: usize) {
        if let Some(member) = self.members.get_mut(place) {
            member.refused = member.refused.saturating_add(1);
        }
    }

    /// Sees whether a member has entered a view.
    fn look_at(&mut self, place: usize) -> Result<(), Broken> {
        let now = self.chronicle.now;
        let Some(member) = self.members.get_mut(place) else {
            return Ok(());
        };
        let index = member.index;
        if let Some(view) = member.enters(now) {
            self.chronicle.tell_entered(index, view)?;
        }
        Ok(())
    }

    /// A member crashed, inside a rewrite of its record or not.
    fn crash(&mut self, place: usize, is_rewriting: bool) -> Result<(), Broken> {
        let now = self.chronicle.now;
        if let Some(member) = self.members.get_mut(place) {
            if is_rewriting {
                member.note_torn();
            }
            let size = member.go_down(now);
            self.chronicle
                .tell_crashed(member.index, size as u64, is_rewriting)?;
        }
        Ok(())
    }

    /// A member's record wasn't opened again.
    fn lose(&mut self, place: usize) -> Result<(), Broken> {
        self.broke.records = self.broke.records.saturating_add(1);
        self.chronicle.tell_lost(index_of(place))?;
        Ok(())
    }
}

/// The members of a scenario, none of them opened.
fn members_of<S: Committee, M: Seat<S>>(
    alloc: Global,
    scenario: &Scenario,
) -> Result<Vec<Member<S, M>>, Broken> {
    let mut members = Vec::new(alloc);
    for index in 0..scenario.members {
        members.push(Member::new(alloc, scenario, index)?)?;
    }
    Ok(members)
}

/// The view that a record begins behind, by what its opening handed out: the first artifact of it is reported first.
fn floor_of<S: Committee>(deeds: &[Action<S, Sha256Digest>]) -> u64 {
    for deed in deeds {
        if let Action::Report(activity) = deed {
            return match activity {
                Activity::Finalization(it) => it.proposal.view().get(),
                _ => 0,
            };
        }
    }
    0
}

/// The index of the member at a place.
pub(crate) fn index_of(place: usize) -> u32 {
    match u32::try_from(place) {
        Ok(index) => index,
        Err(_) => u32::MAX,
    }
}
