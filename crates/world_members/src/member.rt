//! A member of a world.

ghost use Rattle.std.specs.Prelude.{◌≡◌, ◌↔◌, None, Some, IsTrue};

use crate::liar::Liar;
use crate::patience::{Patience, earlier, has_come};
use crate::seat::{Halt, Seat};
use crate::upkeep::Upkeep;
use std::alloc::{AllocError, Global};
use std::cell::Cell;
use std::rc::Rc;
use test_words::{Committee, Trouble};
use types_core::{Participant, Sha256Digest};
use world_network::{Broken, Crash, Down, Fuse, NO_FUSE, Scenario};

/// What comes next to a member, where nothing comes to it from others.
#[derive(Clone, Copy)]
pub enum Turn {
    /// It is killed.
    Killed,
    /// Its host closes the node and opens the record again.
    Reopened,
    /// Its node is told the moment.
    Woken,
    /// Its record is opened.
    Opened,
}

/// A member.
#[derive(Drop)]
pub struct Member<S: Committee, M: Seat<S>> {
    /// Its index.
    pub index: u32,
    /// Its node.
    pub seat: M,
    /// How it lies, if it does.
    pub liar: Option<Liar<S>>,
    /// How often it was opened.
    pub life: u64,
    /// When its node is woken, or opened again.
    pub due: Option<u64>,
    /// The view that it was seen in last.
    pub view: u64,
    /// How many proposals it told to be final.
    pub finals: u64,
    /// Of how many events a test refused.
    pub refused: u64,
    /// Whom it blocked.
    pub blocked: Vec<u32>,
    /// When its host rewrites its record.
    pub upkeep: Upkeep,
    fuse: Fuse,
    /// The moment that it was told last.
    told: u64,
    /// The crashes that are to come, the next one last.
    crashes: Vec<Crash>,
    /// How long it will be down at the crash that is set.
    down: u64,
    /// The times to come in which it is dead, the next one last.
    downs: Vec<Down>,
    /// Whether it joins late.
    joins: bool,
    /// How long its host waits for a view.
    patience: Patience,
}

impl<S: Committee, M: Seat<S>> Member<S, M> {
    /// A member with an empty disk, not opened yet.
    pub fn new(alloc: Global, scenario: &Scenario, index: u32) -> Result<Self, Broken> {
        let fuse = Rc::new(alloc, Cell::new(NO_FUSE))?;
        let seat = M::new(alloc, scenario, index, fuse.clone()?)?;
        let mut member = Member::seated(alloc, index, seat, fuse);
        match member.set_up(alloc, scenario) {
            Ok(()) => Ok(member),
            Err(broken) => Err(broken),
        }
    }

    /// An honest member without crashes, whose disk has this fuse.
    fn seated(alloc: Global, index: u32, seat: M, fuse: Fuse) -> Self {
        Member {
            index,
            seat,
            liar: None,
            life: 0,
            due: None,
            view: 0,
            finals: 0,
            refused: 0,
            blocked: Vec::new(alloc),
            upkeep: Upkeep::new(None),
            fuse,
            told: 0,
            crashes: Vec::new(alloc),
            down: 0,
            downs: Vec::new(alloc),
            joins: false,
            patience: Patience::new(None),
        }
    }

    /// Sets up how it lies, when it crashes or is dead, whether it joins late, how long its host waits, and when that rewrites the record.
    fn set_up(&mut self, alloc: Global, scenario: &Scenario) -> Result<(), Broken> {
        self.patience = Patience::new(scenario.reopen);
        self.upkeep = Upkeep::new(scenario.rewrite);
        self.downs = downs_of(alloc, scenario, self.index)?;
        self.joins = scenario.joins_late(self.index);
        self.crashes = crashes_of(alloc, scenario, self.index)?;
        self.liar = liar_of(alloc, scenario, self.index)?;
        Ok(())
    }

    /// Whether it is a liar that builds two payloads.
    pub fn builds_two(&self) -> bool {
        match &self.liar {
            Some(liar) => liar.builds_two(),
            None => false,
        }
    }

    /// Notes what it built, where it is a liar.
    pub fn note_built(&mut self, first: Sha256Digest, second: Sha256Digest) -> Result<(), Broken> {
        if let Some(liar) = &mut self.liar {
            liar.note_built(first, second)?;
        }
        Ok(())
    }

    /// Whether it is a liar that runs no node.
    pub fn is_silent(&self) -> bool {
        match &self.liar {
            Some(liar) => liar.is_silent(),
            None => false,
        }
    }

    /// Whether it joins late and wasn't opened yet: before it is, it gets what to start from.
    pub fn is_joining(&self) -> bool
        ensures { IsTrue result ↔ (IsTrue self.now.joins × (self.now.life ≡ 0)) }
    {
        self.joins && self.life == 0
    }

    /// A further life of it begins.
    pub fn begin_life(&mut self, now: u64) {
        self.set_crash();
        self.life = self.life.saturating_add(1);
        self.blocked.clear();
        self.told = now;
        self.patience.begin(now);
    }

    /// When something comes to it next that nobody sends.
    pub fn next_due(&self) -> Option<u64> {
        let own = earlier(self.due, self.stuck_at());
        earlier(own, self.killed_at())
    }

    /// What comes to it at this moment: that it is killed before all else, and that it is given up before it is told the moment.
    pub fn turn(&self, now: u64) -> Turn {
        if self.is_killed_by(now) {
            return Turn::Killed;
        }
        if has_come(self.stuck_at(), now) {
            return Turn::Reopened;
        }
        if self.seat.is_up() {
            Turn::Woken
        } else {
            Turn::Opened
        }
    }

    /// Whether the next time in which it is dead has begun.
    pub fn is_killed_by(&self, now: u64) -> bool {
        has_come(self.killed_at(), now)
    }

    /// When it is killed next, if it is.
    fn killed_at(&self) -> Option<u64> {
        match self.downs.last() {
            Some(down) => Some(down.from),
            None => None,
        }
    }

    /// When its host gives its node up, where it is correct, is up, and enters no view before.
    fn stuck_at(&self) -> Option<u64> {
        if self.liar.is_some() || !self.seat.is_up() {
            return None;
        }
        self.patience.end()
    }

    /// It is dead from now on, and its disk stays as it is. When it is opened again: where it was down already, not before it would
    /// have been.
    pub fn kill(&mut self) -> u64
        ensures { self.new.due ≡ Some result }
    {
        let until = match self.downs.pop() {
            Some(down) => down.until,
            None => 0,
        };
        let due = until.max(self.opened_at());
        self.seat.close();
        self.patience.forget();
        self.due = Some(due);
        due
    }

    /// When it would be opened again, where it is down, or 0.
    fn opened_at(&self) -> u64 {
        if self.seat.is_up() {
            return 0;
        }
        self.due.unwrap_or(0)
    }

    /// Its host closes the node, which entered no view for so long as is answered. The record is to be opened.
    pub fn close(&mut self) -> u64
        ensures { self.new.due ≡ None }
    {
        self.seat.close();
        self.due = None;
        self.patience.give_up(self.view)
    }

    /// Whether the end of a run that ends at this moment at last is to wait for it: it is correct, and isn't down for longer.
    pub fn is_awaited(&self, end: u64) -> bool {
        if self.liar.is_some() {
            return false;
        }
        self.seat.is_up() || self.due.unwrap_or(0) <= end
    }

    /// Whether the moment is to be told before anything else, where that is done so often; from now on it then counts as told.
    pub fn wants_moment(&mut self, now: u64, clock: u64) -> bool {
        let is_behind = self.told.saturating_add(clock) <= now;
        if is_behind {
            self.told = now;
        }
        is_behind
    }

    /// It crashed, and is opened again after a while. How many bytes its disks have.
    pub fn go_down(&mut self, now: u64) -> usize {
        self.due = Some(now.saturating_add(self.down));
        self.patience.forget();
        self.seat.go_down()
    }

    /// Its record was opened, and begins behind this view.
    pub fn begin_behind(&mut self, floor: u64) {
        self.upkeep.begin(floor);
    }

    /// Its host rewrites its record, where enough became final since it last did: the view that it begins behind from now on, where that
    /// changed.
    pub fn keep_short(&mut self) -> Result<Option<u64>, Halt> {
        let last = self.seat.last_finalized();
        if !self.upkeep.is_due(last) {
            return Ok(None);
        }
        match self.seat.rewrite() {
            Ok(floor) => {
                self.upkeep.note(last, floor);
                Ok(floor)
            }
            Err(halt) => Err(halt),
        }
    }

    /// A crash came inside a rewrite of its record.
    pub fn note_torn(&mut self) {
        self.upkeep.tear();
    }

    /// Whether it is seen now in a view in which it wasn't seen last.
    pub fn enters(&mut self, now: u64) -> Option<u64> {
        let view = self.seat.current_view();
        if view == self.view {
            return None;
        }
        self.view = view;
        self.patience.begin(now);
        self.set_crash();
        Some(view)
    }

    /// Blocks another member.
    pub fn block(&mut self, other: u32) -> Result<(), AllocError> {
        if self.blocked.contains(&other) {
            return Ok(());
        }
        self.blocked.push(other)?;
        Ok(())
    }

    /// Whether an answer to this life of it, or a packet from this sender, reaches it.
    pub fn is_reached(&self, life: Option<u64>, sender: Option<Participant>) -> bool {
        if let Some(life) = life {
            if life != self.life {
                return false;
            }
        }
        if let Some(sender) = sender {
            if self.blocked.contains(&sender.get()) {
                return false;
            }
        }
        self.seat.is_up()
    }

    /// Sets the next crash, where the member has come to its view.
    fn set_crash(&mut self) {
        if self.fuse.get() != NO_FUSE || !self.has_crash_due() {
            return;
        }
        if let Some(crash) = self.crashes.pop() {
            self.fuse.set(crash.calls);
            self.down = crash.down;
        }
    }

    /// Whether the member has come to the view of the next crash.
    fn has_crash_due(&self) -> bool {
        match self.crashes.last() {
            Some(crash) => crash.view <= self.view,
            None => false,
        }
    }
}

/// The crashes of a member, the first one last.
fn crashes_of(alloc: Global, scenario: &Scenario, index: u32) -> Result<Vec<Crash>, AllocError> {
    let mut crashes = Vec::new(alloc);
    for crash in scenario.crashes.iter().rev() {
        if crash.member == index {
            crashes.push(*crash)?;
        }
    }
    Ok(crashes)
}

/// The times in which a member is dead, the first one last.
fn downs_of(alloc: Global, scenario: &Scenario, index: u32) -> Result<Vec<Down>, AllocError> {
    let mut downs = Vec::new(alloc);
    for down in scenario.downs.iter().rev() {
        if down.member == index {
            downs.push(*down)?;
        }
    }
    Ok(downs)
}

/// The liar that a member is, if it is one.
fn liar_of<S: Committee>(
    alloc: Global,
    scenario: &Scenario,
    index: u32,
) -> Result<Option<Liar<S>>, Broken> {
    let ways = scenario.ways(index);
    if !ways.lies() {
        return Ok(None);
    }
    let members = scenario.members;
    let scheme = member_of(alloc, members, index)?;
    let turned = scenario.seed.wrapping_mul(17);
    let seed = turned.wrapping_add(u64::from(index));
    Ok(Some(Liar::new(alloc, index, members, ways, scheme, seed)))
}

/// The committee as a member sees it.
pub fn member_of<S: Committee>(alloc: Global, members: u32, index: u32) -> Result<S, Broken> {
    match S::member_of(alloc, members, Some(Participant::new(index)), 0) {
        Ok(scheme) => Ok(scheme),
        Err(Trouble::Memory) => Err(Broken::Memory),
        Err(_) => Err(Broken::Setup),
    }
}
