//! What is under way: packets and answers of the application, which come at moments that chance picks.

use crate::scenario::{Scenario, Span};
use simplex_member::{Channel, Event};
use std::alloc::{AllocError, Global};
use std::collections::BTreeMap;
use test_schemes::Chance;
use types_core::{Participant, Sha256Digest};

/// What comes to a member.
#[derive(Drop)]
pub struct Arrival {
    /// The member.
    pub to: u32,
    /// To which of its lives alone, if it is an answer.
    pub life: Option<u64>,
    /// What comes.
    pub event: Event<Sha256Digest>,
}

/// All that is under way.
#[derive(Drop)]
pub struct Network {
    alloc: Global,
    /// What is left of what comes at the moment of the last that came, the next one last.
    coming: Vec<Arrival>,
    /// That moment.
    moment: u64,
    /// What comes behind it, by moments, in the order in which it was sent.
    later: BTreeMap<u64, Vec<Arrival>>,
    chance: Chance,
    /// How many packets were sent.
    pub sent: u64,
    /// How many of them were lost.
    pub lost: u64,
}

impl Network {
    /// Nothing under way.
    pub fn new(alloc: Global, seed: u64) -> Self {
        Network {
            alloc,
            coming: Vec::new(alloc),
            moment: 0,
            later: BTreeMap::new(alloc),
            chance: Chance::seeded(seed),
            sent: 0,
            lost: 0,
        }
    }

    /// The moment of what comes next.
    pub fn next_moment(&self) -> Option<u64> {
        if !self.coming.is_empty() {
            return Some(self.moment);
        }
        let (moment, _) = self.later.first_key_value()?;
        Some(*moment)
    }

    /// What comes next. From then on nothing is sent before its moment.
    pub fn next(&mut self) -> Option<Arrival> {
        if self.coming.is_empty() {
            let (moment, mut arrivals) = self.later.pop_first()?;
            arrivals.reverse();
            self.moment = moment;
            self.coming = arrivals;
        }
        self.coming.pop()
    }

    /// Sends a packet, which may be lost, or come twice.
    pub fn send(
        &mut self,
        scenario: &Scenario,
        now: u64,
        packet: &Packet<'_>,
    ) -> Result<(), AllocError> {
        self.sent = self.sent.saturating_add(1);
        if scenario.is_cut(now, packet.from, packet.to) || self.happens(scenario.lost) {
            self.lost = self.lost.saturating_add(1);
            return Ok(());
        }
        self.carry(scenario.delay, now, packet)?;
        if self.happens(scenario.repeated) {
            self.carry(scenario.delay, now, packet)?;
        }
        Ok(())
    }

    /// The application's answer to this life of a member, after a while.
    pub fn answer(
        &mut self,
        scenario: &Scenario,
        now: u64,
        to: u32,
        life: u64,
        event: Event<Sha256Digest>,
    ) -> Result<(), AllocError> {
        let moment = now.saturating_add(self.within(scenario.work));
        self.put(
            moment,
            Arrival {
                to,
                life: Some(life),
                event,
            },
        )
    }

    /// Whether something happens that does so often in a thousand.
    fn happens(&mut self, share: u64) -> bool {
        share > 0 && self.chance.below(1000) < share
    }

    /// A number within a span.
    fn within(&mut self, span: Span) -> u64 {
        let width = span.most.saturating_sub(span.least).saturating_add(1);
        if width == 0 {
            return span.least;
        }
        span.least.saturating_add(self.chance.below(width))
    }

    /// Puts a packet under way.
    fn carry(&mut self, delay: Span, now: u64, packet: &Packet<'_>) -> Result<(), AllocError> {
        let moment = now.saturating_add(self.within(delay));
        let bytes = Vec::from_slice(self.alloc, packet.bytes)?;
        self.put(
            moment,
            Arrival {
                to: packet.to,
                life: None,
                event: Event::Packet {
                    sender: Participant::new(packet.from),
                    channel: packet.channel,
                    bytes,
                },
            },
        )
    }

    /// Has something come at a moment, behind all else that comes then.
    fn put(&mut self, moment: u64, arrival: Arrival) -> Result<(), AllocError> {
        if let Some(arrivals) = self.later.get_mut(&moment) {
            arrivals.push(arrival)?;
            return Ok(());
        }
        let mut arrivals = Vec::new(self.alloc);
        arrivals.push(arrival)?;
        self.later.insert(moment, arrivals)?;
        Ok(())
    }
}

/// A packet that is sent.
#[derive(Clone, Copy)]
pub struct Packet<'a> {
    /// The member that sends it.
    pub from: u32,
    /// The member that it is for.
    pub to: u32,
    /// What it carries.
    pub channel: Channel,
    /// Its bytes.
    pub bytes: &'a [u8],
}
