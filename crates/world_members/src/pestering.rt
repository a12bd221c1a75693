//! What a liar sends besides: asks that no correct member would make, and certificates of views long past.

use crate::parcel::Parcel;
use simplex_member::Channel;
use std::alloc::{AllocError, Global};
use test_schemes::Chance;
use types_core::{View, Write};
use world_network::Ways;

/// How many certificates are kept at most.
const MOST_KEPT: u64 = 64;

/// How far above the last view asks go, and over how many views in all.
const AHEAD: u64 = 20;

const ASKED: u64 = 40;

/// What a liar may send besides, whatever its node does.
#[derive(Drop)]
pub(crate) struct Pestering {
    alloc: Global,
    index: u32,
    members: u32,
    ways: Ways,
    chance: Chance,
    /// The greatest view of a vote that it sent.
    view: u64,
    /// Certificates that it sent or heard.
    kept: Vec<Vec<u8>>,
}

impl Pestering {
    /// A liar's, in a committee of so many.
    pub(crate) fn new(alloc: Global, index: u32, members: u32, ways: Ways, seed: u64) -> Self {
        Pestering {
            alloc,
            index,
            members,
            ways,
            chance: Chance::seeded(seed.wrapping_add(7)),
            view: 0,
            kept: Vec::new(alloc),
        }
    }

    /// Notes a view that it voted in.
    pub(crate) fn note_view(&mut self, view: u64) {
        self.view = self.view.max(view);
    }

    /// Keeps a packet, where it is a certificate and old ones are sent. Behind the most it takes any other's place.
    pub(crate) fn note_packet(&mut self, channel: Channel, bytes: &[u8]) -> Result<(), AllocError> {
        if !self.ways.stale || channel != Channel::Certificates {
            return Ok(());
        }
        let kept = Vec::from_slice(self.alloc, bytes)?;
        if (self.kept.len() as u64) < MOST_KEPT {
            self.kept.push(kept)?;
            return Ok(());
        }
        let place = self.chance.below(MOST_KEPT) as usize;
        if let Some(other) = self.kept.get_mut(place) {
            *other = kept;
        }
        Ok(())
    }

    /// Now and then, what it sends besides to one member. How many packets these are.
    pub(crate) fn send(&mut self, out: &mut Vec<Parcel>) -> Result<u64, AllocError> {
        let before = out.len();
        if self.ways.asking && self.chance.below(2) == 0 {
            self.ask(out)?;
        }
        if self.ways.stale && self.chance.below(2) == 0 {
            self.send_old(out)?;
        }
        Ok(out.len().saturating_sub(before) as u64)
    }

    /// Another member.
    fn someone(&mut self) -> Option<u32> {
        let others = self.members.saturating_sub(1);
        if others == 0 {
            return None;
        }
        let Ok(other) = u32::try_from(self.chance.below(u64::from(others))) else {
            return None;
        };
        if other < self.index {
            return Some(other);
        }
        Some(other.saturating_add(1))
    }

    /// Asks somebody for a view about the last one, below or above.
    fn ask(&mut self, out: &mut Vec<Parcel>) -> Result<(), AllocError> {
        let Some(to) = self.someone() else {
            return Ok(());
        };
        let furthest = self.view.saturating_add(AHEAD);
        let below = self.chance.below(ASKED);
        let view = View::new(furthest.saturating_sub(below));
        let mut bytes = Vec::new(self.alloc);
        view.write(&mut bytes)?;
        out.push(Parcel {
            to,
            channel: Channel::Fetches,
            bytes,
        })?;
        Ok(())
    }

    /// Sends somebody a certificate that it kept.
    fn send_old(&mut self, out: &mut Vec<Parcel>) -> Result<(), AllocError> {
        let count = self.kept.len() as u64;
        if count == 0 {
            return Ok(());
        }
        let place = self.chance.below(count) as usize;
        let Some(to) = self.someone() else {
            return Ok(());
        };
        if let Some(kept) = self.kept.get(place) {
            out.push(Parcel {
                to,
                channel: Channel::Certificates,
                bytes: Vec::from_slice(self.alloc, kept)?,
            })?;
        }
        Ok(())
    }
}
