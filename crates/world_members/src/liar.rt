//! What a liar sends in place of what its node hands out, and beside it.

use crate::lying::{Saying, Sayings};
use crate::parcel::{Handed, Lie, Parcel};
use crate::pestering::Pestering;
use simplex_member::Channel;
use simplex_messages::{Finalize, Notarize, Nullify, Vote};
use std::alloc::{AllocError, Global};
use test_schemes::Chance;
use test_words::Committee;
use types_core::{Participant, Proposal, Sha256Digest, Viewable, Write, decode_cfg};
use world_network::{Payloads, Ways};

/// Two payloads that were built for one view, which may be one.
#[derive(Clone, Copy)]
struct Pair {
    first: Sha256Digest,
    second: Sha256Digest,
}

/// What is sent to members of odd index in place of a vote, and which lie that is.
#[derive(Drop)]
struct Other {
    bytes: Vec<u8>,
    lie: Lie,
}

/// A liar.
#[derive(Drop)]
pub struct Liar<S: Committee> {
    alloc: Global,
    index: u32,
    members: u32,
    ways: Ways,
    scheme: S,
    chance: Chance,
    pairs: Vec<Pair>,
    said: Sayings,
    besides: Pestering,
    /// How many packets were no honest ones, or were held back.
    pub lies: u64,
}

impl<S: Committee> Liar<S> {
    /// A liar that signs so, in a committee of so many.
    pub fn new(alloc: Global, index: u32, members: u32, ways: Ways, scheme: S, seed: u64) -> Self {
        Liar {
            alloc,
            index,
            members,
            ways,
            scheme,
            chance: Chance::seeded(seed),
            pairs: Vec::new(alloc),
            said: Sayings::new(alloc),
            besides: Pestering::new(alloc, index, members, ways, seed),
            lies: 0,
        }
    }

    /// Whether it builds two payloads.
    pub fn builds_two(&self) -> bool {
        self.ways.two_proposals
    }

    /// Whether it runs no node at all.
    pub fn is_silent(&self) -> bool {
        self.ways.silent
    }

    /// Notes two payloads that were built for one view, or one twice.
    pub fn note_built(
        &mut self,
        first: Sha256Digest,
        second: Sha256Digest,
    ) -> Result<(), AllocError> {
        self.pairs.push(Pair { first, second })?;
        Ok(())
    }

    /// What it sends in place of a packet, and besides, and the lie that is told of it.
    pub fn send(
        &mut self,
        payloads: &mut Payloads,
        packet: &Handed<'_>,
        out: &mut Vec<Parcel>,
    ) -> Result<Option<Lie>, AllocError> {
        self.pester(packet, out)?;
        self.send_lying(payloads, packet, out)
    }

    /// What it sends besides.
    fn pester(&mut self, packet: &Handed<'_>, out: &mut Vec<Parcel>) -> Result<(), AllocError> {
        if let Some(vote) = self.vote_of(packet)? {
            self.besides.note_view(vote.view().get());
        }
        self.besides.note_packet(packet.channel, packet.bytes)?;
        let sent = self.besides.send(out)?;
        self.lies = self.lies.saturating_add(sent);
        Ok(())
    }

    /// What it sends in place of a packet, and the lie that is told of it.
    fn send_lying(
        &mut self,
        payloads: &mut Payloads,
        packet: &Handed<'_>,
        out: &mut Vec<Parcel>,
    ) -> Result<Option<Lie>, AllocError> {
        if self.ways.two_faced && !self.is_own_proposal(packet)? {
            return Ok(None);
        }
        let other = self.other_of(payloads, packet)?;
        self.send_each(packet, &other, out)?;
        match other {
            Some(other) => Ok(Some(other.lie)),
            None => Ok(None),
        }
    }

    /// Sends a packet to each member that it is for, or the other one.
    fn send_each(
        &mut self,
        packet: &Handed<'_>,
        other: &Option<Other>,
        out: &mut Vec<Parcel>,
    ) -> Result<(), AllocError> {
        for member in 0..self.members {
            if packet.is_for(member, self.index) {
                self.send_one(member, packet, other, out)?;
            }
        }
        Ok(())
    }

    /// The vote that a packet is.
    fn vote_of(&self, packet: &Handed<'_>) -> Result<Option<Vote<S, Sha256Digest>>, AllocError> {
        if packet.channel != Channel::Votes {
            return Ok(None);
        }
        decode_cfg(self.alloc, packet.bytes, self.members)
    }

    /// Whether a packet is a notarize for what it built.
    fn is_own_proposal(&self, packet: &Handed<'_>) -> Result<bool, AllocError> {
        let vote = self.vote_of(packet)?;
        match &vote {
            Some(Vote::Notarize(vote)) => Ok(self.beside(&vote.proposal.payload).is_some()),
            _ => Ok(false),
        }
    }

    /// Sends to one member what is meant for it.
    fn send_one(
        &mut self,
        to: u32,
        packet: &Handed<'_>,
        other: &Option<Other>,
        out: &mut Vec<Parcel>,
    ) -> Result<(), AllocError> {
        let is_odd = to % 2 == 1;
        if self.ways.withheld && is_odd {
            self.count_lie();
            return Ok(());
        }
        let mut bytes = match other {
            Some(other) if is_odd => {
                self.count_lie();
                Vec::from_slice(self.alloc, &other.bytes)?
            }
            _ => Vec::from_slice(self.alloc, packet.bytes)?,
        };
        self.spoil_some(&mut bytes);
        out.push(Parcel {
            to,
            channel: packet.channel,
            bytes,
        })?;
        Ok(())
    }

    /// Counts a lie.
    fn count_lie(&mut self) {
        self.lies = self.lies.saturating_add(1);
    }

    /// Spoils a packet, now and then, if that is how it lies.
    fn spoil_some(&mut self, bytes: &mut Vec<u8>) {
        if self.ways.forged && self.chance.below(4) == 0 {
            self.count_lie();
            self.spoil(bytes);
        }
    }

    /// Turns some bits of a byte, or cuts the last byte off.
    fn spoil(&mut self, bytes: &mut Vec<u8>) {
        let count = bytes.len() as u64;
        if count == 0 {
            return;
        }
        if self.chance.below(8) == 0 {
            let _ = bytes.pop();
            return;
        }
        let place = self.chance.below(count) as usize;
        if let Some(byte) = bytes.get_mut(place) {
            *byte ^= 0x15;
        }
    }

    /// The other vote, for members of odd index; or none.
    fn other_of(
        &mut self,
        payloads: &mut Payloads,
        packet: &Handed<'_>,
    ) -> Result<Option<Other>, AllocError> {
        let vote = self.vote_of(packet)?;
        match &vote {
            Some(Vote::Notarize(vote)) => self.other_notarize(payloads, &vote.proposal),
            Some(Vote::Finalize(vote)) => self.other_finalize(&vote.proposal),
            _ => Ok(None),
        }
    }

    /// The payload that was built beside this one.
    fn beside(&self, payload: &Sha256Digest) -> Option<Sha256Digest> {
        for pair in self.pairs.iter().rev() {
            if pair.first == *payload {
                return Some(pair.second);
            }
        }
        None
    }

    /// The other payload that was built beside this one.
    fn second_of(&self, payload: &Sha256Digest) -> Option<Sha256Digest> {
        let second = self.beside(payload)?;
        if second == *payload {
            None
        } else {
            Some(second)
        }
    }

    /// Whether it turns a vote that is not for its own proposal.
    fn turns(&mut self) -> bool {
        self.ways.two_votes && self.chance.below(2) == 1
    }

    /// The other notarize: for the other payload of its own, or one that nobody finds good.
    fn other_notarize(
        &mut self,
        payloads: &mut Payloads,
        proposal: &Proposal<Sha256Digest>,
    ) -> Result<Option<Other>, AllocError> {
        if let Some(second) = self.second_of(&proposal.payload) {
            return self.notarize_for(proposal, second, true);
        }
        if !self.turns() {
            return Ok(None);
        }
        let forged = payloads.forge(proposal)?;
        self.notarize_for(proposal, forged, false)
    }

    /// A notarize for this payload in place of that of a proposal.
    fn notarize_for(
        &self,
        proposal: &Proposal<Sha256Digest>,
        payload: Sha256Digest,
        is_proposal: bool,
    ) -> Result<Option<Other>, AllocError> {
        let view = proposal.view().get();
        let other = Proposal::new(proposal.round, proposal.parent, payload);
        match Notarize::sign(&self.scheme, other) {
            Some(vote) => self.spelled(&Vote::Notarize(vote), Lie { is_proposal, view }),
            None => Ok(None),
        }
    }

    /// The other vote in place of a finalize: for the other payload of its own, or a nullify.
    fn other_finalize(
        &mut self,
        proposal: &Proposal<Sha256Digest>,
    ) -> Result<Option<Other>, AllocError> {
        if let Some(second) = self.second_of(&proposal.payload) {
            return self.finalize_for(proposal, second);
        }
        if !self.turns() {
            return Ok(None);
        }
        self.nullify_for(proposal)
    }

    /// A finalize for this payload in place of that of a proposal.
    fn finalize_for(
        &self,
        proposal: &Proposal<Sha256Digest>,
        payload: Sha256Digest,
    ) -> Result<Option<Other>, AllocError> {
        let lie = Lie {
            is_proposal: true,
            view: proposal.view().get(),
        };
        let other = Proposal::new(proposal.round, proposal.parent, payload);
        match Finalize::sign(&self.scheme, other) {
            Some(vote) => self.spelled(&Vote::Finalize(vote), lie),
            None => Ok(None),
        }
    }

    /// A nullify in place of a finalize.
    fn nullify_for(&self, proposal: &Proposal<Sha256Digest>) -> Result<Option<Other>, AllocError> {
        let lie = Lie {
            is_proposal: false,
            view: proposal.view().get(),
        };
        match Nullify::sign(&self.scheme, proposal.round) {
            Some(vote) => self.spelled(&Vote::Nullify(vote), lie),
            None => Ok(None),
        }
    }

    /// A vote as it is spelled, with the lie that it is.
    fn spelled(&self, vote: &Vote<S, Sha256Digest>, lie: Lie) -> Result<Option<Other>, AllocError> {
        let mut bytes = Vec::new(self.alloc);
        vote.write(&mut bytes)?;
        Ok(Some(Other { bytes, lie }))
    }

    /// Notes a packet of a correct member. What a two-faced liar sends on hearing it: the same vote of its own, to the side that it
    /// came from.
    pub fn hear(
        &mut self,
        sender: Participant,
        packet: &Handed<'_>,
        out: &mut Vec<Parcel>,
    ) -> Result<(), AllocError> {
        self.besides.note_packet(packet.channel, packet.bytes)?;
        if !self.ways.two_faced {
            return Ok(());
        }
        match self.vote_of(packet)? {
            Some(vote) => self.answer(sender.get() % 2, &vote, out),
            None => Ok(()),
        }
    }

    /// Says the same as a vote on a side, once.
    fn answer(
        &mut self,
        side: u32,
        vote: &Vote<S, Sha256Digest>,
        out: &mut Vec<Parcel>,
    ) -> Result<(), AllocError> {
        if !self.said.note(Saying::of(vote, side))? {
            return Ok(());
        }
        match self.own(vote) {
            Some(own) => self.send_to_side(side, &own, out),
            None => Ok(()),
        }
    }

    /// The same vote of its own.
    fn own(&self, vote: &Vote<S, Sha256Digest>) -> Option<Vote<S, Sha256Digest>> {
        match vote {
            Vote::Notarize(vote) => {
                let own = Notarize::sign(&self.scheme, vote.proposal)?;
                Some(Vote::Notarize(own))
            }
            Vote::Nullify(vote) => {
                let own = Nullify::sign(&self.scheme, vote.round)?;
                Some(Vote::Nullify(own))
            }
            Vote::Finalize(vote) => {
                let own = Finalize::sign(&self.scheme, vote.proposal)?;
                Some(Vote::Finalize(own))
            }
        }
    }

    /// Sends a vote to all others of a side.
    fn send_to_side(
        &self,
        side: u32,
        vote: &Vote<S, Sha256Digest>,
        out: &mut Vec<Parcel>,
    ) -> Result<(), AllocError> {
        let mut bytes = Vec::new(self.alloc);
        vote.write(&mut bytes)?;
        for to in 0..self.members {
            if to != self.index && to % 2 == side {
                self.send_copy(to, &bytes, out)?;
            }
        }
        Ok(())
    }

    /// Sends a vote to a member.
    fn send_copy(&self, to: u32, bytes: &[u8], out: &mut Vec<Parcel>) -> Result<(), AllocError> {
        let bytes = Vec::from_slice(self.alloc, bytes)?;
        out.push(Parcel {
            to,
            channel: Channel::Votes,
            bytes,
        })?;
        Ok(())
    }
}
