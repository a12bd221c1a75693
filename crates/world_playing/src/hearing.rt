//! What comes to a member.

use crate::world::{World, index_of};
use simplex_member::Event;
use test_words::Committee;
use types_core::{Participant, Sha256Digest};
use world_members::{Handed, Parcel, Seat};
use world_network::{Arrival, Broken, Packet};

impl<S: Committee, M: Seat<S>> World<S, M> {
    /// Hands over what comes next, unless nothing does before the run's end.
    pub(crate) fn receive(&mut self) -> Result<bool, Broken> {
        let Some(moment) = self.network.next_moment() else {
            return Ok(false);
        };
        if !self.comes_to(moment) {
            return Ok(false);
        }
        match self.network.next() {
            Some(arrival) => self.deliver(arrival),
            None => Ok(false),
        }
    }

    /// Hands over what came, if it reaches the member. It answers that something came.
    fn deliver(&mut self, arrival: Arrival) -> Result<bool, Broken> {
        let place = arrival.to as usize;
        self.let_liar_hear(place, &arrival.event)?;
        if self.is_reached(place, &arrival) {
            self.hand(place, arrival.event)?;
        }
        Ok(true)
    }

    /// Whether what came reaches the member.
    fn is_reached(&self, place: usize, arrival: &Arrival) -> bool {
        match self.members.get(place) {
            Some(member) => member.is_reached(arrival.life, sender_of(&arrival.event)),
            None => false,
        }
    }

    /// Hands an event to a member, behind the moment if that is due.
    fn hand(&mut self, place: usize, event: Event<Sha256Digest>) -> Result<(), Broken> {
        match self.tell_moment(place) {
            Ok(()) => self.step(place, event),
            Err(broken) => Err(broken),
        }
    }

    /// Tells a member the moment, where it wasn't told for so long.
    fn tell_moment(&mut self, place: usize) -> Result<(), Broken> {
        let now = self.chronicle.now;
        let Some(member) = self.members.get_mut(place) else {
            return Ok(());
        };
        if !member.wants_moment(now, self.scenario.clock) {
            return Ok(());
        }
        self.step(place, Event::Moment(now))
    }

    /// Lets a liar hear a packet of a correct member, whether its node is up or not.
    fn let_liar_hear(&mut self, place: usize, event: &Event<Sha256Digest>) -> Result<(), Broken> {
        let Event::Packet {
            sender,
            channel,
            bytes,
        } = event
        else {
            return Ok(());
        };
        if !self.is_liar(place) || self.scenario.lies(sender.get()) {
            return Ok(());
        }
        let packet = Handed {
            to: None,
            channel: *channel,
            bytes,
        };
        let mut out = Vec::new(self.alloc);
        self.hear(place, *sender, &packet, &mut out)?;
        self.send_parcels(index_of(place), &out)
    }

    /// Whether a member is a liar.
    fn is_liar(&self, place: usize) -> bool {
        match self.members.get(place) {
            Some(member) => member.liar.is_some(),
            None => false,
        }
    }

    /// What a liar sends on hearing a packet.
    fn hear(
        &mut self,
        place: usize,
        sender: Participant,
        packet: &Handed<'_>,
        out: &mut Vec<Parcel>,
    ) -> Result<(), Broken> {
        let Some(member) = self.members.get_mut(place) else {
            return Ok(());
        };
        if let Some(liar) = &mut member.liar {
            liar.hear(sender, packet, out)?;
        }
        Ok(())
    }

    /// Sends what a liar wants to.
    pub(crate) fn send_parcels(&mut self, from: u32, parcels: &[Parcel]) -> Result<(), Broken> {
        for parcel in parcels {
            let packet = Packet {
                from,
                to: parcel.to,
                channel: parcel.channel,
                bytes: &parcel.bytes,
            };
            self.network
                .send(&self.scenario, self.chronicle.now, &packet)?;
        }
        Ok(())
    }
}

/// Who sent what came, if it is a packet.
fn sender_of(event: &Event<Sha256Digest>) -> Option<Participant> {
    match event {
        Event::Packet { sender, .. } => Some(*sender),
        _ => None,
    }
}
