//! What is done with what a node hands out.

use crate::world::{World, index_of};
use simplex_member::{Action, Event};
use simplex_messages::Activity;
use std::alloc::AllocError;
use test_words::Committee;
use types_core::{Proposal, Sha256Digest, Viewable};
use world_members::{Handed, Lie, Parcel, Seat};
use world_network::{Broken, Ground, Packet};

impl<S: Committee, M: Seat<S>> World<S, M> {
    /// Does all that a node handed out.
    pub(crate) fn act_all(
        &mut self,
        place: usize,
        deeds: &[Action<S, Sha256Digest>],
    ) -> Result<(), Broken> {
        for deed in deeds {
            self.act(place, deed)?;
        }
        Ok(())
    }

    /// Does what a node handed out.
    fn act(&mut self, place: usize, deed: &Action<S, Sha256Digest>) -> Result<(), Broken> {
        match deed {
            Action::Send { to, channel, bytes } => self.send(
                place,
                &Handed {
                    to: *to,
                    channel: *channel,
                    bytes,
                },
            ),
            Action::Report(activity) => self.report(place, activity),
            Action::Finalized(proposal) => self.finalize(place, proposal),
            Action::Block(member) => self.block(place, member.get()),
            Action::Wake(moment) => self.wake_at(place, *moment),
            asked => self.answer(place, asked),
        }
    }

    /// Has the application answer what a node asks of it. What is handed on to others, nobody here needs.
    fn answer(&mut self, place: usize, asked: &Action<S, Sha256Digest>) -> Result<(), Broken> {
        match asked {
            Action::Build {
                number,
                context,
                ..
            } => self.build(place, *number, Ground::of(context)),
            Action::Verify {
                number,
                context,
                proposal,
            } => self.check(place, *number, &Ground::of(context), &proposal.payload),
            Action::Certify(proposal) => self.judge(place, proposal),
            _ => Ok(()),
        }
    }

    /// Checks a payload that is proposed on this ground.
    fn check(
        &mut self,
        place: usize,
        number: u64,
        ground: &Ground,
        payload: &Sha256Digest,
    ) -> Result<(), Broken> {
        let answer = Some(self.payloads.is_good(ground, payload));
        self.reply(place, Event::Checked { number, answer })
    }

    /// A member wants to be told the time at a moment. One whose clock lags may name a moment that has passed.
    fn wake_at(&mut self, place: usize, moment: u64) -> Result<(), Broken> {
        let due = moment.max(self.chronicle.now.saturating_add(1));
        if let Some(member) = self.members.get_mut(place) {
            member.due = Some(due);
        }
        Ok(())
    }

    /// The verdict on a proposal.
    fn judge(&mut self, place: usize, proposal: &Proposal<Sha256Digest>) -> Result<(), Broken> {
        let view = proposal.view();
        let ok = self.payloads.verdict(proposal);
        self.reply(place, Event::Verdict { view, ok })
    }

    /// Builds a payload.
    fn build(&mut self, place: usize, number: u64, ground: Ground) -> Result<(), Broken> {
        let is_certified = self.chance.below(1000) >= self.scenario.doubted;
        let payload = self.payloads.build(ground, is_certified)?;
        self.chronicle
            .tell_built(index_of(place), &ground, &payload)?;
        self.build_beside(place, &ground, payload)?;
        let payload = Some(payload);
        self.reply(place, Event::Built { number, payload })
    }

    /// Builds a second payload, where the member is a liar that has two; a liar notes what it built.
    fn build_beside(
        &mut self,
        place: usize,
        ground: &Ground,
        payload: Sha256Digest,
    ) -> Result<(), Broken> {
        if !self.builds_two(place) {
            return self.note_built(place, payload, payload);
        }
        let second = self.payloads.build(*ground, true)?;
        self.note_built(place, payload, second)?;
        self.chronicle.tell_built(index_of(place), ground, &second)?;
        Ok(())
    }

    /// Whether a member is a liar that builds two payloads.
    fn builds_two(&self, place: usize) -> bool {
        match self.members.get(place) {
            Some(member) => member.builds_two(),
            None => false,
        }
    }

    /// A liar notes what it built.
    fn note_built(
        &mut self,
        place: usize,
        first: Sha256Digest,
        second: Sha256Digest,
    ) -> Result<(), Broken> {
        match self.members.get_mut(place) {
            Some(member) => member.note_built(first, second),
            None => Ok(()),
        }
    }

    /// An answer of the application is under way.
    fn reply(&mut self, place: usize, event: Event<Sha256Digest>) -> Result<(), Broken> {
        let now = self.chronicle.now;
        let Some(member) = self.members.get(place) else {
            return Ok(());
        };
        self.network
            .answer(&self.scenario, now, member.index, member.life, event)?;
        Ok(())
    }

    /// Sends a packet for one member, or for all.
    fn send(&mut self, place: usize, packet: &Handed<'_>) -> Result<(), Broken> {
        let from = index_of(place);
        if !self.scenario.lies(from) {
            return self.send_each(from, packet);
        }
        let mut out = Vec::new(self.alloc);
        if let Some(lie) = self.lie(place, packet, &mut out)? {
            self.chronicle.tell_lied(from, lie.word(), lie.view)?;
        }
        self.send_parcels(from, &out)
    }

    /// What a liar sends in place of a packet, and the lie that is told of it.
    fn lie(
        &mut self,
        place: usize,
        packet: &Handed<'_>,
        out: &mut Vec<Parcel>,
    ) -> Result<Option<Lie>, AllocError> {
        let Some(member) = self.members.get_mut(place) else {
            return Ok(None);
        };
        let Some(liar) = &mut member.liar else {
            return Ok(None);
        };
        liar.send(&mut self.payloads, packet, out)
    }

    /// Sends a packet to each member that it is for.
    fn send_each(&mut self, from: u32, packet: &Handed<'_>) -> Result<(), Broken> {
        for member in 0..self.scenario.members {
            if packet.is_for(member, from) {
                let packet = Packet {
                    from,
                    to: member,
                    channel: packet.channel,
                    bytes: packet.bytes,
                };
                self.network
                    .send(&self.scenario, self.chronicle.now, &packet)?;
            }
        }
        Ok(())
    }

    /// A member blocks another.
    fn block(&mut self, place: usize, blocked: u32) -> Result<(), Broken> {
        let me = index_of(place);
        if let Some(member) = self.members.get_mut(place) {
            member.block(blocked)?;
        }
        if !self.scenario.lies(me) && !self.scenario.lies(blocked) {
            self.broke.blocks = self.broke.blocks.saturating_add(1);
        }
        self.chronicle.tell_blocked(me, blocked)?;
        Ok(())
    }

    /// A member tells a proposal to be final. What a liar tells counts for nothing.
    fn finalize(&mut self, place: usize, proposal: &Proposal<Sha256Digest>) -> Result<(), Broken> {
        let me = index_of(place);
        if self.scenario.lies(me) {
            return Ok(());
        }
        if let Some(member) = self.members.get_mut(place) {
            member.finals = member.finals.saturating_add(1);
        }
        self.chronicle.tell_finalized(me, proposal)?;
        if !self.chain.take(&self.payloads, proposal)? {
            self.broke.contradictions = self.broke.contradictions.saturating_add(1);
            self.chronicle.tell_contradiction(me, proposal)?;
        }
        Ok(())
    }

    /// A member reports what it took or did. What a liar reports counts for nothing.
    fn report(&mut self, place: usize, activity: &Activity<S, Sha256Digest>) -> Result<(), Broken> {
        let me = index_of(place);
        if self.scenario.lies(me) {
            return Ok(());
        }
        self.reports.add(activity)?;
        self.latest.take(activity)?;
        if self.chronicle.tells_all() {
            self.tell_report(me, activity)?;
        }
        Ok(())
    }

    /// Tells what a member reported. What an opening found is told where records are rewritten.
    fn tell_report(
        &mut self,
        member: u32,
        activity: &Activity<S, Sha256Digest>,
    ) -> Result<(), Broken> {
        if !self.is_opening {
            self.chronicle.tell_report(member, activity)?;
        } else if self.scenario.rewrite.is_some() {
            self.chronicle.tell_found(member, activity)?;
        }
        Ok(())
    }
}
