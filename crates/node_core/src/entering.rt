//! What entering a view brings.

ghost use Rattle.std.specs.Prelude.{◌≡◌, ◌∷◌, IfOk, IfErr, OnOk};
ghost use Rattle.simplex_member.specs.declared.fault.NodeFault.TheVariants as step_fault;
ghost use Rattle.voter_history.specs.Leaders.{leader};
ghost use Rattle.simplex_member.specs.Deeds.{entered_deeds, recipients, silent};
ghost use Rattle.simplex_member.specs.Layers.{current_of, voter_of, votes_of};
ghost use Rattle.simplex_member.specs.Packet.{Formats};
ghost use Rattle.simplex_member.specs.Point.{History, Point};
ghost use Rattle.simplex_member.specs.Setup.{Setup};
ghost use Rattle.node_core.specs.Entering.{gets, serves};
ghost use Rattle.node_outbox.specs.Handing.{AddsDeeds};
ghost use Rattle.node_core.specs.Keeps.{AtAll, CoreKeeps};

use crate::node_state::Core;
use journal_single::Disk;
use node_outbox::hand_out;
use simplex_member::{Action, NodeFault};
use std::alloc::AllocError;
use types_core::{Digest, Participant, Proposal, Scheme, View};
use types_terms::{Elector, Plan};
use voter_rules::config::ForwardPolicy;

impl<S: Scheme<D> + Drop, L: Elector<S, D>, D: Digest, K: Disk> Core<S, L, D, K> {
    /// Where a view was entered since this one was the current one, hands the payload of the view before it on to those who may lack
    /// it: once the node stands behind the point that entered it.
    ///
    /// # Errors
    ///
    /// [`NodeFault::Memory`].
    pub fn relay_at_entry(&self, was: View, out: &mut Vec<Action<S, D>>) -> Result<(), NodeFault>
        ensures acts { OnOk result ((f : Formats S D S.PublicKey S.Signature S.Certificate) (s : Setup S D S.Certificate)
            (h : History S D S.PublicKey S.Signature S.Certificate) (p : Point S D S.PublicKey S.Signature S.Certificate)
            → f.same ≡ D.PartialEq.eq
            → CoreKeeps S.Scheme L.Elector K.Disk f s self.now (p ∷ h)
            → was ≡ current_of s h
            → AddsDeeds f out.old.items out.new.items (entered_deeds S.Scheme f s h p)) }
        ensures fault { IfErr result (λ why. why ≡ step_fault.Memory) }
    {
        let current = self.voter.current_view();
        if current <= was {
            return Ok(());
        }
        let Some(before) = current.previous() else {
            return Ok(());
        };
        let Some(proposal) = self.voter.views().forwardable_proposal(before) else {
            return Ok(());
        };
        let Ok(recipients) = self.recipients(current, before, &proposal) else {
            return Err(NodeFault::Memory);
        };
        if recipients.is_empty() {
            return Ok(());
        }
        let plan = Plan::Forward {
            round: proposal.round,
            recipients,
        };
        let payload = proposal.payload;
        hand_out(Action::Forward { payload, plan }, out)
    }

    /// Who gets the proposal of the view before the entered one, ascending.
    fn recipients(
        &self,
        entered: View,
        before: View,
        proposal: &Proposal<D>,
    ) -> Result<Vec<Participant>, AllocError>
        ensures { IfOk result (λ who.
            AtAll S.Scheme L.Elector K.Disk self.now (λ f s h.
            f.same ≡ D.PartialEq.eq
            → who.items ≡ recipients s.forward (leader s.voter (voter_of s h) entered) (silent S.Scheme f s h before proposal.now))) }
    {
        let mut who = Vec::new(self.settings.alloc);
        for index in 0..self.settings.scheme.participants() {
            let member = Participant::new(index);
            if self.gets(entered, before, proposal, member) {
                who.push(member)?;
            }
        }
        Ok(who)
    }

    /// Whether this member gets the proposal of the view before the entered one.
    fn gets(&self, entered: View, before: View, proposal: &Proposal<D>, member: Participant) -> bool
        ensures { AtAll S.Scheme L.Elector K.Disk self.now (λ f s h.
            f.same ≡ D.PartialEq.eq
            → result ≡ gets f.same s.me s.forward (leader s.voter (voter_of s h) entered) (votes_of s h before) proposal.now member) }
    {
        if member == self.settings.owner.signer {
            return false;
        }
        self.serves(entered, member) && self.acceptance.is_missing_voter(before, proposal, member)
    }

    /// Whether the policy lets this member have the proposal of the view before the entered one, where its vote isn't known.
    fn serves(&self, entered: View, member: Participant) -> bool
        ensures { AtAll S.Scheme L.Elector K.Disk self.now (λ f s h. result ≡ serves s.forward (leader s.voter (voter_of s h) entered) member) }
    {
        match self.settings.forward {
            ForwardPolicy::Disabled => false,
            ForwardPolicy::SilentVoters => true,
            ForwardPolicy::SilentLeader => {
                self.voter.views().leader_index(entered) == Some(member)
            }
        }
    }
}
