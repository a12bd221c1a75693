//! What a certificate brings.

ghost use Rattle.std.specs.Prelude.{◌≡◌, ◌∷◌, IfErr, OnOk};
ghost use Rattle.simplex_member.specs.declared.fault.NodeFault.TheVariants as step_fault;
ghost use Rattle.simplex_member.specs.Deeds.{certificate_deeds};
ghost use Rattle.simplex_member.specs.Layers.{current_of, finalized_of};
ghost use Rattle.simplex_member.specs.Packet.{Formats, of_certificate};
ghost use Rattle.simplex_member.specs.Point.{History, Point};
ghost use Rattle.simplex_member.specs.Setup.{Setup};
ghost use Rattle.node_outbox.specs.Handing.{AddsDeeds};
ghost use Rattle.node_core.specs.Keeps.{CoreKeeps};

use crate::certificates::final_proposal;
use crate::node_state::Core;
use journal_single::Disk;
use messages_certificates::Certificate;
use node_outbox::{hand_out, hand_out_final};
use simplex_member::{Action, Channel, NodeFault};
use simplex_messages::Activity;
use types_core::{Digest, Scheme, View};
use types_terms::Elector;

impl<S: Scheme<D> + Drop, L: Elector<S, D>, D: Digest, K: Disk> Core<S, L, D, K> {
    /// Hands out what a certificate brings that was taken, once the node stands behind the point at which it was: its report, the bytes
    /// that spell it for all, the proposal that it makes final above the last final view before, and what the entered view brings, where
    /// this one was the current one before.
    pub fn hand_certificate(
        &self,
        was: View,
        low: View,
        certificate: Certificate<S, D>,
        bytes: Vec<u8>,
        out: &mut Vec<Action<S, D>>,
    ) -> Result<(), NodeFault>
        ensures acts { OnOk result ((f : Formats S D S.PublicKey S.Signature S.Certificate) (s : Setup S D S.Certificate)
            (h : History S D S.PublicKey S.Signature S.Certificate) (p : Point S D S.PublicKey S.Signature S.Certificate)
            → f.same ≡ D.PartialEq.eq
            → CoreKeeps S.Scheme L.Elector K.Disk f s self.now (p ∷ h)
            → was ≡ current_of s h
            → low ≡ finalized_of s h
            → bytes.items ≡ f.packet (of_certificate certificate)
            → AddsDeeds f out.old.items out.new.items (certificate_deeds S.Scheme f s h p certificate)) }
        ensures fault { IfErr result (λ why. why ≡ step_fault.Memory) }
    {
        let finalized = final_proposal(&certificate, low);
        hand_out(Action::Report(Activity::from(certificate)), out)?;
        let send = Action::Send {
            to: None,
            channel: Channel::Certificates,
            bytes,
        };
        hand_out(send, out)?;
        hand_out_final(finalized, out)?;
        self.relay_at_entry(was, out)
    }
}
