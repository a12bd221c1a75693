//! What a voter tells.

use crate::voter::Voter;
use crate::voter::looking::wanted;
use crate::voter::voting::timeout;
use messages_certificates::{Certificate, Finalization, Notarization, Nullification};
use simplex_types::PlainKey;
use test_messages::SayCertificates;
use test_words::{Committee, Say, Trouble};
use types_core::{Participant, Scheme, Sha256Digest, View};
use types_terms::Elector;
use voter_rules::knowledge::Knowledge;

/// Says who leads a view, where that is known.
pub(super) fn leader(say: &mut Say, leader: Option<Participant>) -> Result<(), Trouble> {
    match leader {
        Some(leader) => say.member(leader),
        None => say.none(),
    }
}

/// Says a notarization that was handed out.
pub fn notarized<S: Committee>(
    say: &mut Say,
    sent: Option<Notarization<S, Sha256Digest>>,
) -> Result<(), Trouble> {
    say.notarization_or(sent.as_ref())
}

/// Says a nullification that was handed out.
fn nullified<S: Committee>(
    say: &mut Say,
    sent: Option<Nullification<S, Sha256Digest>>,
) -> Result<(), Trouble> {
    say.nullification_or(sent.as_ref())
}

/// Says a finalization that was handed out.
pub fn finalized<S: Committee>(
    say: &mut Say,
    sent: Option<Finalization<S, Sha256Digest>>,
) -> Result<(), Trouble> {
    say.finalization_or(sent.as_ref())
}

/// Says a certificate that others may be helped by.
fn helped<S: Committee>(
    say: &mut Say,
    best: Option<Certificate<S, Sha256Digest>>,
) -> Result<(), Trouble> {
    say.certificate_or(best.as_ref())
}

impl<S: Committee + Scheme<Sha256Digest, PublicKey = PlainKey>, L: Elector<S, Sha256Digest>> Voter<
    S,
    L,
> {
    /// What is told of all views together.
    pub fn standing(&mut self, name: &str, say: &mut Say) -> Result<(), Trouble> {
        match name {
            "epoch" => say.number(self.state.views().epoch().get()),
            "current_view" => say.view(self.state.current_view()),
            "last_finalized" => say.view(self.state.last_finalized()),
            "min_active" => say.view(self.state.views().min_active()),
            "genesis" => say.payload_or(Knowledge::<Sha256Digest>::genesis(self.state.views())),
            "get_best_certificate" => helped(say, self.state.get_best_certificate(say.alloc)?),
            _ => self.owed(name, say),
        }
    }

    /// The calls of a moment or of a member, and those of a view.
    pub fn at_once(&mut self, name: &str, number: u64, say: &mut Say) -> Result<(), Trouble> {
        match name {
            "try_verify" => wanted(say, &self.state.try_verify(number)?),
            "next_timeout" => timeout(say, self.state.next_timeout(number)?),
            "is_me" => self.is_me(number, say),
            "begin" => {
                self.state.begin(number)?;
                say.ok()
            }
            _ => self.course(name, View::new(number), say),
        }
    }

    /// Whether the member of this index is the voter's.
    fn is_me(&self, number: u64, say: &mut Say) -> Result<(), Trouble> {
        match u32::try_from(number) {
            Ok(index) => say.truth(self.state.views().is_me(Participant::new(index))),
            Err(_) => Err(Trouble::Unreadable),
        }
    }

    /// Who leads a view, which messages of it are taken, and how far it has come.
    fn course(&mut self, name: &str, view: View, say: &mut Say) -> Result<(), Trouble> {
        match name {
            "leader_index" => leader(say, self.state.views().leader_index(view)),
            "scheduled_leader" => leader(say, self.state.views().scheduled_leader(view)),
            "admits_vote" => say.truth(self.state.views().admits_vote(view)),
            "admits_certificate" => say.truth(self.state.views().admits_certificate(view)),
            "voted_nullify" => say.truth(self.state.voted_nullify(view)),
            "is_waiting" => {
                say.truth(Knowledge::<Sha256Digest>::is_waiting(self.state.views(), view))
            }
            _ => self.kept(name, view, say),
        }
    }

    /// What is kept of a view; and that the record begins behind it.
    fn kept(&mut self, name: &str, view: View, say: &mut Say) -> Result<(), Trouble> {
        match name {
            "notarization" => say.notarization_or(self.state.views().notarization(view)),
            "nullification" => say.nullification_or(self.state.views().nullification(view)),
            "finalization" => say.finalization_or(self.state.views().finalization(view)),
            "forwardable_proposal" => {
                say.proposal_or(self.state.views().forwardable_proposal(view))
            }
            "pending_verification" => say.proposal_or(Knowledge::<
                Sha256Digest,
            >::pending_verification(self.state.views(), view)),
            "base" => {
                self.state.base(view);
                say.ok()
            }
            _ => self.sent(name, view, say),
        }
    }

    /// What is handed out of a view.
    fn sent(&mut self, name: &str, view: View, say: &mut Say) -> Result<(), Trouble> {
        let alloc = say.alloc;
        match name {
            "broadcast_notarization" => {
                notarized(say, self.state.broadcast_notarization(alloc, view)?)
            }
            "broadcast_nullification" => {
                nullified(say, self.state.broadcast_nullification(alloc, view)?)
            }
            "broadcast_finalization" => {
                finalized(say, self.state.broadcast_finalization(alloc, view)?)
            }
            _ => self.voted(name, view, say),
        }
    }
}
