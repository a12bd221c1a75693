//! The lines on what members report.

use crate::chronicle::Chronicle;
use simplex_messages::{Activity, Nullify};
use std::alloc::AllocError;
use types_core::{Attributable, Proposal, Scheme, Sha256Digest, Viewable};

/// The word for what an opening found.
const FOUND: &str = "found";

impl Chronicle {
    /// A member reported something: its own votes, certificates, good verdicts and evidence are told.
    pub fn tell_report<S: Scheme<Sha256Digest>>(
        &mut self,
        member: u32,
        activity: &Activity<S, Sha256Digest>,
    ) -> Result<(), AllocError> {
        match activity {
            Activity::Notarize(vote) => {
                let signer = vote.signer().get();
                self.tell_vote(member, signer, "notarize", &vote.proposal)
            }
            Activity::Finalize(vote) => {
                let signer = vote.signer().get();
                self.tell_vote(member, signer, "finalize", &vote.proposal)
            }
            Activity::Nullify(vote) => self.tell_nullify(member, vote),
            certificate => self.tell_certificate(member, certificate),
        }
    }

    /// A vote for a proposal, if it is the member's own.
    fn tell_vote(
        &mut self,
        member: u32,
        signer: u32,
        kind: &str,
        proposal: &Proposal<Sha256Digest>,
    ) -> Result<(), AllocError> {
        if signer != member {
            return Ok(());
        }
        self.tell_on(member, "voted", kind, proposal)
    }

    /// A nullify, if it is the member's own.
    fn tell_nullify<S: Scheme<Sha256Digest>>(
        &mut self,
        member: u32,
        vote: &Nullify<S, Sha256Digest>,
    ) -> Result<(), AllocError> {
        if vote.signer().get() != member {
            return Ok(());
        }
        self.tell_view(member, "voted", "nullify", vote.round.view.get())
    }

    /// A certificate, a good verdict or evidence.
    fn tell_certificate<S: Scheme<Sha256Digest>>(
        &mut self,
        member: u32,
        activity: &Activity<S, Sha256Digest>,
    ) -> Result<(), AllocError> {
        match activity {
            Activity::Notarization(it) => {
                self.tell_on(member, "certified", "notarization", &it.proposal)
            }
            Activity::Finalization(it) => {
                self.tell_on(member, "certified", "finalization", &it.proposal)
            }
            Activity::Nullification(it) => {
                let view = it.round.view.get();
                self.tell_view(member, "certified", "nullification", view)
            }
            Activity::Certification(it) => self.tell_proposal(member, "judged", &it.proposal),
            evidence => self.tell_view(member, "saw", "evidence", evidence.view().get()),
        }
    }
    /// An opening found something in a member's record.
    pub fn tell_found<S: Scheme<Sha256Digest>>(
        &mut self,
        member: u32,
        activity: &Activity<S, Sha256Digest>,
    ) -> Result<(), AllocError> {
        match activity {
            Activity::Notarize(it) => self.tell_on(member, FOUND, "notarize", &it.proposal),
            Activity::Finalize(it) => self.tell_on(member, FOUND, "finalize", &it.proposal),
            Activity::Nullify(it) => {
                let view = it.round.view.get();
                self.tell_view(member, FOUND, "nullify", view)
            }
            certificate => self.tell_found_certificate(member, certificate),
        }
    }

    /// An opening found a certificate or a good verdict.
    fn tell_found_certificate<S: Scheme<Sha256Digest>>(
        &mut self,
        member: u32,
        activity: &Activity<S, Sha256Digest>,
    ) -> Result<(), AllocError> {
        match activity {
            Activity::Notarization(it) => {
                self.tell_on(member, FOUND, "notarization", &it.proposal)
            }
            Activity::Finalization(it) => {
                self.tell_on(member, FOUND, "finalization", &it.proposal)
            }
            Activity::Nullification(it) => {
                let view = it.round.view.get();
                self.tell_view(member, FOUND, "nullification", view)
            }
            Activity::Certification(it) => self.tell_on(member, FOUND, "verdict", &it.proposal),
            evidence => self.tell_view(member, FOUND, "evidence", evidence.view().get()),
        }
    }
}
