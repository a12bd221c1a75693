//! Votes of one kind, certificates and artifacts, read.

use messages_certificates::{
    Artifact, Certificate, Finalization, Finalize, Notarization, Notarize, Nullification, Nullify,
    ProposalCertificate, ProposalVote,
};
use std::alloc::Global;
use test_words::{Committee, Trouble, Words, assemble, attest};
use types_core::{Sha256Digest, Subject};

/// What the next words spell, of a committee of so many.
pub trait CertificateWords {
    /// `SIGNER ATT PROPOSAL`, behind `notarize`.
    fn notarize<S: Committee>(
        &mut self,
        alloc: Global,
        n: u32,
    ) -> Result<Notarize<S, Sha256Digest>, Trouble>;

    /// `SIGNER ATT EPOCH VIEW`, behind `nullify`.
    fn nullify<S: Committee>(
        &mut self,
        alloc: Global,
        n: u32,
    ) -> Result<Nullify<S, Sha256Digest>, Trouble>;

    /// `SIGNER ATT PROPOSAL`, behind `finalize`.
    fn finalize<S: Committee>(
        &mut self,
        alloc: Global,
        n: u32,
    ) -> Result<Finalize<S, Sha256Digest>, Trouble>;

    /// `SIGNERS PROPOSAL`, behind `notarization`.
    fn notarization<S: Committee>(
        &mut self,
        alloc: Global,
        n: u32,
    ) -> Result<Notarization<S, Sha256Digest>, Trouble>;

    /// `SIGNERS EPOCH VIEW`, behind `nullification`.
    fn nullification<S: Committee>(
        &mut self,
        alloc: Global,
        n: u32,
    ) -> Result<Nullification<S, Sha256Digest>, Trouble>;

    /// `SIGNERS PROPOSAL`, behind `finalization`.
    fn finalization<S: Committee>(
        &mut self,
        alloc: Global,
        n: u32,
    ) -> Result<Finalization<S, Sha256Digest>, Trouble>;

    /// A certificate of any kind, with the word of its kind.
    fn certificate<S: Committee>(
        &mut self,
        alloc: Global,
        n: u32,
    ) -> Result<Certificate<S, Sha256Digest>, Trouble>;

    /// A vote, a certificate, or `certification EPOCH VIEW T`.
    fn artifact<S: Committee>(
        &mut self,
        alloc: Global,
        n: u32,
    ) -> Result<Artifact<S, Sha256Digest>, Trouble>;
}

impl CertificateWords for Words<'_> {
    fn notarize<S: Committee>(
        &mut self,
        alloc: Global,
        n: u32,
    ) -> Result<Notarize<S, Sha256Digest>, Trouble> {
        let signer = self.member()?;
        let signing = self.signing()?;
        let proposal = self.proposal()?;
        let attestation = attest::<S>(alloc, n, signer, signing, &Subject::Notarize(&proposal))?;
        Ok(ProposalVote::new(proposal, attestation))
    }

    fn nullify<S: Committee>(
        &mut self,
        alloc: Global,
        n: u32,
    ) -> Result<Nullify<S, Sha256Digest>, Trouble> {
        let signer = self.member()?;
        let signing = self.signing()?;
        let round = self.round()?;
        let given_up = round;
        let attestation = attest::<S>(alloc, n, signer, signing, &Subject::Nullify(given_up))?;
        Ok(Nullify { round, attestation })
    }

    fn finalize<S: Committee>(
        &mut self,
        alloc: Global,
        n: u32,
    ) -> Result<Finalize<S, Sha256Digest>, Trouble> {
        let signer = self.member()?;
        let signing = self.signing()?;
        let proposal = self.proposal()?;
        let attestation = attest::<S>(alloc, n, signer, signing, &Subject::Finalize(&proposal))?;
        Ok(ProposalVote::new(proposal, attestation))
    }

    fn notarization<S: Committee>(
        &mut self,
        alloc: Global,
        n: u32,
    ) -> Result<Notarization<S, Sha256Digest>, Trouble> {
        let signers = self.numbers(alloc)?;
        let proposal = self.proposal()?;
        let certificate = assemble::<S>(alloc, n, &signers, &Subject::Notarize(&proposal))?;
        Ok(ProposalCertificate::new(proposal, certificate))
    }

    fn nullification<S: Committee>(
        &mut self,
        alloc: Global,
        n: u32,
    ) -> Result<Nullification<S, Sha256Digest>, Trouble> {
        let signers = self.numbers(alloc)?;
        let round = self.round()?;
        let given_up = round;
        let certificate = assemble::<S>(alloc, n, &signers, &Subject::Nullify(given_up))?;
        Ok(Nullification { round, certificate })
    }

    fn finalization<S: Committee>(
        &mut self,
        alloc: Global,
        n: u32,
    ) -> Result<Finalization<S, Sha256Digest>, Trouble> {
        let signers = self.numbers(alloc)?;
        let proposal = self.proposal()?;
        let certificate = assemble::<S>(alloc, n, &signers, &Subject::Finalize(&proposal))?;
        Ok(ProposalCertificate::new(proposal, certificate))
    }

    fn certificate<S: Committee>(
        &mut self,
        alloc: Global,
        n: u32,
    ) -> Result<Certificate<S, Sha256Digest>, Trouble> {
        match self.word() {
            "notarization" => Ok(Certificate::Notarization(self.notarization(alloc, n)?)),
            "nullification" => Ok(Certificate::Nullification(self.nullification(alloc, n)?)),
            "finalization" => Ok(Certificate::Finalization(self.finalization(alloc, n)?)),
            _ => Err(Trouble::Unreadable),
        }
    }

    fn artifact<S: Committee>(
        &mut self,
        alloc: Global,
        n: u32,
    ) -> Result<Artifact<S, Sha256Digest>, Trouble> {
        match self.word() {
            "notarize" => Ok(Artifact::Notarize(self.notarize(alloc, n)?)),
            "nullify" => Ok(Artifact::Nullify(self.nullify(alloc, n)?)),
            "finalize" => Ok(Artifact::Finalize(self.finalize(alloc, n)?)),
            "certification" => {
                let round = self.round()?;
                Ok(Artifact::Certification(round, self.truth()?))
            }
            "notarization" => Ok(Artifact::Notarization(self.notarization(alloc, n)?)),
            "nullification" => Ok(Artifact::Nullification(self.nullification(alloc, n)?)),
            "finalization" => Ok(Artifact::Finalization(self.finalization(alloc, n)?)),
            _ => Err(Trouble::Unreadable),
        }
    }
}
