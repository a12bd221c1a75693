//! Votes of one kind and certificates, said.

use messages_certificates::{
    Certificate, Finalization, Finalize, Notarization, Notarize, Nullification, Nullify,
};
use test_words::{Committee, Say, Trouble};
use types_core::Sha256Digest;

/// Votes of one kind and certificates in the words of scripts, each with the word of its kind.
pub trait SayCertificates {
    /// `notarize SIGNER SUM PROPOSAL`.
    fn notarize<S: Committee>(&mut self, vote: &Notarize<S, Sha256Digest>) -> Result<(), Trouble>;

    /// `nullify SIGNER SUM EPOCH VIEW`.
    fn nullify<S: Committee>(&mut self, vote: &Nullify<S, Sha256Digest>) -> Result<(), Trouble>;

    /// `finalize SIGNER SUM PROPOSAL`.
    fn finalize<S: Committee>(&mut self, vote: &Finalize<S, Sha256Digest>) -> Result<(), Trouble>;

    /// `notarization SIGNERS SUM PROPOSAL`.
    fn notarization<S: Committee>(
        &mut self,
        certificate: &Notarization<S, Sha256Digest>,
    ) -> Result<(), Trouble>;

    /// `nullification SIGNERS SUM EPOCH VIEW`.
    fn nullification<S: Committee>(
        &mut self,
        certificate: &Nullification<S, Sha256Digest>,
    ) -> Result<(), Trouble>;

    /// `finalization SIGNERS SUM PROPOSAL`.
    fn finalization<S: Committee>(
        &mut self,
        certificate: &Finalization<S, Sha256Digest>,
    ) -> Result<(), Trouble>;

    /// A certificate of any kind.
    fn certificate<S: Committee>(
        &mut self,
        certificate: &Certificate<S, Sha256Digest>,
    ) -> Result<(), Trouble>;

    /// The certificate, or `-`.
    fn notarization_or<S: Committee>(
        &mut self,
        certificate: Option<&Notarization<S, Sha256Digest>>,
    ) -> Result<(), Trouble>;

    /// The certificate, or `-`.
    fn nullification_or<S: Committee>(
        &mut self,
        certificate: Option<&Nullification<S, Sha256Digest>>,
    ) -> Result<(), Trouble>;

    /// The certificate, or `-`.
    fn finalization_or<S: Committee>(
        &mut self,
        certificate: Option<&Finalization<S, Sha256Digest>>,
    ) -> Result<(), Trouble>;

    /// The certificate, or `-`.
    fn certificate_or<S: Committee>(
        &mut self,
        certificate: Option<&Certificate<S, Sha256Digest>>,
    ) -> Result<(), Trouble>;
}

impl SayCertificates for Say {
    fn notarize<S: Committee>(&mut self, vote: &Notarize<S, Sha256Digest>) -> Result<(), Trouble> {
        self.text("notarize ")?;
        self.attestation(&vote.attestation)?;
        self.gap()?;
        self.proposal(&vote.proposal)
    }

    fn nullify<S: Committee>(&mut self, vote: &Nullify<S, Sha256Digest>) -> Result<(), Trouble> {
        self.text("nullify ")?;
        self.attestation(&vote.attestation)?;
        self.gap()?;
        self.round(&vote.round)
    }

    fn finalize<S: Committee>(&mut self, vote: &Finalize<S, Sha256Digest>) -> Result<(), Trouble> {
        self.text("finalize ")?;
        self.attestation(&vote.attestation)?;
        self.gap()?;
        self.proposal(&vote.proposal)
    }

    fn notarization<S: Committee>(
        &mut self,
        certificate: &Notarization<S, Sha256Digest>,
    ) -> Result<(), Trouble> {
        self.text("notarization ")?;
        self.attestations(S::attestations(&certificate.certificate))?;
        self.gap()?;
        self.proposal(&certificate.proposal)
    }

    fn nullification<S: Committee>(
        &mut self,
        certificate: &Nullification<S, Sha256Digest>,
    ) -> Result<(), Trouble> {
        self.text("nullification ")?;
        self.attestations(S::attestations(&certificate.certificate))?;
        self.gap()?;
        self.round(&certificate.round)
    }

    fn finalization<S: Committee>(
        &mut self,
        certificate: &Finalization<S, Sha256Digest>,
    ) -> Result<(), Trouble> {
        self.text("finalization ")?;
        self.attestations(S::attestations(&certificate.certificate))?;
        self.gap()?;
        self.proposal(&certificate.proposal)
    }

    fn certificate<S: Committee>(
        &mut self,
        certificate: &Certificate<S, Sha256Digest>,
    ) -> Result<(), Trouble> {
        match certificate {
            Certificate::Notarization(certificate) => self.notarization(certificate),
            Certificate::Nullification(certificate) => self.nullification(certificate),
            Certificate::Finalization(certificate) => self.finalization(certificate),
        }
    }

    fn notarization_or<S: Committee>(
        &mut self,
        certificate: Option<&Notarization<S, Sha256Digest>>,
    ) -> Result<(), Trouble> {
        match certificate {
            Some(certificate) => self.notarization(certificate),
            None => self.none(),
        }
    }

    fn nullification_or<S: Committee>(
        &mut self,
        certificate: Option<&Nullification<S, Sha256Digest>>,
    ) -> Result<(), Trouble> {
        match certificate {
            Some(certificate) => self.nullification(certificate),
            None => self.none(),
        }
    }

    fn finalization_or<S: Committee>(
        &mut self,
        certificate: Option<&Finalization<S, Sha256Digest>>,
    ) -> Result<(), Trouble> {
        match certificate {
            Some(certificate) => self.finalization(certificate),
            None => self.none(),
        }
    }

    fn certificate_or<S: Committee>(
        &mut self,
        certificate: Option<&Certificate<S, Sha256Digest>>,
    ) -> Result<(), Trouble> {
        match certificate {
            Some(certificate) => self.certificate(certificate),
            None => self.none(),
        }
    }
}
