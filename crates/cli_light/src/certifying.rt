//! What a certificate certifies.

ghost use Rattle.std.specs.Prelude.{◌≡◌, ◌≢◌, ◌⊎◌, ℕ, List, Err, Ok, [], IfErr, IfOk, OnOk};
ghost use Rattle.cli_light.specs.Certifying.{Answers, Fails, IsCertified, IsSigned, PlainCertificate as PlainOne, plain_certificate_at, statement_of};
ghost use Rattle.cli_settings.specs.Checking.{HasMembers};
ghost use Rattle.messages_certificates.specs.Certificate.{certificate_round, certificate_statement};
ghost use Rattle.types_codec.specs.declared.codec.CodecError.TheVariants.{Invalid, Memory};

use cli_settings::Committee;
use simplex_messages::Certificate;
use simplex_types::PlainScheme;
use std::alloc::Global;
use types_core::{CodecError, Epochable, Proposal, Read, Round, Sha256Digest};

/// A certificate of the plain scheme.
pub(crate) type PlainCertificate = Certificate<PlainScheme, Sha256Digest>;

/// What a certificate certifies.
#[derive(Clone, Copy, Debug, PartialEq, Eq)]
pub enum Certified {
    /// That a proposal may be built on.
    Notarization(Proposal<Sha256Digest>),
    /// That a round is given up.
    Nullification(Round),
    /// That a proposal is final.
    Finalization(Proposal<Sha256Digest>),
}

/// Why a certificate's bytes certify nothing.
#[derive(Clone, Copy, Debug, PartialEq, Eq)]
pub enum Uncertified {
    /// They are not just one certificate: the first trouble from the left, or memory ran out.
    Unread(CodecError),
    /// It is of another epoch.
    OtherEpoch,
    /// It isn't signed as a certificate of these members.
    NotCertifying,
}

/// What the certificate says, whether or not it certifies it.
pub(crate) fn said_by(certificate: &PlainCertificate) -> Certified
    ensures { certificate_statement certificate.now ≡ statement_of result }
{
    match certificate {
        Certificate::Notarization(it) => Certified::Notarization(it.proposal),
        Certificate::Nullification(it) => Certified::Nullification(it.round),
        Certificate::Finalization(it) => Certified::Finalization(it.proposal),
    }
}

/// The certificate that the bytes are, where they are exactly one.
fn read_whole(alloc: Global, bytes: &[u8], members: u32) -> Result<PlainCertificate, CodecError>
    ensures read { IfOk result (λ it. plain_certificate_at members bytes.now ≡ Ok (it, [])) }
    ensures refused { IfErr result (λ why.
        (why ≡ Memory) ⊎ ((plain_certificate_at members bytes.now ≡ Err why) ⊎ ((why ≡ Invalid) × ((it : PlainOne)
        × (rest : List ℕ) × (plain_certificate_at members bytes.now ≡ Ok (it, rest)) × (rest ≢ []))))) }
{
    let mut rest = bytes;
    let certificate = PlainCertificate::read_cfg(alloc, &mut rest, members)?;
    if rest.is_empty() {
        Ok(certificate)
    } else {
        Err(CodecError::Invalid)
    }
}

/// Whether a certificate is of these members and their epoch.
pub(crate) fn hold(
    alloc: Global,
    committee: &Committee,
    certificate: &PlainCertificate,
) -> Result<(), Uncertified>
    requires { HasMembers committee.now }
    ensures of_epoch { OnOk result ((certificate_round certificate.now).epoch ≡ committee.now.epoch) }
    ensures signed { OnOk result (IsSigned committee.now certificate.now) }
    ensures fails { IfErr result (Fails committee.now certificate.now) }
{
    if certificate.epoch() != committee.epoch {
        return Err(Uncertified::OtherEpoch);
    }
    let Ok(scheme) = committee.scheme(alloc, None) else {
        return Err(Uncertified::Unread(CodecError::Memory));
    };
    if certificate.verify(&scheme) {
        Ok(())
    } else {
        Err(Uncertified::NotCertifying)
    }
}

/// What a certificate of these members certifies, of which these are the bytes.
///
/// # Errors
///
/// [`Uncertified::Unread`] where the bytes aren't just one certificate, or memory ran out; [`Uncertified::OtherEpoch`] and
/// [`Uncertified::NotCertifying`] where it is one, but none of these members in their epoch.
#[tactic(auto, using(crate::proofs::Chains::answers_of))]
pub fn certifies(
    alloc: Global,
    committee: &Committee,
    bytes: &[u8],
) -> Result<Certified, Uncertified>
    requires { HasMembers committee.now }
    ensures certified { IfOk result (IsCertified committee.now bytes.now) }
    ensures refused { IfErr result (Answers committee.now bytes.now) }
{
    match read_whole(alloc, bytes, committee.members) {
        Ok(certificate) => match hold(alloc, committee, &certificate) {
            Ok(()) => Ok(said_by(&certificate)),
            Err(why) => Err(why),
        },
        Err(trouble) => Err(Uncertified::Unread(trouble)),
    }
}
