//! A chain of finalizations.

ghost use Rattle.std.specs.Prelude.{◌≡◌, ◌<◌, [], IfErr, IfOk, OnOk, length};
ghost use Rattle.cli_light.specs.Chain.{Breaks, FailsFinal, Follows, IsBroken, IsChain, MakesFinal};
ghost use Rattle.cli_settings.specs.Checking.{HasMembers};
ghost use Rattle.types_codec.specs.Codec.{Gives};

use crate::certifying::{Certified, PlainCertificate, Uncertified, hold, said_by};
use cli_settings::Committee;
use std::alloc::Global;
use types_core::{CodecError, Proposal, Read, Sha256Digest, Viewable};

/// Where and why a chain of finalizations breaks off.
#[derive(Clone, Copy, Debug, PartialEq, Eq)]
pub struct Broken {
    /// The place of the first byte of the certificate that is none of the chain.
    pub place: usize,
    /// Why it certifies nothing, or nothing where it is of another kind or not of a later view.
    pub why: Option<Uncertified>,
}

/// The value at the front; the bytes go on behind it.
fn next_value<M: Read>(alloc: Global, rest: &mut &[u8], bound: u32) -> Result<M, CodecError>
    requires { (value : M) → 0 < length (M.spelling value) }
    ensures exact { Gives (M.reading bound) rest.old.now rest.new.now result }
    ensures shorter { OnOk result (length rest.new.now < length rest.old.now) }
{
    M::read_cfg(alloc, rest, bound)
}

/// The proposal that the certificate makes final for these members, in a view above this one.
#[tactic(auto, using(crate::proofs::Chains::none_said))]
fn final_by(
    alloc: Global,
    committee: &Committee,
    certificate: &PlainCertificate,
    above: u64,
) -> Result<Proposal<Sha256Digest>, Option<Uncertified>>
    requires { HasMembers committee.now }
    ensures later { IfOk result (MakesFinal committee.now above certificate.now) }
    ensures none { IfErr result (FailsFinal committee.now above certificate.now) }
{
    if let Err(why) = hold(alloc, committee, certificate) {
        return Err(Some(why));
    }
    let Certified::Finalization(proposal) = said_by(certificate) else {
        return Err(None);
    };
    if proposal.view().get() > above {
        Ok(proposal)
    } else {
        Err(None)
    }
}

/// The proposal that the certificate at the front makes final for these members, in a view above this one; the bytes go on behind it.
#[tactic(auto, using(crate::proofs::Chains::breaks_unread, crate::proofs::Chains::breaks_here))]
fn next_final(
    alloc: Global,
    committee: &Committee,
    rest: &mut &[u8],
    above: u64,
) -> Result<Proposal<Sha256Digest>, Option<Uncertified>>
    requires { HasMembers committee.now }
    ensures follows { IfOk result (λ p. Follows committee.now above rest.old.now p rest.new.now) }
    ensures shorter { OnOk result (length rest.new.now < length rest.old.now) }
    ensures breaks { IfErr result (Breaks committee.now above rest.old.now) }
{
    let read: Result<PlainCertificate, CodecError> = next_value(alloc, rest, committee.members);
    match read {
        Ok(certificate) => final_by(alloc, committee, &certificate, above),
        Err(trouble) => Err(Some(Uncertified::Unread(trouble))),
    }
}

/// The proposals that these certificates, one behind another, make final for these members, each of a later view than the one before.
///
/// # Errors
///
/// The place of the first certificate that is none such, and why.
#[tactic(auto, using(crate::proofs::Chains::one_more, crate::proofs::Chains::last_of_more, crate::proofs::Chains::breaks_memory, crate::proofs::Chains::broken_at))]
pub fn finalized_in(
    alloc: Global,
    committee: &Committee,
    bytes: &[u8],
) -> Result<Vec<Proposal<Sha256Digest>>, Broken>
    requires { HasMembers committee.now }
    ensures whole { IfOk result (λ found. IsChain committee.now 0 bytes.now found.items []) }
    ensures broken { IfErr result (IsBroken committee.now bytes.now) }
{
    let mut found: Vec<Proposal<Sha256Digest>> = Vec::new(alloc);
    let mut rest = bytes;
    let mut above = 0;
    while !rest.is_empty() {
        let place = bytes.len() - rest.len();
        match next_final(alloc, committee, &mut rest, above) {
            Ok(proposal) => {
                above = proposal.view().get();
                if found.push(proposal).is_err() {
                    return Err(Broken {
                        place,
                        why: Some(Uncertified::Unread(CodecError::Memory)),
                    });
                }
            }
            Err(why) => return Err(Broken { place, why }),
        }
    }
    Ok(found)
}
