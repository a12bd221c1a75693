//! What stands for the keys of a host.

ghost use Rattle.std.specs.Prelude.{◌≡◌, ◌++◌};

use crate::hosting::{Host, Hosted};
use simplex_types::{Listed, Participant, Proposal, Scheme, Sha256Digest, Subject};
use std::alloc::{AllocError, Global};

/// A host with no key: its signatures are the hash twice, so anyone can make them.
#[derive(Drop)]
pub(crate) struct Keyless {
    index: Participant,
}

impl Host for Keyless {
    ghost index = { λ s. s.index };

    ghost signs = { λ s i hash signature. signature ≡ hash ++ hash };

    fn index(&self) -> Participant {
        self.index
    }

    fn check(&self, _member: Participant, hash: [u8; 32], signature: [u8; 64]) -> bool {
        signature == self.sign(hash)
    }

    fn sign(&self, hash: [u8; 32]) -> [u8; 64] {
        let mut bytes = [0; 64];
        let (front, back) = bytes.split_at_mut(32);
        front.copy_from_slice(&hash);
        back.copy_from_slice(&hash);
        bytes
    }
}

/// Four members, seen by the one with this index.
fn committee(index: u32) -> Listed<Hosted<Keyless>> {
    let index = Participant::new(index);
    let committee = Hosted {
        host: Keyless { index },
        base: *b"embedded",
        members: 4,
    };
    Listed { committee }
}

/// Whether a certificate of what the hosts of so many members signed verifies at the fourth.
pub(crate) fn certified_by(
    alloc: Global,
    signers: u32,
    proposal: &Proposal<Sha256Digest>,
) -> Result<bool, AllocError> {
    let subject = Subject::Notarize(proposal);
    let mut signed = Vec::new(alloc);
    for index in 0..signers {
        if let Some(attestation) = committee(index).sign(&subject) {
            signed.push(attestation)?;
        }
    }
    let judge = committee(3);
    let Some(certificate) = judge.optimistic_assemble(alloc, &subject, &signed)? else {
        return Ok(false);
    };
    Ok(judge.verify_certificate(&subject, &certificate))
}
