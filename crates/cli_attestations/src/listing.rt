//! Attestations one behind another.

ghost use Rattle.std.specs.Prelude.{◌≡◌, ◌+◌, ◌*◌, ◌++◌, ◌<◌, ◌^◌, length, IfOk, OnOk};
ghost use Rattle.cli_attestations.specs.Marks.{marks_from};

use simplex_types::PlainSignature;
use std::alloc::{AllocError, Global};
use types_codec::u32_size;
use types_core::{Attestation, Write};

/// An attestation of a message. Any numbers may stand here before.
#[repr(C)]
#[derive(Clone, Copy, Debug, PartialEq, Eq)]
pub struct Mark {
    /// The place of the signature's first byte in the message.
    pub place: u64,
    /// The index of the member in whose name it stands.
    pub signer: u32,
    /// The signature, which names what is attested: what that member's key signs, where members have keys.
    pub hash: [u8; 32],
}

/// How many bytes a signature has.
const SIGNATURE: u64 = 32;

/// The signature as bytes, by a buffer whose bytes are left.
fn hash_of(buffer: &mut Vec<u8>, signature: &PlainSignature) -> Result<[u8; 32], AllocError>
    ensures { IfOk result (λ bytes. bytes ≡ signature.now) }
{
    buffer.clear();
    signature.append(buffer)?;
    let mut hash = [0; 32];
    hash.copy_from_slice(buffer);
    Ok(hash)
}

/// Ends the marks with those of attestations that stand one behind another from a place on.
pub(crate) fn push_listed(
    alloc: Global,
    marks: &mut Vec<Mark>,
    start: u64,
    listed: &[Attestation<PlainSignature>],
) -> Result<(), AllocError>
    requires { start + 37 * length listed.now < 2 ^ 63 }
    ensures { OnOk result (marks.new.items ≡ marks.old.items ++ marks_from start listed.now) }
{
    let mut buffer = Vec::new(alloc);
    let mut place = start;
    let mut rest = listed;
    while let Some((attestation, behind)) = rest.split_first() {
        let signer = attestation.signer.get();
        place += u32_size(signer) as u64;
        let hash = hash_of(&mut buffer, &attestation.signature)?;
        marks.push(Mark {
            place,
            signer,
            hash,
        })?;
        place += SIGNATURE;
        rest = behind;
    }
    Ok(())
}
