//! Messages of any kind, read as far as their refusal.

ghost use Rattle.std.specs.Prelude.{◌≡◌, ◌⊎◌, Err};
ghost use Rattle.types_codec.specs.declared.codec.CodecError.TheVariants.{Memory};
ghost use Rattle.cli_tool.specs.Decoding.{message_size, size_of};

use simplex_messages::{Activity, Artifact, Certificate, Vote};
use simplex_types::PlainScheme;
use std::alloc::Global;
use types_core::{CodecError, Read, Sha256Digest};

/// Which kind of message is read.
#[derive(Clone, Copy)]
pub enum Kind {
    /// A vote.
    Vote,
    /// A certificate.
    Certificate,
    /// An artifact of a record.
    Artifact,
    /// A report.
    Report,
}

/// How many bytes the message of this kind takes that stands at their front, of a committee of so many and the plain scheme.
///
/// # Errors
///
/// The first trouble from the left, or [`CodecError::Memory`].
pub fn message_size(
    alloc: Global,
    kind: Kind,
    members: u32,
    bytes: &[u8],
) -> Result<usize, CodecError>
    ensures { (result ≡ Err Memory) ⊎ (result ≡ message_size kind members bytes.now) }
{
    match kind {
        Kind::Vote => size_of::<Vote<PlainScheme, Sha256Digest>>(alloc, members, bytes),
        Kind::Certificate => {
            size_of::<Certificate<PlainScheme, Sha256Digest>>(alloc, members, bytes)
        }
        Kind::Artifact => size_of::<Artifact<PlainScheme, Sha256Digest>>(alloc, members, bytes),
        Kind::Report => size_of::<Activity<PlainScheme, Sha256Digest>>(alloc, members, bytes),
    }
}

/// How many bytes the value takes that stands at their front.
fn size_of<M: Read + Drop>(alloc: Global, bound: u32, bytes: &[u8]) -> Result<usize, CodecError>
    ensures { (result ≡ Err Memory) ⊎ (result ≡ size_of bytes.now (M.reading bound bytes.now)) }
{
    let mut rest = bytes;
    match M::read_cfg(alloc, &mut rest, bound) {
        Ok(_) => Ok(bytes.len() - rest.len()),
        Err(refusal) => Err(refusal),
    }
}
