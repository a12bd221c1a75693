//! How the values of a committee are compared, spelled and read.

ghost use Rattle.std.specs.Prelude.{ℕ};
ghost use Rattle.types_codec.specs.Codec.{Readable};
ghost use Rattle.messages_certificates.specs.declared.artifact.Artifact.{Artifact};
ghost use Rattle.simplex_member.specs.Packet.{Formats, formats};

use messages_certificates::Artifact;
use types_core::{Digest, Read, Scheme, Write};

/// What each committee speaks, whatever its scheme and its digests: said once, so that a clause names it in one word.
pub trait Speaks<D: Digest>: Scheme<D> {
    /// How its values are compared, spelled and read, where it has so many members.
    ghost formats: { ℕ → Formats Self D Self.PublicKey Self.Signature Self.Certificate };

    /// An artifact has a spelling, and that can be read in the largest committee.
    ghost readable: { Artifact Self D Self.PublicKey Self.Signature Self.Certificate → Type 0 };
}

impl<D: Digest, S: Scheme<D>> Speaks<D> for S {
    ghost formats = { formats D.PartialEq.eq D.spelling S.Signature.spelling S.Certificate.spelling
        D.reading S.Signature.reading S.Certificate.reading };

    ghost readable = { Readable ⟦<Artifact<S, D> as Write>⟧.fits (⟦<Artifact<S, D> as Read>⟧.within 65535) };
}
