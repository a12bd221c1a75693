//! Messages of any kind, read as far as their refusal.

ghost use Rattle.std.specs.Prelude.{◌≡◌, ◌≢◌, IfNone, IfSome};
ghost use Rattle.cli_tool.specs.Decoding.{message_size};
ghost use Rattle.simplex_c.specs.Answers.{Tells, kind_at, refusal_number};
ghost use Rattle.cli_hosted.specs.Statuses.{status_number};
ghost use Rattle.cli_hosted.specs.declared.status.Status.TheVariants.{Argument, Done, Memory, Room, Settings as Faulty, Version};
ghost use Rattle.types_codec.specs.declared.codec.CodecError.TheVariants.{Memory as NoMemory};

use cli_hosted::{Found, Status};
use cli_tool::{Kind, message_size};
use std::alloc::Global;
use types_core::CodecError;

/// Reads a message of this kind at the front of the bytes, and tells how many bytes it takes.
pub(crate) fn decoded(
    alloc: Global,
    kind: u32,
    members: u32,
    bytes: &[u8],
    found: &mut Found,
) -> Status
    ensures known { IfSome (kind_at kind) (λ it. Tells (message_size it members bytes.now) (status_number result) found.new.length) }
    ensures unknown { IfNone (kind_at kind) (result ≡ Argument) }
    ensures unnamed { IfSome (kind_at kind) (λ _. found.new.named ≡ 0) }
{
    let Some(kind) = kind_of(kind) else {
        return Status::Argument;
    };
    match message_size(alloc, kind, members, bytes) {
        Ok(size) => {
            found.tell(size, None);
            Status::Done
        }
        Err(refusal) => {
            found.tell(0, None);
            refused(refusal)
        }
    }
}

/// The kind that a number names.
pub(crate) fn kind_of(number: u32) -> Option<Kind>
    ensures { result ≡ kind_at number }
{
    match number {
        0 => Some(Kind::Vote),
        1 => Some(Kind::Certificate),
        2 => Some(Kind::Artifact),
        3 => Some(Kind::Report),
        _ => None,
    }
}

/// The status of a refusal.
pub(crate) fn refused(refusal: CodecError) -> Status
    ensures number { status_number result ≡ refusal_number refusal }
    ensures memory { refusal ≡ NoMemory → result ≡ Memory }
    ensures answers { (result ≢ Done) × ((result ≢ Argument) × ((result ≢ Room) × ((result ≢ Faulty) × (result ≢ Version)))) }
{
    match refusal {
        CodecError::End => Status::End,
        CodecError::Invalid => Status::Invalid,
        CodecError::TooLong => Status::TooLong,
        CodecError::Memory => Status::Memory,
    }
}
