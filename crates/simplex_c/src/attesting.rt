//! The attestations of a message, for hosts that have keys.

ghost use Rattle.std.specs.Prelude.{◌≡◌, ◌≢◌, ◌<◌, ◌⊎◌, List, Err, IfNone, IfSome, Ok, length};
ghost use Rattle.types_codec.specs.declared.codec.CodecError.{CodecError as Trouble};
ghost use Rattle.cli_attestations.specs.declared.listing.Mark.{Mark as Marking};
ghost use Rattle.cli_attestations.specs.Marks.{marks_in};
ghost use Rattle.cli_calls.specs.Told.{IsPut};
ghost use Rattle.cli_hosted.specs.Statuses.{status_number};
ghost use Rattle.cli_hosted.specs.declared.status.Status.TheVariants.{Argument, Done, Memory, Room};
ghost use Rattle.simplex_c.specs.Answers.{kind_at, refusal_number};

use crate::decoding::{kind_of, refused};
use cli_attestations::{Mark, attestations};
use cli_calls::{Found, put};
use cli_hosted::Status;
use cli_tool::Kind;
use std::alloc::Global;

/// The attestations of a message of this kind, at the front of the caller's room.
fn marked(
    alloc: Global,
    kind: Kind,
    members: u32,
    bytes: &[u8],
    room: &mut [Mark],
    found: &mut Found,
) -> Status
    ensures done { result ≡ Done
        → (marks : List Marking) × (marks_in kind members bytes.now ≡ Ok marks) × (found.new.length ≡ length marks)
        × IsPut marks room.old room.new }
    ensures room { result ≡ Room
        → (marks : List Marking) × (marks_in kind members bytes.now ≡ Ok marks) × (found.new.length ≡ length marks)
        × (length room.old < length marks) }
    ensures refused { result ≢ Done → result ≢ Room → result ≢ Memory
        → (why : Trouble) × (marks_in kind members bytes.now ≡ Err why) × (status_number result ≡ refusal_number why) }
    ensures known { result ≢ Argument }
    ensures unwritten { result ≢ Done → room.new ≡ room.old }
    ensures unnamed { found.new.named ≡ 0 }
{
    match attestations(alloc, kind, members, bytes) {
        Ok(marks) => {
            found.tell(marks.len(), None);
            Status::fitted(put(marks.as_slice(), room))
        }
        Err(trouble) => {
            found.tell(0, None);
            refused(trouble)
        }
    }
}

/// The same of a kind that a number names.
fn marked_at(
    alloc: Global,
    kind: u32,
    members: u32,
    bytes: &[u8],
    room: &mut [Mark],
    found: &mut Found,
) -> Status
    ensures unknown { IfNone (kind_at kind) (result ≡ Argument) }
    ensures known { IfSome (kind_at kind) (λ _. result ≢ Argument) }
    ensures done { IfSome (kind_at kind) (λ it. result ≡ Done
        → (marks : List Marking) × (marks_in it members bytes.now ≡ Ok marks) × (found.new.length ≡ length marks)
        × IsPut marks room.old room.new) }
    ensures room { IfSome (kind_at kind) (λ it. result ≡ Room
        → (marks : List Marking) × (marks_in it members bytes.now ≡ Ok marks) × (found.new.length ≡ length marks)
        × (length room.old < length marks)) }
    ensures refused { IfSome (kind_at kind) (λ it. result ≢ Done → result ≢ Room → result ≢ Memory
        → (why : Trouble) × (marks_in it members bytes.now ≡ Err why) × (status_number result ≡ refusal_number why)) }
    ensures unwritten { result ≢ Done → room.new ≡ room.old }
    ensures unnamed { result ≢ Argument → found.new.named ≡ 0 }
{
    match kind_of(kind) {
        Some(kind) => marked(alloc, kind, members, bytes, room, found),
        None => Status::Argument,
    }
}

/// The attestations of the message of this kind at the front of these bytes, in their order: kinds and refusals are those of
/// `voumlis_proved_decode`.
///
/// Answers 0 where `room` begins with them, with their number as the length; 1 where memory ran out; 2 where there is no such kind; 3
/// where there is no room for them, with their number; and 4, 5 or 6 where no message stands there. No place is named.
#[unsafe(no_mangle)]
pub extern "C" fn voumlis_proved_attestations(
    alloc: Global,
    kind: u32,
    members: u32,
    bytes: &[u8],
    room: &mut [Mark],
    found: &mut Found,
) -> u32
    ensures unknown { IfNone (kind_at kind) (result ≡ 2) }
    ensures known { IfSome (kind_at kind) (λ _. result ≢ 2) }
    ensures done { IfSome (kind_at kind) (λ it. result ≡ 0
        → (marks : List Marking) × (marks_in it members bytes.now ≡ Ok marks) × (found.new.length ≡ length marks)
        × IsPut marks room.old room.new) }
    ensures room { IfSome (kind_at kind) (λ it. result ≡ 3
        → (marks : List Marking) × (marks_in it members bytes.now ≡ Ok marks) × (found.new.length ≡ length marks)
        × (length room.old < length marks)) }
    ensures refused { IfSome (kind_at kind) (λ it. result ≢ 0 → result ≢ 3 → result ≢ 1
        → (why : Trouble) × (marks_in it members bytes.now ≡ Err why) × (result ≡ refusal_number why)) }
    ensures unwritten { result ≢ 0 → room.new ≡ room.old }
    ensures unnamed { result ≢ 2 → found.new.named ≡ 0 }
{
    marked_at(alloc, kind, members, bytes, room, found).number()
}
