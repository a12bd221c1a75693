//! The room that a caller lends for an answer.

ghost use Rattle.std.specs.Prelude.{◌≡◌, ◌<◌, false, true, length};
ghost use Rattle.cli_calls.specs.Told.{AreTaken, IsPut, Names, WaitOn};

use crate::found::Found;

/// Puts what is to be told at the front of the room, where it fits, and tells whether it does.
pub fn put<T: Copy>(told: &[T], room: &mut [T]) -> bool
    ensures done { result ≡ true → IsPut told.now room.old room.new }
    ensures no_room { result ≡ false → (room.new ≡ room.old) × (length room.old < length told.now) }
{
    if room.len() < told.len() {
        return false;
    }
    let (front, _) = room.split_at_mut(told.len());
    front.copy_from_slice(told);
    true
}

/// Puts an answer at the front of the room, where it fits, and tells its size and the place that it names. Whether it fits.
pub fn answered(answer: &[u8], place: Option<usize>, room: &mut [u8], found: &mut Found) -> bool
    ensures names { Names found.new.named found.new.place place }
    ensures length { found.new.length ≡ length answer.now }
    ensures done { result ≡ true → IsPut answer.now room.old room.new }
    ensures no_room { result ≡ false → (room.new ≡ room.old) × (length room.old < length answer.now) }
{
    found.tell(answer.len(), wide(place));
    put(answer, room)
}

/// The same place.
fn wide(place: Option<usize>) -> Option<u64>
    ensures { result ≡ place }
{
    match place {
        Some(place) => Some(place as u64),
        None => None,
    }
}

/// Takes all that waits, where it fits at the front of the room, and tells its size. Whether it fits.
pub fn taken(waiting: &mut Vec<u8>, room: &mut [u8], found: &mut Found) -> bool
    ensures taken { result ≡ true → AreTaken waiting.old.items waiting.new.items room.old room.new }
    ensures no_room { result ≡ false → WaitOn waiting.old.items waiting.new.items room.old room.new }
    ensures length { found.new.length ≡ length waiting.old.items }
    ensures unnamed { found.new.named ≡ 0 }
{
    if !answered(waiting, None, room, found) {
        return false;
    }
    waiting.clear();
    true
}
