//! What a page asks of scenarios that are played, over the session that its handle holds.

ghost use Rattle.std.specs.Prelude.{◌≡◌, ◌≢◌, ◌<◌, ◌⊎◌, ℕ, List, [], IfSome, None, Some, false, length, true};
ghost use Rattle.cli_calls.specs.Told.{IsPut};
ghost use Rattle.world_page.specs.Held.{held_by};
ghost use Rattle.world_page.specs.Lines.{GoesOn};
ghost use Rattle.world_page.specs.declared.status.Status.TheVariants.{Argument, Done, Room};

use crate::handle::Handle;
use crate::session::Session;
use crate::status::{Status, failed, fitted};
use cli_calls::Found;
use std::alloc::Global;
use world_network::Broken;

/// Opens the scenarios of a text.
pub(crate) fn opened(
    alloc: Global,
    is_json: bool,
    text: &[u8],
    page: &mut Handle,
    found: &mut Found,
) -> Status
    ensures opened { result ≡ Done → (page.new.live ≡ 1) × (held_by page.new ≡ Some []) }
    ensures unopened { result ≢ Done → page.new ≡ page.old }
    ensures known { (result ≢ Argument) × (result ≢ Room) }
    ensures told { (found.new.length ≡ 0) × (found.new.named ≡ 0) }
{
    found.tell(0, None);
    match Session::open(alloc, is_json, text) {
        Ok(session) => {
            *page = Handle::of(session);
            Status::Done
        }
        Err(broken) => failed(broken),
    }
}

/// Goes on for at most so many events.
pub(crate) fn gone_on(alloc: Global, page: &mut Handle, events: u32, found: &mut Found) -> Status
    ensures lines { IfSome (held_by page.old) (λ waiting.
        (left : List ℕ) × (held_by page.new ≡ Some left) × GoesOn waiting left × (found.new.length ≡ length left)) }
    ensures dead { page.old.live ≢ 1 → (result ≡ Argument) × (page.new.live ≡ 0) }
    ensures live { page.old.live ≡ 1 → (page.new.live ≡ 1) × (result ≢ Argument) × (result ≢ Room) }
{
    let Some(mut session) = page.taken(alloc) else {
        return Status::Argument;
    };
    let gone = session.go_on(alloc, events);
    let waiting = session.waiting();
    let status = u64::from(session.status());
    *page = Handle::of(session);
    tell(gone, waiting, status, found)
}

/// Tells how many bytes wait, and where nothing more is to come the status.
fn tell(gone: Result<bool, Broken>, waiting: usize, status: u64, found: &mut Found) -> Status
    ensures length { found.new.length ≡ waiting }
    ensures known { (result ≢ Argument) × (result ≢ Room) }
{
    match gone {
        Ok(goes_on) => {
            found.tell(waiting, if goes_on { None } else { Some(status) });
            Status::Done
        }
        Err(broken) => {
            found.tell(waiting, None);
            failed(broken)
        }
    }
}

/// Ends the scenario that is played.
pub(crate) fn stopped(alloc: Global, page: &mut Handle, found: &mut Found) -> Status
    ensures lines { IfSome (held_by page.old) (λ waiting.
        (left : List ℕ) × (held_by page.new ≡ Some left) × GoesOn waiting left × (found.new.length ≡ length left)) }
    ensures dead { page.old.live ≢ 1 → (result ≡ Argument) × (page.new.live ≡ 0) }
    ensures live { page.old.live ≡ 1 → (page.new.live ≡ 1) × (result ≢ Argument) × (result ≢ Room) }
{
    let Some(mut session) = page.taken(alloc) else {
        return Status::Argument;
    };
    let ended = session.stop(alloc);
    let waiting = session.waiting();
    *page = Handle::of(session);
    found.tell(waiting, None);
    match ended {
        Ok(()) => Status::Done,
        Err(broken) => failed(broken),
    }
}

/// Takes the lines that wait, where they fit at the front of the room.
pub(crate) fn lines_taken(
    alloc: Global,
    page: &mut Handle,
    room: &mut [u8],
    found: &mut Found,
) -> Status
    ensures taken { IfSome (held_by page.old) (λ waiting. result ≡ Done → IsPut waiting room.old room.new × (held_by page.new ≡ Some [])) }
    ensures no_room { IfSome (held_by page.old) (λ waiting.
        result ≢ Done → (length room.old < length waiting) × (held_by page.new ≡ Some waiting)) }
    ensures length { IfSome (held_by page.old) (λ waiting. found.new.length ≡ length waiting) }
    ensures dead { page.old.live ≢ 1 → (result ≡ Argument) × (page.new.live ≡ 0) }
    ensures live { page.old.live ≡ 1 → (page.new.live ≡ 1) × (result ≢ Argument) }
    ensures answers { (result ≡ Done) ⊎ ((result ≡ Argument) ⊎ (result ≡ Room)) }
    ensures unwritten { result ≢ Done → room.new ≡ room.old }
{
    let Some(mut session) = page.taken(alloc) else {
        return Status::Argument;
    };
    let fits = session.take(room, found);
    *page = Handle::of(session);
    fitted(fits)
}

/// Lets a session go.
pub(crate) fn closed(alloc: Global, page: &mut Handle) -> Status
    ensures live { page.old.live ≡ 1 → result ≡ Done }
    ensures dead { page.old.live ≢ 1 → result ≡ Argument }
    ensures left { (page.new.live ≡ 0) × (held_by page.new ≡ None) }
{
    match page.taken(alloc) {
        Some(_) => Status::Done,
        None => Status::Argument,
    }
}
