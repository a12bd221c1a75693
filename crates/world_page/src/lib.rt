//! The worlds of `simplex_world` for a page: scenarios that are gone on with event by event, and what `simplex audit` and
//! `simplex_tool check` say of bytes, as functions over numbers, slices and structs of numbers. Nothing is asked of what is passed but
//! that a handle is passed on unread, by one caller at a time; zeros are one that holds nothing.
#![tactic(auto)]

mod answering;
mod handle;
mod lines;
mod place;
mod serving;
mod session;
mod status;

ghost use Rattle.std.specs.Prelude.{◌≡◌, ◌≢◌, ◌<◌, ◌≤◌, ℕ, List, [], IfSome, None, Option, Some, length};
ghost use Rattle.cli_audit.specs.Running.{IsAnswer};
ghost use Rattle.cli_tool.specs.ToolAnswers.{IsChecked};
ghost use Rattle.cli_tool.specs.declared.style.Style.TheVariants.{Plain};
ghost use Rattle.cli_calls.specs.Told.{IsPut, Names};
ghost use Rattle.world_page.specs.Held.{held_by};
ghost use Rattle.world_page.specs.Lines.{GoesOn};

use crate::answering::{audited, looked_at};
use crate::serving::{closed, gone_on, lines_taken, opened, stopped};
use crate::status::Status;
use cli_calls::Found;
pub use handle::Handle;
pub use place::Place;
use std::alloc::Global;

/// Opens the scenarios of a text, as `simplex_world` reads them; none is begun. Lines come as JSON, unless `json` is 0 or the text says
/// otherwise.
///
/// Answers 0 where it is open, 1 where memory ran out, and 2 where a text is open in `page`.
#[unsafe(no_mangle)]
pub extern "C" fn voumlis_page_open(
    alloc: Global,
    json: u32,
    text: &[u8],
    page: &mut Handle,
    found: &mut Found,
) -> u32
    ensures occupied { page.old.live ≢ 0 → result ≡ 2 }
    ensures opened { result ≡ 0 → (page.new.live ≡ 1) × (held_by page.new ≡ Some []) }
    ensures unopened { result ≢ 0 → page.new ≡ page.old }
    ensures statuses { result ≤ 5 }
{
    if page.live != 0 {
        return Status::Argument.number();
    }
    opened(alloc, json != 0, text, page, found).number()
}

/// Goes on for at most so many events, of which the beginning and the end of a scenario is one each. Tells how many bytes of lines wait,
/// and where nothing more is to come, the status, which is that of `simplex_world`.
///
/// Answers 0 where it went on, 1 where memory ran out, which stays so, and 2 where no text is open.
#[unsafe(no_mangle)]
pub extern "C" fn voumlis_page_go_on(
    alloc: Global,
    page: &mut Handle,
    events: u32,
    found: &mut Found,
) -> u32
    ensures lines { IfSome (held_by page.old) (λ waiting.
        (left : List ℕ) × (held_by page.new ≡ Some left) × GoesOn waiting left × (found.new.length ≡ length left)) }
    ensures dead { page.old.live ≢ 1 → (result ≡ 2) × (page.new.live ≡ 0) }
    ensures live { page.old.live ≡ 1 → (page.new.live ≡ 1) × (result ≢ 2) }
    ensures statuses { result ≤ 5 }
{
    gone_on(alloc, page, events, found).number()
}

/// Ends the scenario that is played, if one is: the table and what the audit finds so far are lines of it.
///
/// Answers 0 where none is played any more, 1 where memory ran out, which stays so, and 2 where no text is open.
#[unsafe(no_mangle)]
pub extern "C" fn voumlis_page_stop(alloc: Global, page: &mut Handle, found: &mut Found) -> u32
    ensures lines { IfSome (held_by page.old) (λ waiting.
        (left : List ℕ) × (held_by page.new ≡ Some left) × GoesOn waiting left × (found.new.length ≡ length left)) }
    ensures dead { page.old.live ≢ 1 → (result ≡ 2) × (page.new.live ≡ 0) }
    ensures live { page.old.live ≡ 1 → (page.new.live ≡ 1) × (result ≢ 2) }
    ensures statuses { result ≤ 5 }
{
    stopped(alloc, page, found).number()
}

/// Takes the lines that were not taken yet, and tells their size.
///
/// Answers 0 where `room` begins with them, 2 where no text is open, and 3 where there is no room for them.
#[unsafe(no_mangle)]
pub extern "C" fn voumlis_page_lines(
    alloc: Global,
    page: &mut Handle,
    room: &mut [u8],
    found: &mut Found,
) -> u32
    ensures taken { IfSome (held_by page.old) (λ waiting. result ≡ 0 → IsPut waiting room.old room.new × (held_by page.new ≡ Some [])) }
    ensures no_room { IfSome (held_by page.old) (λ waiting.
        result ≢ 0 → (length room.old < length waiting) × (held_by page.new ≡ Some waiting)) }
    ensures length { IfSome (held_by page.old) (λ waiting. found.new.length ≡ length waiting) }
    ensures dead { page.old.live ≢ 1 → (result ≡ 2) × (page.new.live ≡ 0) }
    ensures live { page.old.live ≡ 1 → (page.new.live ≡ 1) × (result ≢ 2) }
    ensures unwritten { result ≢ 0 → room.new ≡ room.old }
    ensures statuses { result ≤ 3 }
{
    lines_taken(alloc, page, room, found).number()
}

/// Lets the text go. Answers 0, or 2 where none is open.
#[unsafe(no_mangle)]
pub extern "C" fn voumlis_page_close(alloc: Global, page: &mut Handle) -> u32
    ensures live { page.old.live ≡ 1 → result ≡ 0 }
    ensures dead { page.old.live ≢ 1 → result ≡ 2 }
    ensures left { (page.new.live ≡ 0) × (held_by page.new ≡ None) }
{
    closed(alloc, page).number()
}

/// The lines that `simplex audit` writes over these reports of a committee.
///
/// Answers 0 where `room` begins with them, 1 where memory ran out, 2 where there are no members, and 3 where there is no room for them:
/// then their size is told. The place at which no whole report stands is named, if there is one.
#[unsafe(no_mangle)]
pub extern "C" fn voumlis_page_audit(
    alloc: Global,
    members: u16,
    reports: &[u8],
    room: &mut [u8],
    found: &mut Found,
) -> u32
    ensures nobody { members ≡ 0 → result ≡ 2 }
    ensures somebody { members ≢ 0 → result ≢ 2 }
    ensures audited { result ≡ 0
        → (text : List ℕ) × (fault : Option ℕ) × IsAnswer members reports.now fault text × Names found.new.named found.new.place fault
        × (found.new.length ≡ length text) × IsPut text room.old room.new }
    ensures no_room { result ≡ 3
        → (text : List ℕ) × (fault : Option ℕ) × IsAnswer members reports.now fault text × Names found.new.named found.new.place fault
        × (found.new.length ≡ length text) × (length room.old < length text) }
    ensures unwritten { result ≢ 0 → room.new ≡ room.old }
    ensures statuses { result ≤ 4 }
{
    if members == 0 {
        return Status::Argument.number();
    }
    audited(alloc, members, reports, room, found).number()
}

/// The line that `simplex_tool check` writes on these bytes: whether they are a lawful record of this member, and else what is refused.
///
/// Answers 0 where `room` begins with it, 1 where memory ran out, 2 where there are no members, and 3 where there is no room for it: then
/// its size is told. The first entry that a lawful record refuses is named, or the place of one that is none.
#[unsafe(no_mangle)]
pub extern "C" fn voumlis_page_record(
    alloc: Global,
    members: u16,
    member: u16,
    stored: &[u8],
    room: &mut [u8],
    found: &mut Found,
) -> u32
    ensures nobody { members ≡ 0 → result ≡ 2 }
    ensures somebody { members ≢ 0 → result ≢ 2 }
    ensures checked { result ≡ 0
        → (text : List ℕ) × (named : Option ℕ) × IsChecked Plain member members stored.now text named
        × Names found.new.named found.new.place named × (found.new.length ≡ length text) × IsPut text room.old room.new }
    ensures no_room { result ≡ 3
        → (text : List ℕ) × (named : Option ℕ) × IsChecked Plain member members stored.now text named
        × Names found.new.named found.new.place named × (found.new.length ≡ length text) × (length room.old < length text) }
    ensures unwritten { result ≢ 0 → room.new ≡ room.old }
    ensures statuses { result ≤ 3 }
{
    if members == 0 {
        return Status::Argument.number();
    }
    looked_at(alloc, members, member, stored, room, found).number()
}
