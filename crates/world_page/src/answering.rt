//! Questions about bytes that the page holds.

ghost use Rattle.std.specs.Prelude.{◌≡◌, ◌≢◌, ◌<◌, ◌⊎◌, ℕ, List, Option, length};
ghost use Rattle.cli_audit.specs.Running.{IsAnswer};
ghost use Rattle.cli_tool.specs.ToolAnswers.{IsChecked};
ghost use Rattle.cli_tool.specs.declared.style.Style.TheVariants.{Plain};
ghost use Rattle.cli_calls.specs.Told.{IsPut, Names};
ghost use Rattle.world_page.specs.declared.status.Status.TheVariants.{Device, Done, Memory, Room};

use crate::status::{Status, fitted};
use cli_audit::{Trouble, write_audit};
use cli_calls::{Found, answered};
use cli_tool::{Style, checked};
use std::alloc::Global;

/// The lines of an audit of these reports, at the front of the room.
pub(crate) fn audited(
    alloc: Global,
    members: u16,
    reports: &[u8],
    room: &mut [u8],
    found: &mut Found,
) -> Status
    requires { 0 < members }
    ensures answers { (result ≡ Done) ⊎ ((result ≡ Memory) ⊎ ((result ≡ Room) ⊎ (result ≡ Device))) }
    ensures audited { result ≡ Done
        → (text : List ℕ) × (fault : Option ℕ) × IsAnswer members reports.now fault text × Names found.new.named found.new.place fault
        × (found.new.length ≡ length text) × IsPut text room.old room.new }
    ensures no_room { result ≡ Room
        → (text : List ℕ) × (fault : Option ℕ) × IsAnswer members reports.now fault text × Names found.new.named found.new.place fault
        × (found.new.length ≡ length text) × (length room.old < length text) }
    ensures unwritten { result ≢ Done → room.new ≡ room.old }
{
    let mut text = Vec::new(alloc);
    let mut input = reports;
    match write_audit(alloc, members, &mut input, &mut text) {
        Ok(place) => fitted(answered(&text, place, room, found)),
        Err(Trouble::Memory) => Status::Memory,
        Err(_) => Status::Device,
    }
}

/// The line of what is found of a record of this member, at the front of the room.
pub(crate) fn looked_at(
    alloc: Global,
    members: u16,
    member: u16,
    stored: &[u8],
    room: &mut [u8],
    found: &mut Found,
) -> Status
    requires { 0 < members }
    ensures answers { (result ≡ Done) ⊎ ((result ≡ Memory) ⊎ (result ≡ Room)) }
    ensures checked { result ≡ Done
        → (text : List ℕ) × (named : Option ℕ) × IsChecked Plain member members stored.now text named
        × Names found.new.named found.new.place named × (found.new.length ≡ length text) × IsPut text room.old room.new }
    ensures no_room { result ≡ Room
        → (text : List ℕ) × (named : Option ℕ) × IsChecked Plain member members stored.now text named
        × Names found.new.named found.new.place named × (found.new.length ≡ length text) × (length room.old < length text) }
    ensures unwritten { result ≢ Done → room.new ≡ room.old }
{
    match checked(alloc, Style::Plain, member, members, stored) {
        Ok((text, place)) => fitted(answered(text.as_bytes(), place, room, found)),
        Err(_) => Status::Memory,
    }
}
