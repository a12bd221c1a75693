//! A member by a file of its settings, over one disk in memory or two.

ghost use Rattle.cli_settings.specs.Checking.{IsGood};

use cli_member::{half_for, member_over, pair_over};
use cli_settings::Settings;
use journal_books::Disks;
use journal_single::MemoryDisk;
use node_wire::CountedWriter;
use test_words::{Say, Trouble, Words};

/// `member CUTS DISK EVENTS`, by these settings.
pub(crate) fn member_of(
    settings: &Settings,
    words: &mut Words<'_>,
    say: &mut Say,
) -> Result<(), Trouble>
    requires { IsGood settings.now }
{
    let cuts = words.truth()?;
    let bytes = words.bytes(say.alloc)?;
    let events = words.bytes(say.alloc)?;
    words.end()?;
    let disk = MemoryDisk::with(say.alloc, &bytes)?;
    run_over(settings, cuts, disk, &events, say)
}

/// The same over this disk.
fn run_over(
    settings: &Settings,
    cuts: bool,
    disk: MemoryDisk,
    events: &[u8],
    say: &mut Say,
) -> Result<(), Trouble>
    requires { IsGood settings.now }
{
    let mut input = events;
    let mut output = CountedWriter::new(Vec::new(say.alloc));
    let mut faults = Vec::new(say.alloc);
    let (status, disk) = member_over(
        say.alloc,
        settings,
        "m",
        cuts,
        disk,
        &mut input,
        &mut output,
        &mut faults,
    );
    say.number(u64::from(status))?;
    say.gap()?;
    say.bytes(&output.into_inner())?;
    say.gap()?;
    say.quoted(&faults)?;
    say.gap()?;
    say.bytes(disk.bytes())
}

/// `pair CUTS DISK DISK EVENTS`, by these settings.
pub(crate) fn pair_of(
    settings: &Settings,
    words: &mut Words<'_>,
    say: &mut Say,
) -> Result<(), Trouble>
    requires { IsGood settings.now }
{
    let cuts = words.truth()?;
    let first = words.bytes(say.alloc)?;
    let second = words.bytes(say.alloc)?;
    let events = words.bytes(say.alloc)?;
    words.end()?;
    let first = MemoryDisk::with(say.alloc, &first)?;
    let second = MemoryDisk::with(say.alloc, &second)?;
    run_over_both(settings, cuts, first, second, &events, say)
}

/// The same over these disks, the first of which is looked at first.
fn run_over_both(
    settings: &Settings,
    cuts: bool,
    first: MemoryDisk,
    second: MemoryDisk,
    events: &[u8],
    say: &mut Say,
) -> Result<(), Trouble>
    requires { IsGood settings.now }
{
    let mut first = first;
    let mut second = second;
    let mut input = events;
    let mut output = CountedWriter::new(Vec::new(say.alloc));
    let mut faults = Vec::new(say.alloc);
    let looked = match half_for(say.alloc, settings, "m", cuts, &mut first, &mut faults) {
        Ok(()) => half_for(say.alloc, settings, "m.2", cuts, &mut second, &mut faults),
        Err(status) => Err(status),
    };
    let (status, disks) = match looked {
        Ok(()) => pair_over(
            say.alloc,
            settings,
            first,
            second,
            &mut input,
            &mut output,
            &mut faults,
        ),
        Err(status) => (status, Disks::Two(first, second)),
    };
    say.number(u64::from(status))?;
    say.gap()?;
    say.bytes(&output.into_inner())?;
    say.gap()?;
    say.quoted(&faults)?;
    say.gap()?;
    say_both(&disks, say)
}

/// What both disks hold.
fn say_both(disks: &Disks<MemoryDisk>, say: &mut Say) -> Result<(), Trouble> {
    match disks {
        Disks::Two(first, second) => {
            say.bytes(first.bytes())?;
            say.gap()?;
            say.bytes(second.bytes())
        }
        Disks::One(_) => Err(Trouble::Condition),
    }
}
