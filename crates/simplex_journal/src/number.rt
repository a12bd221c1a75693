//! The number of the generation that a disk holds.

ghost use Rattle.std.specs.Prelude.{◌≡◌, ◌+◌, ◌-◌, ◌≤◌, ◌<◌, ◌^◌, length, get_or, drop, IfOk, OnOk, is_ok};
ghost use Rattle.journal_single.specs.Disk.{tallied};
ghost use Rattle.journal_single.specs.Record.{size};
ghost use Rattle.simplex_journal.specs.Generation.{IsNumber, IsOf};

use journal_single::{Disk, DiskFault, number_at};

/// The first byte of a disk that holds a generation.
pub(crate) const MARK: u8 = 2;

/// How many bytes stand in front of a generation's record.
const HEAD: u64 = 9;

/// The number of the generation that these bytes hold, 0 where they hold none.
pub fn generation_of(bytes: &[u8]) -> u32
    ensures number { IsNumber bytes.now result }
{
    if bytes.len() < 10 {
        return 0;
    }
    if bytes[0] != MARK {
        return 0;
    }
    if number_at(bytes, 1) != u32::MAX {
        return 0;
    }
    number_at(bytes, 5)
}

/// The generation that these bytes hold, 0 where they hold none, and the bytes of its record.
pub fn record_in(bytes: &[u8]) -> (u32, &[u8])
    ensures record { IsOf bytes.now result.0 result.1.now }
    ensures behind { result.1.now ≡ drop (length bytes.now - length result.1.now) bytes.now }
    ensures within { length result.1.now ≤ length bytes.now }
{
    let generation = generation_of(bytes);
    if generation == 0 {
        return (0, bytes);
    }
    (generation, &bytes[9..])
}

/// The number of the generation that a disk holds, of which no more than its head is read.
///
/// # Errors
///
/// A call of the disk failed.
pub fn generation_on<K: Disk>(disk: &mut K) -> Result<u32, DiskFault>
    ensures number { IfOk result (λ generation. K.keeps → IsNumber (K.seen disk.old) generation) }
    ensures seen { OnOk result (K.keeps → K.seen disk.new ≡ K.seen disk.old) }
    ensures calls { K.keeps → K.calls disk.new ≡ K.calls disk.old }
    ensures cause { K.failed disk.new ≡ tallied (is_ok result) (K.failed disk.old) }
{
    let len = disk.len()?;
    if len <= HEAD {
        return Ok(0);
    }
    let mut head = [0u8; 10];
    disk.read(0, &mut head)?;
    Ok(generation_of(&head))
}
