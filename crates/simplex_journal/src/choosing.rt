//! Which of two disks is read.

ghost use Rattle.std.specs.Prelude.{◌≡◌, IfOk, OnOk, is_ok};
ghost use Rattle.simplex_journal.specs.Generation.{IsChosen, OneCounted};

use crate::number::generation_on;
use journal_single::{Disk, DiskFault};

/// Whether the first of two disks is read: the one of the greater generation is, and at a tie the first. No
/// more than their heads is read.
///
/// # Errors
///
/// A call of a disk failed.
pub fn is_first_read<K: Disk>(first: &mut K, second: &mut K) -> Result<bool, DiskFault>
    ensures chosen { IfOk result (λ is_first. K.keeps → IsChosen is_first (K.seen first.old) (K.seen second.old)) }
    ensures seen { OnOk result (K.keeps → (K.seen first.new ≡ K.seen first.old) × (K.seen second.new ≡ K.seen second.old)) }
    ensures calls { K.keeps → (K.calls first.new ≡ K.calls first.old) × (K.calls second.new ≡ K.calls second.old) }
    ensures cause { OneCounted (is_ok result) (K.failed first.old) (K.failed first.new) (K.failed second.old) (K.failed second.new) }
{
    let one = generation_on(first)?;
    let two = generation_on(second)?;
    if one >= two {
        return Ok(true);
    }
    Ok(false)
}
