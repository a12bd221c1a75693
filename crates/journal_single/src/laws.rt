//! What a disk reads as.

ghost use Rattle.std.specs.Prelude.{◌≡◌, ◌≤◌, ℕ, List, map, All};
ghost use Rattle.types_codec.specs.Codec.{Readable};
ghost use Rattle.journal_single.specs.Record.{Reads};

use crate::entries::BOUND;
use types_core::{EncodeSize, Read};

/// The law of readings: each list of bytes reads as the entries of some bodies, and of these alone; and of
/// messages that can be read it reads as one list at most. So two openings that find the same bytes find
/// the same record.
pub fn a_disk_reads_as_one_record<M: Read + EncodeSize>()
    ensures some { (image : List ℕ) → (bodies : List (List ℕ)) × Reads image bodies }
    ensures one { (image : List ℕ) (bodies others : List (List ℕ)) → Reads image bodies → Reads image others → bodies ≡ others }
    ensures messages { (image : List ℕ) (messages others : List M)
        → All (Readable M.fits (M.within BOUND)) messages
        → All (Readable M.fits (M.within BOUND)) others
        → Reads image (map M.spelling messages)
        → Reads image (map M.spelling others)
        → messages ≡ others }
{}
