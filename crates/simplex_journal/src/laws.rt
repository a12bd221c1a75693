//! What two disks read as.

ghost use Rattle.std.specs.Prelude.{◌≡◌, ℕ, List, map};
ghost use Rattle.simplex_journal.specs.Leaving.{LeavesReading};
ghost use Rattle.simplex_journal.specs.Reading.{ReadsPair};
ghost use Rattle.simplex_journal.specs.Standing.{IsPairRecord, PairStanding};

use journal_single::Disk;
use types_core::{EncodeSize, Read};

/// The law of readings of two disks: each two lists of bytes read as the entries of some bodies, and of
/// these alone.
pub fn two_disks_read_as_one_record()
    ensures some { (one two : List ℕ) → (bodies : List (List ℕ)) × ReadsPair one two bodies }
    ensures one { (one two : List ℕ) (bodies others : List (List ℕ)) → ReadsPair one two bodies → ReadsPair one two others → bodies ≡ others }
{}

/// While nothing is asked of its disks, a crash leaves the record that a pair holds.
pub fn a_pair_at_rest_leaves_its_record<M: Read + EncodeSize, K: Disk>()
    ensures { (pair : PairStanding K) (messages : List M)
        → IsPairRecord M.spelling K.seen K.calls pair messages
        → LeavesReading pair.is_first pair.generation (K.calls pair.first) (K.calls pair.first) (K.calls pair.second) (K.calls pair.second)
        (λ read. read ≡ map M.spelling messages) }
{}
