//! What is read of disks.

ghost use Rattle.std.specs.Prelude.{◌≡◌, ℕ, List, map};
ghost use Rattle.journal_books.specs.declared.books.Books.{Books};
ghost use Rattle.journal_books.specs.declared.disks.Disks.{Disks};
ghost use Rattle.journal_books.specs.Books.{AreRead, IsBook, Leave, LeaveBook, MayBeRead};

use simplex_journal::{Disk, a_pair_at_rest_leaves_its_record};
use types_core::{EncodeSize, Read};

/// Of disks some bodies are read, and these alone, and a crash may leave disks of which they are read. While
/// nothing is asked of them, it leaves what a crash may leave.
pub fn disks_read_as_one_record<K: Disk>()
    ensures some { (disks : Disks K) → K.keeps → (read : List (List ℕ)) × AreRead K.Disk disks read × MayBeRead K.Disk disks read }
    ensures one { (disks : Disks K) (read others : List (List ℕ)) → AreRead K.Disk disks read → AreRead K.Disk disks others → read ≡ others }
    ensures untouched { (disks : Disks K) → Leave K.Disk disks disks (MayBeRead K.Disk disks) }
{}

/// While nothing is asked of its disks, a crash leaves the record that a journal holds.
pub fn a_book_at_rest_leaves_its_record<M: Read + EncodeSize, K: Disk>()
    ensures { (books : Books M K) (messages : List M)
        → IsBook K.Disk M.spelling books messages
        → LeaveBook K.Disk books books (λ read. read ≡ map M.spelling messages) }
{
    a_pair_at_rest_leaves_its_record::<M, K>();
}
