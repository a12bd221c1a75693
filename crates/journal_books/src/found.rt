//! What an opening finds, before anything is written or cut.

ghost use Rattle.std.specs.Prelude.{◌≡◌, ◌≢◌, ◌⊎◌, ℕ, List, map, All, IfOk, IfErr, false};
ghost use Rattle.types_codec.specs.Codec.{Readable};
ghost use Rattle.simplex_journal.specs.declared.fault.PairFault.TheVariants.{Device, Foreign, Memory};
ghost use Rattle.journal_books.specs.Books.{AreLeftAsTheyWere, AreRead, HasFailed, HasFoundOn, HasNotFailed, IsBook, IsForeignOn, IsLookAt, Leave, LeaveSince, MayBeRead, are_two, disks_of, found_on, has_failed};

use crate::books::Books;
use crate::disks::Disks;
use crate::faults::told;
use simplex_journal::{BOUND, Disk, DiskFault, Found, FoundPair, Journal, Pair, PairFault};
use std::alloc::Global;
use types_core::{EncodeSize, Read};

/// What was found on one disk, or on two.
#[derive(Drop)]
pub enum FoundBooks<M: Read + EncodeSize, K: Disk> {
    /// On one.
    One(Found<M, K>),
    /// On two.
    Two(FoundPair<M, K>),
}

impl<M: Read + EncodeSize + Drop, K: Disk> FoundBooks<M, K> {
    /// Looks at disks, and writes and cuts nothing. Answers what was found with all messages of its record, so
    /// that they can be judged before it is kept; or the fault with the disks.
    ///
    /// # Errors
    ///
    /// [`PairFault::Device`], [`PairFault::Memory`] and [`PairFault::Foreign`].
    pub fn look(
        alloc: Global,
        disks: Disks<K>,
    ) -> Result<(FoundBooks<M, K>, Vec<M>), (PairFault, Disks<K>)>
        ensures found { IfOk result (λ looked. K.keeps → HasFoundOn K.Disk M.spelling looked.0 looked.1.items) }
        ensures readable { IfOk result (λ looked. All (Readable M.fits (M.within BOUND)) looked.1.items) }
        ensures reading { IfOk result (λ looked. K.keeps → AreRead K.Disk disks (map M.spelling looked.1.items)) }
        ensures left { IfOk result (λ looked. K.keeps → MayBeRead K.Disk disks (map M.spelling looked.1.items)) }
        ensures before { IfOk result (λ looked. K.keeps → IsLookAt K.Disk disks looked.0) }
        ensures untouched { IfOk result (λ looked. K.keeps → AreLeftAsTheyWere K.Disk disks (found_on looked.0)) }
        ensures untouched_by_others { IfErr result (λ refused. refused.0 ≢ Device → K.keeps → AreLeftAsTheyWere K.Disk disks refused.1) }

        // After a crash at any moment of the call something is read that might have been read after a crash before it.
        ensures any_moment { IfOk result (λ looked. K.keeps → Leave K.Disk disks (found_on looked.0) (MayBeRead K.Disk disks)) }
        ensures any_moment_of_a_fault { IfErr result (λ refused. K.keeps → Leave K.Disk disks refused.1 (MayBeRead K.Disk disks)) }

        ensures device { IfErr result (λ refused. refused.0 ≡ Device → HasFailed K.Disk disks refused.1) }
        ensures no_fault { IfOk result (λ looked. HasNotFailed K.Disk disks (found_on looked.0)) }
        ensures no_fault_of_others { IfErr result (λ refused. refused.0 ≢ Device → HasNotFailed K.Disk disks refused.1) }
        ensures foreign { IfErr result (λ refused.
            (place : ℕ) → refused.0 ≡ Foreign place → K.keeps → IsForeignOn K.Disk (Readable M.fits (M.within BOUND)) M.spelling disks place) }
        ensures faults { IfErr result (λ refused. (refused.0 ≡ Device) ⊎ ((refused.0 ≡ Memory) ⊎ ((place : ℕ) × (refused.0 ≡ Foreign place)))) }
    {
        match disks {
            Disks::One(disk) => match Journal::look(alloc, disk) {
                Ok((found, messages)) => Ok((FoundBooks::One(found), messages)),
                Err((fault, disk)) => Err((told(fault), Disks::One(disk))),
            },
            Disks::Two(first, second) => match Pair::look(alloc, first, second) {
                Ok((found, messages)) => Ok((FoundBooks::Two(found), messages)),
                Err((fault, first, second)) => Err((fault, Disks::Two(first, second))),
            },
        }
    }

    /// Makes the journal of what was found: cuts behind the record's last gate, and closes that gate.
    ///
    /// # Errors
    ///
    /// A call of a disk failed. With the disks.
    pub fn keep(self) -> Result<Books<M, K>, (DiskFault, Disks<K>)>
        ensures record { IfOk result (λ books.
            (messages : List M) → K.keeps → HasFoundOn K.Disk M.spelling self messages → IsBook K.Disk M.spelling books messages) }
        ensures fresh { IfOk result (λ books. has_failed books ≡ false) }

        // After a crash at any moment since before the look something is read that might have been read after a crash before it.
        ensures any_moment { IfOk result (λ books.
            (messages : List M) (before : Disks K)
            → K.keeps
            → HasFoundOn K.Disk M.spelling self messages
            → IsLookAt K.Disk before self
            → MayBeRead K.Disk before (map M.spelling messages)
            → LeaveSince K.Disk before books (MayBeRead K.Disk before)) }
        ensures any_moment_of_a_fault { IfErr result (λ refused.
            (messages : List M) (before : Disks K)
            → K.keeps
            → HasFoundOn K.Disk M.spelling self messages
            → IsLookAt K.Disk before self
            → MayBeRead K.Disk before (map M.spelling messages)
            → Leave K.Disk before refused.1 (MayBeRead K.Disk before)) }

        ensures device { IfErr result (λ refused. HasFailed K.Disk (found_on self) refused.1) }
        ensures no_fault { IfOk result (λ books. HasNotFailed K.Disk (found_on self) (disks_of books)) }
    {
        match self {
            FoundBooks::One(found) => match found.keep() {
                Ok(journal) => Ok(Books::One(journal)),
                Err((fault, disk)) => Err((fault, Disks::One(disk))),
            },
            FoundBooks::Two(found) => match found.keep() {
                Ok(pair) => Ok(Books::Two(pair)),
                Err((fault, first, second)) => Err((fault, Disks::Two(first, second))),
            },
        }
    }

    /// Gives the disks back, as they were found.
    pub fn close(self) -> Disks<K>
        ensures { result ≡ found_on self }
    {
        match self {
            FoundBooks::One(found) => Disks::One(found.close()),
            FoundBooks::Two(found) => {
                let (first, second) = found.close();
                Disks::Two(first, second)
            }
        }
    }
}
