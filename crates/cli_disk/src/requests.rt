//! What a host is asked to do with the bytes that it keeps.

ghost use Rattle.std.specs.Prelude.{◌≡◌, ◌++◌, ◌<◌, ℕ, List, IfOk, false, length, OnErr, OnOk, true};
ghost use Rattle.cli_calls.specs.Told.{IsPut};
ghost use Rattle.cli_disk.specs.Requests.{EndsWith, cutting, fixing, number, tag_of, writing};

use cli_calls::{Found, taken};
use std::alloc::{AllocError, Global};
use std::cell::RefCell;
use std::rc::Rc;
use std::snapshot::Snapshot;

/// Which of a record's files a request speaks of.
#[derive(Clone, Copy, Drop)]
pub enum File {
    /// The one, or the first of two.
    First,
    /// The second of two.
    Second,
}

impl File {
    /// The tag of a request of this file that has the given one for the first.
    fn tag(self, first: u8) -> u8
        requires { first < 3 }
        ensures { result ≡ tag_of self first }
    {
        match self {
            File::First => first,
            File::Second => first + 3,
        }
    }
}

/// What was asked and was not taken yet, the oldest first. It is shared by the disks, which add to it, and by whoever takes it.
#[derive(Drop)]
pub struct Requests {
    list: Rc<RefCell<Vec<u8>>>,
}

impl Requests {
    /// Nothing was asked.
    pub fn new(alloc: Global) -> Result<Requests, AllocError> {
        Ok(Requests {
            list: Rc::new(alloc, RefCell::new(Vec::new(alloc)))?,
        })
    }

    /// The same list once more.
    pub fn shared(&self) -> Result<Requests, AllocError> {
        Ok(Requests {
            list: Rc::clone(&self.list)?,
        })
    }

    /// Takes all that was asked, where it fits at the front of the room, and tells its size. Whether it fits.
    pub fn take(&self, room: &mut [u8], found: &mut Found) -> bool
        ensures done { result ≡ true → (asked : List ℕ) × IsPut asked room.old room.new × (found.new.length ≡ length asked) }
        ensures no_room { result ≡ false → (room.new ≡ room.old) × (length room.old < found.new.length) }
        ensures unnamed { found.new.named ≡ 0 }
    {
        match self.list.try_borrow_mut() {
            Ok(mut list) => taken(&mut list, room, found),
            Err(_) => {
                found.tell(usize::MAX, None);
                false
            }
        }
    }

    /// Asks to write bytes into a file from a place on, and remembers what was asked then. Where there is no memory for that, nothing is
    /// asked.
    pub(crate) fn write(
        &self,
        file: File,
        at: u64,
        bytes: &[u8],
    ) -> Result<Snapshot<Vec<u8>>, AllocError>
        ensures { IfOk result (λ asked. EndsWith (writing file at bytes.now) asked.value.items) }
    {
        match self.list.try_borrow_mut() {
            Ok(mut list) => push_writing(&mut list, file, at, bytes),
            Err(_) => Err(AllocError),
        }
    }

    /// Asks to cut off all of a file behind a length.
    pub(crate) fn cut(&self, file: File, len: u64) -> Result<(), AllocError> {
        match self.list.try_borrow_mut() {
            Ok(mut list) => push_cutting(&mut list, file, len),
            Err(_) => Err(AllocError),
        }
    }

    /// Asks to fix what stands in a file.
    pub(crate) fn sync(&self, file: File) -> Result<(), AllocError> {
        match self.list.try_borrow_mut() {
            Ok(mut list) => push_fixing(&mut list, file),
            Err(_) => Err(AllocError),
        }
    }
}

/// Ends the list with this request, or leaves it as it was.
fn push_writing(
    list: &mut Vec<u8>,
    file: File,
    at: u64,
    bytes: &[u8],
) -> Result<Snapshot<Vec<u8>>, AllocError>
    ensures ok { OnOk result (list.new.items ≡ list.old.items ++ writing file at bytes.now) }
    ensures asked { IfOk result (λ asked. asked.value.items ≡ list.new.items) }
    ensures same { OnErr result (list.new.items ≡ list.old.items) }
{
    // Whatever memory may refuse comes before the first byte.
    list.reserve(bytes.len() + 17)?;
    list.push(file.tag(0)).unwrap();
    list.extend_from_slice(&number(at)).unwrap();
    list.extend_from_slice(&number(bytes.len() as u64)).unwrap();
    list.extend_from_slice(bytes).unwrap();
    Ok(Snapshot::of(list))
}

/// Ends the list with this request, or leaves it as it was.
fn push_cutting(list: &mut Vec<u8>, file: File, len: u64) -> Result<(), AllocError>
    ensures ok { OnOk result (list.new.items ≡ list.old.items ++ cutting file len) }
    ensures same { OnErr result (list.new.items ≡ list.old.items) }
{
    list.reserve(9)?;
    list.push(file.tag(1)).unwrap();
    list.extend_from_slice(&number(len)).unwrap();
    Ok(())
}

/// Ends the list with this request, or leaves it as it was.
fn push_fixing(list: &mut Vec<u8>, file: File) -> Result<(), AllocError>
    ensures ok { OnOk result (list.new.items ≡ list.old.items ++ fixing file) }
    ensures same { OnErr result (list.new.items ≡ list.old.items) }
{
    list.push(file.tag(2))?;
    Ok(())
}

/// A number as bytes.
#[tactic(auto, unfolding(crate::specs::Requests::number))]
fn number(n: u64) -> [u8; 8]
    ensures { result ≡ number n }
{
    n.to_be_bytes()
}
