//! Whole histories of a journal: openings, appends and crashes, one after the other.

ghost use Rattle.std.specs.Prelude.{◌≡◌, ℕ, List, [], ◌∷◌, map, reverse, All, IfOk, IfErr};
ghost use Rattle.types_codec.specs.Codec.{Readable};
ghost use Rattle.journal_single.specs.Disk.{Call, MayLeave};
ghost use Rattle.journal_single.specs.declared.history.Event.{Event};
ghost use Rattle.journal_single.specs.declared.history.Request.TheVariants.{Open, Append, Crash};
ghost use Rattle.journal_single.specs.History.{OfMessage, request_of, disk_of, MayRead, AtEachEvent, IsTrueOf, Finds, Remembers, IsAnswer, IsStage, GoesOn, failures_after, failures_told, Comes, CameBy};

use crate::disk::Disk;
use crate::entries::BOUND;
use crate::fault::JournalFault;
use crate::journal::Journal;
use crate::memory_disk::MemoryDisk;
use std::alloc::{AllocError, Global};
use types_core::{EncodeSize, Read};

/// A disk that a crash may come to.
pub trait Crash: Disk {
    /// The first became the second by a crash.
    ghost crashed: { Self → Self → Type 0 };

    /// A crash, and a restart: what stands on the disk then is one of the contents that the crash may
    /// leave, and so is what a further crash may leave of it.
    fn crash(&mut self)
        ensures left { Self.keeps → (image : List ℕ) → MayLeave (Self.calls self.new) image → MayLeave (Self.calls self.old) image }
        ensures no_fault { Self.failed self.new ≡ Self.failed self.old }
        ensures came { crashed self.old self.new };
}

/// A crash of the process alone: all that was written is there, as much in doubt as before.
impl Crash for MemoryDisk {
    ghost crashed = { λ old new. new ≡ old };

    fn crash(&mut self)
        ensures left { (image : List ℕ) → MayLeave self.new.calls image → MayLeave self.old.calls image }
        ensures no_fault { self.new.failures ≡ self.old.failures }
        ensures came { self.new ≡ self.old }
    {
        // All that was written is there.
    }
}

/// What is asked in a history of a disk.
#[derive(Debug, Drop, PartialEq, Eq)]
pub enum Request<M> {
    /// To open the disk, after closing the journal that is open.
    Open,
    /// To append a message to the journal that is open.
    Append(M),
    /// A crash, after which no journal is open.
    Crash,
}

/// What came of a request.
#[derive(Debug, Drop, PartialEq, Eq)]
pub enum Event<M> {
    /// The disk was opened, and holds these messages.
    Opened(Vec<M>),
    /// The opening was refused, and no journal is open.
    OpenFailed(JournalFault),
    /// The message was appended: its append answered `Ok`.
    Appended(M),
    /// The append of the message was refused.
    AppendFailed(M, JournalFault),
    /// No journal was open to which the message could be appended, and the disk was asked nothing.
    NotOpen(M),
    /// The crash came.
    Crashed,
}

/// What came of all requests, the oldest first, and the disk then.
#[derive(Drop)]
pub struct History<M, K: Disk> {
    /// One event for each request.
    pub events: Vec<Event<M>>,
    /// The disk, with no journal open.
    pub disk: K,
}

/// A disk between two requests.
#[derive(Drop)]
enum Stage<M: Read + EncodeSize, K: Disk> {
    Open(Journal<M, K>),
    Closed(K),
}

impl<M: Read + EncodeSize + Drop, K: Crash> Stage<M, K> {
    /// The disk, after closing the journal that is open.
    fn into_disk(self) -> K
        ensures { result ≡ disk_of self }
    {
        match self {
            Stage::Open(journal) => journal.close(),
            Stage::Closed(disk) => disk,
        }
    }

    /// Opens the disk, after closing the journal that is open.
    fn open(self, alloc: Global) -> (Self, Event<M>)
        ensures asked { request_of result.1 ≡ Open }
        ensures answer { (history : List (Event M)) → IsStage self history → IsAnswer history result.1 × IsStage result.0 (result.1 ∷ history) }
        ensures cause { K.failed (disk_of result.0) ≡ failures_after result.1 (K.failed (disk_of self)) }
        ensures comes { Comes K.keeps K.calls K.crashed K.failed result.1 (disk_of self) (disk_of result.0) }
        ensures stands { K.keeps → GoesOn (Readable M.fits (M.within BOUND)) M.spelling K.seen K.calls self result.0 result.1 }
    {
        match Journal::open(alloc, self.into_disk()) {
            Ok((journal, messages)) => (Stage::Open(journal), Event::Opened(messages)),
            Err((fault, disk)) => (Stage::Closed(disk), Event::OpenFailed(fault)),
        }
    }

    /// Appends a message to the journal that is open.
    fn append(self, message: M) -> (Self, Event<M>)
        requires { M.within BOUND message }
        ensures asked { request_of result.1 ≡ Append message }
        ensures answer { (history : List (Event M)) → IsStage self history → IsAnswer history result.1 × IsStage result.0 (result.1 ∷ history) }
        ensures cause { K.failed (disk_of result.0) ≡ failures_after result.1 (K.failed (disk_of self)) }
        ensures comes { Comes K.keeps K.calls K.crashed K.failed result.1 (disk_of self) (disk_of result.0) }
        ensures stands { K.keeps → GoesOn (Readable M.fits (M.within BOUND)) M.spelling K.seen K.calls self result.0 result.1 }
    {
        let mut journal = match self {
            Stage::Open(journal) => journal,
            Stage::Closed(disk) => return (Stage::Closed(disk), Event::NotOpen(message)),
        };
        match journal.append(&message) {
            Ok(()) => (Stage::Open(journal), Event::Appended(message)),
            Err(fault) => (Stage::Open(journal), Event::AppendFailed(message, fault)),
        }
    }

    /// A crash, which takes the journal that is open.
    fn crash(self) -> (Self, Event<M>)
        ensures asked { request_of result.1 ≡ Crash }
        ensures answer { (history : List (Event M)) → IsStage self history → IsAnswer history result.1 × IsStage result.0 (result.1 ∷ history) }
        ensures cause { K.failed (disk_of result.0) ≡ failures_after result.1 (K.failed (disk_of self)) }
        ensures comes { Comes K.keeps K.calls K.crashed K.failed result.1 (disk_of self) (disk_of result.0) }
        ensures stands { K.keeps → GoesOn (Readable M.fits (M.within BOUND)) M.spelling K.seen K.calls self result.0 result.1 }
    {
        let mut disk = self.into_disk();
        disk.crash();
        (Stage::Closed(disk), Event::Crashed)
    }

    /// Does what is asked.
    fn step(self, alloc: Global, request: Request<M>) -> (Self, Event<M>)
        requires { OfMessage (M.within BOUND) request }
        ensures asked { request_of result.1 ≡ request }
        ensures answer { (history : List (Event M)) → IsStage self history → IsAnswer history result.1 × IsStage result.0 (result.1 ∷ history) }
        ensures cause { K.failed (disk_of result.0) ≡ failures_after result.1 (K.failed (disk_of self)) }
        ensures comes { Comes K.keeps K.calls K.crashed K.failed result.1 (disk_of self) (disk_of result.0) }
        ensures stands { K.keeps → GoesOn (Readable M.fits (M.within BOUND)) M.spelling K.seen K.calls self result.0 result.1 }
    {
        match request {
            Request::Open => self.open(alloc),
            Request::Append(message) => self.append(message),
            Request::Crash => self.crash(),
        }
    }
}

/// Does what is asked of a disk, one after the other, and tells what came of each request.
///
/// Whatever a crash leaves at any moment, inside a call too, reads as what the last opening found,
/// followed by a prefix of the messages whose append was begun since then and not refused, with all
/// that were acknowledged. What an opening has found every later one finds, also where openings between
/// were refused. A crash inside a call is told as that call, failed for the disk, and then a crash. The disk
/// came from the one that was given by these events alone, one after the other. Each message has to be one
/// that can be read again, as for [`Journal::append`].
///
/// # Errors
///
/// Memory for the events is refused, before the disk is asked anything. The disk comes back.
pub fn run<M: Read + EncodeSize + Drop, K: Crash>(
    alloc: Global,
    disk: K,
    requests: Vec<Request<M>>,
) -> Result<History<M, K>, (AllocError, K)>
    requires { All (OfMessage (M.within BOUND)) requests.items }
    ensures asked { IfOk result (λ history. map request_of history.events.items ≡ requests.items) }
    ensures answers { IfOk result (λ history. AtEachEvent IsAnswer (reverse history.events.items)) }
    ensures cause { IfOk result (λ history. K.failed history.disk ≡ failures_told (K.failed disk) (reverse history.events.items)) }
    ensures came { IfOk result (λ history. CameBy M.spelling K.keeps K.calls K.crashed K.failed disk (reverse history.events.items) history.disk) }
    ensures refusals { IfOk result (λ history.
        K.keeps → AtEachEvent (IsTrueOf (Readable M.fits (M.within BOUND)) M.spelling (K.calls disk)) (reverse history.events.items)) }
    ensures finds { IfOk result (λ history. K.keeps → AtEachEvent (Finds M.spelling (K.calls disk)) (reverse history.events.items)) }
    ensures remembers { IfOk result (λ history. K.keeps → AtEachEvent Remembers (reverse history.events.items)) }
    ensures next_opening { IfOk result (λ history.
        K.keeps
        → (image : List ℕ)
        → MayLeave (K.calls history.disk) image
        → MayRead M.spelling (K.calls disk) (reverse history.events.items) image) }
    ensures untouched { IfErr result (λ refused. refused.1 ≡ disk) }
{
    let Ok(mut events) = Vec::with_capacity(alloc, requests.len()) else {
        return Err((AllocError, disk));
    };
    let mut stage = Stage::Closed(disk);
    for request in requests {
        let (next, event) = stage.step(alloc, request);
        stage = next;
        let Ok(()) = events.push(event) else {
            unreachable!()
        };
    }
    Ok(History {
        events,
        disk: stage.into_disk(),
    })
}
