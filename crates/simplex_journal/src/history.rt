//! Whole histories of a journal over two disks: openings, appends, rewrites and crashes, one after the other.

ghost use Rattle.std.specs.Prelude.{◌≡◌, ◌-◌, ◌^◌, ℕ, List, [], ◌∷◌, map, reverse, All, IfOk, IfErr};
ghost use Rattle.types_codec.specs.Codec.{Readable};
ghost use Rattle.journal_single.specs.Disk.{MayLeave};
ghost use Rattle.journal_single.specs.Record.{FitsBelow};
ghost use Rattle.simplex_journal.specs.declared.history.PairEvent.{PairEvent};
ghost use Rattle.simplex_journal.specs.declared.history.PairRequest.TheVariants.{Open, Append, Rewrite, Crash};
ghost use Rattle.simplex_journal.specs.PairHistory.{Both, of_both, OfMessages, request_of, disks_of, MayRead, AtEachEvent, IsTrueOf, Finds, Remembers, IsAnswer, IsStage, GoesOn, Comes, CameBy};

use crate::fault::PairFault;
use crate::pair::Pair;
use journal_single::{BOUND, Crash, Disk};
use std::alloc::{AllocError, Global};
use types_core::{EncodeSize, Read};

/// What is asked in a history of two disks.
#[derive(Drop)]
pub enum PairRequest<M> {
    /// To open both, after closing the journal that is open.
    Open,
    /// To append a message to the journal that is open.
    Append(M),
    /// To make a list the record of the journal that is open.
    Rewrite(Vec<M>),
    /// A crash of both, after which no journal is open.
    Crash,
}

/// What came of a request.
#[derive(Drop)]
pub enum PairEvent<M> {
    /// The disks were opened, and their record is these messages.
    Opened(Vec<M>),
    /// The opening was refused, and no journal is open.
    OpenFailed(PairFault),
    /// The message was appended: its append answered `Ok`.
    Appended(M),
    /// The append of the message was refused.
    AppendFailed(M, PairFault),
    /// No journal was open to which the message could be appended, and the disks were asked nothing.
    AppendNotOpen(M),
    /// The list was made the record: its rewrite answered `Ok`.
    Rewritten(Vec<M>),
    /// The rewrite was refused.
    RewriteFailed(Vec<M>, PairFault),
    /// No journal was open that could be rewritten, and the disks were asked nothing.
    RewriteNotOpen(Vec<M>),
    /// The crash came.
    Crashed,
}

/// What came of all requests, the oldest first, and the disks then.
#[derive(Drop)]
pub struct PairHistory<M, K: Disk> {
    /// One event for each request.
    pub events: Vec<PairEvent<M>>,
    /// The first disk, with no journal open.
    pub first: K,
    /// The second.
    pub second: K,
}

/// Two disks between two requests.
#[derive(Drop)]
enum Stage<M: Read + EncodeSize, K: Disk> {
    Open(Pair<M, K>),
    Closed(K, K),
}

impl<M: Read + EncodeSize + Drop, K: Crash> Stage<M, K> {
    /// The disks, after closing the journal that is open.
    fn into_disks(self) -> (K, K)
        ensures first { result.0 ≡ (disks_of self).first }
        ensures second { result.1 ≡ (disks_of self).second }
    {
        match self {
            Stage::Open(pair) => pair.close(),
            Stage::Closed(first, second) => (first, second),
        }
    }

    /// Opens the disks, after closing the journal that is open.
    fn open(self, alloc: Global) -> (Self, PairEvent<M>)
        ensures asked { request_of result.1 ≡ Open }
        ensures answer { (history : List (PairEvent M)) → IsStage self history → IsAnswer history result.1 × IsStage result.0 (result.1 ∷ history) }
        ensures comes { Comes (FitsBelow (2 ^ 32 - 1) (Readable M.fits (M.within BOUND)) M.spelling) M.spelling K.keeps K.seen K.calls
            K.crashed K.failed result.1 (disks_of self) (disks_of result.0) }
        ensures stands { K.keeps
            → GoesOn (FitsBelow (2 ^ 32 - 1) (Readable M.fits (M.within BOUND)) M.spelling) M.spelling K.seen K.calls self result.0 result.1 }
    {
        let (first, second) = self.into_disks();
        match Pair::open(alloc, first, second) {
            Ok((pair, messages)) => (Stage::Open(pair), PairEvent::Opened(messages)),
            Err((fault, first, second)) => (
                Stage::Closed(first, second),
                PairEvent::OpenFailed(fault),
            ),
        }
    }

    /// Appends a message to the journal that is open.
    fn append(self, message: M) -> (Self, PairEvent<M>)
        requires { M.within BOUND message }
        ensures asked { request_of result.1 ≡ Append message }
        ensures answer { (history : List (PairEvent M)) → IsStage self history → IsAnswer history result.1 × IsStage result.0 (result.1 ∷ history) }
        ensures comes { Comes (FitsBelow (2 ^ 32 - 1) (Readable M.fits (M.within BOUND)) M.spelling) M.spelling K.keeps K.seen K.calls
            K.crashed K.failed result.1 (disks_of self) (disks_of result.0) }
        ensures stands { K.keeps
            → GoesOn (FitsBelow (2 ^ 32 - 1) (Readable M.fits (M.within BOUND)) M.spelling) M.spelling K.seen K.calls self result.0 result.1 }
    {
        let mut pair = match self {
            Stage::Open(pair) => pair,
            Stage::Closed(first, second) => {
                return (
                    Stage::Closed(first, second),
                    PairEvent::AppendNotOpen(message),
                );
            }
        };
        match pair.append(&message) {
            Ok(()) => (Stage::Open(pair), PairEvent::Appended(message)),
            Err(fault) => (Stage::Open(pair), PairEvent::AppendFailed(message, fault)),
        }
    }

    /// Makes a list the record of the journal that is open.
    fn rewrite(self, list: Vec<M>) -> (Self, PairEvent<M>)
        requires { All (M.within BOUND) list.items }
        ensures asked { request_of result.1 ≡ Rewrite list }
        ensures answer { (history : List (PairEvent M)) → IsStage self history → IsAnswer history result.1 × IsStage result.0 (result.1 ∷ history) }
        ensures comes { Comes (FitsBelow (2 ^ 32 - 1) (Readable M.fits (M.within BOUND)) M.spelling) M.spelling K.keeps K.seen K.calls
            K.crashed K.failed result.1 (disks_of self) (disks_of result.0) }
        ensures stands { K.keeps
            → GoesOn (FitsBelow (2 ^ 32 - 1) (Readable M.fits (M.within BOUND)) M.spelling) M.spelling K.seen K.calls self result.0 result.1 }
    {
        let mut pair = match self {
            Stage::Open(pair) => pair,
            Stage::Closed(first, second) => {
                return (
                    Stage::Closed(first, second),
                    PairEvent::RewriteNotOpen(list),
                );
            }
        };
        match pair.rewrite(&list) {
            Ok(()) => (Stage::Open(pair), PairEvent::Rewritten(list)),
            Err(fault) => (Stage::Open(pair), PairEvent::RewriteFailed(list, fault)),
        }
    }

    /// A crash, which takes the journal that is open.
    fn crash(self) -> (Self, PairEvent<M>)
        ensures asked { request_of result.1 ≡ Crash }
        ensures answer { (history : List (PairEvent M)) → IsStage self history → IsAnswer history result.1 × IsStage result.0 (result.1 ∷ history) }
        ensures comes { Comes (FitsBelow (2 ^ 32 - 1) (Readable M.fits (M.within BOUND)) M.spelling) M.spelling K.keeps K.seen K.calls
            K.crashed K.failed result.1 (disks_of self) (disks_of result.0) }
        ensures stands { K.keeps
            → GoesOn (FitsBelow (2 ^ 32 - 1) (Readable M.fits (M.within BOUND)) M.spelling) M.spelling K.seen K.calls self result.0 result.1 }
    {
        let (mut first, mut second) = self.into_disks();
        first.crash();
        second.crash();
        (Stage::Closed(first, second), PairEvent::Crashed)
    }

    /// Does what is asked.
    fn step(self, alloc: Global, request: PairRequest<M>) -> (Self, PairEvent<M>)
        requires { OfMessages (M.within BOUND) request }
        ensures asked { request_of result.1 ≡ request }
        ensures answer { (history : List (PairEvent M)) → IsStage self history → IsAnswer history result.1 × IsStage result.0 (result.1 ∷ history) }
        ensures comes { Comes (FitsBelow (2 ^ 32 - 1) (Readable M.fits (M.within BOUND)) M.spelling) M.spelling K.keeps K.seen K.calls
            K.crashed K.failed result.1 (disks_of self) (disks_of result.0) }
        ensures stands { K.keeps
            → GoesOn (FitsBelow (2 ^ 32 - 1) (Readable M.fits (M.within BOUND)) M.spelling) M.spelling K.seen K.calls self result.0 result.1 }
    {
        match request {
            PairRequest::Open => self.open(alloc),
            PairRequest::Append(message) => self.append(message),
            PairRequest::Rewrite(list) => self.rewrite(list),
            PairRequest::Crash => self.crash(),
        }
    }
}

/// Does what is asked of two disks, one after the other, and tells what came of each request.
///
/// Whatever a crash leaves at any moment reads as the record that the last call has left; inside an append or
/// a rewrite, and after one that failed for a disk, as the record from before that call or the one that it
/// was to make, and as nothing else. The next opening finds it, also where openings between were refused. So
/// each opening finds what was found and acknowledged before it, back to the last rewrite. A crash inside a
/// call is told as that call, failed for a disk, and then a crash of both. The disks came from those that
/// were given by these events alone, one after the other. Each message has to be one that can be read again,
/// as for [`Pair::append`].
///
/// # Errors
///
/// Memory for the events is refused, before the disks are asked anything. They come back.
pub fn run_pair<M: Read + EncodeSize + Drop, K: Crash>(
    alloc: Global,
    first: K,
    second: K,
    requests: Vec<PairRequest<M>>,
) -> Result<PairHistory<M, K>, (AllocError, K, K)>
    requires { All (OfMessages (M.within BOUND)) requests.items }
    ensures asked { IfOk result (λ history. map request_of history.events.items ≡ requests.items) }
    ensures answers { IfOk result (λ history. AtEachEvent IsAnswer (reverse history.events.items)) }
    ensures came { IfOk result (λ history.
        CameBy (FitsBelow (2 ^ 32 - 1) (Readable M.fits (M.within BOUND)) M.spelling) M.spelling K.keeps K.seen K.calls K.crashed K.failed
        (record { first = first; second = second }) (reverse history.events.items)
        (record { first = history.first; second = history.second })) }
    ensures refusals { IfOk result (λ history. K.keeps → AtEachEvent (IsTrueOf M.spelling) (reverse history.events.items)) }
    ensures finds { IfOk result (λ history.
        K.keeps → AtEachEvent (Finds M.spelling (record { first = K.calls first; second = K.calls second })) (reverse history.events.items)) }
    ensures remembers { IfOk result (λ history. K.keeps → AtEachEvent Remembers (reverse history.events.items)) }
    ensures next_opening { IfOk result (λ history.
        K.keeps
        → (one two : List ℕ)
        → MayLeave (K.calls history.first) one
        → MayLeave (K.calls history.second) two
        → MayRead M.spelling (record { first = K.calls first; second = K.calls second }) (reverse history.events.items) one two) }
    ensures untouched_first { IfErr result (λ refused. refused.1 ≡ first) }
    ensures untouched_second { IfErr result (λ refused. refused.2 ≡ second) }
{
    let Ok(mut events) = Vec::with_capacity(alloc, requests.len()) else {
        return Err((AllocError, first, second));
    };
    let mut stage = Stage::Closed(first, second);
    for request in requests {
        let (next, event) = stage.step(alloc, request);
        stage = next;
        let Ok(()) = events.push(event) else {
            unreachable!()
        };
    }
    let (first, second) = stage.into_disks();
    Ok(PairHistory {
        events,
        first,
        second,
    })
}
