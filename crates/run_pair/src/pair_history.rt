//! Whole histories of two disks in memory.

ghost use Rattle.std.specs.Prelude.{All, IfOk};
ghost use Rattle.simplex_journal.specs.PairHistory.{OfMessages};

use crate::item::{message, say_fault, say_items};
use crate::session::{Session, messages};
use journal_single::MemoryDisk;
use simplex_journal::{PairEvent, PairRequest, run_pair};
use std::alloc::Global;
use test_words::{Say, Trouble, Words};
use types_core::{EncodeSize, Read, Write};

/// `open`, `append ARTIFACT`, `rewrite COUNT ARTIFACT..` or `crash`.
fn request<M: Read + Drop>(words: &mut Words<'_>, alloc: Global) -> Result<PairRequest<M>, Trouble>
    ensures { IfOk result (OfMessages (M.within 65535)) }
{
    match words.word() {
        "open" => Ok(PairRequest::Open),
        "append" => Ok(PairRequest::Append(message(words, alloc)?)),
        "rewrite" => {
            let count = words.number()?;
            Ok(PairRequest::Rewrite(messages(words, alloc, count)?))
        }
        "crash" => Ok(PairRequest::Crash),
        _ => Err(Trouble::Unreadable),
    }
}

/// The requests that are left of the line.
fn requests<M: Read + Drop>(
    words: &mut Words<'_>,
    alloc: Global,
) -> Result<Vec<PairRequest<M>>, Trouble>
    ensures { IfOk result (λ requests. All (OfMessages (M.within 65535)) requests.items) }
{
    let mut requests = Vec::new(alloc);
    for _ in 0..u64::MAX {
        if !words.more() {
            break;
        }
        requests.push(request(words, alloc)?)?;
    }
    Ok(requests)
}

/// The event's name, and what it tells.
fn say_event<M: Write>(say: &mut Say, event: &PairEvent<M>) -> Result<(), Trouble> {
    match event {
        PairEvent::Opened(found) => say_told(say, "Opened ", found),
        PairEvent::OpenFailed(fault) => {
            say.text("OpenFailed ")?;
            say_fault(say, *fault)
        }
        PairEvent::Crashed => say.text("Crashed"),
        PairEvent::Rewritten(_) | PairEvent::RewriteFailed(..) | PairEvent::RewriteNotOpen(_) =>
            say_rewrite(say, event),
        _ => say_append(say, event),
    }
}

/// The same of an append, which tells its message.
fn say_append<M: Write>(say: &mut Say, event: &PairEvent<M>) -> Result<(), Trouble> {
    match event {
        PairEvent::Appended(message) => say_one(say, "Appended ", message),
        PairEvent::AppendFailed(message, fault) => {
            say_one(say, "AppendFailed ", message)?;
            say.gap()?;
            say_fault(say, *fault)
        }
        PairEvent::AppendNotOpen(message) => say_one(say, "AppendNotOpen ", message),
        _ => Err(Trouble::Unreadable),
    }
}

/// An event's name, and the message that it tells of.
fn say_one<M: Write>(say: &mut Say, name: &str, message: &M) -> Result<(), Trouble> {
    say.text(name)?;
    say.value(message)
}

/// The same of a rewrite, which tells its list.
fn say_rewrite<M: Write>(say: &mut Say, event: &PairEvent<M>) -> Result<(), Trouble> {
    match event {
        PairEvent::Rewritten(list) => say_told(say, "Rewritten ", list),
        PairEvent::RewriteFailed(list, fault) => {
            say_told(say, "RewriteFailed ", list)?;
            say.gap()?;
            say_fault(say, *fault)
        }
        PairEvent::RewriteNotOpen(list) => say_told(say, "RewriteNotOpen ", list),
        _ => Err(Trouble::Unreadable),
    }
}

/// An event's name, and the messages that it tells of.
fn say_told<M: Write>(say: &mut Say, name: &str, items: &[M]) -> Result<(), Trouble> {
    say.text(name)?;
    say_items(say, items)
}

/// Events with ` , ` between two.
fn say_events<M: Write>(say: &mut Say, events: &[PairEvent<M>]) -> Result<(), Trouble> {
    let Some((first, rest)) = events.split_first() else {
        return say.none();
    };
    say_event(say, first)?;
    for event in rest {
        say.text(" , ")?;
        say_event(say, event)?;
    }
    Ok(())
}

/// `run REQUEST..`: what comes of all requests on the disks, which come back.
pub(crate) fn answer<M: Read + EncodeSize + Drop>(
    session: &mut Session<M, MemoryDisk>,
    words: &mut Words<'_>,
    say: &mut Say,
) -> Result<(), Trouble> {
    let requests = requests(words, say.alloc)?;
    say_events(say, &played(session, requests, say.alloc)?)
}

/// What comes of the requests.
fn played<M: Read + EncodeSize + Drop>(
    session: &mut Session<M, MemoryDisk>,
    requests: Vec<PairRequest<M>>,
    alloc: Global,
) -> Result<Vec<PairEvent<M>>, Trouble>
    requires { All (OfMessages (M.within 65535)) requests.items }
{
    let (first, second) = session.take()?;
    match run_pair(alloc, first, second, requests) {
        Ok(history) => {
            session.put(history.first, history.second);
            Ok(history.events)
        }
        Err(_) => Err(Trouble::Memory),
    }
}
