//! Whole histories of a disk in memory.

ghost use Rattle.std.specs.Prelude.{All, IfOk};
ghost use Rattle.journal_single.specs.History.{OfMessage};

use crate::item::{message, say_fault, say_items};
use crate::session::Session;
use journal_single::{Event, MemoryDisk, Request, run};
use std::alloc::Global;
use test_words::{Say, Trouble, Words};
use types_core::{EncodeSize, Read, Write};

/// `open`, `append ARTIFACT` or `crash`.
fn request<M: Read + Drop>(words: &mut Words<'_>, alloc: Global) -> Result<Request<M>, Trouble>
    ensures { IfOk result (OfMessage (M.within 65535)) }
{
    match words.word() {
        "open" => Ok(Request::Open),
        "append" => Ok(Request::Append(message(words, alloc)?)),
        "crash" => Ok(Request::Crash),
        _ => Err(Trouble::Unreadable),
    }
}

/// The requests that are left of the line.
fn requests<M: Read + Drop>(
    words: &mut Words<'_>,
    alloc: Global,
) -> Result<Vec<Request<M>>, Trouble>
    ensures { IfOk result (λ requests. All (OfMessage (M.within 65535)) requests.items) }
{
    let mut requests = Vec::new(alloc);
    for _ in 0..u64::MAX {
        if !words.more() {
            break;
        }
        requests.push(request(words, alloc)?)?;
    }
    Ok(requests)
}

/// The event's name, and what it tells.
fn say_event<M: Write>(say: &mut Say, event: &Event<M>) -> Result<(), Trouble> {
    match event {
        Event::Opened(found) => {
            say.text("Opened ")?;
            say_items(say, found)
        }
        Event::OpenFailed(fault) => {
            say.text("OpenFailed ")?;
            say_fault(say, *fault)
        }
        Event::Appended(message) => say_told(say, "Appended ", message),
        Event::AppendFailed(message, fault) => {
            say_told(say, "AppendFailed ", message)?;
            say.gap()?;
            say_fault(say, *fault)
        }
        Event::NotOpen(message) => say_told(say, "NotOpen ", message),
        Event::Crashed => say.text("Crashed"),
    }
}

/// An event's name, and the message that it tells of.
fn say_told<M: Write>(say: &mut Say, name: &str, message: &M) -> Result<(), Trouble> {
    say.text(name)?;
    say.value(message)
}

/// Events with ` , ` between two.
fn say_events<M: Write>(say: &mut Say, events: &[Event<M>]) -> Result<(), Trouble> {
    let Some((first, rest)) = events.split_first() else {
        return say.none();
    };
    say_event(say, first)?;
    for event in rest {
        say.text(" , ")?;
        say_event(say, event)?;
    }
    Ok(())
}

/// `run REQUEST..`: what comes of all requests on the disk, which comes back.
pub(crate) fn answer<M: Read + EncodeSize + Drop>(
    session: &mut Session<M, MemoryDisk>,
    words: &mut Words<'_>,
    say: &mut Say,
) -> Result<(), Trouble> {
    let requests = requests(words, say.alloc)?;
    say_events(say, &played(session, requests, say.alloc)?)
}

/// What comes of the requests.
fn played<M: Read + EncodeSize + Drop>(
    session: &mut Session<M, MemoryDisk>,
    requests: Vec<Request<M>>,
    alloc: Global,
) -> Result<Vec<Event<M>>, Trouble>
    requires { All (OfMessage (M.within 65535)) requests.items }
{
    match run(alloc, session.take()?, requests) {
        Ok(history) => {
            session.put(history.disk);
            Ok(history.events)
        }
        Err(_) => Err(Trouble::Memory),
    }
}
