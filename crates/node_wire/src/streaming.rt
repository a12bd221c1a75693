//! What steps over events, over streams.

ghost use Rattle.std.specs.Prelude.{◌≡◌, ◌≢◌, ◌<◌, ◌≤◌, ◌^◌, ℕ, List, Option, false, true, Err, Ok};
ghost use Rattle.journal_single.specs.Disk.{counted};
ghost use Rattle.simplex_member.specs.declared.action.Reply.{Reply};
ghost use Rattle.simplex_member.specs.declared.event.Event.{Event};
ghost use Rattle.simplex_member.specs.declared.fault.IoFault.TheVariants as fault;
ghost use Rattle.node_wire.specs.declared.stretch.Stretch.TheVariants.{Paused};
ghost use Rattle.node_wire.specs.Amid.{StandsBehind, StepsOver, StopsIn};
ghost use Rattle.node_wire.specs.Stepper.{Answer, AnswerBefore, AnswersNone, Behind, FailsBehind};
ghost use Rattle.node_wire.specs.Stream.{left_of};
ghost use Rattle.node_wire.specs.Streaming.{EndsIn, spelled};

use crate::input::EventInput;
use crate::replying::answer;
use crate::stepper::Stepper;
use crate::streams::{Sink, Source};
use crate::stretch::{Never, Pause, Stretch};
use simplex_member::{Event, IoFault, Reply};
use std::alloc::Global;
use types_core::{Digest, Scheme};

/// The size of the largest committee. A payload is read alike in each.
const LARGEST: u32 = 65_535;

/// Reads events from the reader until it ends between two, and answers each on the writer before the next is read. How the reader
/// cuts its bytes does not matter; bytes behind the last event taken may have been read too.
///
/// # Errors
///
/// [`IoFault::Read`] where a read failed, and behind 2^32 events; [`IoFault::BadEvent`] with the place, counted from 0, of the first byte at which no event stands, behind the answers to all before
/// it; [`IoFault::Node`] where a step failed; [`IoFault::Write`] where a write or a flush failed: then a front of the last reply was
/// written; [`IoFault::Memory`] where there is none for an event, or for the last reply's bytes: then nothing of it was written.
pub fn answer_stream<
    T: Stepper<Event<D>, Reply<S, D>, N>,
    S: Scheme<D>,
    D: Digest,
    N,
    R: Source,
    W: Sink,
>(alloc: Global, node: &mut N, reader: &mut R, writer: &mut W) -> Result<(), IoFault>
    ensures answers { EndsIn D.fits D.spelling (spelled S.PublicKey.spelling D.spelling S.Signature.spelling S.Certificate.spelling)
        (D.reading 65535) (Answer T.steps node.old node.new) (AnswerBefore T.steps node.old node.new)
        (R.failed reader.new ≡ counted false (R.failed reader.old)) result (R.remaining reader.old) (W.contents writer.old)
        (W.contents writer.new) }
    ensures untouched { AnswersNone T.steps node.old → writer.new ≡ writer.old }

    // Reading and writing failed exactly where that is told, and what was written is flushed.
    ensures read { result ≢ Err fault.Read → R.failed reader.new ≡ R.failed reader.old }
    ensures write_failed { result ≡ Err fault.Write → W.failed writer.new ≡ counted false (W.failed writer.old) }
    ensures write { result ≢ Err fault.Write → W.failed writer.new ≡ W.failed writer.old }
    ensures flushed { result ≢ Err fault.Write → W.is_flushed writer.old → W.is_flushed writer.new }
{
    let mut input = EventInput::new(alloc);
    match answer_some::<T, Never, S, D, N, R, W>(alloc, node, &mut input, reader, writer, &Never) {
        Ok(_) => Ok(()),
        Err(fault) => Err(fault),
    }
}

/// Reads events from the reader, behind those that were taken of it before, until it ends between two or is to pause behind one, and
/// answers each on the writer before the next is read. Behind a pause another call goes on: nothing that was read is lost.
///
/// # Errors
///
/// Those of [`answer_stream`], with places and events counted over the whole input.
pub fn answer_some<
    T: Stepper<Event<D>, Reply<S, D>, N>,
    P: Pause<N>,
    S: Scheme<D>,
    D: Digest,
    N,
    R: Source,
    W: Sink,
>(
    alloc: Global,
    node: &mut N,
    input: &mut EventInput,
    reader: &mut R,
    writer: &mut W,
    pause: &P,
) -> Result<Stretch, IoFault>
    // Whatever was given, taken of it and answered before, it goes on behind that.
    ensures answers { (given text : Option (List ℕ)) (before : List (Event D))
        (said : List (Reply S D S.PublicKey S.Signature S.Certificate))
        → StandsBehind D.fits D.spelling (spelled S.PublicKey.spelling D.spelling S.Signature.spelling S.Certificate.spelling) before said given
        (left_of input.old (R.remaining reader.old)) input.old text (W.contents writer.old)
        → StopsIn D.fits D.spelling (spelled S.PublicKey.spelling D.spelling S.Signature.spelling S.Certificate.spelling) (D.reading 65535)
        (Behind before said (Answer T.steps node.old node.new)) (FailsBehind before said (AnswerBefore T.steps node.old node.new))
        (R.failed reader.new ≡ counted false (R.failed reader.old)) result given (left_of input.new (R.remaining reader.new)) input.new text
        (W.contents writer.new) }
    ensures steps { StepsOver D.fits D.spelling (Answer T.steps node.old node.new) (AnswerBefore T.steps node.old node.new) result
        (left_of input.old (R.remaining reader.old)) }

    // It pauses where it is to, behind an event.
    ensures paused { result ≡ Ok Paused → P.tells pause.now node.new true }
    ensures goes_on { result ≡ Ok Paused → (input.old.taken < input.new.taken) × (input.new.taken ≤ 2 ^ 32) }
    ensures untouched { AnswersNone T.steps node.old → writer.new ≡ writer.old }

    // Reading and writing failed exactly where that is told, and what was written is flushed.
    ensures read { result ≢ Err fault.Read → R.failed reader.new ≡ R.failed reader.old }
    ensures write_failed { result ≡ Err fault.Write → W.failed writer.new ≡ counted false (W.failed writer.old) }
    ensures write { result ≢ Err fault.Write → W.failed writer.new ≡ W.failed writer.old }
    ensures flushed { result ≢ Err fault.Write → W.is_flushed writer.old → W.is_flushed writer.new }
{
    while !input.is_spent() {
        let found = match input.next_event(alloc, reader, LARGEST) {
            Ok(found) => found,
            Err(fault) => return Err(fault),
        };
        let Some(event) = found else {
            return Ok(Stretch::Ended);
        };
        match answer::<T, S, D, N, W>(alloc, node, event, writer) {
            Ok(()) => {}
            Err(fault) => return Err(fault),
        }
        if pause.is_due(node) {
            return Ok(Stretch::Paused);
        }
    }
    Err(IoFault::Read)
}
