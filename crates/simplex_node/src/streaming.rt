//! A node over streams.

ghost use Rattle.std.specs.Prelude.{◌≡◌, ◌≢◌, ◌<◌, ◌≤◌, ◌^◌, ℕ, List, Option, false, true, Err, Ok};
ghost use Rattle.journal_single.specs.Disk.{counted};
ghost use Rattle.journal_books.specs.Books.{HasFailed, HasNotFailed, are_two};
ghost use Rattle.simplex_member.specs.declared.action.Reply.{Reply};
ghost use Rattle.simplex_member.specs.declared.event.Event.{Event};
ghost use Rattle.simplex_member.specs.declared.fault.IoFault.TheVariants as fault;
ghost use Rattle.simplex_member.specs.declared.fault.NodeFault.{NodeFault};
ghost use Rattle.simplex_member.specs.declared.fault.NodeFault.TheVariants.{Device};
ghost use Rattle.simplex_member.specs.Layers.{finalized_of};
ghost use Rattle.node_steps.specs.Keeps.{AtAll, AtOwn, book_of, disks_of, has_failed};
ghost use Rattle.simplex_node.specs.Running.{LeavesPassed, RunFails, RunsTo};
ghost use Rattle.node_wire.specs.declared.stretch.Stretch.TheVariants.{Paused};
ghost use Rattle.node_wire.specs.Amid.{StandsBehind, StopsIn};
ghost use Rattle.node_wire.specs.Stepper.{Behind, FailsBehind};
ghost use Rattle.node_wire.specs.Stream.{left_of};
ghost use Rattle.node_wire.specs.Streaming.{EndsIn, spelled};

use crate::pausing::OnceFinal;
use crate::stepping::NodeSteps;
use journal_single::Disk;
use node_steps::Node;
use node_wire::{EventInput, Sink, Source, Stretch, answer_some, answer_stream};
use simplex_member::{IoFault, Speaks};
use std::alloc::Global;
use types_core::{Digest, Scheme, View};
use types_terms::Elector;

/// Reads events from the reader until it ends between two, and answers each on the writer before the next is read. How the reader
/// cuts its bytes does not matter; bytes behind the last event taken may have been read too.
///
/// # Errors
///
/// [`IoFault::Read`] where a read failed, and behind 2^32 events; [`IoFault::BadEvent`] with the place, counted from 0, of the
/// first byte at which no event stands, behind the answers to all before it; [`IoFault::Node`] where a step failed, behind the
/// answers to all before it; [`IoFault::Write`] where a write or a flush failed: then a front of the last reply was written;
/// [`IoFault::Memory`] where there is none for an event, or for the last reply's bytes: then nothing of it was written.
pub fn run_io<S: Scheme<D> + Drop, L: Elector<S, D>, D: Digest, K: Disk, R: Source, W: Sink>(
    alloc: Global,
    node: &mut Node<S, L, D, K>,
    reader: &mut R,
    writer: &mut W,
) -> Result<(), IoFault>
    ensures answers { AtOwn S.Scheme L.Elector K.Disk ⟦<S as Speaks<D>>⟧.formats node.old (λ f s h.
        EndsIn D.fits D.spelling (spelled S.PublicKey.spelling D.spelling S.Signature.spelling S.Certificate.spelling) (D.reading 65535)
        (RunsTo S.Scheme L.Elector K.Disk f s h node.new) (RunFails S.Scheme L.Elector K.Disk f s h node.new)
        (R.failed reader.new ≡ counted false (R.failed reader.old)) result (R.remaining reader.old) (W.contents writer.old)
        (W.contents writer.new)) }
    ensures failed { (why : NodeFault) → result ≡ Err (fault.Node why) → has_failed node.new ≡ true }
    ensures refused_if_failed { has_failed node.old ≡ true → (node.new ≡ node.old) × (writer.new ≡ writer.old) }

    // Reading and writing failed exactly where that is told, and what was written is flushed.
    ensures read { result ≢ Err fault.Read → R.failed reader.new ≡ R.failed reader.old }
    ensures write_failed { result ≡ Err fault.Write → W.failed writer.new ≡ counted false (W.failed writer.old) }
    ensures write { result ≢ Err fault.Write → W.failed writer.new ≡ W.failed writer.old }
    ensures flushed { result ≢ Err fault.Write → W.is_flushed writer.old → W.is_flushed writer.new }

    // A disk has failed once more exactly where that is told.
    ensures device { result ≡ Err (fault.Node Device) → HasFailed K.Disk (disks_of node.old) (disks_of node.new) }
    ensures no_device { result ≢ Err (fault.Node Device) → HasNotFailed K.Disk (disks_of node.old) (disks_of node.new) }
    ensures as_many { are_two (disks_of node.new) ≡ are_two (disks_of node.old) }

    // A crash at any moment of the call leaves the record at a point of the step over one of the events that were read.
    ensures any_moment { AtOwn S.Scheme L.Elector K.Disk ⟦<S as Speaks<D>>⟧.formats node.old (λ f s h.
        K.keeps
        → LeavesPassed S.Scheme f s K.Disk D.fits D.spelling h (R.remaining reader.old) (book_of node.old) (book_of node.new)) }
{
    answer_stream::<NodeSteps, S, D, Node<S, L, D, K>, R, W>(alloc, node, reader, writer)
}

/// Reads events from the reader, behind those that were taken of it with this input before, until it ends between two, or this view or
/// one above it is final behind one, and answers each on the writer before the next is read. Behind a pause another call goes on with
/// the same input: nothing that was read is lost.
///
/// # Errors
///
/// Those of [`run_io`], with places and events counted over all calls.
pub fn run_some_io<S: Scheme<D> + Drop, L: Elector<S, D>, D: Digest, K: Disk, R: Source, W: Sink>(
    alloc: Global,
    node: &mut Node<S, L, D, K>,
    input: &mut EventInput,
    reader: &mut R,
    writer: &mut W,
    view: View,
) -> Result<Stretch, IoFault>
    // Whatever was given, taken of it and answered before, the node goes on behind that.
    ensures answers { AtOwn S.Scheme L.Elector K.Disk ⟦<S as Speaks<D>>⟧.formats node.old (λ f s h.
        (given text : Option (List ℕ)) (before : List (Event D)) (said : List (Reply S D S.PublicKey S.Signature S.Certificate))
        → StandsBehind D.fits D.spelling (spelled S.PublicKey.spelling D.spelling S.Signature.spelling S.Certificate.spelling) before said given
        (left_of input.old (R.remaining reader.old)) input.old text (W.contents writer.old)
        → StopsIn D.fits D.spelling (spelled S.PublicKey.spelling D.spelling S.Signature.spelling S.Certificate.spelling) (D.reading 65535)
        (Behind before said (RunsTo S.Scheme L.Elector K.Disk f s h node.new))
        (FailsBehind before said (RunFails S.Scheme L.Elector K.Disk f s h node.new))
        (R.failed reader.new ≡ counted false (R.failed reader.old)) result given (left_of input.new (R.remaining reader.new)) input.new text
        (W.contents writer.new)) }

    // It pauses once the view is final, behind an event.
    ensures paused { result ≡ Ok Paused → AtAll S.Scheme L.Elector K.Disk node.new (λ f s h. view ≤ finalized_of s h) }
    ensures goes_on { result ≡ Ok Paused → (input.old.taken < input.new.taken) × (input.new.taken ≤ 2 ^ 32) }
    ensures failed { (why : NodeFault) → result ≡ Err (fault.Node why) → has_failed node.new ≡ true }
    ensures refused_if_failed { has_failed node.old ≡ true → (node.new ≡ node.old) × (writer.new ≡ writer.old) }

    // Reading and writing failed exactly where that is told, and what was written is flushed.
    ensures read { result ≢ Err fault.Read → R.failed reader.new ≡ R.failed reader.old }
    ensures write_failed { result ≡ Err fault.Write → W.failed writer.new ≡ counted false (W.failed writer.old) }
    ensures write { result ≢ Err fault.Write → W.failed writer.new ≡ W.failed writer.old }
    ensures flushed { result ≢ Err fault.Write → W.is_flushed writer.old → W.is_flushed writer.new }

    // A disk has failed once more exactly where that is told.
    ensures device { result ≡ Err (fault.Node Device) → HasFailed K.Disk (disks_of node.old) (disks_of node.new) }
    ensures no_device { result ≢ Err (fault.Node Device) → HasNotFailed K.Disk (disks_of node.old) (disks_of node.new) }
    ensures as_many { are_two (disks_of node.new) ≡ are_two (disks_of node.old) }

    // A crash at any moment of the call leaves the record at a point of the step over one of the events that were left.
    ensures any_moment { AtOwn S.Scheme L.Elector K.Disk ⟦<S as Speaks<D>>⟧.formats node.old (λ f s h.
        K.keeps
        → LeavesPassed S.Scheme f s K.Disk D.fits D.spelling h (left_of input.old (R.remaining reader.old)) (book_of node.old)
        (book_of node.new)) }
{
    let pause = OnceFinal { view };
    answer_some::<NodeSteps, OnceFinal, S, D, Node<S, L, D, K>, R, W>(
        alloc, node, input, reader, writer, &pause,
    )
}
