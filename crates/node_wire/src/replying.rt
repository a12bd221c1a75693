//! An event that is answered on a stream.

ghost use Rattle.std.specs.Prelude.{◌≡◌, ◌≢◌, ◌⊎◌, false, Err, IfErr, OnErr, OnOk};
ghost use Rattle.std.specs.Io.KnownBytes.{Appends};
ghost use Rattle.journal_single.specs.Disk.{counted};
ghost use Rattle.simplex_member.specs.declared.fault.IoFault.TheVariants as fault;
ghost use Rattle.simplex_member.specs.declared.fault.NodeFault.{NodeFault};
ghost use Rattle.types_codec.specs.Front.{AppendsFront};
ghost use Rattle.node_wire.specs.Streaming.{AnswersOne, spelled};

use crate::reply::write_reply;
use crate::stepper::Stepper;
use crate::streams::{Sink, StreamFault};
use simplex_member::{Event, IoFault, Reply};
use std::alloc::Global;
use types_core::{Digest, Scheme};

/// The room for a reply's bytes before they grow: most take less.
const ROOM: usize = 512;

/// Writes all the bytes, and flushes.
///
/// # Errors
///
/// Where a write or the flush failed: then the writer has a front of the bytes, all, a part, or nothing.
fn put_out<W: Sink>(writer: &mut W, bytes: &[u8]) -> Result<(), StreamFault>
    ensures whole { OnOk result (Appends (W.contents writer.old) (W.contents writer.new) bytes.now) }
    ensures flushed { OnOk result (W.is_flushed writer.new) }
    ensures front { AppendsFront (W.contents writer.old) (W.contents writer.new) bytes.now }
    ensures failed { OnErr result (W.failed writer.new ≡ counted false (W.failed writer.old)) }
    ensures not_failed { OnOk result (W.failed writer.new ≡ W.failed writer.old) }
{
    let mut rest = bytes;
    while !rest.is_empty() {
        let count = writer.write(rest)?;
        rest = &rest[count..];
    }
    writer.flush()
}

/// Writes a reply's spelling, and flushes.
///
/// # Errors
///
/// [`IoFault::Memory`] where there is none for the spelling: then nothing was written. [`IoFault::Write`] where a write or the flush
/// failed: then the writer has a front of the spelling.
pub fn write_out<S: Scheme<D>, D: Digest, W: Sink>(
    alloc: Global,
    reply: &Reply<S, D>,
    writer: &mut W,
) -> Result<(), IoFault>
    ensures whole { OnOk result (Appends (W.contents writer.old) (W.contents writer.new)
        (spelled S.PublicKey.spelling D.spelling S.Signature.spelling S.Certificate.spelling reply.now)) }
    ensures front { AppendsFront (W.contents writer.old) (W.contents writer.new)
        (spelled S.PublicKey.spelling D.spelling S.Signature.spelling S.Certificate.spelling reply.now) }
    ensures memory { result ≡ Err fault.Memory → writer.new ≡ writer.old }
    ensures faults { IfErr result (λ why. (why ≡ fault.Memory) ⊎ (why ≡ fault.Write)) }
    ensures flushed { OnOk result (W.is_flushed writer.new) }
    ensures failed { result ≡ Err fault.Write → W.failed writer.new ≡ counted false (W.failed writer.old) }
    ensures not_failed { result ≢ Err fault.Write → W.failed writer.new ≡ W.failed writer.old }
{
    let Ok(mut bytes) = Vec::with_capacity(alloc, ROOM) else {
        return Err(IoFault::Memory);
    };
    if write_reply(&mut bytes, reply).is_err() {
        return Err(IoFault::Memory);
    }
    if put_out(writer, &bytes).is_err() {
        return Err(IoFault::Write);
    }
    Ok(())
}

/// Steps over an event, and writes the reply.
///
/// # Errors
///
/// [`IoFault::Node`] where the step failed, [`IoFault::Memory`] where there is none for the reply's spelling, and
/// [`IoFault::Write`] where a write failed.
pub(crate) fn answer<T: Stepper<Event<D>, Reply<S, D>, N>, S: Scheme<D>, D: Digest, N, W: Sink>(
    alloc: Global,
    node: &mut N,
    event: Event<D>,
    writer: &mut W,
) -> Result<(), IoFault>
    ensures answers { AnswersOne T.steps (spelled S.PublicKey.spelling D.spelling S.Signature.spelling S.Certificate.spelling) node.old
        event result (W.contents writer.old) (W.contents writer.new) node.new }
    ensures untouched { (why : NodeFault) → result ≡ Err (fault.Node why) → writer.new ≡ writer.old }
    ensures flushed { result ≢ Err fault.Write → W.is_flushed writer.old → W.is_flushed writer.new }
    ensures failed { result ≡ Err fault.Write → W.failed writer.new ≡ counted false (W.failed writer.old) }
    ensures not_failed { result ≢ Err fault.Write → W.failed writer.new ≡ W.failed writer.old }
{
    match T::step(node, event) {
        Ok(reply) => write_out(alloc, &reply, writer),
        Err(fault) => Err(IoFault::Node(fault)),
    }
}
