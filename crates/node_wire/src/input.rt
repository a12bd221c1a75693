//! The events of an input, one by one.

ghost use Rattle.std.specs.Prelude.{◌≡◌, ◌≢◌, ◌↔◌, ◌⊎◌, ◌<◌, ◌≤◌, ◌*◌, ◌^◌, [], ◌++◌, drop, length, false, true, Err, Some, IfErr, IfNone, IfOk, IfSome, IsTrue, OnErr, OnOk};
ghost use Rattle.std.specs.Io.KnownBytes.{IsAtEnd, Keeps};
ghost use Rattle.journal_single.specs.Disk.{counted};
ghost use Rattle.types_codec.specs.declared.codec.CodecError.TheVariants.{End, Memory as NoMemory};
ghost use Rattle.simplex_member.specs.declared.fault.IoFault.TheVariants.{BadEvent, Memory, Read};
ghost use Rattle.node_wire.specs.Event.{IsEvent, event_at, event_spelling, event_value, longest_event, payload_length};
ghost use Rattle.node_wire.specs.Parts.{optional_length};
ghost use Rattle.node_wire.specs.Stream.{HasNone, IsBarred, IsFault, IsGivenUp, IsTaken, left_of};

use crate::event::read_event;
use crate::streams::Source;
use simplex_member::{Event, IoFault};
use std::alloc::Global;
use std::marker::Model;
use types_codec::CodecError;
use types_core::Digest;

/// The most bytes that one read gives: few, since each read first fills as many with zeros.
const PIECE: usize = 4096;

/// The events after which an input is given up.
const MOST_EVENTS: u64 = 4_294_967_296;

/// What was read of an input and is not yet taken: no more than the bytes of one event, and a piece.
#[derive(Drop)]
pub struct EventInput {
    bytes: Vec<u8>,
    start: usize,
    place: u64,
    taken: u64,
}

impl Model for EventInput {
    ghost use Rattle.std.specs.Prelude.{◌≤◌, ◌*◌, ◌^◌, drop, vec_len};
    ghost use Rattle.node_wire.specs.Event.{longest_event};
    ghost use Rattle.node_wire.specs.Stream.{InputState};

    ghost Value = { InputState };

    ghost view = { λ i. record { held = drop i.start i.bytes.items; behind = i.start; place = i.place; taken = i.taken } };

    ghost invariant = { λ i. (i.start ≤ vec_len i.bytes) × (i.taken ≤ 2 ^ 32) × (i.place ≤ i.taken * longest_event) };
}

/// How many bytes a payload has, if there is one.
fn optional_size<D: Digest>(payload: &Option<D>) -> usize
    ensures size { result ≡ optional_length D.spelling payload.now }
    ensures short { result ≤ 1024 }
{
    match payload {
        Some(payload) => payload.encode_size(),
        None => 0,
    }
}

/// How many bytes the payload of an event has.
fn payload_size<D: Digest>(event: &Event<D>) -> usize
    ensures size { result ≡ payload_length D.spelling (event_value event.now) }
    ensures short { result ≤ 1024 }
{
    match event {
        Event::Built { payload, .. } => optional_size(payload),
        Event::Packet { .. } => 0,
        Event::Checked { .. } => 0,
        Event::Verdict { .. } => 0,
        Event::Moment(_) => 0,
    }
}

/// The event at the front, and how many bytes it has.
fn front_event<D: Digest>(
    alloc: Global,
    bytes: &[u8],
    bound: u32,
) -> Result<(Event<D>, usize), CodecError>
    ensures event { IfOk result (λ x. IsEvent D.fits (event_value x.0)) }
    ensures whole { IfOk result (λ x. bytes.now ≡ event_spelling D.spelling (event_value x.0) ++ drop x.1 bytes.now) }
    ensures size { IfOk result (λ x. x.1 ≡ length (event_spelling D.spelling (event_value x.0))) }
    ensures within { IfOk result (λ x. x.1 ≤ length bytes.now) }
    ensures short { IfOk result (λ x. x.1 ≤ longest_event) }
    ensures refused { IfErr result (λ e. e ≢ NoMemory → event_at (D.reading bound) bytes.now ≡ Err e) }
{
    let mut rest = bytes;
    let event = read_event(alloc, &mut rest, bound)?;
    let _payload = payload_size(&event);
    Ok((event, bytes.len() - rest.len()))
}

impl EventInput {
    /// Nothing is read yet.
    pub fn new(alloc: Global) -> Self
        ensures { result ≡ record { held = []; behind = 0; place = 0; taken = 0 } }
    {
        EventInput {
            bytes: Vec::new(alloc),
            start: 0,
            place: 0,
            taken: 0,
        }
    }

    /// Whether as many events were taken as may be.
    pub(crate) fn is_spent(&self) -> bool
        ensures spent { result ≡ true → self.now.taken ≡ 2 ^ 32 }
        ensures unspent { result ≡ false → self.now.taken < 2 ^ 32 }
    {
        self.taken >= MOST_EVENTS
    }

    /// Lets go of the bytes that were taken.
    fn compact(&mut self)
        ensures { self.new ≡ record self.old { behind = 0 } }
    {
        if self.start == 0 {
            return;
        }
        let left = self.bytes.len() - self.start;
        self.bytes.copy_within(self.start.., 0);
        self.bytes.truncate(left);
        self.start = 0;
    }

    /// Reads more behind what is held: whether there was more.
    fn fill<R: Source>(&mut self, reader: &mut R) -> Result<bool, IoFault>
        ensures kept { result ≢ Err Memory → Keeps (left_of self.old (R.remaining reader.old)) (left_of self.new (R.remaining reader.new)) }
        ensures place { self.new.place ≡ self.old.place }
        ensures taken { self.new.taken ≡ self.old.taken }
        ensures let_go { self.new.behind ≡ 0 }
        ensures more { IfOk result (λ more. IsTrue more → (length self.old.held < length self.new.held) × (length self.new.held < 2 ^ 64)) }
        ensures end { IfOk result (λ more. IsTrue more ⊎ ((self.new.held ≡ self.old.held) × IsAtEnd (R.remaining reader.new))) }
        ensures fault { IfErr result (λ fault. (fault ≡ Read) ⊎ (fault ≡ Memory)) }
        ensures failed { result ≡ Err Read → R.failed reader.new ≡ counted false (R.failed reader.old) }
        ensures not_failed { result ≢ Err Read → R.failed reader.new ≡ R.failed reader.old }
    {
        self.compact();
        let mut piece = [0; PIECE];
        let Ok(count) = reader.read(&mut piece) else {
            return Err(IoFault::Read);
        };
        if count == 0 {
            return Ok(false);
        }
        if self.bytes.extend_from_slice(&piece[..count]).is_err() {
            return Err(IoFault::Memory);
        }
        let _most = self.bytes.len();
        Ok(true)
    }

    /// Takes the event at the front of what is held, if it is there as a whole.
    fn take<D: Digest>(&mut self, alloc: Global, bound: u32) -> Result<Option<Event<D>>, IoFault>
        requires { self.old.taken < 2 ^ 32 }
        ensures event { IfOk result
            (λ found. IfSome found (λ e. IsTaken D.fits D.spelling (event_value e) self.old (Some self.old.held) self.new (Some self.new.held))) }
        ensures cut { IfOk result (λ found. IfNone found (event_at (D.reading bound) self.old.held ≡ Err End)) }
        ensures same { IfOk result (λ found. IfNone found (self.new ≡ self.old)) }
        ensures err { OnErr result (self.new ≡ self.old) }
        ensures fault { IfErr result (IsFault self.old.place ⊥
            (IsBarred (event_at (D.reading bound) self.old.held))) }
    {
        match front_event(alloc, &self.bytes[self.start..], bound) {
            Ok((event, size)) => {
                self.place += size as u64;
                self.start += size;
                self.taken += 1;
                Ok(Some(event))
            }
            Err(CodecError::End) => Ok(None),
            Err(CodecError::Memory) => Err(IoFault::Memory),
            Err(CodecError::Invalid) => Err(IoFault::BadEvent(self.place)),
            Err(CodecError::TooLong) => Err(IoFault::BadEvent(self.place)),
        }
    }

    /// Whether all that was read is taken.
    #[tactic(auto, using(crate::proofs::Taking::none_held, crate::proofs::Taking::all_are_taken))]
    fn is_clear(&self) -> bool
        ensures { IsTrue result ↔ (self.now.held ≡ []) }
    {
        self.start == self.bytes.len()
    }

    /// Takes the next event of the input, or none at its end.
    ///
    /// # Errors
    ///
    /// [`IoFault::BadEvent`] where no event begins, or the input ends within it; [`IoFault::Read`] where a read failed, and behind 2^32
    /// events; [`IoFault::Memory`], after which it isn't said what is left. After another nothing is lost.
    #[tactic(auto, using(crate::proofs::Taking::taken_over, crate::proofs::Taking::fault_over, crate::proofs::Taking::barred_left, crate::proofs::Taking::cut_left))]
    pub fn next_event<R: Source, D: Digest>(
        &mut self,
        alloc: Global,
        reader: &mut R,
        bound: u32,
    ) -> Result<Option<Event<D>>, IoFault>
        ensures event { IfOk result (λ found.
            IfSome found (λ e.
            IsTaken D.fits D.spelling (event_value e) self.old (left_of self.old (R.remaining reader.old)) self.new
            (left_of self.new (R.remaining reader.new)))) }
        ensures end { IfOk result (λ found. IfNone found (IsAtEnd (left_of self.old (R.remaining reader.old)))) }
        ensures kept { IfErr result
            (λ fault. fault ≢ Memory → Keeps (left_of self.old (R.remaining reader.old)) (left_of self.new (R.remaining reader.new))) }
        ensures place { OnErr result (self.new.place ≡ self.old.place) }
        ensures taken { OnErr result (self.new.taken ≡ self.old.taken) }
        ensures fault { IfErr result (IsFault self.old.place
            (IsGivenUp self.old (R.failed reader.new ≡ counted false (R.failed reader.old))) (IfSome (left_of self.old (R.remaining reader.old)) (HasNone (D.reading bound)))) }
        ensures limit { self.old.taken ≡ 2 ^ 32 → (result ≡ Err Read) × (reader.new ≡ reader.old) }
        ensures not_failed { result ≢ Err Read → R.failed reader.new ≡ R.failed reader.old }
    {
        if self.is_spent() {
            return Err(IoFault::Read);
        }
        loop {
            match self.take(alloc, bound) {
                Ok(Some(event)) => return Ok(Some(event)),
                Ok(None) => {}
                Err(fault) => return Err(fault),
            }
            if !self.fill(reader)? {
                if self.is_clear() {
                    return Ok(None);
                }
                return Err(IoFault::BadEvent(self.place));
            }
        }
    }
}
