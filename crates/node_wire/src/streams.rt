//! Streams that count their faults, as a disk does.

ghost use Rattle.std.specs.Prelude.{◌≡◌, ◌<◌, ◌≤◌, ℕ, List, Option, length, take, is_ok, IfOk, OnErr, OnOk};
ghost use Rattle.std.specs.Io.KnownBytes.{Appends, Consumes, IsAtEnd, Keeps};
ghost use Rattle.journal_single.specs.Disk.{counted};

/// A call of a stream failed.
#[derive(Clone, Copy, Debug, Drop, PartialEq, Eq)]
pub struct StreamFault;

/// Bytes that are read. Nothing but its own calls changes what is left, or how often they failed.
pub trait Source {
    /// The bytes that reads will give from here on, where they are known.
    ghost remaining: { Self → Option (List ℕ) };

    /// How often a read has answered a fault.
    ghost failed: { Self → ℕ };

    /// How often a read has answered a fault, up to 2^64-1, where it stays.
    fn failures(&self) -> u64
        ensures { result ≡ failed self.now };

    /// Reads a front of what is left into the piece: how many bytes, none only at the end.
    fn read(&mut self, piece: &mut [u8]) -> Result<usize, StreamFault>
        requires { 0 < length piece.old }
        ensures bound { IfOk result (λ count. count ≤ length piece.new) }
        ensures bytes { IfOk result (λ count. Consumes (remaining self.old) (remaining self.new) (take count piece.new)) }
        ensures end { IfOk result (λ count. count ≡ 0 → IsAtEnd (remaining self.new)) }
        ensures kept { OnErr result (Keeps (remaining self.old) (remaining self.new)) }
        ensures cause { failed self.new ≡ counted (is_ok result) (failed self.old) };
}

/// Bytes that are written. Nothing but its own calls changes what it was given, whether that was flushed, or how often they failed.
pub trait Sink {
    /// The bytes that it was given, where they are known.
    ghost contents: { Self → Option (List ℕ) };

    /// Nothing was given since the last flush that succeeded.
    ghost is_flushed: { Self → Type 0 };

    /// How often a write or a flush has answered a fault.
    ghost failed: { Self → ℕ };

    /// How often a write or a flush has answered a fault, up to 2^64-1, where it stays.
    fn failures(&self) -> u64
        ensures { result ≡ failed self.now };

    /// Writes a front of the bytes: how many, at least one.
    fn write(&mut self, bytes: &[u8]) -> Result<usize, StreamFault>
        requires { 0 < length bytes.now }
        ensures some { IfOk result (λ count. 0 < count) }
        ensures bound { IfOk result (λ count. count ≤ length bytes.now) }
        ensures bytes { IfOk result (λ count. Appends (contents self.old) (contents self.new) (take count bytes.now)) }
        ensures kept { OnErr result (Keeps (contents self.old) (contents self.new)) }
        ensures cause { failed self.new ≡ counted (is_ok result) (failed self.old) };

    /// Hands on what it was given.
    fn flush(&mut self) -> Result<(), StreamFault>
        ensures kept { Keeps (contents self.old) (contents self.new) }
        ensures flushed { OnOk result (is_flushed self.new) }
        ensures cause { failed self.new ≡ counted (is_ok result) (failed self.old) };
}
