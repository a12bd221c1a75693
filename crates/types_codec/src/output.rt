//! Bytes for a writer.

ghost use Rattle.std.specs.Prelude.{OnOk};
ghost use Rattle.std.specs.Io.KnownBytes.{Appends};
ghost use Rattle.types_codec.specs.Front.{AppendsFront};

use std::io;
use std::io::Write;

/// The writes after which a writer that has not taken all is given up.
const MOST_WRITES: u64 = 4_294_967_296;

/// Writes all the bytes, and flushes. A write that is interrupted is tried again.
///
/// # Errors
///
/// The first error of a write or of the flush; [`io::ErrorKind::WriteZero`] where a write takes nothing, and
/// [`io::ErrorKind::Other`] where the bytes are not taken after 2^32 writes. Then the writer has a front of them: all, a part,
/// or nothing.
pub fn write_whole<W: Write>(writer: &mut W, bytes: &[u8]) -> io::Result<()>
    ensures whole { OnOk result (Appends (W.contents writer.old) (W.contents writer.new) bytes.now) }
    ensures front { AppendsFront (W.contents writer.old) (W.contents writer.new) bytes.now }
{
    let mut rest = bytes;
    for _ in 0..MOST_WRITES {
        if rest.is_empty() {
            return writer.flush();
        }
        match writer.write(rest) {
            Ok(0) => return Err(io::Error::from(io::ErrorKind::WriteZero)),
            Ok(count) => rest = &rest[count..],
            Err(error) if error.kind() == io::ErrorKind::Interrupted => {}
            Err(error) => return Err(error),
        }
    }
    Err(io::Error::from(io::ErrorKind::Other))
}
