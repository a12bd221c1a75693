//! The whole of an input.
ghost use Rattle.std.specs.Prelude.{◌≡◌, IfOk, IfSome, OnOk};
ghost use Rattle.std.specs.Io.KnownBytes.{IsAtEnd};
ghost use Rattle.cli_audit.specs.declared.input.InputError.TheVariants.{Memory};

use std::alloc::{AllocError, Global};
use std::io;
use std::io::Read;

/// Why an input was not read to its end.
#[derive(Clone, Copy, Debug, PartialEq, Eq)]
pub enum InputError {
    /// There was no memory for all of it.
    Memory,
    /// A read failed and not only for an interruption, or the input had not ended after 2^32 reads.
    Device,
}

impl From<AllocError> for InputError {
    ghost from_gives = { λ _ error. error ≡ Memory };

    fn from(_error: AllocError) -> InputError {
        InputError::Memory
    }
}

/// The most bytes that one read gives.
const PIECE: usize = 65_536;

/// The reads after which an input that has not ended is given up.
const MOST_READS: u64 = 4_294_967_296;

/// All the bytes that the reader has left. After an error it is not said where the reader stands.
pub fn read_all<R: Read>(alloc: Global, reader: &mut R) -> Result<Vec<u8>, InputError>
    ensures whole { IfOk result (λ all. IfSome (R.remaining reader.old) (λ bytes. all.items ≡ bytes)) }
    ensures at_end { OnOk result (IsAtEnd (R.remaining reader.new)) }
{
    let mut all = Vec::new(alloc);
    let mut piece = [0; PIECE];
    for _ in 0..MOST_READS {
        match reader.read(&mut piece) {
            Ok(0) => return Ok(all),
            Ok(count) => all.extend_from_slice(&piece[..count])?,
            Err(error) if error.kind() == io::ErrorKind::Interrupted => {}
            Err(_) => return Err(InputError::Device),
        }
    }
    Err(InputError::Device)
}
