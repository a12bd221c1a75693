//! Truth values as bytes.

ghost use Rattle.std.specs.Prelude.{⊤, IsErrOf};
ghost use Rattle.std.proofs.Common.{rules};
ghost use Rattle.types_codec.specs.Codec.{Gives, unbounded-IsCodec};
ghost use Rattle.types_codec.specs.Truth.{truth_spelling, truth_at, truth-IsCodec};

use crate::codec::{CodecError, EncodeSize, MaxEncodeSize, Read, Write};
use std::alloc::{AllocError, Global};

impl Write for bool {
    ghost fits = { λ _. ⊤ };

    ghost spelling = { truth_spelling };

    fn append(&self, out: &mut Vec<u8>) -> Result<(), AllocError> {
        if *self {
            out.push(1)?
        } else {
            out.push(0)?
        }
        Ok(())
    }
}

impl EncodeSize for bool {
    ghost max_size = { 1 };

    fn encode_size(&self) -> usize {
        1
    }

    ghost short = { Prim.search rules };
}

impl MaxEncodeSize for bool {
    fn max_encode_size() -> usize {
        1
    }
}

impl Read for bool {
    ghost within = { λ _ _. ⊤ };

    ghost reading = { λ _. truth_at };

    ghost one_spelling = { λ _ _. unbounded-IsCodec truth-IsCodec };

    ghost grows = { λ n m x up h. h };

    #[tactic(auto, unfolding(crate::specs::Truth::truth_at))]
    fn read_cfg(_alloc: Global, input: &mut &[u8], _bound: u32) -> Result<Self, CodecError>
        ensures gives { Gives truth_at input.old.now input.new.now result }
        ensures without_memory { ¬ IsErrOf result CodecError.Memory }
    {
        let all: &[u8] = *input;
        match all {
            [] => Err(CodecError::End),
            [0, rest @ ..] => {
                *input = rest;
                Ok(false)
            }
            [1, rest @ ..] => {
                *input = rest;
                Ok(true)
            }
            _ => Err(CodecError::Invalid),
        }
    }
}
