//! Positions as bytes.

ghost use Rattle.std.specs.Prelude.{◌≤◌, ⊤, IsErrOf};
ghost use Rattle.std.proofs.Common.{rules};
ghost use Rattle.types_codec.specs.Codec.{Gives, unbounded-IsCodec};
ghost use Rattle.types_codec.specs.Varint.{varint, varint_at, varint-IsCodec, max_u32, max_u64};
ghost use Rattle.types_core.specs.Round.{round_fits, round_spelling, round_at, round-IsCodec};

use crate::position::{Epoch, Participant, Round, View};
use std::alloc::{AllocError, Global};
use types_codec::{
    CodecError, EncodeSize, MaxEncodeSize, Read, Write, put_varint, read_u32, read_u64, u32_size,
    varint_size,
};

impl Write for Epoch {
    ghost fits = { λ n. n ≤ max_u64 };

    ghost spelling = { varint };

    fn append(&self, out: &mut Vec<u8>) -> Result<(), AllocError> {
        put_varint(out, self.get())
    }
}

impl EncodeSize for Epoch {
    ghost max_size = { 10 };

    fn encode_size(&self) -> usize {
        varint_size(self.get())
    }

    ghost short = { Prim.search rules };
}

impl MaxEncodeSize for Epoch {
    fn max_encode_size() -> usize {
        10
    }
}

impl Read for Epoch {
    ghost within = { λ _ _. ⊤ };

    ghost reading = { λ _. varint_at max_u64 };

    ghost one_spelling = { λ _ _. unbounded-IsCodec (varint-IsCodec max_u64) };

    ghost grows = { λ n m x up h. h };

    fn read_cfg(_alloc: Global, input: &mut &[u8], _bound: u32) -> Result<Self, CodecError>
        ensures gives { Gives (varint_at max_u64) input.old.now input.new.now result }
        ensures without_memory { ¬ IsErrOf result CodecError.Memory }
    {
        Ok(Epoch::new(read_u64(input)?))
    }
}

impl Write for View {
    ghost fits = { λ n. n ≤ max_u64 };

    ghost spelling = { varint };

    fn append(&self, out: &mut Vec<u8>) -> Result<(), AllocError> {
        put_varint(out, self.get())
    }
}

impl EncodeSize for View {
    ghost max_size = { 10 };

    fn encode_size(&self) -> usize {
        varint_size(self.get())
    }

    ghost short = { Prim.search rules };
}

impl MaxEncodeSize for View {
    fn max_encode_size() -> usize {
        10
    }
}

impl Read for View {
    ghost within = { λ _ _. ⊤ };

    ghost reading = { λ _. varint_at max_u64 };

    ghost one_spelling = { λ _ _. unbounded-IsCodec (varint-IsCodec max_u64) };

    ghost grows = { λ n m x up h. h };

    fn read_cfg(_alloc: Global, input: &mut &[u8], _bound: u32) -> Result<Self, CodecError>
        ensures gives { Gives (varint_at max_u64) input.old.now input.new.now result }
        ensures without_memory { ¬ IsErrOf result CodecError.Memory }
    {
        Ok(View::new(read_u64(input)?))
    }
}

impl Write for Participant {
    ghost fits = { λ n. n ≤ max_u32 };

    ghost spelling = { varint };

    fn append(&self, out: &mut Vec<u8>) -> Result<(), AllocError> {
        put_varint(out, u64::from(self.get()))
    }
}

impl EncodeSize for Participant {
    ghost max_size = { 5 };

    fn encode_size(&self) -> usize {
        u32_size(self.get())
    }

    ghost short = { Prim.search rules };
}

impl MaxEncodeSize for Participant {
    fn max_encode_size() -> usize {
        5
    }
}

impl Read for Participant {
    ghost within = { λ _ _. ⊤ };

    ghost reading = { λ _. varint_at max_u32 };

    ghost one_spelling = { λ _ _. unbounded-IsCodec (varint-IsCodec max_u32) };

    ghost grows = { λ n m x up h. h };

    fn read_cfg(_alloc: Global, input: &mut &[u8], _bound: u32) -> Result<Self, CodecError>
        ensures gives { Gives (varint_at max_u32) input.old.now input.new.now result }
        ensures without_memory { ¬ IsErrOf result CodecError.Memory }
    {
        Ok(Participant::new(read_u32(input)?))
    }
}

impl Write for Round {
    ghost fits = { round_fits };

    ghost spelling = { round_spelling };

    fn append(&self, out: &mut Vec<u8>) -> Result<(), AllocError> {
        self.epoch.append(out)?;
        self.view.append(out)
    }
}

impl EncodeSize for Round {
    ghost max_size = { 20 };

    fn encode_size(&self) -> usize {
        self.epoch.encode_size() + self.view.encode_size()
    }

    ghost short = { Prim.search rules };
}

impl MaxEncodeSize for Round {
    fn max_encode_size() -> usize {
        Epoch::max_encode_size() + View::max_encode_size()
    }
}

impl Read for Round {
    ghost within = { λ _ _. ⊤ };

    ghost reading = { λ _. round_at };

    ghost one_spelling = { λ _ _. unbounded-IsCodec round-IsCodec };

    ghost grows = { λ n m x up h. h };

    fn read_cfg(alloc: Global, input: &mut &[u8], bound: u32) -> Result<Self, CodecError>
        ensures gives { Gives round_at input.old.now input.new.now result }
        ensures without_memory { ¬ IsErrOf result CodecError.Memory }
    {
        let mut rest = *input;
        let epoch = Epoch::read_cfg(alloc, &mut rest, bound)?;
        let view = View::read_cfg(alloc, &mut rest, bound)?;
        *input = rest;
        Ok(Round { epoch, view })
    }
}
