//! Values as bytes: each value has one spelling, and reading stops at the first trouble from the left; and
//! bytes for a writer, all of them or a front.
#![tactic(auto)]

mod codec;
mod output;
mod truth;
mod varint;

pub use codec::{
    CodecError, EncodeSize, MaxEncodeSize, Read, Write, decode_cfg, read_bytes, take_bytes,
};
pub use output::write_whole;
pub use varint::{
    numbers_have_one_spelling, put_varint, read_u32, read_u64, u32_size, varint_size,
};
