//! What the programs that play scripts share: each makes the calls of one layer, a line a call, and answers each
//! with a line. This library has all of it that needs no messages; `test_messages` adds those.
//!
//! A program has a value that is a [`Layer`], and hands it to [`play`] with its input and its output:
//!
//! ```text
//! fn main(rt: HostRuntime) -> ExitCode {
//!     let mut layer = Layers::Nothing;
//!     ExitCode::from(play(rt.alloc(), &mut layer, rt.reader(), &mut io::writer(&rt)))
//! }
//!
//! impl Layer for Layers {
//!     fn reset(&mut self, words: &mut Words<'_>, alloc: Global) -> Result<(), Trouble> { .. }
//!     fn call(&mut self, name: &str, words: &mut Words<'_>, say: &mut Say) -> Result<(), Trouble> { .. }
//! }
//! ```
//!
//! `play` echoes lines that begin with `#`, makes `reset ..` by `Layer::reset` and answers `ok`, and makes each other
//! line by `Layer::call`. It answers `unreadable` and `condition` where a call ends with `Trouble::Unreadable` and
//! `Trouble::Condition`, and drops what the call had said. At `Trouble::Memory` it prints `memory` and ends with
//! status 3, where reading or writing fails with 4, and at the input's end with 0.
//!
//! A line that can't be read must leave the layer as it was. So a call reads all its words, tests by `words.end()?`
//! that no more are left, tests its conditions, and is made only then:
//!
//! ```text
//! "has_nullify" => {
//!     let signer = words.member()?;
//!     words.end()?;
//!     say.truth(round.has_nullify(signer))
//! }
//! ```
//!
//! # Words that are read
//!
//! All are `Unreadable` where the word isn't of that form; a number has one spelling, with no sign and no zero in
//! front of it.
//!
//! - `word` (empty behind the last), `more`, `end`; `left`, which reads none: [`Left`], whether nothing is left or a number
//!   alone. A match of names behind that has no word to read, which would double what it costs the prover.
//! - `number` (u64), `index` (u32), `small` (u8), `optional` (`-` or a u64), `truth` (`0`, `1`)
//! - `member`, `optional_member`, `key`, `view`, `epoch`, `round`, `term_length`, `payload` (`k` for 32 bytes `k`)
//! - `proposal` (`EPOCH VIEW PARENT K`), `context` (`EPOCH VIEW KEY PARENT_VIEW PARENT_K`)
//! - `signing` (ATT: twice the salt of a signature, and one more where it is broken)
//! - `numbers(alloc)`: `0,2,3`, or `-` for none
//! - `bytes(alloc)`: pairs of hexadecimal digits, or `-` for none
//! - `value::<T>(alloc, bound)`: the value that such bytes spell, whole, under a bound on the committee's size
//!
//! # Words that are said
//!
//! `Say` has the allocator as `say.alloc`, and appends to the line: `text`, `gap` (a blank), `none` (`-`), `ok`,
//! `quoted` (a text in quotes, on one line), `number`, `optional`, `truth`, `member`, `members`, `numbers`, `key`,
//! `key_or`, `view`, `round`, `payload`, `payload_or`, `proposal`, `proposal_or`, `context`, `bytes` (hexadecimal),
//! `value` (a value's spelling, so), `fault` (of reading a value: `End`, `Invalid`, `TooLong`), `sum_of` (length
//! and sum of bytes), `attestation` (`SIGNER SUM`), `attestations` (`SIGNERS SUM`). The sum of bytes goes
//! `s = (s * 31 + byte) % 65521`, from 0.
//!
//! # Committees
//!
//! [`Committee`] is a scheme of the scripts: `PlainScheme`, `SaltedScheme`, and `OneByOne`, which isn't batchable.
//! `S::member_of(alloc, n, me, salt)` makes one over the base `simplex`, where `n` and `me` meet its conditions.
//! [`attest`] makes the attestation that the words `SIGNER ATT` of a vote stand for ([`Signing`]), and [`assemble`] the certificate
//! that the word `SIGNERS` of one stands for.
#![tactic(auto)]

mod committee;
mod playing;
mod say;
mod trouble;
mod words;

pub use committee::{Committee, Signing, assemble, attest};
pub use playing::{Layer, play};
pub use say::Say;
pub use trouble::Trouble;
pub use words::{Left, Words};
