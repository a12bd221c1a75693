//! What the tests of several crates stand on: numbers as if by chance, and a scheme that is not batchable.
#![tactic(auto)]

mod chance;
mod one_by_one;

pub use chance::Chance;
pub use one_by_one::OneByOne;
