//! What the programs that play scripts ask of values of any type that is read from bytes.
//!
//! Values stand in scripts as pairs of hexadecimal digits. A function here reads the words behind the
//! call's name and the type's, and says the answer.
#![tactic(auto)]

mod comparing;
mod read_values;

pub use comparing::{all, distinct, equal, order};
pub use read_values::{belongs, changes, cuts, read, signer};
