//! A member's settings as text, in TOML: read with what is not there by its default, or why the text says none.
#![tactic(auto)]

mod fault;
mod finding;
mod key;
mod reading;
mod values;

pub use fault::{FileFault, ValueFault};
pub use finding::line_at;
pub use key::Key;
pub use reading::{MemberFile, read_member};
