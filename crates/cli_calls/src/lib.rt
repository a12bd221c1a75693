//! What libraries for callers in other languages share, whatever they serve: the room for an answer, what is told beside a status,
//! lists that are taken, and a box that is kept behind a pointer between two calls.
#![tactic(auto)]

mod found;
mod loose;
mod room;

pub use found::Found;
pub use loose::Loose;
pub use room::{answered, put, taken};
