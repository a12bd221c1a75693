//! The rounds of all views that a voter keeps, and who leads them.
#![tactic(auto)]

mod marks;
mod notice;
mod rounds;
mod tracked;

pub use marks::Marks;
pub use notice::Notice;
pub use tracked::{Tracked, later};
