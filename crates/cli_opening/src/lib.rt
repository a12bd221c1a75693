//! What a record's file holds, looked at before a node opens it, and what is said of that.
#![tactic(auto)]

mod halves;
mod looking;
mod owning;
mod reaching;
mod saying;

pub use halves::{look_at_half, look_at_half_by, look_over_half, look_over_half_by};
pub use looking::{Barred, Found, look_at, look_at_by, look_over, look_over_by};
pub use owning::owner_by;
pub use saying::{HELP, VERSION, say_barred, say_barred_by, say_found};
