//! What a file holds, looked at before it is opened as a record.
#![tactic(auto)]

mod behind;
mod looking;

pub use looking::{Strange, look};
