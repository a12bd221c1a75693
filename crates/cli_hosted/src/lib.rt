//! A member's node whose record a host keeps, as the host holds it between two calls.
#![tactic(auto)]

mod handle;
mod place;
mod promises;
mod serving;
mod session;
mod status;
mod views;

pub use cli_calls::Found;
pub use handle::Handle;
pub use place::Place;
pub use promises::{Promised, Promises};
pub use serving::{
    closed, opened, opened_by, opened_pair, opened_pair_by, replies_taken, requests_taken,
    rewritten, stepped, views_told,
};
pub use status::Status;
pub use views::Views;
