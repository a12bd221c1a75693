//! A record over one disk or over two, in the same words.
#![tactic(auto)]

mod books;
mod disks;
mod faults;
mod found;
mod laws;

pub use books::Books;
pub use disks::Disks;
pub use found::FoundBooks;
pub use laws::{a_book_at_rest_leaves_its_record, disks_read_as_one_record};
