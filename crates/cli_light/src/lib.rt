//! For whoever only wants to check what is final: what a certificate certifies, and a chain of finalizations.
#![tactic(auto)]

mod certifying;
mod chain;

pub use certifying::{Certified, Uncertified, certifies};
pub use chain::{Broken, finalized_in};
