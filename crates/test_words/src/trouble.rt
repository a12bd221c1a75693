//! What can go wrong with a line.

use std::alloc::{AllocError, AllocFailed};

/// Why a line isn't answered by a call.
#[derive(Clone, Copy, Debug, PartialEq, Eq)]
pub enum Trouble {
    /// No call is spelled so.
    Unreadable,
    /// The call asks of its callers what isn't so. It wasn't made.
    Condition,
    /// Memory ran out.
    Memory,
}

impl From<AllocError> for Trouble {
    fn from(_error: AllocError) -> Trouble {
        Trouble::Memory
    }
}

impl<T: Drop> From<AllocFailed<T>> for Trouble {
    fn from(_error: AllocFailed<T>) -> Trouble {
        Trouble::Memory
    }
}
