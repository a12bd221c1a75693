//! Why a run is broken off.

use std::alloc::{AllocError, AllocFailed};
use std::io;

/// Why a run is broken off.
#[derive(Clone, Copy)]
pub enum Broken {
    /// Memory ran out.
    Memory,
    /// Reading or writing failed.
    Device,
    /// A member isn't of its committee, which no scenario brings about.
    Setup,
}

impl From<AllocError> for Broken {
    fn from(_error: AllocError) -> Broken {
        Broken::Memory
    }
}

impl<T: Drop> From<AllocFailed<T>> for Broken {
    fn from(_error: AllocFailed<T>) -> Broken {
        Broken::Memory
    }
}

impl From<io::Error> for Broken {
    fn from(error: io::Error) -> Broken {
        if error.kind() == io::ErrorKind::OutOfMemory {
            Broken::Memory
        } else {
            Broken::Device
        }
    }
}
