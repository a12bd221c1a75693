//! Why a file of settings is none.

ghost use Rattle.std.specs.Prelude.{◌≡◌};
ghost use Rattle.cli_toml.specs.declared.fault.FileFault.TheVariants as file;
ghost use Rattle.cli_toml.specs.declared.fault.ValueFault.TheVariants as value;
ghost use Rattle.cli_toml.specs.Faults.{file_fault};

use crate::key::Key;
use cli_settings::SettingsFault;
use std::alloc::AllocError;

/// Why what stands under a key is nothing that the key can have.
#[derive(Clone, Copy, Debug, PartialEq, Eq)]
pub enum ValueFault {
    /// Memory ran out.
    Memory,
    /// Nothing stands there, and the key has no default.
    Missing(Key),
    /// It is nothing that the key can have.
    Unfit(Key),
}

impl From<AllocError> for ValueFault {
    ghost from_gives = { λ _ fault. fault ≡ value.Memory };

    fn from(_error: AllocError) -> ValueFault {
        ValueFault::Memory
    }
}

/// Why a file of settings is none. A line is counted from 1.
#[derive(Drop)]
pub enum FileFault {
    /// Memory ran out.
    Memory,
    /// It is no text in TOML.
    NoToml(toml::de::Error, usize),
    /// It has a key that is none of those of a file of settings.
    Unknown(String),
    /// It has not a key that has no default.
    Missing(Key),
    /// What stands under the key is nothing that the key can have.
    Unfit(Key),
    /// The settings are none that a node can be opened with.
    Settings(SettingsFault),
}

impl From<AllocError> for FileFault {
    ghost from_gives = { λ _ fault. fault ≡ file.Memory };

    fn from(_error: AllocError) -> FileFault {
        FileFault::Memory
    }
}

impl From<ValueFault> for FileFault {
    ghost from_gives = { λ fault result. result ≡ file_fault fault };

    fn from(fault: ValueFault) -> FileFault {
        match fault {
            ValueFault::Memory => FileFault::Memory,
            ValueFault::Missing(key) => FileFault::Missing(key),
            ValueFault::Unfit(key) => FileFault::Unfit(key),
        }
    }
}
