//! Why an audit has no answer.

ghost use Rattle.std.specs.Prelude.{◌≡◌};
ghost use Rattle.cli_audit.specs.Lines.{trouble_line};
ghost use Rattle.cli_audit.specs.Running.{trouble_of};
ghost use Rattle.cli_audit.specs.declared.trouble.Trouble.TheVariants.{Memory};

use crate::input::InputError;
use std::alloc::AllocError;

/// Why an audit has no answer.
#[derive(Clone, Copy, Debug, PartialEq, Eq)]
pub enum Trouble {
    /// Memory ran out.
    Memory,
    /// A read failed, or the input had not ended after 2^32 reads.
    Device,
    /// A write failed.
    Write,
}

impl From<AllocError> for Trouble {
    ghost from_gives = { λ _ trouble. trouble ≡ Memory };

    fn from(_error: AllocError) -> Trouble {
        Trouble::Memory
    }
}

impl From<InputError> for Trouble {
    ghost from_gives = { λ error trouble. trouble ≡ trouble_of error };

    fn from(error: InputError) -> Trouble {
        match error {
            InputError::Memory => Trouble::Memory,
            InputError::Device => Trouble::Device,
        }
    }
}

impl Trouble {
    /// The line for standard error, with its newline.
    pub fn line(self) -> &'static str
        ensures { result.now ≡ trouble_line self }
    {
        match self {
            Trouble::Memory => "error: memory\n",
            Trouble::Device => "error: device\n",
            Trouble::Write => "error: write\n",
        }
    }
}
