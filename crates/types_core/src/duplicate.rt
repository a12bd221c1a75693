//! Copies of values that may own memory.

ghost use Rattle.std.specs.Prelude.{◌≡◌, IfOk};

use std::alloc::{AllocError, Global};

/// Values that can be copied, by memory of their own where they own any.
pub trait Duplicate: Sized {
    /// An equal value. Refused only where memory is.
    fn duplicate(&self, alloc: Global) -> Result<Self, AllocError>
        ensures { IfOk result (λ copy. copy ≡ self.now) };
}
