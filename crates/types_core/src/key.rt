//! Public keys.

ghost use Rattle.std.specs.Prelude.{◌≡◌, ◌↔◌, ◌≤◌, ◌<◌, ◌^◌, ℕ, Bool, List, length, IsTrue};

use crate::duplicate::Duplicate;
use std::hash::Hash;
use types_codec::{MaxEncodeSize, Read};

/// Public keys: short values that are compared as they are.
pub trait PublicKey: Copy + Eq + Hash + Read + MaxEncodeSize + Duplicate {
    /// Equality is identity.
    ghost equal_is_same: { (x y : Self) → IsTrue (Self.PartialEq.eq x y) ↔ (x ≡ y) };

    /// A key is short.
    ghost small: { Self.max_size ≤ 1024 };

    /// No spelling is longer than the most.
    ghost longest: { (x : Self) → Self.fits x → length (Self.spelling x) ≤ Self.max_size };

    /// No bound asks anything of a key.
    ghost unbounded: { (n : ℕ) (x : Self) → Self.within n x };
}
