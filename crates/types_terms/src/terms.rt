//! How long terms are, and what they allow.

ghost use Rattle.std.specs.Prelude.{◌≡◌, ◌<◌, None, Some, IfSome};

use std::marker::Model;
use types_core::{TermLength, ViewDelta};

/// How long terms are, and what they allow: the terms that an elector sets.
#[derive(Clone, Copy, Debug, PartialEq, Eq)]
pub struct Terms {
    length: TermLength,
    stall_timeout: Option<u64>,
    optimistic_views: ViewDelta,
}

impl Model for Terms {
    ghost use Rattle.std.specs.Prelude.{◌<◌};
    ghost use Rattle.std.specs.Option.{ForSome};
    ghost use Rattle.types_terms.specs.Terms.{Timing};

    ghost Value = { Timing };

    ghost view = { λ t. record { length = t.length; stall_timeout = t.stall_timeout; optimistic_views = t.optimistic_views } };

    ghost inverse = { λ t. record { length = t.length; stall_timeout = t.stall_timeout; optimistic_views = t.optimistic_views } };

    ghost invariant = { λ t. ForSome t.stall_timeout (λ timeout. 0 < timeout) };
}

impl Terms {
    /// Terms of one view each, which are never given up as a whole, without optimism.
    pub const fn rotating() -> Self
        ensures length { result.length ≡ 1 }
        ensures stall_timeout { result.stall_timeout ≡ None }
        ensures optimistic_views { result.optimistic_views ≡ 0 }
    {
        Terms {
            length: TermLength::ONE,
            stall_timeout: None,
            optimistic_views: ViewDelta::zero(),
        }
    }

    /// Terms of so many views, given up after so many milliseconds without progress, in which so many
    /// views may be taken up before the views before them are certified.
    pub const fn stable(length: TermLength, stall_timeout: u64, optimistic_views: ViewDelta) -> Self
        requires { 0 < stall_timeout }
        ensures length { result.length ≡ length }
        ensures stall_timeout { result.stall_timeout ≡ Some stall_timeout }
        ensures optimistic_views { result.optimistic_views ≡ optimistic_views }
    {
        Terms {
            length,
            stall_timeout: Some(stall_timeout),
            optimistic_views,
        }
    }

    /// How many views a term has.
    pub const fn length(&self) -> TermLength
        ensures { result ≡ self.now.length }
    {
        self.length
    }

    /// After how many milliseconds without progress a term is given up, if it is.
    pub const fn stall_timeout(&self) -> Option<u64>
        ensures value { result ≡ self.now.stall_timeout }
        ensures some { IfSome result (λ timeout. 0 < timeout) }
    {
        self.stall_timeout
    }

    /// How many views may be taken up before the views before them are certified.
    pub const fn optimistic_views(&self) -> ViewDelta
        ensures { result ≡ self.now.optimistic_views }
    {
        self.optimistic_views
    }
}

impl Default for Terms {
    fn default() -> Self
        ensures { result ≡ record { length = 1; stall_timeout = None; optimistic_views = 0 } }
    {
        Terms::rotating()
    }
}
