//! Where the last own nullify stands in a record, and the view that it begins behind.

ghost use Rattle.std.specs.Prelude.{◌≡◌, ◌==◌, ◌+◌, None, OnOk, Some, if◌then◌else◌};

use std::alloc::AllocError;
use types_core::View;

/// How many artifacts a record has, where its last own nullify stands, and the view that it begins behind.
#[derive(Drop)]
pub(crate) struct Numbering {
    /// How many artifacts it has.
    pub(crate) count: usize,
    /// The place of the last own nullify: how many artifacts stand before it.
    pub(crate) last_nullify: Option<usize>,
    /// The view that the first artifact finalizes, or 0.
    pub(crate) floor: View,
}

impl Numbering {
    /// Those of an empty record.
    pub(crate) fn new() -> Self
        ensures count { result.count ≡ 0 }
        ensures last_nullify { result.last_nullify ≡ None }
        ensures floor { result.floor ≡ 0 }
    {
        Numbering {
            count: 0,
            last_nullify: None,
            floor: View::zero(),
        }
    }

    /// One artifact more, which is an own nullify or isn't, and finalizes this view or, at 0, none. Refused where
    /// so many can't be counted, which no memory holds.
    pub(crate) fn pass(&mut self, is_nullify: bool, finalized: View) -> Result<(), AllocError>
        ensures count { OnOk result (self.new.count ≡ self.old.count + 1) }
        ensures last_nullify { OnOk result (self.new.last_nullify ≡ (if is_nullify then Some self.old.count else self.old.last_nullify)) }
        ensures floor { OnOk result (self.new.floor ≡ (if self.old.count == 0 then finalized else self.old.floor)) }
    {
        let Some(count) = self.count.checked_add(1) else {
            return Err(AllocError);
        };
        if is_nullify {
            self.last_nullify = Some(self.count);
        }
        if self.count == 0 {
            self.floor = finalized;
        }
        self.count = count;
        Ok(())
    }
}
