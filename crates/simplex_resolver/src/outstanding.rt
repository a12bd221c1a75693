//! The views that a member has to repair, one behind the other.

use crate::scanner::Scanner;
use std::marker::Model;
use types_core::View;

/// Outstanding views, ascending, seen as the list of those that are left. They are found one at a time, so that a gap costs nothing
/// however long it is: each in a logarithm of what is held, and as much for each view with a false verdict that is passed since it
/// is covered.
#[derive(Drop)]
pub struct Outstanding<'a> {
    scanner: &'a Scanner,
    /// All that are left lie above this view.
    last: View,
}

impl<'a> Model for Outstanding<'a> {
    ghost use Rattle.std.specs.Prelude.{ℕ, List};
    ghost use Rattle.simplex_resolver.specs.Gaps.{gaps_behind};

    ghost Value = { List ℕ };

    ghost view = { λ it. gaps_behind it.scanner.now it.last };
}

impl<'a> Outstanding<'a> {
    ghost use Rattle.std.specs.Prelude.{◌≡◌};
    ghost use Rattle.simplex_resolver.specs.Gaps.{gaps_behind};

    /// Those above this view.
    pub(crate) fn above(scanner: &'a Scanner, last: View) -> Self
        ensures { result ≡ gaps_behind scanner.now last }
    {
        Outstanding { scanner, last }
    }
}

impl<'a> Iterator for Outstanding<'a> {
    ghost use Rattle.std.specs.Iterator.{YieldsFirst, item_count};

    type Item = View;

    ghost next_gives = { YieldsFirst (λ rest. rest) };

    ghost remaining = { item_count (λ rest. rest) };

    fn next(&mut self) -> Option<View> {
        match self.scanner.first_gap(self.last) {
            Some(view) => {
                self.last = view;
                Some(view)
            }
            None => None,
        }
    }
}
