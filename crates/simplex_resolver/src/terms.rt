//! Where scans begin.

ghost use Rattle.std.specs.Prelude.{◌≡◌, ◌<◌, ◌+◌, ◌^◌};
ghost use Rattle.types_core.specs.Positions.{next_term_start};
ghost use Rattle.simplex_resolver.specs.Outstanding.{scan_start, term_start_from};

use types_core::{TermLength, View};

/// The first term start from the view on.
pub(crate) fn term_start_from(view: View, length: TermLength) -> View
    requires { next_term_start length view < 2 ^ 64 }
    ensures { result ≡ term_start_from length view }
{
    if view.is_term_start(length) {
        return view;
    }
    view.next_term_start(length)
}

/// Where a scan begins, where scans went so far and the floor is here: right above the floor, where nothing was asked
/// for there, since they went no further or since the floor was raised into a term.
pub(crate) fn scan_start(went: View, floor: View, raised: bool, length: TermLength) -> View
    requires floor { floor + 1 < 2 ^ 64 }
    requires went { next_term_start length went < 2 ^ 64 }
    ensures { result ≡ scan_start length went floor raised }
{
    let first = floor.next();
    if went <= first || (raised && !first.is_term_start(length)) {
        return first;
    }
    term_start_from(went, length)
}
