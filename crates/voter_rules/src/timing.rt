//! When a view is given up.

ghost use Rattle.std.specs.Prelude.{◌≡◌, ◌↔◌, ◌+◌, ◌-◌, ◌<◌, ◌^◌, IsTrue};
ghost use Rattle.types_core.specs.Positions.{term_index};
ghost use Rattle.voter_rules.specs.GivingUp.{earlier};

use types_core::{TermLength, View};
use voter_history::TimeoutReason;

/// The earlier of a view's own timeout and its term's: the term's where it comes no later, and the own one still
/// lies ahead.
pub fn earlier(
    now: u64,
    own: Option<(u64, TimeoutReason)>,
    stall: Option<u64>,
) -> Option<(u64, TimeoutReason)>
    ensures { result ≡ earlier now own stall }
{
    let Some(stall) = stall else {
        return own;
    };
    let Some((moment, reason)) = own else {
        return Some((stall, TimeoutReason::StallTimeout));
    };
    if stall <= moment && now < moment {
        return Some((stall, TimeoutReason::StallTimeout));
    }
    Some((moment, reason))
}

/// Whether fewer terms than may be were skipped since the last finalized view.
pub fn has_budget(length: TermLength, current: View, last_finalized: View, budget: u64) -> bool
    requires { last_finalized + 1 < 2 ^ 64 }
    ensures { IsTrue result ↔ (term_index length current - term_index length (last_finalized + 1) < budget) }
{
    let first = last_finalized.next().term_index(length);
    current.term_index(length).saturating_sub(first) < budget
}
