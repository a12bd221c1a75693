//! What follows of the votes of all views.

ghost use Rattle.node_votes.specs.KeepsVotes.{KeptCameUp, QuietStays, SilentStays};

use types_core::{Digest, Scheme};

/// Behind a point that says nothing of votes they stand where they did: at the point, where no view is entered by it, and
/// else a point ahead.
pub fn silent_points_leave_votes<S: Scheme<D>, D: Digest>()
    ensures quiet { QuietStays S.Scheme D.PartialEq.eq }
    ensures silent { SilentStays S.Scheme D.PartialEq.eq }
{}

/// Something happened to the votes of those views alone whose votes came up: of views with room, that is.
pub fn kept_votes_came_up<S: Scheme<D>, D: Digest>()
    ensures { KeptCameUp S.Scheme D.PartialEq.eq }
{}
