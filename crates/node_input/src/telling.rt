//! The time.

ghost use Rattle.std.specs.Prelude.{◌≡◌, ◌≤◌, ◌∷◌};
ghost use Rattle.simplex_member.specs.Layers.{latest};
ghost use Rattle.simplex_member.specs.Point.{Told};
ghost use Rattle.simplex_member.specs.Setup.{IsInTime};
ghost use Rattle.node_core.specs.Keeps.{AtAll, CoreKeeps, book_of};

use journal_single::Disk;
use node_core::Core;
use node_votes::silent_points_leave_votes;
use types_core::{Digest, Scheme};
use types_terms::Elector;

/// Takes a moment that is not refused.
pub(crate) fn take_moment<S: Scheme<D> + Drop, L: Elector<S, D>, D: Digest, K: Disk>(
    core: &mut Core<S, L, D, K>,
    now: u64,
)
    ensures taken { AtAll S.Scheme L.Elector K.Disk core.old (λ f s h.
        f.same ≡ D.PartialEq.eq → latest h ≤ now → IsInTime s now → CoreKeeps S.Scheme L.Elector K.Disk f s core.new (Told now ∷ h)) }
    ensures book { book_of core.new ≡ book_of core.old }
{
    silent_points_leave_votes::<S, D>();
    core.tables.tell(now);
}
