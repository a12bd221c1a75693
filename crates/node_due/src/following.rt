//! Views that are given up since their leader gave them up.

ghost use Rattle.std.specs.Prelude.{List};
ghost use Rattle.node_requests.specs.Asking.{is_none};
ghost use Rattle.simplex_member.specs.declared.action.Action.{Action};
ghost use Rattle.node_due.specs.Acting.{WasTried};
ghost use Rattle.node_core.specs.Keeps.{AtOwn, book_of};
ghost use Rattle.node_due.specs.NoneDue.{NoLeaderToFollow};
ghost use Rattle.node_core.specs.Telling.{TellsOfBook};

use journal_single::Disk;
use node_core::Core;
use node_record::a_ledger_at_rest_leaves_its_record;
use node_requests::{Acted, follow_leader};
use node_votes::silent_points_leave_votes;
use simplex_member::{NodeFault, Speaks};
use types_core::{Digest, Scheme};
use types_terms::Elector;

/// Gives a view up that its leader gave up, where that is due.
///
/// # Errors
///
/// [`NodeFault::Memory`].
#[tactic(auto, using(journal_books::specs::BooksLaws::same_not_failed))]
pub(crate) fn try_to_follow<S: Scheme<D> + Drop, L: Elector<S, D>, D: Digest, K: Disk>(
    core: &mut Core<S, L, D, K>,
) -> Result<Acted, NodeFault>
    ensures tried { AtOwn S.Scheme L.Elector K.Disk ⟦<S as Speaks<D>>⟧.formats core.old (λ f s h.
        (actions : List (Action S D S.PublicKey S.Signature S.Certificate))
        → WasTried S.Scheme L.Elector K.Disk f s is_none (NoLeaderToFollow S.Scheme f s) core.old core.new h actions actions result) }
    ensures faults { TellsOfBook K.Disk (book_of core.old) (book_of core.new) result }
{
    a_ledger_at_rest_leaves_its_record::<S, D, K>();
    silent_points_leave_votes::<S, D>();
    let me = core.settings.owner.signer;
    let now = core.tables.moment();
    follow_leader(me, now, &mut core.voter, &core.acceptance)
}
