//! What the node asks for, of its application and of other members, and when it wants to be told the time.

ghost use Rattle.std.specs.Prelude.{List};
ghost use Rattle.node_requests.specs.Asking.{is_latch, is_none, is_put_off};
ghost use Rattle.node_requests.specs.NoneDue.{NoBuildToAsk, NoBuildToGiveBack, NoneToAskAgain, NoSilence, NoVerdictToAsk, NoVerificationToAsk, NoViewToAsk};
ghost use Rattle.node_requests.specs.Silence.{IsSilenceOf};
ghost use Rattle.simplex_member.specs.Member.{NoneDue};
ghost use Rattle.node_due.specs.Acting.{WasSettled, WasTried};
ghost use Rattle.node_core.specs.Keeps.{AtAll, AtOwn, book_of};
ghost use Rattle.node_core.specs.Telling.{TellsOfBook};

use journal_single::Disk;
use node_core::Core;
use node_outbox::hand_out;
use node_record::a_ledger_at_rest_leaves_its_record;
use node_requests::{
    Acted, Silence, ask_again, ask_for_build, ask_for_verdicts, ask_for_verification,
    ask_for_views, give_build_back, give_silent_leader_up, next_wake,
};
use node_votes::silent_points_leave_votes;
use simplex_member::{Action, NodeFault, Speaks};
use types_core::{Digest, Scheme};
use types_terms::Elector;

/// Asks for the verdicts that are due, or for the notarizations that they wait for.
///
/// # Errors
///
/// [`NodeFault::Memory`].
#[tactic(auto, using(journal_books::specs::BooksLaws::same_not_failed))]
pub(crate) fn try_verdicts<S: Scheme<D> + Drop, L: Elector<S, D>, D: Digest, K: Disk>(
    core: &mut Core<S, L, D, K>,
    out: &mut Vec<Action<S, D>>,
) -> Result<Acted, NodeFault>
    ensures tried { AtOwn S.Scheme L.Elector K.Disk ⟦<S as Speaks<D>>⟧.formats core.old (λ f s h.
        WasTried S.Scheme L.Elector K.Disk f s is_put_off (NoVerdictToAsk S.Scheme f s) core.old core.new h out.old.items out.new.items
        result) }
    ensures faults { TellsOfBook K.Disk (book_of core.old) (book_of core.new) result }
{
    a_ledger_at_rest_leaves_its_record::<S, D, K>();
    silent_points_leave_votes::<S, D>();
    let alloc = core.settings.alloc;
    ask_for_verdicts(
        alloc,
        core.settings.repair.again,
        &mut core.voter,
        &core.repair,
        &mut core.tables,
        out,
    )
}

/// Asks for a verification that is due, or for what a proposal lacks to be verified; views whose proposal can never stand are given
/// up.
///
/// # Errors
///
/// [`NodeFault::Memory`].
#[tactic(auto, using(journal_books::specs::BooksLaws::same_not_failed))]
pub(crate) fn try_verification<S: Scheme<D> + Drop, L: Elector<S, D>, D: Digest, K: Disk>(
    core: &mut Core<S, L, D, K>,
    out: &mut Vec<Action<S, D>>,
) -> Result<Acted, NodeFault>
    ensures tried { AtOwn S.Scheme L.Elector K.Disk ⟦<S as Speaks<D>>⟧.formats core.old (λ f s h.
        WasTried S.Scheme L.Elector K.Disk f s is_latch (NoVerificationToAsk S.Scheme f s) core.old core.new h out.old.items out.new.items
        result) }
    ensures faults { TellsOfBook K.Disk (book_of core.old) (book_of core.new) result }
{
    a_ledger_at_rest_leaves_its_record::<S, D, K>();
    silent_points_leave_votes::<S, D>();
    let alloc = core.settings.alloc;
    ask_for_verification(
        alloc,
        core.settings.repair.again,
        &mut core.voter,
        &core.repair,
        &mut core.tables,
        out,
    )
}

/// Gives back a build that fell, or drops one that is left behind.
///
/// # Errors
///
/// [`NodeFault::Memory`].
#[tactic(auto, using(journal_books::specs::BooksLaws::same_not_failed))]
pub(crate) fn try_return<S: Scheme<D> + Drop, L: Elector<S, D>, D: Digest, K: Disk>(
    core: &mut Core<S, L, D, K>,
) -> Result<Acted, NodeFault>
    ensures tried { AtOwn S.Scheme L.Elector K.Disk ⟦<S as Speaks<D>>⟧.formats core.old (λ f s h.
        (actions : List (Action S D S.PublicKey S.Signature S.Certificate))
        → WasTried S.Scheme L.Elector K.Disk f s is_none (NoBuildToGiveBack S.Scheme f s) core.old core.new h actions actions result) }
    ensures faults { TellsOfBook K.Disk (book_of core.old) (book_of core.new) result }
{
    a_ledger_at_rest_leaves_its_record::<S, D, K>();
    silent_points_leave_votes::<S, D>();
    give_build_back(&mut core.voter, &mut core.tables)
}

/// Asks for a build that is due.
///
/// # Errors
///
/// [`NodeFault::Memory`].
#[tactic(auto, using(journal_books::specs::BooksLaws::same_not_failed))]
pub(crate) fn try_build<S: Scheme<D> + Drop, L: Elector<S, D>, D: Digest, K: Disk>(
    core: &mut Core<S, L, D, K>,
    out: &mut Vec<Action<S, D>>,
) -> Result<Acted, NodeFault>
    ensures tried { AtOwn S.Scheme L.Elector K.Disk ⟦<S as Speaks<D>>⟧.formats core.old (λ f s h.
        WasTried S.Scheme L.Elector K.Disk f s is_none (NoBuildToAsk S.Scheme f s) core.old core.new h out.old.items out.new.items result) }
    ensures faults { TellsOfBook K.Disk (book_of core.old) (book_of core.new) result }
{
    a_ledger_at_rest_leaves_its_record::<S, D, K>();
    silent_points_leave_votes::<S, D>();
    ask_for_build(&mut core.voter, &mut core.tables, out)
}

/// Asks all for the views that are to be repaired.
///
/// # Errors
///
/// [`NodeFault::Memory`].
#[tactic(auto, using(journal_books::specs::BooksLaws::same_not_failed))]
pub(crate) fn try_views<S: Scheme<D> + Drop, L: Elector<S, D>, D: Digest, K: Disk>(
    core: &mut Core<S, L, D, K>,
    out: &mut Vec<Action<S, D>>,
) -> Result<Acted, NodeFault>
    ensures tried { AtOwn S.Scheme L.Elector K.Disk ⟦<S as Speaks<D>>⟧.formats core.old (λ f s h.
        WasTried S.Scheme L.Elector K.Disk f s is_none (NoViewToAsk S.Scheme f s) core.old core.new h out.old.items out.new.items result) }
    ensures faults { TellsOfBook K.Disk (book_of core.old) (book_of core.new) result }
{
    a_ledger_at_rest_leaves_its_record::<S, D, K>();
    silent_points_leave_votes::<S, D>();
    let alloc = core.settings.alloc;
    let policy = core.settings.repair;
    ask_for_views(alloc, policy, &core.repair, &mut core.tables, out)
}

/// Asks again for what was asked and isn't settled, where that goes with a repeated nullify.
///
/// # Errors
///
/// [`NodeFault::Memory`].
#[tactic(auto, using(journal_books::specs::BooksLaws::same_not_failed))]
pub(crate) fn try_again<S: Scheme<D> + Drop, L: Elector<S, D>, D: Digest, K: Disk>(
    core: &mut Core<S, L, D, K>,
    out: &mut Vec<Action<S, D>>,
) -> Result<Acted, NodeFault>
    ensures tried { AtOwn S.Scheme L.Elector K.Disk ⟦<S as Speaks<D>>⟧.formats core.old (λ f s h.
        WasTried S.Scheme L.Elector K.Disk f s is_none (NoneToAskAgain S.Scheme f s) core.old core.new h out.old.items out.new.items result) }
    ensures faults { TellsOfBook K.Disk (book_of core.old) (book_of core.new) result }
{
    a_ledger_at_rest_leaves_its_record::<S, D, K>();
    silent_points_leave_votes::<S, D>();
    let alloc = core.settings.alloc;
    let again = core.settings.repair.again;
    ask_again(alloc, again, &core.repair, &mut core.tables, out)
}

/// Gives the current view up for its leader's silence, where that is due.
///
/// # Errors
///
/// [`NodeFault::Memory`].
#[tactic(auto, using(journal_books::specs::BooksLaws::same_not_failed))]
pub(crate) fn try_silence<S: Scheme<D> + Drop, L: Elector<S, D>, D: Digest, K: Disk>(
    core: &mut Core<S, L, D, K>,
) -> Result<Acted, NodeFault>
    ensures tried { AtOwn S.Scheme L.Elector K.Disk ⟦<S as Speaks<D>>⟧.formats core.old (λ f s h.
        (actions : List (Action S D S.PublicKey S.Signature S.Certificate))
        → WasTried S.Scheme L.Elector K.Disk f s is_none (NoSilence S.Scheme f s) core.old core.new h actions actions result) }
    ensures faults { TellsOfBook K.Disk (book_of core.old) (book_of core.new) result }
{
    a_ledger_at_rest_leaves_its_record::<S, D, K>();
    silent_points_leave_votes::<S, D>();
    let silence = silence(core);
    give_silent_leader_up(silence, &mut core.voter, &core.tables)
}

/// Says when the node wants to be told the time, if ever.
///
/// # Errors
///
/// [`NodeFault::Memory`].
#[tactic(auto, using(journal_books::specs::BooksLaws::same_not_failed))]
pub(crate) fn say_when<S: Scheme<D> + Drop, L: Elector<S, D>, D: Digest, K: Disk>(
    core: &mut Core<S, L, D, K>,
    out: &mut Vec<Action<S, D>>,
) -> Result<(), NodeFault>
    ensures settled { AtOwn S.Scheme L.Elector K.Disk ⟦<S as Speaks<D>>⟧.formats core.old
        (λ f s h. NoneDue S.Scheme f s h → WasSettled S.Scheme L.Elector K.Disk f s core.old core.new h out.old.items out.new.items result) }
    ensures faults { TellsOfBook K.Disk (book_of core.old) (book_of core.new) result }
{
    a_ledger_at_rest_leaves_its_record::<S, D, K>();
    let silence = silence(core);
    match next_wake(silence, &mut core.voter, &core.tables) {
        Ok(Some(moment)) => hand_out(Action::Wake(moment), out),
        Ok(None) => Ok(()),
        Err(fault) => Err(fault),
    }
}

/// How long another leader may be silent.
fn silence<S: Scheme<D> + Drop, L: Elector<S, D>, D: Digest, K: Disk>(
    core: &Core<S, L, D, K>,
) -> Silence
    ensures { AtAll S.Scheme L.Elector K.Disk core.now (λ f s h. IsSilenceOf s result) }
{
    Silence {
        me: core.settings.owner.signer,
        time: core.settings.silence,
    }
}
