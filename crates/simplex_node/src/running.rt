//! A node over a list of events.

ghost use Rattle.std.specs.Prelude.{◌≡◌, ◌≢◌, [], false, true, Some, IfOk, IsSome, OnErr};
ghost use Rattle.journal_books.specs.Books.{HasFailed, HasNotFailed, are_two};
ghost use Rattle.simplex_member.specs.declared.fault.NodeFault.TheVariants.{Device, Failed};
ghost use Rattle.node_steps.specs.Keeps.{AtOwn, book_of, disks_of, has_failed};
ghost use Rattle.simplex_node.specs.Running.{IsPassed, LeavesAtMost, RunFails, RunsTo};
ghost use Rattle.node_wire.specs.Stepper.{EndsList};

use crate::stepping::NodeSteps;
use journal_single::Disk;
use node_steps::Node;
use node_wire::{Answers, answer_list};
use simplex_member::{Event, Speaks};
use std::alloc::{AllocError, Global};
use types_core::{Digest, Scheme};
use types_terms::Elector;

/// Steps over the events, one after another, and hands back the replies. At the first step that fails it ends: the replies are to
/// the events before that, and the fault is the step's.
///
/// # Errors
///
/// `AllocError` where there is no memory for the list: then no step was made.
pub fn run<S: Scheme<D> + Drop, L: Elector<S, D>, D: Digest, K: Disk>(
    alloc: Global,
    node: &mut Node<S, L, D, K>,
    events: Vec<Event<D>>,
) -> Result<Answers<S, D>, AllocError>
    ensures answers { IfOk result (λ r.
        AtOwn S.Scheme L.Elector K.Disk ⟦<S as Speaks<D>>⟧.formats node.old (λ f s h.
        EndsList (RunsTo S.Scheme L.Elector K.Disk f s h node.new) (RunFails S.Scheme L.Elector K.Disk f s h node.new) events.items
        r.replies.items r.fault)) }
    ensures failed { IfOk result (λ r. IsSome r.fault → has_failed node.new ≡ true) }
    ensures refused_if_failed { has_failed node.old ≡ true
        → (node.new ≡ node.old) × IfOk result (λ r. (r.replies.items ≡ []) × (events.items ≢ [] → r.fault ≡ Some Failed)) }
    ensures no_room { OnErr result (node.new ≡ node.old) }

    // A disk has failed once more exactly where that is told.
    ensures device { IfOk result (λ r. r.fault ≡ Some Device → HasFailed K.Disk (disks_of node.old) (disks_of node.new)) }
    ensures no_device { IfOk result (λ r. r.fault ≢ Some Device → HasNotFailed K.Disk (disks_of node.old) (disks_of node.new)) }
    ensures as_many { are_two (disks_of node.new) ≡ are_two (disks_of node.old) }

    // A crash at any moment of the call leaves the record at a point of the step over one of the events.
    ensures any_moment { AtOwn S.Scheme L.Elector K.Disk ⟦<S as Speaks<D>>⟧.formats node.old
        (λ f s h. K.keeps → LeavesAtMost K.Disk (book_of node.old) (book_of node.new) (IsPassed S.Scheme f s h events.items)) }
{
    answer_list::<NodeSteps, S, D, Node<S, L, D, K>>(alloc, node, events)
}
