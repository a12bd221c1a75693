//! Steps: an event is refused or taken, and what it brings is done.

ghost use Rattle.std.specs.Prelude.{◌≡◌, Some, true, false, IfOk, OnErr, OnOk, IsErrOf, IsOk};
ghost use Rattle.journal_books.specs.Books.{HasFailed, HasNotFailed, LeaveBook, are_two};
ghost use Rattle.simplex_member.specs.First.{IsFirst};
ghost use Rattle.simplex_member.specs.Member.{IsReached, Steps};
ghost use Rattle.simplex_member.specs.Point.{History};
ghost use Rattle.simplex_member.specs.Refusals.{needs_nothing, tests};
ghost use Rattle.node_steps.specs.Keeps.{AtOwn, NodeKeeps, book_of, disks_of, has_failed};

use crate::answering::answer_whole;
use crate::node::Node;
use journal_single::Disk;
use simplex_member::{Event, NodeFault, Refusal, Reply, Speaks};
use types_core::{Digest, Scheme};
use types_terms::Elector;

impl<S: Scheme<D> + Drop, L: Elector<S, D>, D: Digest, K: Disk> Node<S, L, D, K> {
    /// One step: the reply to an event. Nothing of it is out before it is answered, and all that it says is recorded by then.
    ///
    /// # Errors
    ///
    /// [`NodeFault::Memory`] and [`NodeFault::Device`]: then the node has failed, and each later step answers [`NodeFault::Failed`].
    pub fn step(&mut self, event: Event<D>) -> Result<Reply<S, D>, NodeFault>
        ensures ok { IfOk result (λ reply.
            AtOwn S.Scheme L.Elector K.Disk ⟦<S as Speaks<D>>⟧.formats self.old (λ f s h.
            (end : History S D S.PublicKey S.Signature S.Certificate) × Steps S.Scheme f s h event reply end × NodeKeeps S.Scheme L.Elector
            K.Disk f s self.new end)) }
        ensures failed { OnErr result (has_failed self.new ≡ true) }
        ensures refused_if_failed { has_failed self.old ≡ true → IsErrOf result NodeFault.Failed × (self.new ≡ self.old) }
        ensures failed_before { IsErrOf result NodeFault.Failed → has_failed self.old ≡ true }

        // A disk has failed once more exactly where that is told.
        ensures device { IsErrOf result NodeFault.Device → HasFailed K.Disk (disks_of self.old) (disks_of self.new) }
        ensures no_device { IsErrOf result NodeFault.Memory → HasNotFailed K.Disk (disks_of self.old) (disks_of self.new) }
        ensures no_fault { OnOk result (HasNotFailed K.Disk (disks_of self.old) (disks_of self.new)) }
        ensures as_many { are_two (disks_of self.new) ≡ are_two (disks_of self.old) }

        // A crash at any moment of the call leaves the record at a point of the step.
        ensures any_moment { AtOwn S.Scheme L.Elector K.Disk ⟦<S as Speaks<D>>⟧.formats self.old
            (λ f s h. K.keeps → LeaveBook K.Disk (book_of self.old) (book_of self.new) (IsReached S.Scheme f s h event)) }

        // Refusals that ask for neither memory nor the disk are always answered.
        ensures without_memory { AtOwn S.Scheme L.Elector K.Disk ⟦<S as Speaks<D>>⟧.formats self.old
            (λ f s h. (r : Refusal) → IsFirst (tests S.Scheme f s h event) (Some r) → needs_nothing r ≡ true → IsOk result) }
    {
        if self.is_failed() {
            return Err(NodeFault::Failed);
        }
        match answer_whole(&mut self.core, event) {
            Ok(reply) => Ok(reply),
            Err(fault) => {
                self.failed = true;
                Err(fault)
            }
        }
    }
}
