//! The record is rewritten, so that it grows no longer than what reaches above the last finalized view.

ghost use Rattle.std.specs.Prelude.{◌≡◌, ℕ, None, Some, Ok, true, false, IfOk, OnErr, OnOk, IsErrOf};
ghost use Rattle.journal_books.specs.Books.{HasFailed, HasNotFailed, Leave, are_two, may_rewrite};
ghost use Rattle.simplex_member.specs.Member.{NoneDue};
ghost use Rattle.simplex_member.specs.Recorded.{kept_of, next_floor};
ghost use Rattle.node_record.specs.Ledger.{next_view};
ghost use Rattle.node_core.specs.Rewriting.{IsLeftByRewrite};
ghost use Rattle.node_steps.specs.Keeps.{AtOwn, book_of, disks_of, has_failed};
ghost use Rattle.node_steps.specs.Rewriting.{NodeIsRewritten};

use crate::node::Node;
use journal_single::Disk;
use simplex_member::{NodeFault, Speaks};
use types_core::{Digest, Scheme, View};
use types_terms::Elector;

impl<S: Scheme<D> + Drop, L: Elector<S, D>, D: Digest, K: Disk> Node<S, L, D, K> {
    /// Rewrites the record, so that it begins with the finalization of the last finalized view, and tells that view: what doesn't reach
    /// above it is dropped. Nothing is handed out, and nothing is due behind it. Over one disk, at the last generation of two, and where
    /// the record begins so already, none is told and nothing is changed.
    ///
    /// # Errors
    ///
    /// [`NodeFault::Memory`] and [`NodeFault::Device`]: then the node has failed, and each later step answers [`NodeFault::Failed`].
    pub fn rewrite(&mut self) -> Result<Option<View>, NodeFault>
        ensures view { IfOk result (λ view.
            AtOwn S.Scheme L.Elector K.Disk ⟦<S as Speaks<D>>⟧.formats self.old
            (λ f s h. view ≡ next_view (may_rewrite (book_of self.old)) (kept_of s.voter.length h))) }
        ensures rewritten { IfOk result (λ view.
            (floor : ℕ)
            → view ≡ Some floor
            → AtOwn S.Scheme L.Elector K.Disk ⟦<S as Speaks<D>>⟧.formats self.old
            (λ f s h. NodeIsRewritten S.Scheme L.Elector K.Disk f s self.new h floor)) }
        ensures none { IfOk result (λ view. view ≡ None → self.new ≡ self.old) }

        // Where there is nothing to rewrite, that is always told.
        ensures none_if_it_cannot { has_failed self.old ≡ false → may_rewrite (book_of self.old) ≡ false → result ≡ Ok None }
        ensures none_if_it_begins_there { AtOwn S.Scheme L.Elector K.Disk ⟦<S as Speaks<D>>⟧.formats self.old
            (λ f s h. next_floor (kept_of s.voter.length h) ≡ None → result ≡ Ok None) }

        ensures failed { OnErr result (has_failed self.new ≡ true) }
        ensures refused_if_failed { has_failed self.old ≡ true → IsErrOf result NodeFault.Failed × (self.new ≡ self.old) }
        ensures failed_before { IsErrOf result NodeFault.Failed → has_failed self.old ≡ true }

        // A disk has failed once more exactly where that is told.
        ensures device { IsErrOf result NodeFault.Device → HasFailed K.Disk (disks_of self.old) (disks_of self.new) }
        ensures no_device { IsErrOf result NodeFault.Memory → HasNotFailed K.Disk (disks_of self.old) (disks_of self.new) }
        ensures no_fault { OnOk result (HasNotFailed K.Disk (disks_of self.old) (disks_of self.new)) }
        ensures as_many { are_two (disks_of self.new) ≡ are_two (disks_of self.old) }

        // A crash at any moment of the call leaves the record from before it, or the rewritten one.
        ensures any_moment { AtOwn S.Scheme L.Elector K.Disk ⟦<S as Speaks<D>>⟧.formats self.old (λ f s h.
            NoneDue S.Scheme f s h
            → K.keeps
            → Leave K.Disk (disks_of self.old) (disks_of self.new) (IsLeftByRewrite S.Scheme f s h)) }
    {
        if self.is_failed() {
            return Err(NodeFault::Failed);
        }
        match self.core.rewrite() {
            Ok(view) => Ok(view),
            Err(fault) => {
                self.failed = true;
                Err(fault)
            }
        }
    }
}
