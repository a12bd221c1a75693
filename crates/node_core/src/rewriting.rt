//! The record is rewritten.

ghost use Rattle.std.specs.Prelude.{◌≡◌, ℕ, None, Some, Ok, false, IfOk};
ghost use Rattle.journal_books.specs.Books.{Leave, may_rewrite};
ghost use Rattle.simplex_member.specs.Member.{NoneDue};
ghost use Rattle.simplex_member.specs.Recorded.{kept_of, next_floor};
ghost use Rattle.node_record.specs.Ledger.{next_view};
ghost use Rattle.node_core.specs.Keeps.{AtOwn, book_of, disks_of};
ghost use Rattle.node_core.specs.Rewriting.{CoreIsRewritten, IsLeftByRewrite};
ghost use Rattle.node_core.specs.Telling.{TellsOfBook};

use crate::node_state::Core;
use journal_single::Disk;
use node_record::quiet_points_leave_the_tables;
use node_votes::silent_points_leave_votes;
use simplex_member::{NodeFault, Speaks, rewrites_leave_nothing_due, what_is_kept_stands_for_all};
use types_core::{Digest, Scheme, View};
use types_terms::Elector;

impl<S: Scheme<D> + Drop, L: Elector<S, D>, D: Digest, K: Disk> Core<S, L, D, K> {
    /// Rewrites the record, so that it begins with the finalization of the last finalized view, which is told: what doesn't reach above
    /// that is dropped, and the voter learns of it. Over one disk, at the last generation of two, and where it begins so already, none is
    /// told and nothing is changed.
    ///
    /// # Errors
    ///
    /// [`NodeFault::Memory`] and [`NodeFault::Device`]. Then the record is the one before, or the rewritten one. [`NodeFault::Failed`]
    /// where the journal has failed before.
    #[tactic(auto, using(journal_books::specs::BooksLaws::same_not_failed))]
    pub fn rewrite(&mut self) -> Result<Option<View>, NodeFault>
        ensures view { IfOk result (λ view.
            AtOwn S.Scheme L.Elector K.Disk ⟦<S as Speaks<D>>⟧.formats self.old
            (λ f s h. view ≡ next_view (may_rewrite (book_of self.old)) (kept_of s.voter.length h))) }
        ensures rewritten { IfOk result (λ view.
            (floor : ℕ)
            → view ≡ Some floor
            → AtOwn S.Scheme L.Elector K.Disk ⟦<S as Speaks<D>>⟧.formats self.old
            (λ f s h. CoreIsRewritten S.Scheme L.Elector K.Disk f s self.new h floor)) }
        ensures none { IfOk result (λ view. view ≡ None → self.new ≡ self.old) }

        // Where there is nothing to rewrite, that is always told.
        ensures none_if_it_cannot { may_rewrite (book_of self.old) ≡ false → result ≡ Ok None }
        ensures none_if_it_begins_there { AtOwn S.Scheme L.Elector K.Disk ⟦<S as Speaks<D>>⟧.formats self.old
            (λ f s h. next_floor (kept_of s.voter.length h) ≡ None → result ≡ Ok None) }

        // A crash at any moment leaves the record from before it, or the rewritten one.
        ensures any_moment { AtOwn S.Scheme L.Elector K.Disk ⟦<S as Speaks<D>>⟧.formats self.old (λ f s h.
            NoneDue S.Scheme f s h
            → K.keeps
            → Leave K.Disk (disks_of self.old) (disks_of self.new) (IsLeftByRewrite S.Scheme f s h)) }
        ensures faults { TellsOfBook K.Disk (book_of self.old) (book_of self.new) result }
    {
        what_is_kept_stands_for_all::<S, D>();
        rewrites_leave_nothing_due::<S, D>();
        silent_points_leave_votes::<S, D>();
        quiet_points_leave_the_tables::<S, D>();
        // The proof takes from the number that terms have views.
        let _views = self.settings.owner.term_length.get();
        match self.ledger.rewrite(self.settings.alloc) {
            Ok(Some(view)) => {
                self.voter.base(view);
                Ok(Some(view))
            }
            Ok(None) => Ok(None),
            Err(fault) => Err(fault),
        }
    }
}
