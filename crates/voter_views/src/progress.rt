//! How far the voter is.

ghost use Rattle.std.specs.Prelude.{◌≡◌, ℕ, OnOk, max};
ghost use Rattle.voter_history.specs.History.{Setup, enter};
ghost use Rattle.voter_views.specs.Progress.{IsAt};
ghost use Rattle.voter_rounds.specs.Tracked.{Tables};

use std::alloc::AllocError;
use types_core::{Digest, Scheme, View};
use voter_rounds::Tracked;

/// The current view and what is known of all views, with the timeouts of a view that is entered.
#[derive(Drop)]
pub(crate) struct Progress<S: Scheme<D>, D: Digest> {
    pub(crate) view: View,
    pub(crate) leader_timeout: u64,
    pub(crate) certification_timeout: u64,
    pub(crate) stall_timeout: Option<u64>,
    pub(crate) tracked: Tracked<S, D>,
}

impl<S: Scheme<D> + Drop, D: Digest> Progress<S, D> {
    /// Enters the view, where it lies above the current one. A deadline that would lie past the last moment of 64 bits is that one.
    pub(crate) fn enter(&mut self, now: u64, view: View) -> Result<(), AllocError>
        ensures { OnOk result ((s : Setup S S.Certificate) (c : ℕ) (t : Tables S D S.PublicKey S.Signature S.Certificate)
            → IsAt S.Scheme s self.old c t
            → IsAt S.Scheme s self.new (max view c) (record t { past = enter s c now view t.past })) }
    {
        if view <= self.view {
            return Ok(());
        }
        let stall = match self.stall_timeout {
            Some(timeout) => Some(now.saturating_add(timeout)),
            None => None,
        };
        let leader = now.saturating_add(self.leader_timeout);
        let certification = now.saturating_add(self.certification_timeout);
        self.tracked.enter(view, now, leader, certification, stall)?;
        self.view = view;
        Ok(())
    }
}
