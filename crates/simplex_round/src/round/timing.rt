//! Moments, deadlines, and when the view is given up.

ghost use Rattle.std.specs.Prelude.{◌≡◌, ◌∷◌, false, is_some};
ghost use Rattle.std.specs.Option.{option_or};
ghost use Rattle.voter_history.specs.Past.{entered, armed, latched, polled, entered_at, proposed_at, deadline, elapsed, is_unlatched, latch, stall_deadline, first_timeout, next_timeout, RetryIsKnown};
ghost use Rattle.simplex_round.specs.Round.{AtEach, Becomes, Keeps};

use crate::round::Round;
use types_core::{Digest, Scheme};
use voter_history::TimeoutReason;

impl<S: Scheme<D>, D: Digest> Round<S, D> {
    /// Takes in when the view was entered. The first entry counts.
    pub fn mark_entered(&mut self, now: u64)
        ensures { Becomes S.key_of self.old self.new (λ h. entered now ∷ h) }
    {
        if self.entered_at.is_none() {
            self.entered_at = Some(now);
        }
    }

    /// Whether the view was entered.
    pub fn is_entered(&self) -> bool
        ensures { AtEach S.key_of self.now (λ s l h. result ≡ is_some (entered_at h)) }
    {
        self.entered_at.is_some()
    }

    /// How long ago this member recorded its own proposal, or else entered the view.
    pub fn elapsed_since_start(&self, now: u64) -> Option<u64>
        ensures { AtEach S.key_of self.now (λ s l h. result ≡ elapsed now (option_or (proposed_at h) (entered_at h))) }
    {
        match self.proposed_at {
            Some(moment) => Some(now.saturating_sub(moment)),
            None => self.elapsed_since_entry(now),
        }
    }

    /// How long ago the view was entered.
    pub fn elapsed_since_entry(&self, now: u64) -> Option<u64>
        ensures { AtEach S.key_of self.now (λ s l h. result ≡ elapsed now (entered_at h)) }
    {
        match self.entered_at {
            Some(moment) => Some(now.saturating_sub(moment)),
            None => None,
        }
    }

    /// Sets the deadlines. Once a nullify or finalize is voted, only that against a standstill.
    pub fn set_deadlines(&mut self, leader: u64, certification: u64, stall: Option<u64>)
        ensures { Becomes S.key_of self.old self.new (λ h. armed leader certification stall ∷ h) }
    {
        if !self.votes.nullify && !self.votes.finalize {
            self.deadlines.leader = Some(leader);
            self.deadlines.certification = Some(certification);
        }
        self.deadlines.stall = stall;
    }

    /// The deadline against a standstill, while the view is not finalized.
    pub fn stall_deadline(&self) -> Option<u64>
        ensures { AtEach S.key_of self.now (λ s l h. result ≡ stall_deadline h) }
    {
        if self.finalization.is_some() {
            return None;
        }
        self.deadlines.stall
    }

    /// Takes a reason to give the view up at this moment: whether it is the first. The first counts, and none
    /// once a nullify or finalize is voted: then nothing changes.
    pub fn latch_timeout(&mut self, now: u64, reason: TimeoutReason) -> bool
        ensures keeps { Becomes S.key_of self.old self.new (λ h. latched now reason ∷ h) }
        ensures unchanged { result ≡ false → Becomes S.key_of self.old self.new (λ h. h) }
        ensures answer { AtEach S.key_of self.old (λ s l h. result ≡ is_unlatched h) }
    {
        if self.votes.nullify || self.votes.finalize || self.deadlines.latch.is_some() {
            return false;
        }
        self.deadlines.latch = Some((now, reason));
        true
    }

    /// The first reason to give the view up, where one was taken, and when it came.
    pub fn latched_timeout(&self) -> Option<(u64, TimeoutReason)>
        ensures { AtEach S.key_of self.now (λ s l h. result ≡ latch h) }
    {
        self.deadlines.latch
    }

    /// When the view is to be given up next, and why: at a reason that was taken only where it is allowed. A
    /// nullify that was voted is due again an interval after the first call that follows it, or at the last moment
    /// of 64 bits. Where none was voted, or that is known, nothing changes.
    pub fn next_timeout(
        &mut self,
        now: u64,
        retry_interval: u64,
        allow_latched_timeout: bool,
    ) -> Option<(u64, TimeoutReason)>
        ensures keeps { Becomes S.key_of self.old self.new (λ h. polled (deadline now retry_interval) ∷ h) }
        ensures unchanged { AtEach S.key_of self.old (λ s l h. RetryIsKnown h → Keeps S.key_of s self.new l h) }
        ensures answer { AtEach S.key_of self.old (λ s l h. result ≡ next_timeout (polled (deadline now retry_interval) ∷ h) allow_latched_timeout) }
    {
        self.poll(now.saturating_add(retry_interval));
        self.due_timeout(allow_latched_timeout)
    }

    /// A nullify that was voted is due again at this moment, where it isn't already at another.
    fn poll(&mut self, moment: u64)
        ensures keeps { Becomes S.key_of self.old self.new (λ h. polled moment ∷ h) }
        ensures unchanged { AtEach S.key_of self.old (λ s l h. RetryIsKnown h → Keeps S.key_of s self.new l h) }
    {
        if self.votes.nullify && self.deadlines.retry.is_none() {
            self.deadlines.retry = Some(moment);
        }
    }

    /// When the view is to be given up next, and why.
    fn due_timeout(&self, allow_latched: bool) -> Option<(u64, TimeoutReason)>
        ensures { AtEach S.key_of self.now (λ s l h. result ≡ next_timeout h allow_latched) }
    {
        if self.finalization.is_some() || self.votes.finalize {
            return None;
        }
        if !self.votes.nullify {
            return self.first_timeout(allow_latched);
        }
        match self.deadlines.retry {
            Some(moment) => Some((moment, TimeoutReason::Retry)),
            None => None,
        }
    }

    /// When the view is given up first, and why.
    fn first_timeout(&self, allow_latched: bool) -> Option<(u64, TimeoutReason)>
        ensures { AtEach S.key_of self.now (λ s l h. result ≡ first_timeout h allow_latched) }
    {
        if allow_latched && self.deadlines.latch.is_some() {
            return self.deadlines.latch;
        }
        if self.proposal.proposal().is_none() && self.deadlines.leader.is_some() {
            return match self.deadlines.leader {
                Some(moment) => Some((moment, TimeoutReason::LeaderTimeout)),
                None => None,
            };
        }
        if self.verdict == Some(true) {
            return None;
        }
        match self.deadlines.certification {
            Some(moment) => Some((moment, TimeoutReason::CertificationTimeout)),
            None => None,
        }
    }
}
