//! The round of one view.

mod certificates;
mod certifying;
mod proposing;
mod timing;
mod verifying;
mod voting;

ghost use Rattle.std.specs.Prelude.{◌≡◌, ◌↔◌, ◌<◌, ◌≤◌, [], Some, None, IsTrue, IsSome, IfSome, MatchOption, is_none, option_map, option_copied};
ghost use Rattle.std.specs.Option.{option_or};
ghost use Rattle.simplex_round.specs.declared.leader.Leader.{Leader};
ghost use Rattle.simplex_round.specs.Round.{Keeps, AtEach, IsLeader};

use crate::leader::Leader;
use crate::slot::Slot;
use messages_certificates::{Finalization, Notarization, Nullification};
use std::rc::Rc;
use types_core::{Digest, Participant, Proposal, Round as Position, Scheme, View};
use voter_history::{TimeoutReason, Token};

/// Which votes this member cast.
#[derive(Drop)]
struct Votes {
    notarize: bool,
    nullify: bool,
    finalize: bool,
}

/// When the view is to be given up, in milliseconds.
#[derive(Drop)]
struct Deadlines {
    leader: Option<u64>,
    certification: Option<u64>,
    stall: Option<u64>,
    /// The first reason to give the view up.
    latch: Option<(u64, TimeoutReason)>,
    /// When the nullify is due again.
    retry: Option<u64>,
}

/// What a member knows of one view, and which votes it may cast in it.
///
/// All moments are in milliseconds. Whoever calls sees to what a round can't know: certificates are
/// verified, and a proposal or certificate is of this view.
#[derive(Drop)]
pub struct Round<S: Scheme<D>, D: Digest> {
    scheme: Rc<S>,
    round: Position,
    leader: Option<Leader<S::PublicKey>>,
    proposal: Slot<D>,
    votes: Votes,
    deadlines: Deadlines,
    entered_at: Option<u64>,
    proposed_at: Option<u64>,
    notarization: Option<Notarization<S, D>>,
    nullification: Option<Nullification<S, D>>,
    finalization: Option<Finalization<S, D>>,
    broadcast_notarization: bool,
    broadcast_nullification: bool,
    broadcast_finalization: bool,
    certify_asked: bool,
    certify_handle: Option<Token>,
    verdict: Option<bool>,
    last_asked: Option<View>,
    verifying: Option<(Proposal<D>, D)>,
}

impl<S: Scheme<D>, D: Digest> Round<S, D> {
    /// A view of which nothing is known.
    pub fn new(scheme: Rc<S>, round: Position) -> Self
        ensures { Keeps S.key_of (record { scheme = scheme.value; round = round }) result None [] }
    {
        Round {
            scheme,
            round,
            leader: None,
            proposal: Slot::new(),
            votes: Votes {
                notarize: false,
                nullify: false,
                finalize: false,
            },
            deadlines: Deadlines {
                leader: None,
                certification: None,
                stall: None,
                latch: None,
                retry: None,
            },
            entered_at: None,
            proposed_at: None,
            notarization: None,
            nullification: None,
            finalization: None,
            broadcast_notarization: false,
            broadcast_nullification: false,
            broadcast_finalization: false,
            certify_asked: false,
            certify_handle: None,
            verdict: None,
            last_asked: None,
            verifying: None,
        }
    }

    /// The leader, once it is known.
    pub fn leader(&self) -> Option<&Leader<S::PublicKey>>
        ensures index { AtEach S.key_of self.now (λ s l h. option_map (λ (x : Leader S.PublicKey). x.idx) (option_copied result) ≡ l) }
        ensures key { AtEach S.key_of self.now (λ s l h. IfSome result (λ x. IsLeader S.key_of s l x.now)) }
    {
        self.leader.as_ref()
    }

    /// Whether this member has the index.
    pub fn is_signer(&self, signer: Participant) -> bool
        ensures { AtEach S.key_of self.now (λ s l h. IsTrue result ↔ (S.own s.scheme ≡ Some signer)) }
    {
        self.scheme.me() == Some(signer)
    }

    /// Names the leader. An index that no member has changes nothing.
    pub fn set_leader(&mut self, leader: Participant)
        ensures member { AtEach S.key_of self.old (λ s l h. leader < S.size s.scheme → Keeps S.key_of s self.new (Some leader) h) }
        ensures stranger { AtEach S.key_of self.old (λ s l h. S.size s.scheme ≤ leader → Keeps S.key_of s self.new l h) }
    {
        if let Some(key) = self.scheme.key(leader) {
            self.leader = Some(Leader { idx: leader, key });
        }
    }

    /// Names the leader, where none is known yet: whether none was. The first stays. An index that no member has names nobody.
    pub fn learn_leader(&mut self, leader: Participant) -> bool
        ensures member { AtEach S.key_of self.old (λ s l h. leader < S.size s.scheme → Keeps S.key_of s self.new (option_or l (Some leader)) h) }
        ensures stranger { AtEach S.key_of self.old (λ s l h. S.size s.scheme ≤ leader → Keeps S.key_of s self.new l h) }
        ensures answer { AtEach S.key_of self.old (λ s l h. result ≡ is_none l) }
    {
        if self.leader.is_some() {
            return false;
        }
        self.set_leader(leader);
        true
    }

    /// Whether this member leads the view.
    fn leads(&self) -> bool
        ensures { AtEach S.key_of self.now (λ s l h. IsTrue result ↔ (IsSome l × (S.own s.scheme ≡ l))) }
    {
        match &self.leader {
            Some(leader) => self.scheme.me() == Some(leader.idx),
            None => false,
        }
    }

    /// The leader with its key, for others.
    fn leader_copy(&self) -> Option<Leader<S::PublicKey>>
        ensures { AtEach S.key_of self.now (λ s l h. MatchOption result (l ≡ None) (λ x. IsLeader S.key_of s l x)) }
    {
        match &self.leader {
            Some(leader) => Some(Leader {
                idx: leader.idx,
                key: leader.key,
            }),
            None => None,
        }
    }
}
