//! The proposal of a view.

ghost use Rattle.std.specs.Prelude.{◌≡◌, ◌↔◌, [], ◌∷◌, IsTrue, MatchBool, MatchOption, option_copied};
ghost use Rattle.voter_history.specs.Held.{forwarded, certified, recorded, confirmed, building, released, verifying, held, Agrees, Differs, IsTainted, IsUnequivocated, IsUnverified, BuildIsOpen, IsVerifyAsked};
ghost use Rattle.simplex_round.specs.Slot.{Keeps, AtEach, Becomes, HasStatus, IsChange, KeepsHeld, TakesPlace};

use std::alloc::{AllocError, Global};
use types_core::{Digest, Duplicate, Proposal};

/// How far a view is with its proposal.
#[derive(Clone, Copy, Debug, PartialEq, Eq, Default)]
pub enum Status {
    /// No proposal is held.
    #[default]
    None,
    /// The held proposal isn't verified yet.
    Unverified,
    /// The held proposal is verified: built here, voted for by the record, or found good.
    Verified,
    /// Two proposals of the view were seen. Nothing of it is voted for.
    Equivocated,
}

/// What an offered proposal changed.
#[derive(Debug, PartialEq, Eq, Drop)]
pub enum Change<D: Digest> {
    /// It is the first.
    New,
    /// It is the one that is held.
    Unchanged,
    /// It is another one than the one that was held.
    Equivocated {
        /// The one that is not held from now on.
        dropped: Proposal<D>,
        /// The one that is.
        retained: Proposal<D>,
    },
}

impl<D: Digest> Duplicate for Change<D> {
    fn duplicate(&self, _alloc: Global) -> Result<Self, AllocError> {
        match self {
            Change::New => Ok(Change::New),
            Change::Unchanged => Ok(Change::Unchanged),
            Change::Equivocated { dropped, retained } => Ok(Change::Equivocated {
                dropped: *dropped,
                retained: *retained,
            }),
        }
    }
}

/// The proposal that a view holds, and what was asked about it.
#[derive(Drop)]
pub struct Slot<D: Digest> {
    proposal: Option<Proposal<D>>,
    status: Status,
    requested_build: bool,
    requested_verify: bool,
}

impl<D: Digest> Slot<D> {
    /// A view to which nothing was offered.
    pub const fn new() -> Self
        ensures { Keeps result [] }
    {
        Slot {
            proposal: None,
            status: Status::None,
            requested_build: false,
            requested_verify: false,
        }
    }

    /// The proposal that is held.
    pub fn proposal(&self) -> Option<&Proposal<D>>
        ensures { AtEach self.now (λ h. option_copied result ≡ held h) }
    {
        self.proposal.as_ref()
    }

    /// How far the view is with its proposal.
    pub const fn status(&self) -> Status
        ensures { AtEach self.now (λ h. HasStatus h result) }
    {
        self.status
    }

    /// Whether a proposal is held, and none other was seen.
    pub fn has_unequivocated_proposal(&self) -> bool
        ensures { AtEach self.now (λ h. IsTrue result ↔ IsUnequivocated h) }
    {
        self.proposal.is_some() && self.status != Status::Equivocated
    }

    /// Whether a build is to be asked for: none was, and nothing is held.
    pub fn should_build(&self) -> bool
        ensures { AtEach self.now (λ h. IsTrue result ↔ BuildIsOpen h) }
    {
        !self.requested_build && self.proposal.is_none()
    }

    /// Takes in that a build is asked for.
    pub fn set_building(&mut self)
        ensures { Becomes self.old self.new (λ h. building ∷ h) }
    {
        self.requested_build = true;
    }

    /// Takes in that the build which was asked for is given back.
    pub fn clear_request(&mut self)
        ensures { Becomes self.old self.new (λ h. released ∷ h) }
    {
        self.requested_build = false;
    }

    /// Whether a verification is to be asked for: none was.
    pub const fn should_verify(&self) -> bool
        ensures { AtEach self.now (λ h. IsTrue result ↔ ¬ IsVerifyAsked h) }
    {
        !self.requested_verify
    }

    /// Offers a proposal that is verified already: whether it is held then. Where another one is held, this
    /// one changes nothing.
    pub fn record_verified(&mut self, proposal: Proposal<D>) -> bool
        ensures keeps { AtEach self.old (λ h. MatchBool result (Keeps self.new (recorded proposal ∷ h)) (Keeps self.new h)) }
        ensures answer { AtEach self.old (λ h. MatchBool result (Agrees (held h) proposal) (Differs (held h) proposal)) }
    {
        if let Some(existing) = self.proposal {
            if existing != proposal {
                return false;
            }
        }
        self.proposal = Some(proposal);
        if self.status != Status::Equivocated {
            self.status = Status::Verified;
        }
        self.requested_build = true;
        self.requested_verify = true;
        true
    }

    /// Asks for a verification: whether none was asked for before.
    pub fn request_verify(&mut self) -> bool
        ensures keeps { Becomes self.old self.new (λ h. verifying ∷ h) }
        ensures answer { AtEach self.old (λ h. IsTrue result ↔ ¬ IsVerifyAsked h) }
    {
        if self.requested_verify {
            return false;
        }
        self.requested_verify = true;
        true
    }

    /// Takes in that the held proposal was found good: whether it became verified by that.
    pub fn mark_verified(&mut self) -> bool
        ensures keeps { Becomes self.old self.new (λ h. confirmed ∷ h) }
        ensures answer { AtEach self.old (λ h. IsTrue result ↔ IsUnverified h) }
    {
        if self.status != Status::Unverified {
            return false;
        }
        self.status = Status::Verified;
        true
    }

    /// Offers the proposal of a vote: what it changed, or `None` where two proposals of the view were seen
    /// before. A held proposal stays.
    pub fn update_vote(&mut self, proposal: &Proposal<D>) -> Option<Change<D>>
        ensures keeps { Becomes self.old self.new (λ h. forwarded proposal.now ∷ h) }
        ensures answer { AtEach self.old (λ h. MatchOption result (IsTainted h) (λ c. (¬ IsTainted h) × IsChange (held h) KeepsHeld proposal.now c)) }
    {
        if self.status == Status::Equivocated {
            return None;
        }
        let Some(existing) = self.proposal else {
            self.proposal = Some(*proposal);
            self.status = Status::Unverified;
            return Some(Change::New);
        };
        if existing == *proposal {
            return Some(Change::Unchanged);
        }
        self.status = Status::Equivocated;
        Some(Change::Equivocated {
            dropped: *proposal,
            retained: existing,
        })
    }

    /// Offers the proposal of a certificate: what it changed. It takes the place of a held one.
    pub fn update_certificate(&mut self, proposal: &Proposal<D>) -> Change<D>
        ensures keeps { Becomes self.old self.new (λ h. certified proposal.now ∷ h) }
        ensures answer { AtEach self.old (λ h. IsChange (held h) TakesPlace proposal.now result) }
    {
        let Some(existing) = self.proposal else {
            self.proposal = Some(*proposal);
            self.status = Status::Unverified;
            return Change::New;
        };
        if existing == *proposal {
            return Change::Unchanged;
        }
        self.proposal = Some(*proposal);
        self.requested_build = true;
        self.requested_verify = true;
        self.status = Status::Equivocated;
        Change::Equivocated {
            dropped: existing,
            retained: *proposal,
        }
    }
}

impl<D: Digest> Default for Slot<D> {
    /// A view to which nothing was offered.
    fn default() -> Self
        ensures { Keeps result [] }
    {
        Slot::new()
    }
}
