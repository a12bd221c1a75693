//! What the audit keeps of one signer's votes of one round.

use std::cmp::Ordering;
use types_core::{Digest, Participant, Round, Signature, View};

/// A signer in a round.
#[derive(Clone, Copy, PartialEq, Eq, PartialOrd, Ord)]
pub(crate) struct Suspect {
    /// The round.
    pub(crate) round: Round,
    /// The signer's index.
    pub(crate) signer: Participant,
}

/// What a vote of a round is for.
#[derive(Clone, Copy, PartialEq, Eq, PartialOrd, Ord)]
pub(crate) struct Choice<D: Digest> {
    /// The view of the proposal's parent.
    pub(crate) parent: View,
    /// The proposal's payload.
    pub(crate) payload: D,
}

/// A vote of a round, by a signer that is known.
#[derive(Clone, Copy)]
pub(crate) struct Cast<D: Digest, G> {
    /// What it is for.
    pub(crate) choice: Choice<D>,
    /// Its signature.
    pub(crate) signature: G,
}

impl<D: Digest, G> Cast<D, G> {
    ghost use Rattle.std.specs.Prelude.{◌≡◌};
    ghost use Rattle.simplex_rules.specs.Cast.{IsLower};

    /// How the two stand to each other by what they are for.
    fn compare(&self, other: &Self) -> Ordering
        ensures less { result ≡ Ordering.Less → IsLower D.cmp self.now.choice other.now.choice }
        ensures equal { result ≡ Ordering.Equal → self.now.choice ≡ other.now.choice }
        ensures greater { result ≡ Ordering.Greater → IsLower D.cmp other.now.choice self.now.choice }
    {
        self.choice.cmp(&other.choice)
    }
}

impl<D: Digest, G: Signature> Cast<D, G> {
    ghost use Rattle.std.specs.Prelude.{◌≡◌, ◌↔◌, IsTrue};

    /// Whether the two are one vote, to the last byte.
    pub(crate) fn is_same(&self, other: &Self) -> bool
        ensures { IsTrue result ↔ (self.now ≡ other.now) }
    {
        self.signature == other.signature && self.choice == other.choice
    }
}

/// Where a vote stands among the two that are kept.
#[derive(Clone, Copy)]
pub(crate) enum Place {
    /// It is for the least proposal.
    First,
    /// It is for the next.
    Second,
}

/// What is kept of one signer's votes of one round: of the first that verify for the least two
/// proposals, one or both, and before one had to be verified the vote that stands for them.
#[derive(Drop)]
pub(crate) enum Kept<D: Digest, G> {
    /// There was no vote.
    Nothing,
    /// A vote that was not verified yet. All before it failed, and all behind it are the same.
    Claim(Cast<D, G>),
    /// All that verify are for one proposal.
    One(Cast<D, G>),
    /// The least two of several proposals, the lesser first.
    Two(Cast<D, G>, Cast<D, G>),
}

impl<D: Digest, G: Copy> Kept<D, G> {
    ghost use Rattle.std.specs.Prelude.{◌≡◌, false};
    ghost use Rattle.simplex_rules.specs.declared.cast.Kept.{Kept};
    ghost use Rattle.simplex_rules.specs.Cast.{IsPlacedAt, IsSettled, ends_of};

    /// The first and the last of the verified votes that are kept, by what they are for: one vote twice where all
    /// are for one proposal.
    pub(crate) fn ends(&self) -> Option<(Cast<D, G>, Cast<D, G>)>
        ensures { result ≡ ends_of self.now }
    {
        match self {
            Kept::Nothing => None,
            Kept::Claim(_) => None,
            Kept::One(only) => Some((*only, *only)),
            Kept::Two(least, next) => Some((*least, *next)),
        }
    }

    /// Whether a vote is kept.
    pub(crate) fn is_any(&self) -> bool
        ensures { result ≡ false → self.now ≡ Kept.Nothing }
    {
        match self {
            Kept::Nothing => false,
            Kept::Claim(_) | Kept::One(_) | Kept::Two(_, _) => true,
        }
    }

    /// Where one more vote that verifies stands among the verified ones that are kept, if it is kept.
    pub(crate) fn place_of(&self, cast: &Cast<D, G>) -> Option<Place>
        ensures { IsSettled self.now → IsPlacedAt D.cmp self.now cast.now.choice result }
    {
        match self {
            Kept::Nothing => None,
            Kept::Claim(_) => None,
            Kept::One(only) => match cast.compare(only) {
                Ordering::Less => Some(Place::First),
                Ordering::Equal => None,
                Ordering::Greater => Some(Place::Second),
            },
            Kept::Two(least, next) => match cast.compare(least) {
                Ordering::Less => Some(Place::First),
                Ordering::Equal => None,
                Ordering::Greater => match cast.compare(next) {
                    Ordering::Less => Some(Place::Second),
                    Ordering::Equal | Ordering::Greater => None,
                },
            },
        }
    }
}
