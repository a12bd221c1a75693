//! Epochs, views, terms, rounds and the members of a committee.

ghost use Rattle.std.specs.Prelude.{◌≡◌, ◌<◌, ◌+◌, ◌-◌, ◌^◌, ◌↔◌, ℕ, IsTrue, IfSome, IsNone, false};
ghost use Rattle.std.specs.Range.{range_inclusive_start, range_inclusive_end, range_inclusive_exhausted};
ghost use Rattle.types_core.specs.Positions.{term_index, term_start, term_end, next_term_start, IsTermStart, InCoveringRange, Covers, HasRoom};

use crate::duplicate::Duplicate;
use std::alloc::{AllocError, Global};
use std::marker::Model;
use std::ops::RangeInclusive;

/// The number of an epoch: a span of views with one committee.
#[derive(Clone, Copy, Debug, PartialEq, Eq, PartialOrd, Ord, Hash)]
pub struct Epoch(u64);

impl Model for Epoch {
    ghost Value = { ℕ };

    ghost view = { λ epoch. epoch.0 };

    ghost inverse = { λ number. record { 0 = number } };
}

impl Epoch {
    /// The epoch of this number.
    pub const fn new(number: u64) -> Self
        ensures { result ≡ number }
    {
        Epoch(number)
    }

    /// The first epoch, of number 0.
    pub const fn zero() -> Self
        ensures { result ≡ 0 }
    {
        Epoch(0)
    }

    /// The number of the epoch.
    pub const fn get(self) -> u64
        ensures value { result ≡ self }
        ensures fits { self < 2 ^ 64 }
    {
        self.0
    }

    /// Whether this is the first epoch.
    pub const fn is_zero(self) -> bool
        ensures { IsTrue result ↔ (self ≡ 0) }
    {
        self.0 == 0
    }
}

/// The number of a view. View 0 is the start, and belongs to no term.
#[derive(Clone, Copy, Debug, PartialEq, Eq, PartialOrd, Ord, Hash)]
pub struct View(u64);

impl Model for View {
    ghost Value = { ℕ };

    ghost view = { λ view. view.0 };

    ghost inverse = { λ number. record { 0 = number } };
}

impl View {
    /// The view of this number.
    pub const fn new(number: u64) -> Self
        ensures { result ≡ number }
    {
        View(number)
    }

    /// View 0.
    pub const fn zero() -> Self
        ensures { result ≡ 0 }
    {
        View(0)
    }

    /// The number of the view.
    pub const fn get(self) -> u64
        ensures value { result ≡ self }
        ensures fits { self < 2 ^ 64 }
    {
        self.0
    }

    /// Whether this is view 0.
    pub const fn is_zero(self) -> bool
        ensures { IsTrue result ↔ (self ≡ 0) }
    {
        self.0 == 0
    }

    /// The view after this one, which must have a number of 64 bits.
    pub const fn next(self) -> Self
        requires { self + 1 < 2 ^ 64 }
        ensures { result ≡ self + 1 }
    {
        View(self.0 + 1)
    }

    /// The view before this one. View 0 has none.
    pub const fn previous(self) -> Option<Self>
        ensures none { IsNone result ↔ (self ≡ 0) }
        ensures before { IfSome result (λ view. view ≡ self - 1) }
    {
        if self.0 == 0 {
            None
        } else {
            Some(View(self.0 - 1))
        }
    }

    /// The number of the term that holds this view, from 1 on, and 0 for view 0.
    pub fn term_index(self, length: TermLength) -> u64
        ensures { result ≡ term_index length self }
    {
        match self.0 {
            0 => 0,
            number => (number - 1) / u64::from(length.get()) + 1,
        }
    }

    /// The first view of this view's term, and view 0 for view 0.
    pub fn term_start(self, length: TermLength) -> Self
        ensures { result ≡ term_start length self }
    {
        match self.0 {
            0 => self,
            number => View(number - (number - 1) % u64::from(length.get())),
        }
    }

    /// The last view of this view's term, and view 0 for view 0.
    /// It must have a number of 64 bits.
    pub fn term_end(self, length: TermLength) -> Self
        requires { term_end length self < 2 ^ 64 }
        ensures { result ≡ term_end length self }
    {
        View(self.term_index(length) * u64::from(length.get()))
    }

    /// The first view of the term after this view's own.
    /// It must have a number of 64 bits.
    pub fn next_term_start(self, length: TermLength) -> Self
        requires { next_term_start length self < 2 ^ 64 }
        ensures { result ≡ next_term_start length self }
    {
        self.term_end(length).next()
    }

    /// Whether this view is the first of its term. View 0 is.
    pub fn is_term_start(self, length: TermLength) -> bool
        ensures { IsTrue result ↔ IsTermStart length self }
    {
        self == self.term_start(length)
    }

    /// The views of this view's term up to this one, both ends included:
    /// those whose nullification covers this view.
    pub fn covering_range(self, length: TermLength) -> RangeInclusive<Self>
        ensures start { range_inclusive_start result ≡ term_start length self }
        ensures end { range_inclusive_end result ≡ self }
        ensures whole { range_inclusive_exhausted result ≡ false }
    {
        self.term_start(length)..=self
    }

    /// Whether a nullification of this view covers `view`:
    /// it covers this view and what follows it in its term.
    pub fn covers(self, view: View, length: TermLength) -> bool
        ensures covered { IsTrue result ↔ Covers length self view }
        ensures in_range { IsTrue result ↔ InCoveringRange length view self }
    {
        // The proof takes from the field that a term has at least one view.
        let _views = length.0;
        view.covering_range(length).contains(&self)
    }

    /// Whether the numbers of 64 bits reach beyond the start of the next term
    /// by two whole terms and one view more.
    pub fn has_room(self, length: TermLength) -> bool
        ensures { IsTrue result ↔ HasRoom length self }
    {
        let views = u64::from(length.get());
        self.term_index(length)
            .checked_mul(views)
            .and_then(|last| last.checked_add(2 * views + 2))
            .is_some()
    }
}

/// A number of views.
#[derive(Clone, Copy, Debug, PartialEq, Eq, PartialOrd, Ord, Hash)]
pub struct ViewDelta(u64);

impl Model for ViewDelta {
    ghost Value = { ℕ };

    ghost view = { λ delta. delta.0 };

    ghost inverse = { λ views. record { 0 = views } };
}

impl ViewDelta {
    /// This many views.
    pub const fn new(views: u64) -> Self
        ensures { result ≡ views }
    {
        ViewDelta(views)
    }

    /// No view.
    pub const fn zero() -> Self
        ensures { result ≡ 0 }
    {
        ViewDelta(0)
    }

    /// How many views it is.
    pub const fn get(self) -> u64
        ensures value { result ≡ self }
        ensures fits { self < 2 ^ 64 }
    {
        self.0
    }

    /// Whether it is no view.
    pub const fn is_zero(self) -> bool
        ensures { IsTrue result ↔ (self ≡ 0) }
    {
        self.0 == 0
    }
}

/// How many views a term has: at least one.
#[derive(Clone, Copy, Debug, PartialEq, Eq, PartialOrd, Ord, Hash)]
pub struct TermLength(u32);

impl Model for TermLength {
    ghost Value = { ℕ };

    ghost view = { λ length. length.0 };

    ghost invariant = { λ length. 0 < length.0 };

    ghost inverse = { λ views. record { 0 = views } };
}

impl TermLength {
    /// Terms of one view each.
    pub const ONE: TermLength = TermLength(1);

    /// Terms of this many views each.
    pub const fn new(views: u32) -> Self
        requires { 0 < views }
        ensures { result ≡ views }
    {
        TermLength(views)
    }

    /// How many views a term has.
    pub const fn get(self) -> u32
        ensures value { result ≡ self }
        ensures at_least_one { 0 < self }
        ensures fits { self < 2 ^ 32 }
    {
        self.0
    }
}

/// The index of a member of the committee, from 0 on.
#[derive(Clone, Copy, Debug, PartialEq, Eq, PartialOrd, Ord, Hash)]
pub struct Participant(u32);

impl Model for Participant {
    ghost Value = { ℕ };

    ghost view = { λ participant. participant.0 };

    ghost inverse = { λ index. record { 0 = index } };
}

impl Participant {
    /// The member at this index.
    pub const fn new(index: u32) -> Self
        ensures { result ≡ index }
    {
        Participant(index)
    }

    /// The index of the member.
    pub const fn get(self) -> u32
        ensures value { result ≡ self }
        ensures fits { self < 2 ^ 32 }
    {
        self.0
    }
}

impl Duplicate for Participant {
    fn duplicate(&self, _alloc: Global) -> Result<Self, AllocError>
        ensures { result ≡ Ok self.now }
    {
        Ok(*self)
    }
}

/// A view of an epoch. Rounds are in order of their epochs, and then of their views.
#[derive(Clone, Copy, Debug, PartialEq, Eq, PartialOrd, Ord, Hash)]
pub struct Round {
    /// The epoch.
    pub epoch: Epoch,
    /// The view of that epoch.
    pub view: View,
}

impl Round {
    /// The round of this view of this epoch.
    pub const fn new(epoch: Epoch, view: View) -> Self
        ensures epoch { result.epoch ≡ epoch }
        ensures view { result.view ≡ view }
    {
        Round { epoch, view }
    }
}

impl Duplicate for Round {
    fn duplicate(&self, _alloc: Global) -> Result<Self, AllocError>
        ensures { result ≡ Ok self.now }
    {
        Ok(*self)
    }
}
