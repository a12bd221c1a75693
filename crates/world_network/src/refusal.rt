//! Why a line of a scenario is refused.

use std::alloc::{AllocError, AllocFailed};

/// Why a line of a scenario is refused.
#[derive(Clone, Copy)]
pub enum Refusal {
    /// No line begins with that word.
    UnknownLine,
    /// A number is missing, or what stands there is none.
    NoNumber,
    /// A word is missing, or stands for nothing there.
    UnknownWord,
    /// Words are left over.
    LeftOver,
    /// The committee has 1 to 64 members.
    Committee,
    /// Members were named already.
    NamedBefore,
    /// There is no such member.
    NoSuchMember,
    /// The least lies above the most.
    LeastAboveMost,
    /// A share is of a thousand.
    Share,
    /// The number has to be above 0.
    Zero,
    /// The number is above the most, which is 10^9.
    TooLarge,
    /// More views of a term are optimistic than may be.
    Optimistic,
    /// The time ends no later than it begins.
    NotLater,
    /// The time of a member begins before the one before has ended.
    StillDown,
    /// No node can be set up so.
    Times,
    /// The line's bytes aren't UTF-8.
    NoText,
    /// Memory ran out.
    Memory,
}

impl Refusal {
    /// What is told of it.
    pub fn text(self) -> &'static str {
        match self {
            Refusal::UnknownLine => "no line begins with this word",
            Refusal::NoNumber => "a number is missing, or is none",
            Refusal::UnknownWord => "a word is missing, or has no meaning there",
            Refusal::LeftOver => "words are left over",
            Refusal::Committee => "a committee has 1 to 64 members",
            Refusal::NamedBefore => "members were named before their number",
            Refusal::NoSuchMember => "there is no such member",
            Refusal::LeastAboveMost => "the least lies above the most",
            Refusal::Share => "a share is at most 1000 of a thousand",
            Refusal::Zero => "the number has to be above 0",
            Refusal::TooLarge => "the number is above 1000000000",
            Refusal::Optimistic => "at most 1000 views of a term are optimistic",
            Refusal::NotLater => "the end has to be later than the beginning",
            Refusal::StillDown => "the member is still down then by a line before",
            Refusal::Times => "no node can be set up with these times",
            Refusal::NoText => "the line is not UTF-8",
            Refusal::Memory => "memory ran out",
        }
    }
}

impl From<AllocError> for Refusal {
    fn from(_error: AllocError) -> Refusal {
        Refusal::Memory
    }
}

impl<T: Drop> From<AllocFailed<T>> for Refusal {
    fn from(_error: AllocFailed<T>) -> Refusal {
        Refusal::Memory
    }
}
