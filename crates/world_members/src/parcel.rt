//! What a liar is handed, and what it sends.

use simplex_member::Channel;
use types_core::Participant;

/// A packet that a node hands out.
#[derive(Clone, Copy)]
pub struct Handed<'a> {
    /// The member that it is for, or none for all.
    pub to: Option<Participant>,
    /// What it carries.
    pub channel: Channel,
    /// Its bytes.
    pub bytes: &'a [u8],
}

impl Handed<'_> {
    /// Whether it is for a member, where this one hands it out.
    pub fn is_for(&self, member: u32, from: u32) -> bool {
        match self.to {
            Some(one) => one.get() == member,
            None => member != from,
        }
    }
}

/// A packet of a liar.
#[derive(Drop)]
pub struct Parcel {
    /// The member that it is for.
    pub to: u32,
    /// What it carries.
    pub channel: Channel,
    /// Its bytes.
    pub bytes: Vec<u8>,
}

/// A lie that is told in a line: in which way, and about which view.
#[derive(Clone, Copy)]
pub struct Lie {
    /// Whether it is about a second proposal of its own, and not another vote.
    pub(crate) is_proposal: bool,
    /// The view.
    pub view: u64,
}

impl Lie {
    /// The word for the way.
    pub fn word(&self) -> &'static str {
        if self.is_proposal {
            "two-proposals"
        } else {
            "two-votes"
        }
    }
}
