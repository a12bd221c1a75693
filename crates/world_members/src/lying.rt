//! What a two-faced liar has said already, and to whom.

use simplex_messages::Vote;
use std::alloc::{AllocError, Global};
use types_core::{Scheme, Sha256Digest, Viewable};

/// How many sayings are kept at most.
const MOST_SAYINGS: usize = 256;

/// The kinds of votes.
#[derive(Clone, Copy, PartialEq, Eq)]
enum Kind {
    Notarize,
    Nullify,
    Finalize,
}

/// What is said in a vote, and on which side: to members of even, or of odd index.
#[derive(Clone, Copy, PartialEq, Eq)]
pub(crate) struct Saying {
    kind: Kind,
    view: u64,
    payload: Option<Sha256Digest>,
    side: u32,
}

impl Saying {
    /// What a vote says, on a side.
    pub(crate) fn of<S: Scheme<Sha256Digest>>(vote: &Vote<S, Sha256Digest>, side: u32) -> Self {
        let view = vote.view().get();
        let (kind, payload) = match vote {
            Vote::Notarize(vote) => (Kind::Notarize, Some(vote.proposal.payload)),
            Vote::Nullify(_) => (Kind::Nullify, None),
            Vote::Finalize(vote) => (Kind::Finalize, Some(vote.proposal.payload)),
        };
        Saying {
            kind,
            view,
            payload,
            side,
        }
    }
}

/// The last sayings.
#[derive(Drop)]
pub(crate) struct Sayings {
    said: Vec<Saying>,
}

impl Sayings {
    /// None.
    pub(crate) fn new(alloc: Global) -> Self {
        Sayings {
            said: Vec::new(alloc),
        }
    }

    /// Notes a saying. Whether it wasn't noted before.
    pub(crate) fn note(&mut self, saying: Saying) -> Result<bool, AllocError> {
        if self.said.contains(&saying) {
            return Ok(false);
        }
        if self.said.len() >= MOST_SAYINGS {
            self.said.clear();
        }
        self.said.push(saying)?;
        Ok(true)
    }
}
