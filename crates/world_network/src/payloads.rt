//! The application of all members: which payloads were built, and what it finds of them.

use std::alloc::{AllocError, Global};
use types_core::{Context, Digest, Proposal, PublicKey, Sha256Digest, Viewable};

/// The payload that view 0 stands for.
pub fn genesis() -> Sha256Digest {
    Sha256Digest::new([0; 32])
}

/// What is built on: a view, and its parent.
#[derive(Clone, Copy)]
pub struct Ground {
    /// The view that is built for.
    pub view: u64,
    /// The view of the parent.
    pub parent_view: u64,
    /// The payload of the parent.
    pub parent: Sha256Digest,
}

impl Ground {
    /// What the context says.
    pub fn of<P: PublicKey>(context: &Context<Sha256Digest, P>) -> Self {
        Ground {
            view: context.round.view.get(),
            parent_view: context.parent.0.get(),
            parent: context.parent.1,
        }
    }
}

/// A payload that was built.
#[derive(Clone, Copy)]
pub struct Built {
    /// What it was built on.
    pub ground: Ground,
    /// Whether it is found good where it is proposed.
    is_good: bool,
    /// Whether the verdict on it is good.
    is_certified: bool,
}

/// All payloads that were built. The number of one is its place, from 1 on, and its digest spells the number.
#[derive(Drop)]
pub struct Payloads {
    built: Vec<Built>,
}

impl Payloads {
    /// None but genesis.
    pub fn new(alloc: Global) -> Self {
        Payloads {
            built: Vec::new(alloc),
        }
    }

    /// Builds a payload.
    pub fn build(
        &mut self,
        ground: Ground,
        is_certified: bool,
    ) -> Result<Sha256Digest, AllocError> {
        self.add(Built {
            ground,
            is_good: true,
            is_certified,
        })
    }

    /// A payload of a liar, in place of that of a proposal, which nobody finds good.
    pub fn forge(&mut self, proposal: &Proposal<Sha256Digest>) -> Result<Sha256Digest, AllocError> {
        let ground = Ground {
            view: proposal.view().get(),
            parent_view: proposal.parent.get(),
            parent: genesis(),
        };
        self.add(Built {
            ground,
            is_good: false,
            is_certified: false,
        })
    }

    fn add(&mut self, built: Built) -> Result<Sha256Digest, AllocError> {
        self.built.push(built)?;
        Ok(digest_of(self.built.len() as u64))
    }

    /// What the payload was built on, if it was built.
    pub fn find(&self, payload: &Sha256Digest) -> Option<Built> {
        let number = number_of(payload)?;
        let place = number.checked_sub(1)?;
        let built = self.built.get(place as usize)?;
        Some(*built)
    }

    /// Whether a payload is good where it is proposed on this ground.
    pub fn is_good(&self, ground: &Ground, payload: &Sha256Digest) -> bool {
        let Some(built) = self.find(payload) else {
            return false;
        };
        let on = built.ground;
        built.is_good
            && on.view == ground.view
            && on.parent_view == ground.parent_view
            && on.parent == ground.parent
    }

    /// The verdict on a notarized proposal.
    pub fn verdict(&self, proposal: &Proposal<Sha256Digest>) -> bool {
        match self.find(&proposal.payload) {
            Some(built) => {
                built.is_good && built.is_certified && built.ground.view == proposal.view().get()
            }
            None => false,
        }
    }
}

/// The digest that spells a number.
fn digest_of(number: u64) -> Sha256Digest {
    let [a, b, c, d, e, f, g, h] = number.to_be_bytes();
    Sha256Digest::new([
        a, b, c, d, e, f, g, h, 0, 0, 0, 0, 0, 0, 0, 0, 0, 0, 0, 0, 0, 0, 0, 0, 0, 0, 0, 0, 0, 0,
        0, 0,
    ])
}

/// The number that a digest spells: 0 of genesis, none where it spells none.
pub fn number_of(payload: &Sha256Digest) -> Option<u64> {
    let number = match payload.as_bytes() {
        [a, b, c, d, e, f, g, h, ..] => u64::from_be_bytes([*a, *b, *c, *d, *e, *f, *g, *h]),
        _ => return None,
    };
    if digest_of(number) == *payload {
        Some(number)
    } else {
        None
    }
}
