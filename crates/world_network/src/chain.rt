//! The chain of what was finalized first, against which all else that is finalized is held.

use crate::payloads::Payloads;
use std::alloc::{AllocError, Global};
use types_core::{Proposal, Sha256Digest, Viewable};

/// A finalized view and its payload.
#[derive(Clone, Copy, PartialEq, Eq)]
struct Link {
    view: u64,
    payload: Sha256Digest,
}

/// What was finalized by some correct member, with all that it stands on, by ascending views.
#[derive(Drop)]
pub struct Chain {
    alloc: Global,
    links: Vec<Link>,
}

impl Chain {
    /// Nothing but genesis.
    pub fn new(alloc: Global) -> Self {
        Chain {
            alloc,
            links: Vec::new(alloc),
        }
    }

    /// How many payloads it has.
    pub fn len(&self) -> usize {
        self.links.len()
    }

    /// Takes up what a correct member finalized. Whether it lies on one chain with all that was taken before; where it doesn't,
    /// it is left out.
    pub fn take(
        &mut self,
        payloads: &Payloads,
        proposal: &Proposal<Sha256Digest>,
    ) -> Result<bool, AllocError> {
        let link = Link {
            view: proposal.view().get(),
            payload: proposal.payload,
        };
        let last = match self.links.last() {
            Some(last) => last.view,
            None => 0,
        };
        if link.view <= last {
            return Ok(self.has(&link));
        }
        let mut found = Vec::new(self.alloc);
        let stands = self.walk(payloads, link, last, &mut found)?;
        if !stands {
            return Ok(false);
        }
        for _ in 0..found.len() {
            if let Some(link) = found.pop() {
                self.links.push(link)?;
            }
        }
        Ok(true)
    }

    /// Goes from a link down to the last view, noting the links above it. Whether the walk ends on the last link.
    fn walk(
        &self,
        payloads: &Payloads,
        from: Link,
        last: u64,
        found: &mut Vec<Link>,
    ) -> Result<bool, AllocError> {
        let mut here = from;
        for _ in 0..from.view {
            if here.view <= last {
                break;
            }
            found.push(here)?;
            let Some(built) = payloads.find(&here.payload) else {
                return Ok(false);
            };
            let on = built.ground;
            if on.parent_view >= here.view {
                return Ok(false);
            }
            here = Link {
                view: on.parent_view,
                payload: on.parent,
            };
        }
        Ok(here.view == last && (last == 0 || self.has(&here)))
    }

    /// Whether it has the link, which most often is one of the last.
    fn has(&self, link: &Link) -> bool {
        for held in self.links.iter().rev() {
            if held.view <= link.view {
                return held == link;
            }
        }
        false
    }
}
