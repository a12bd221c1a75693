//! The leader of a view.

use std::alloc::{AllocError, Global};
use types_core::{Duplicate, Participant, PublicKey};

/// The leader of a view: a member of the committee.
#[derive(Debug, Drop)]
pub struct Leader<P: PublicKey> {
    /// Its index.
    pub idx: Participant,
    /// Its public key.
    pub key: P,
}

impl<P: PublicKey> Duplicate for Leader<P> {
    fn duplicate(&self, alloc: Global) -> Result<Self, AllocError> {
        let key = self.key.duplicate(alloc)?;
        Ok(Leader { idx: self.idx, key })
    }
}
