//! What whoever runs a voter asks it before it goes on.

use crate::voter::Voter;
use crate::voter::asking::request;
use simplex_types::PlainKey;
use test_words::{Committee, Say, Trouble};
use types_core::{Scheme, Sha256Digest, View};
use types_terms::Elector;

/// Says a view, where there is one.
pub(super) fn lowest(say: &mut Say, view: Option<View>) -> Result<(), Trouble> {
    match view {
        Some(view) => say.view(view),
        None => say.none(),
    }
}

impl<S: Committee + Scheme<Sha256Digest, PublicKey = PlainKey>, L: Elector<S, Sha256Digest>> Voter<
    S,
    L,
> {
    /// What is owed, and what is to be asked for.
    pub fn owed(&mut self, name: &str, say: &mut Say) -> Result<(), Trouble> {
        match name {
            "next_notarize" => lowest(say, self.state.next_notarize()),
            "next_finalize" => lowest(say, self.state.next_finalize()),
            "counts_silence" => say.truth(self.state.counts_silence()),
            "try_propose" => request(say, self.state.try_propose()),
            "certify_candidates" => self.candidates(say),
            "prune" => self.pruned(say),
            _ => self.floored_at(name, say),
        }
    }

    /// The view that the record begins behind.
    fn floored_at(&self, name: &str, say: &mut Say) -> Result<(), Trouble> {
        match name {
            "floor" => say.view(self.state.floor()),
            _ => Err(Trouble::Unreadable),
        }
    }
}
