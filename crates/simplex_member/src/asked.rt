//! What a node asked other members for.

use simplex_resolver::Ask;
use types_core::{Participant, View};

/// An ask that was sent.
#[derive(Clone, Copy, PartialEq, Eq, PartialOrd, Ord)]
pub struct Asked {
    /// The view that was asked for.
    pub view: View,
    /// What was asked for, and until when.
    pub ask: Ask,
    /// Of whom: of all, where of none.
    pub to: Option<Participant>,
}
