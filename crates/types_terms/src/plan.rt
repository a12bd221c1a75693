//! To whom a payload is handed on.

use types_core::Round;

/// To whom a payload is handed on, where members are known as `P`.
#[derive(Drop)]
pub enum Plan<P> {
    /// To whom the application prepares for it: it was built ahead of the view before, and nothing is
    /// proposed yet.
    Prepare {
        /// The round that it was built for.
        round: Round,
    },
    /// To all: it is the member's own proposal.
    Propose {
        /// The round that it was built for.
        round: Round,
    },
    /// To these alone.
    Forward {
        /// The round that it was proposed in.
        round: Round,
        /// Those who get it, ascending.
        recipients: Vec<P>,
    },
}
