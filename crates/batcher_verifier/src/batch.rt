//! What comes of a construction.

use types_core::Participant;

/// What came of a construction.
#[derive(Drop)]
pub struct Batch<C> {
    /// The certificate, where one was made.
    pub certificate: Option<C>,
    /// The signers whose votes do not attest, ascending.
    pub invalid: Vec<Participant>,
    /// How many votes that waited were judged.
    pub processed: usize,
    /// Whether the scheme was asked for a certificate at once and gave none.
    pub fallback: bool,
}
