//! What may be looked for in a view.

/// A sign that what happened to a view leaves.
pub enum Sign {
    /// A notarization or finalization.
    Direct,
    /// A finalization, or a true verdict.
    Certified,
    /// A false verdict.
    Failed,
    /// An own nullify.
    GivenUp,
}
