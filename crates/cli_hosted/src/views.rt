//! The views of a node.

/// The views of a node. Any numbers may stand here before.
#[repr(C)]
#[derive(Drop)]
pub struct Views {
    /// The view that it is in.
    pub current: u64,
    /// The last view that is final, or 0.
    pub finalized: u64,
}
