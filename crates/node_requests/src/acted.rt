//! What comes of an act.

/// What came of an act of one kind.
#[derive(Clone, Copy)]
pub enum Acted {
    /// Something that was due was done.
    Did,
    /// Nothing of this kind was due.
    Nothing,
}
