//! Why a handoff is given up.

/// Why a handoff is given up: a proposal for the next term that its leader began to build before the
/// view in front of that term was decided.
#[derive(Clone, Copy, Debug, PartialEq, Eq, Hash)]
pub enum HandoffAbandonedReason {
    /// The leader left the view before the build was recorded.
    ViewExit,
    /// Another parent is to be built on.
    AncestrySuperseded,
    /// The parent that the build stands on is no longer valid.
    AncestryInvalidated,
    /// The leader gave up the view that it waits in, and with it the parent.
    ParentNullify,
    /// The leader gave up the view that it builds for.
    ViewNullify,
    /// The application ended the build without a payload.
    ResponseClosed,
    /// What was built could not be recorded.
    IneligibleAtRecording,
}
