//! Why a view is given up.

ghost use Rattle.std.specs.Prelude.{◌≡◌};
ghost use Rattle.voter_history.specs.Reasons.{reason_name};

/// Why a view is given up.
#[derive(Clone, Copy, Debug, PartialEq, Eq, Hash)]
pub enum TimeoutReason {
    /// It was given up before, and the vote for that is due again.
    Retry,
    /// The leader has been silent.
    Inactivity,
    /// The leader gave the view up itself.
    LeaderNullify,
    /// No proposal came in time.
    LeaderTimeout,
    /// No true verdict came in time.
    CertificationTimeout,
    /// An earlier view of the term was not finalized in time.
    StallTimeout,
    /// The application built nothing.
    MissingProposal,
    /// The application gave no answer on the proposal.
    IgnoredProposal,
    /// The proposal is wrong.
    InvalidProposal,
    /// The verdict was false.
    FailedCertification,
}

impl TimeoutReason {
    /// The name of the variant.
    pub const fn as_str(self) -> &'static str
        ensures { result.now ≡ reason_name self }
    {
        match self {
            TimeoutReason::Retry => "Retry",
            TimeoutReason::Inactivity => "Inactivity",
            TimeoutReason::LeaderNullify => "LeaderNullify",
            TimeoutReason::LeaderTimeout => "LeaderTimeout",
            TimeoutReason::CertificationTimeout => "CertificationTimeout",
            TimeoutReason::StallTimeout => "StallTimeout",
            TimeoutReason::MissingProposal => "MissingProposal",
            TimeoutReason::IgnoredProposal => "IgnoredProposal",
            TimeoutReason::InvalidProposal => "InvalidProposal",
            TimeoutReason::FailedCertification => "FailedCertification",
        }
    }
}
