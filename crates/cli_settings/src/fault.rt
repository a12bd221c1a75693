//! What can be wrong with how a member is set up.

ghost use Rattle.std.specs.Prelude.{◌≡◌};
ghost use Rattle.cli_settings.specs.Faults.{fault_name, fault_number};

use voter_rules::config::ConfigFault;

/// What can be wrong with how a member is set up.
#[derive(Clone, Copy, Debug, PartialEq, Eq)]
pub enum SettingsFault {
    /// What a node is opened with is refused.
    Config(ConfigFault),
    /// A term has no view.
    TermLengthZero,
    /// A term is never given up as a whole, though it has more than one view or optimistic views.
    StallTimeoutZero,
    /// The base of the namespaces has more than 255 bytes.
    BaseTooLong,
    /// The seed has more than 255 bytes.
    SeedTooLong,
    /// There is no such member.
    NoSuchMember,
    /// More views of a term are optimistic than a node goes over in a step.
    TooManyOptimistic,
}

impl SettingsFault {
    /// Its number, from 1 on: up to 8 that of the configuration's fault. Of several faults the one with the least number is told.
    pub const fn number(self) -> u8
        ensures { result ≡ fault_number self }
    {
        match self {
            SettingsFault::Config(fault) => fault.number(),
            SettingsFault::TermLengthZero => 9,
            SettingsFault::StallTimeoutZero => 10,
            SettingsFault::BaseTooLong => 11,
            SettingsFault::SeedTooLong => 12,
            SettingsFault::NoSuchMember => 13,
            SettingsFault::TooManyOptimistic => 14,
        }
    }

    /// Its name.
    pub fn name(self) -> &'static str
        ensures { result.now ≡ fault_name self }
    {
        match self {
            SettingsFault::Config(fault) => config_name(fault),
            SettingsFault::TermLengthZero => "TermLengthZero",
            SettingsFault::StallTimeoutZero => "StallTimeoutZero",
            SettingsFault::BaseTooLong => "BaseTooLong",
            SettingsFault::SeedTooLong => "SeedTooLong",
            SettingsFault::NoSuchMember => "NoSuchMember",
            SettingsFault::TooManyOptimistic => "TooManyOptimistic",
        }
    }
}

/// The name of a configuration's fault.
fn config_name(fault: ConfigFault) -> &'static str
    ensures { result.now ≡ fault_name (SettingsFault.Config fault) }
{
    match fault {
        ConfigFault::NoParticipants => "NoParticipants",
        ConfigFault::LeaderTimeoutZero => "LeaderTimeoutZero",
        ConfigFault::CertificationNotAboveLeader => "CertificationNotAboveLeader",
        ConfigFault::SkipNotAboveCertification => "SkipNotAboveCertification",
        ConfigFault::SkipNotAboveRetry => "SkipNotAboveRetry",
        ConfigFault::RetryZero => "RetryZero",
        ConfigFault::RetentionZero => "RetentionZero",
        ConfigFault::TooManyParticipants => "TooManyParticipants",
    }
}
