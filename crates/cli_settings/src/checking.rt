//! Settings that are held to what a node asks of them.

ghost use Rattle.std.specs.Prelude.{◌≡◌, ◌↔◌, IfErr, IsTrue, OnOk};
ghost use Rattle.cli_settings.specs.Checking.{HasLongSeed, IsFirst, IsFirstBeside, IsGood, IsGoodBeside, IsRotating};

use crate::fault::SettingsFault;
use crate::setting::{Committee, Settings, Turns};
use voter_rules::config::check_config;

/// The most bytes of a base, and of a seed.
const MOST: usize = 255;

/// The most views of a term that may be optimistic.
const MOST_OPTIMISTIC: u64 = 1_000;

impl Turns {
    /// Whether terms are of one view each, without optimism.
    fn is_rotating(&self) -> bool
        ensures { IsTrue result ↔ IsRotating self.now }
    {
        self.length == 1 && self.optimistic_views == 0
    }
}

impl Committee {
    /// Whether the seed, if there is one, has too many bytes.
    fn has_long_seed(&self) -> bool
        ensures { IsTrue result ↔ HasLongSeed self.now }
    {
        match &self.seed {
            Some(seed) => seed.len() > MOST,
            None => false,
        }
    }
}

impl Settings {
    /// The first fault of these settings, by its number, if there is one.
    ///
    /// # Errors
    ///
    /// That fault.
    pub fn check(&self) -> Result<(), SettingsFault>
        ensures first { IfErr result (λ fault. IsFirst self.now fault) }
        ensures good { OnOk result (IsGood self.now) }
    {
        if let Err(fault) = check_config(&self.config(), self.committee.members) {
            return Err(SettingsFault::Config(fault));
        }
        self.check_beside()
    }

    /// The same of what a configuration has not.
    fn check_beside(&self) -> Result<(), SettingsFault>
        ensures first { IfErr result (IsFirstBeside self.now) }
        ensures good { OnOk result (IsGoodBeside self.now) }
    {
        let committee = &self.committee;
        if committee.turns.length == 0 {
            return Err(SettingsFault::TermLengthZero);
        }
        if committee.turns.stall_timeout == 0 && !committee.turns.is_rotating() {
            return Err(SettingsFault::StallTimeoutZero);
        }
        if committee.base.len() > MOST {
            return Err(SettingsFault::BaseTooLong);
        }
        if committee.has_long_seed() {
            return Err(SettingsFault::SeedTooLong);
        }
        if self.member >= committee.members {
            return Err(SettingsFault::NoSuchMember);
        }
        if committee.turns.optimistic_views > MOST_OPTIMISTIC {
            return Err(SettingsFault::TooManyOptimistic);
        }
        Ok(())
    }
}
