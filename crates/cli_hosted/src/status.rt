//! What a call answers a host, as a number.

ghost use Rattle.std.specs.Prelude.{◌≡◌, ◌≢◌, false, true};
ghost use Rattle.cli_hosted.specs.Statuses.{status_number};
ghost use Rattle.cli_hosted.specs.declared.status.Status.TheVariants.{Done, Room};

/// How a call ended.
#[derive(Drop)]
pub enum Status {
    /// It did what was asked.
    Done,
    /// Memory ran out.
    Memory,
    /// An argument is none that can be answered.
    Argument,
    /// The caller's buffer has no room for the answer.
    Room,
    /// The bytes end within a value.
    End,
    /// A byte or a value can't stand there.
    Invalid,
    /// A count is above its bound.
    TooLong,
    /// A lawful record refuses an entry.
    Refused,
    /// An entry of a record is no artifact.
    Foreign,
    /// The host could not be asked to change a record.
    Device,
    /// A step failed before: the record has to be opened again.
    Failed,
    /// Behind a record's entries stands what no crash leaves.
    Torn,
    /// The bytes begin as no record does.
    NoRecord,
    /// The settings have a fault.
    Settings,
    /// The settings are of another size or version.
    Version,
    /// A certificate is of another epoch.
    OtherEpoch,
    /// A certificate isn't signed as one of these members.
    NotCertifying,
    /// A certificate is no finalization, or not of a later view.
    NotFinal,
}

impl Status {
    /// How a call ended whose answer fits in the caller's room, or doesn't.
    pub fn fitted(fits: bool) -> Status
        ensures done { result ≡ Done → fits ≡ true }
        ensures room { result ≢ Done → (result ≡ Room) × (fits ≡ false) }
    {
        if fits { Status::Done } else { Status::Room }
    }

    /// Its number, as the header has it.
    #[tactic(auto, unfolding(crate::specs::Statuses::status_number))]
    pub fn number(self) -> u32
        ensures { result ≡ status_number self }
    {
        match self {
            Status::Done => 0,
            Status::Memory => 1,
            Status::Argument => 2,
            Status::Room => 3,
            Status::End => 4,
            Status::Invalid => 5,
            Status::TooLong => 6,
            Status::Refused => 7,
            Status::Foreign => 8,
            Status::Device => 9,
            Status::Failed => 10,
            Status::Torn => 11,
            Status::NoRecord => 12,
            Status::Settings => 13,
            Status::Version => 14,
            Status::OtherEpoch => 15,
            Status::NotCertifying => 16,
            Status::NotFinal => 17,
        }
    }
}
