//! What a call answers, as a number.

ghost use Rattle.std.specs.Prelude.{◌≡◌, ◌≢◌, false, true};
ghost use Rattle.world_page.specs.Statuses.{status_number};

use world_network::Broken;

/// How a call ended.
#[derive(Drop)]
pub(crate) enum Status {
    /// It did what was asked.
    Done,
    /// Memory ran out.
    Memory,
    /// An argument is none that can be answered.
    Argument,
    /// The caller's buffer has no room for the answer.
    Room,
    /// Reading or writing failed, which no buffer in memory brings about.
    Device,
    /// A member isn't of its committee, which no scenario brings about.
    Setup,
}

impl Status {
    /// Its number, as the page has it.
    #[tactic(auto, unfolding(crate::specs::Statuses::status_number))]
    pub(crate) fn number(self) -> u32
        ensures { result ≡ status_number self }
    {
        match self {
            Status::Done => 0,
            Status::Memory => 1,
            Status::Argument => 2,
            Status::Room => 3,
            Status::Device => 4,
            Status::Setup => 5,
        }
    }
}

/// The status of what is broken off.
pub(crate) fn failed(broken: Broken) -> Status
    ensures { (result ≢ Status.Done) × (result ≢ Status.Argument) × (result ≢ Status.Room) }
{
    match broken {
        Broken::Memory => Status::Memory,
        Broken::Device => Status::Device,
        Broken::Setup => Status::Setup,
    }
}

/// Whether an answer fitted.
pub(crate) fn fitted(fits: bool) -> Status
    ensures done { fits ≡ true → result ≡ Status.Done }
    ensures room { fits ≡ false → result ≡ Status.Room }
{
    if fits { Status::Done } else { Status::Room }
}
