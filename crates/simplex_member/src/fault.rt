//! Why a node did not open, or can go on no more.

ghost use Rattle.std.specs.Prelude.{◌≡◌};
ghost use Rattle.simplex_member.specs.declared.fault.SetupFault.{SetupFault};
ghost use Rattle.simplex_member.specs.Faults.{setup_fault_number};

use voter_rules::FloorFault;
use voter_rules::config::ConfigFault;

/// Why a step did nothing that counts.
#[derive(Clone, Copy, Debug, Drop, PartialEq, Eq)]
pub enum NodeFault {
    /// Memory ran out.
    Memory,
    /// The disk failed.
    Device,
    /// A step failed before.
    Failed,
}

/// What is wrong with how a node is set up, in the order in which it is tested.
#[derive(Clone, Copy, Debug, PartialEq, Eq)]
pub enum SetupFault {
    /// Its configuration has this fault.
    Config(ConfigFault),
    /// The finalization that it starts from has this one.
    Floor(FloorFault),
}

impl SetupFault {
    /// Its number, from 1 on: of a configuration's faults, and then of those of what is started from. Of several faults the one with
    /// the least number is told.
    pub const fn number(self) -> u8
        ensures { result ≡ setup_fault_number self }
    {
        match self {
            SetupFault::Config(fault) => fault.number(),
            SetupFault::Floor(fault) => fault.number(),
        }
    }
}

/// Why a node was not opened, in the order in which it is tested.
#[derive(Clone, Copy, Debug, PartialEq, Eq)]
pub enum OpenFault {
    /// The scheme has no key.
    NoKey,
    /// How the node is set up has this fault.
    Config(SetupFault),
    /// The moment lies so far ahead that deadlines have no number.
    MomentTooLate,
    /// More views of a term are optimistic than a step may go over.
    TooManyOptimistic,
    /// At this place of the disk stands an entry that is no artifact.
    Foreign(u64),
    /// The rules refuse the artifact behind so many.
    Contradiction(usize),
    /// The disk failed.
    Device,
    /// Memory ran out.
    Memory,
}

/// Why a run over streams ended before its input.
#[derive(Clone, Copy, Debug, PartialEq, Eq)]
pub enum IoFault {
    /// A read failed, or the input had not ended after 2^32 events.
    Read,
    /// A write failed.
    Write,
    /// At this place of the input no event stands.
    BadEvent(u64),
    /// A step answered this.
    Node(NodeFault),
    /// Memory ran out.
    Memory,
}
