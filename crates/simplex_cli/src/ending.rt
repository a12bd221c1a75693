//! How a node's program ends, and what it tells of that.

ghost use Rattle.std.specs.Prelude.{◌≡◌, ◌++◌, OnOk, string_bytes};
ghost use Rattle.simplex_cli.specs.Ending.{ending_line, ending_of, ending_status, open_line, step_line};

use simplex_member::{IoFault, NodeFault, OpenFault};
use std::alloc::AllocError;

/// Why a node's program ended before its input.
#[derive(Clone, Copy)]
pub enum Ending {
    /// Memory ran out.
    Memory,
    /// The record was not opened.
    Open(OpenFault),
    /// A read failed, or the input had not ended after 2^32 events.
    Read,
    /// A write failed.
    Write,
    /// At this place of the input, counted from 0, no event stands.
    BadEvent(u64),
    /// A step failed.
    Step(NodeFault),
}

impl Ending {
    /// How a program ends whose run over streams ended so.
    pub(crate) fn of(fault: IoFault) -> Ending
        ensures { result ≡ ending_of fault }
    {
        match fault {
            IoFault::Read => Ending::Read,
            IoFault::Write => Ending::Write,
            IoFault::BadEvent(place) => Ending::BadEvent(place),
            IoFault::Node(fault) => Ending::Step(fault),
            IoFault::Memory => Ending::Memory,
        }
    }

    /// The status of a program that ends so: 3 where a place was named, else 1.
    pub fn status(self) -> u8
        ensures { result ≡ ending_status self }
    {
        match self {
            Ending::BadEvent(_) => 3,
            _ => 1,
        }
    }
}

/// Ends the text with the line of what ended a program before its input. After an error a part of the line may stand there.
#[tactic(auto, unfolding(crate::specs::Ending::ending_line, crate::specs::Ending::memory_line))]
pub(crate) fn push_line(text: &mut String, ending: Ending) -> Result<(), AllocError>
    ensures { OnOk result (string_bytes text.new ≡ string_bytes text.old ++ ending_line ending) }
{
    match ending {
        Ending::Memory => text.push_str("error: memory\n"),
        Ending::Open(fault) => push_open(text, fault),
        Ending::Read => text.push_str("error: read\n"),
        Ending::Write => text.push_str("error: write\n"),
        Ending::BadEvent(place) => writeln!(text, "fault at byte {place}"),
        Ending::Step(fault) => push_step(text, fault),
    }
}

/// Ends the text with the line of an opening's fault: its number, and the place that it names, if it names one.
#[tactic(auto, unfolding(crate::specs::Ending::open_line))]
fn push_open(text: &mut String, fault: OpenFault) -> Result<(), AllocError>
    ensures { OnOk result (string_bytes text.new ≡ string_bytes text.old ++ open_line fault) }
{
    match fault {
        OpenFault::NoKey => text.push_str("error: open 1\n"),
        OpenFault::Config(_) => text.push_str("error: open 2\n"),
        OpenFault::MomentTooLate => text.push_str("error: open 3\n"),
        OpenFault::Foreign(place) => writeln!(text, "error: open 4 at {place}"),
        OpenFault::Contradiction(position) => writeln!(text, "error: open 5 at {position}"),
        OpenFault::Device => text.push_str("error: open 6\n"),
        OpenFault::Memory => text.push_str("error: open 7\n"),
        OpenFault::TooManyOptimistic => text.push_str("error: open 8\n"),
    }
}

/// Ends the text with the line of a step's fault: its number.
#[tactic(auto, unfolding(crate::specs::Ending::step_line))]
fn push_step(text: &mut String, fault: NodeFault) -> Result<(), AllocError>
    ensures { OnOk result (string_bytes text.new ≡ string_bytes text.old ++ step_line fault) }
{
    match fault {
        NodeFault::Memory => text.push_str("error: step 1\n"),
        NodeFault::Device => text.push_str("error: step 2\n"),
        NodeFault::Failed => text.push_str("error: step 3\n"),
    }
}
