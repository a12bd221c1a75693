//! Why a node is not opened, does no step, or ends a stream.

use simplex_member::{IoFault, NodeFault, OpenFault};
use test_words::{Say, Trouble};

/// `fault NUMBER`, and what else is told.
pub(crate) fn say_open_fault(fault: OpenFault, say: &mut Say) -> Result<(), Trouble> {
    match fault {
        OpenFault::NoKey => say.text("fault 1"),
        OpenFault::Config(fault) => say_with(2, u64::from(fault.number()), say),
        OpenFault::MomentTooLate => say.text("fault 3"),
        OpenFault::Foreign(place) => say_with(4, place, say),
        OpenFault::Contradiction(position) => say_with(5, position as u64, say),
        OpenFault::Device => say.text("fault 6"),
        OpenFault::Memory => say.text("fault 7"),
        OpenFault::TooManyOptimistic => say.text("fault 8"),
    }
}

/// `fault NUMBER TOLD`.
fn say_with(number: u64, told: u64, say: &mut Say) -> Result<(), Trouble> {
    say.text("fault ")?;
    say.number(number)?;
    say.gap()?;
    say.number(told)
}

/// `fault NUMBER`.
pub(crate) fn say_fault(fault: NodeFault, say: &mut Say) -> Result<(), Trouble> {
    match fault {
        NodeFault::Memory => say.text("fault 1"),
        NodeFault::Device => say.text("fault 2"),
        NodeFault::Failed => say.text("fault 3"),
    }
}

/// A blank, and `bad PLACE`, or the fault of a step. Where memory ran out for bytes the script ends; reading and writing those
/// that are there fails for no other reason.
pub(crate) fn say_io_fault(fault: IoFault, say: &mut Say) -> Result<(), Trouble> {
    say.gap()?;
    match fault {
        IoFault::BadEvent(place) => {
            say.text("bad ")?;
            say.number(place)
        }
        IoFault::Node(fault) => say_fault(fault, say),
        IoFault::Read | IoFault::Write | IoFault::Memory => Err(Trouble::Memory),
    }
}
