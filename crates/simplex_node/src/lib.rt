//! The node of one member, passed on from `node_steps`, with all that it takes and hands out; over a list of events, and over streams,
//! with its opening; and what a network of such nodes agrees on.
#![tactic(auto)]

mod living;
mod opening_io;
mod pausing;
mod running;
mod stepping;
mod streaming;

pub use journal_books::Disks;
pub use living::{Answered, Opening, live};
pub use node_steps::{
    MOST_OPTIMISTIC, Node, Owner, accountability, agreement, first_refused, headline,
};
pub use node_wire::{
    Answers, CountedReader, CountedWriter, EventInput, Sink, Source, StreamFault, Stretch,
    read_event, write_event, write_out, write_reply,
};
pub use opening_io::{open_disks_io, open_io};
pub use running::run;
pub use simplex_member::{
    Action, Channel, Event, IoFault, NodeFault, OpenFault, Refusal, Reply, SetupFault,
};
pub use streaming::{run_io, run_some_io};
pub use voter_rules::config::{
    Config, ConfigFault, ForwardPolicy, SkipBudget, SkipPolicy, check_config,
};
pub use voter_rules::{Floor, FloorFault, check_floor};
