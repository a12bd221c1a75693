//! Events and replies as bytes, streams that count their faults, the events of an input, and whatever steps over events, over a list of
//! them and over streams, without a node.
#![tactic(auto)]

mod counted;
mod event;
mod input;
mod listing;
mod parts;
mod reply;
mod replying;
mod stepper;
mod streaming;
mod streams;
mod stretch;

pub use counted::{CountedReader, CountedWriter};
pub use event::{read_event, write_event};
pub use input::EventInput;
pub use listing::{Answers, answer_list};
pub use reply::write_reply;
pub use replying::write_out;
pub use stepper::Stepper;
pub use streaming::{answer_some, answer_stream};
pub use streams::{Sink, Source, StreamFault};
pub use stretch::{Pause, Stretch};
