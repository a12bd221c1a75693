//! What stands in reports and records, for people and programs beside the committee: the evidence that an audit finds as
//! reports, messages as lines, and the first entry of a record that a lawful one refuses.
#![tactic(auto)]

mod answers;
mod checking;
mod command;
mod decoding;
mod dumping;
mod lines;
mod parts;
mod program;
mod reading;
mod style;

pub use answers::{answer_to, checked, dumped_record, dumped_reports, evidence_in};
pub use checking::{Checked, check_record};
pub use command::{Call, HELP, Request, VERSION, parse_call};
pub use decoding::{Kind, message_size};
pub use program::{misused, run_request, unopened, words_unread, write_answer};
pub use style::Style;
