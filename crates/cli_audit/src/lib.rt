//! The command line program: its words, the audit that it runs, and the lines that it prints.
#![tactic(auto)]

mod auditing;
mod command;
mod input;
mod lines;
mod program;
mod running;
mod trouble;

pub use auditing::{plain_audit, scheme_of};
pub use command::{Command, USAGE, count_of, number_of, parse_words};
pub use input::{InputError, read_all};
pub use program::{run_words, words_unread};
pub use running::{audit_over, report, write_audit};
pub use trouble::Trouble;
