//! The program `simplex`: the audit of reports, passed on from `cli_audit`, and one member's node over a record and streams.
#![tactic(auto)]

mod ending;
mod over;
mod rewriting;
mod serving;
mod settings;
mod telling;

pub use cli_audit::{
    Command, Trouble, USAGE, audit_over, parse_words, report, run_words, words_unread,
};
pub use ending::Ending;
pub use over::{drive, node_over};
pub use rewriting::serve_rewriting;
pub use serving::serve_over;
pub use settings::{config, elector, scheme};
pub use telling::tell;
