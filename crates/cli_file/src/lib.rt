//! A file of settings: read from a stream, told as text, each key with its value, and what is wrong with one as a line.
#![tactic(auto)]

mod file;
mod finding;
mod placing;
mod telling;
mod words;

pub use file::{read_file, tell_settings};
pub use placing::{fault_text, line_of_fault};
pub use telling::settings_text;
pub use words::{HELP, path_behind};
