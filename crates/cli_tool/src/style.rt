//! How lines are written.

/// How a line tells what stands in a message.
#[derive(Clone, Copy)]
pub enum Style {
    /// Words: the kind, then each name with its value.
    Plain,
    /// An object of JSON, in which each value is a text.
    Json,
}
