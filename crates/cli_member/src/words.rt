//! How a member is run by a file of its settings.

/// How a program is called that runs a member by a file of its settings, for a person: lines of its help.
pub const HELP: &str =
    "  member FILE                 a member by a file of settings: events on standard input, replies on standard output\n  member FILE --cut           the same; what stands behind the last whole entry of its record is cut, whatever it is\n";
