//! The words of the command line.

ghost use Rattle.std.specs.Prelude.{[], ◌∷◌, codes, IfSome, IsNone, map, string_bytes};
ghost use Rattle.cli_tool.specs.declared.command.Call.{Call};
ghost use Rattle.cli_tool.specs.declared.command.Request.{Request};
ghost use Rattle.cli_tool.specs.Command.{IsAsked, SpellsCall, SpellsRequest};

use crate::style::Style;
use cli_audit::{count_of, number_of};

/// What the program is asked for.
#[derive(Clone, Copy)]
pub enum Request<'a> {
    /// The evidence that an audit of reports finds, as reports.
    Evidence {
        /// The number of participants, 1 or more.
        count: u16,
    },
    /// The lines of reports.
    Reports {
        /// The number of participants, 1 or more.
        count: u16,
    },
    /// The lines of a record.
    Record {
        /// The path of the record.
        path: &'a str,
    },
    /// The first entry of a record that a lawful one refuses.
    Check {
        /// The index of the participant whose record it is, below `count`.
        index: u16,
        /// The number of participants.
        count: u16,
        /// The path of the record.
        path: &'a str,
    },
    /// How the program is called.
    Help,
    /// Which version of the formats it reads.
    Version,
}

/// A request, and how lines are to be written.
#[derive(Clone, Copy)]
pub struct Call<'a> {
    /// How lines are written.
    pub style: Style,
    /// What is asked for.
    pub request: Request<'a>,
}

/// How the program is called, for a person.
pub const HELP: &str =
    "usage: simplex_tool [--json] COMMAND, under the plain scheme over the base simplex\n  evidence COUNT              the evidence that simplex audit finds in reports on standard input, as reports\n  dump reports COUNT          reports on standard input, a line each\n  dump record RECORD          the record in a file, a line for each entry\n  check INDEX COUNT RECORD    the first entry that a lawful record of this member refuses\n  --help, --version\n";

/// Which version of the formats the program reads.
pub const VERSION: &str = "simplex_tool: version 1 of the formats\n";

/// What one word asks for.
fn request_of_one<'a>(word: &str) -> Option<Request<'a>>
    ensures accepted { IfSome result (SpellsRequest (word.now ∷ [])) }
    ensures refused { IsNone result → (request : Request) → ¬ SpellsRequest (word.now ∷ []) request }
    ensures asked { IfSome result IsAsked }
{
    match word {
        "--help" => Some(Request::Help),
        "--version" => Some(Request::Version),
        _ => None,
    }
}

/// What two words ask for.
fn request_of_two<'a>(command: &str, count: &str) -> Option<Request<'a>>
    ensures accepted { IfSome result (SpellsRequest (command.now ∷ count.now ∷ [])) }
    ensures refused { IsNone result → (request : Request) → ¬ SpellsRequest (command.now ∷ count.now ∷ []) request }
    ensures asked { IfSome result IsAsked }
{
    if command != "evidence" {
        return None;
    }
    let count = count_of(count)?;
    Some(Request::Evidence { count })
}

/// What a dump is asked for.
fn dump_of<'a>(what: &str, word: &'a str) -> Option<Request<'a>>
    ensures accepted { IfSome result (SpellsRequest (codes "dump" ∷ what.now ∷ word.now ∷ [])) }
    ensures refused { IsNone result → (request : Request) → ¬ SpellsRequest (codes "dump" ∷ what.now ∷ word.now ∷ []) request }
    ensures asked { IfSome result IsAsked }
{
    if what == "record" {
        return Some(Request::Record { path: word });
    }
    if what != "reports" {
        return None;
    }
    let count = count_of(word)?;
    Some(Request::Reports { count })
}

/// Which member's record is to be checked.
fn check_of<'a>(index: &str, count: &str, path: &'a str) -> Option<Request<'a>>
    ensures accepted { IfSome result (SpellsRequest (codes "check" ∷ index.now ∷ count.now ∷ path.now ∷ [])) }
    ensures refused { IsNone result → (request : Request) → ¬ SpellsRequest (codes "check" ∷ index.now ∷ count.now ∷ path.now ∷ []) request }
    ensures asked { IfSome result IsAsked }
{
    let index = number_of(index)?;
    let count = count_of(count)?;
    if index < count {
        Some(Request::Check { index, count, path })
    } else {
        None
    }
}

/// What the words ask for.
fn request_of<'a>(words: &'a [String]) -> Option<Request<'a>>
    ensures accepted { IfSome result (SpellsRequest (map string_bytes words.now)) }
    ensures refused { IsNone result → (request : Request) → ¬ SpellsRequest (map string_bytes words.now) request }
    ensures asked { IfSome result IsAsked }
{
    match words {
        [word] => request_of_one(word),
        [command, count] => request_of_two(command, count),
        [command, what, word] if command.as_str() == "dump" => dump_of(what, word),
        [command, index, count, path] if command.as_str() == "check" => {
            check_of(index, count, path)
        }
        _ => None,
    }
}

/// The call that the words after the program's name spell: a request, and in front of one that is answered by lines
/// perhaps `--json`. Words that spell none are refused.
pub fn parse_call<'a>(words: &'a [String]) -> Option<Call<'a>>
    ensures accepted { IfSome result (SpellsCall (map string_bytes words.now)) }
    ensures refused { IsNone result → (call : Call) → ¬ SpellsCall (map string_bytes words.now) call }
    ensures asked { IfSome result (λ call. IsAsked call.request) }
{
    match words {
        [first, rest @ ..] if first.as_str() == "--json" => call_in_json(rest),
        _ => {
            let request = request_of(words)?;
            Some(Call {
                style: Style::Plain,
                request,
            })
        }
    }
}

/// The call of these words behind `--json`.
fn call_in_json<'a>(words: &'a [String]) -> Option<Call<'a>>
    ensures accepted { IfSome result (SpellsCall (codes "--json" ∷ map string_bytes words.now)) }
    ensures refused { IsNone result → (call : Call) → ¬ SpellsCall (codes "--json" ∷ map string_bytes words.now) call }
    ensures asked { IfSome result (λ call. IsAsked call.request) }
{
    let request = request_of(words)?;
    match request {
        Request::Evidence { .. } | Request::Help | Request::Version => None,
        _ => Some(Call {
            style: Style::Json,
            request,
        }),
    }
}
