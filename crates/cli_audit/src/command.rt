//! The words of the command line.
ghost use Rattle.std.specs.Prelude.{ℕ, ◌<◌, [], ◌∷◌, codes, IsNone, IfSome, map, string_bytes};
ghost use Rattle.cli_audit.specs.Command.{SpellsCommand, SpellsNumber};
ghost use Rattle.cli_audit.specs.declared.command.Command.{Command};

/// What the program is asked to do.
#[derive(Clone, Copy, Debug, PartialEq, Eq)]
pub enum Command<'a> {
    /// Audit a stream of messages.
    Audit {
        /// The number of participants, 1 or more.
        count: u16,
    },
    /// Run one participant.
    Node {
        /// The path of the participant's record.
        path: &'a str,
        /// The participant's index, below `count`.
        index: u16,
        /// The number of participants.
        count: u16,
    },
}

/// How the program is called, for a person who called it in another way: a line, with its newline.
pub const USAGE: &str = "usage: simplex audit COUNT | simplex node RECORD INDEX COUNT\n";

/// The number that a word spells in decimal digits, with no sign and no leading zero. A word that
/// spells no number below 65,536 in this way is refused.
pub fn number_of(word: &str) -> Option<u16>
    ensures spelled { IfSome result (SpellsNumber word.now) }
    ensures refused { IsNone result → (n : ℕ) → ¬ SpellsNumber word.now n }
{
    let first = *word.as_bytes().first()?;
    if !first.is_ascii_digit() {
        return None;
    }
    if first == b'0' && word.len() > 1 {
        return None;
    }
    word.parse().ok()
}

/// The number of participants that a word spells. A word that spells 0, or no number, is refused.
pub fn count_of(word: &str) -> Option<u16>
    ensures spelled { IfSome result (SpellsNumber word.now) }
    ensures some { IfSome result (λ count. 0 < count) }
    ensures refused { IsNone result → (n : ℕ) → 0 < n → ¬ SpellsNumber word.now n }
{
    match number_of(word) {
        Some(0) => None,
        number => number,
    }
}

/// The audit between as many participants as the word spells.
fn audit_of<'a>(count: &str) -> Option<Command<'a>>
    ensures accepted { IfSome result (SpellsCommand (codes "audit" ∷ count.now ∷ [])) }
    ensures refused { IsNone result → (command : Command) → ¬ SpellsCommand (codes "audit" ∷ count.now ∷ []) command }
{
    let count = count_of(count)?;
    Some(Command::Audit { count })
}

/// The participant whose index the second word spells, of as many as the third word spells.
fn node_of<'a>(path: &'a str, index: &str, count: &str) -> Option<Command<'a>>
    ensures accepted { IfSome result
        (SpellsCommand (codes "node" ∷ path.now ∷ index.now ∷ count.now ∷ [])) }
    ensures refused { IsNone result → (command : Command)
        → ¬ SpellsCommand (codes "node" ∷ path.now ∷ index.now ∷ count.now ∷ []) command }
{
    let index = number_of(index)?;
    let count = count_of(count)?;
    if index < count {
        Some(Command::Node { path, index, count })
    } else {
        None
    }
}

/// The command that the words after the program's name spell. Words that spell none are refused.
pub fn parse_words<'a>(words: &'a [String]) -> Option<Command<'a>>
    ensures accepted { IfSome result (SpellsCommand (map string_bytes words.now)) }
    ensures refused { IsNone result → (command : Command) → ¬ SpellsCommand (map string_bytes words.now) command }
{
    match words {
        [name, count] if name.as_str() == "audit" => audit_of(count),
        [name, path, index, count] if name.as_str() == "node" => node_of(path, index, count),
        _ => None,
    }
}
