//! The words of a command about a file of settings.

ghost use Rattle.std.specs.Prelude.{◌≡◌, ◌≢◌, ℕ, List, IfSome, IsNone, map, string_bytes};
ghost use Rattle.cli_file.specs.Words.{IsCommand};

/// How a program is called that tells what a file of settings says, for a person: a line of its help.
pub const HELP: &str =
    "  settings FILE               what a file of settings says, each key with its value\n";

/// The path behind a command, if the command's name is this one.
fn path_of<'a>(name: &str, command: &str, path: &'a str) -> Option<&'a str>
    ensures named { IfSome result (λ _. command.now ≡ name.now) }
    ensures path { IfSome result (λ found. found.now ≡ path.now) }
    ensures none { IsNone result → command.now ≢ name.now }
{
    if command == name { Some(path) } else { None }
}

/// The path behind the command's name, where the words after the program's name are just those two.
pub fn path_behind<'a>(name: &str, words: &'a [String]) -> Option<&'a str>
    ensures path { IfSome result (λ path. IsCommand name.now (map string_bytes words.now) path.now) }
    ensures none { IsNone result → (path : List ℕ) → ¬ IsCommand name.now (map string_bytes words.now) path }
{
    match words {
        [command, path] => path_of(name, command, path),
        _ => None,
    }
}
