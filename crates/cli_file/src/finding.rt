//! Where a key stands in a text.

ghost use Rattle.std.specs.Prelude.{◌≡◌, ◌<◌, ◌≤◌, IfSome, IsTrue, length, take};
ghost use Rattle.cli_file.specs.Placing.{IsLineOf, Stands};

use cli_toml::line_at;

/// What can stand in front of a key: blanks, and what quotes it or makes it a table.
fn is_in_front(byte: u8) -> bool {
    matches!(byte, b' ' | b'\t' | b'"' | b'\'' | b'[')
}

/// Whether what stands behind a name ends it as a key.
fn ends_key(behind: &[u8]) -> bool {
    for byte in behind {
        match *byte {
            b' ' | b'\t' | b'"' | b'\'' => {}
            b'=' | b'.' | b']' => return true,
            _ => return false,
        }
    }
    false
}

/// Whether a text begins with this name.
fn begins_with(text: &[u8], name: &[u8]) -> bool
    ensures within { IsTrue result → length name.now ≤ length text.now }
    ensures begins { IsTrue result → take (length name.now) text.now ≡ name.now }
{
    text.len() >= name.len() && &text[..name.len()] == name
}

/// Whether this key stands at this place of a text.
fn is_key_at(text: &[u8], place: usize, name: &[u8]) -> bool
    requires { place ≤ length text.now }
    ensures { IsTrue result → Stands name.now place text.now }
{
    let at = &text[place..];
    begins_with(at, name) && ends_key(&at[name.len()..])
}

/// The first place at which a line of a text gives this key a value, if there is one.
fn place_of_key(text: &[u8], name: &[u8]) -> Option<usize>
    ensures within { IfSome result (λ place. place < length text.now) }
    ensures stands { IfSome result (λ place. Stands name.now place text.now) }
{
    let mut begins = true;
    for place in 0..text.len() {
        if begins && is_key_at(text, place, name) {
            return Some(place);
        }
        let byte = text[place];
        begins = byte == b'\n' || begins && is_in_front(byte);
    }
    None
}

/// The first line of a text that gives this key a value, counted from 1, if there is one.
pub(crate) fn line_of_key(text: &[u8], name: &[u8]) -> Option<usize>
    ensures { IfSome result (λ line. IsLineOf name.now line text.now) }
{
    match place_of_key(text, name) {
        Some(place) => Some(line_at(text, place)),
        None => None,
    }
}
